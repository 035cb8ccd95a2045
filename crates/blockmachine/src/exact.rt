// Exact sums of a block, before any rounding.
ghost use Rattle.std.specs.Prelude.{◌≡◌, ◌*◌, ℕ, ℤ, IsTrue, IfErr, OnOk, length};
ghost use Rattle.std.specs.List.{All};
ghost use Rattle.sound_terms.specs.declared.Depth as declared;
ghost use Rattle.sound_terms.specs.Blocks.{BlockState, IsBlockProgram, PlaysFull, executed_all};
ghost use Rattle.sound_terms.specs.Sounds.{reading_by};
ghost use Rattle.devices.specs.Frame.{OnlyReads};
ghost use Rattle.blockmachine.specs.Exact.{AreSumsOf};
ghost use Rattle.blockmachine.specs.Fault.{FailsAt, IsSource};
ghost use Rattle.blockmachine.specs.Lines.{CanRun, FillFrames, PlaysWithin};
ghost use Rattle.blockmachine.specs.Sums.{AreSums};

use crate::layers::widen_all;
use crate::machine::{depth_of, sum_all};
use crate::sums::Sums;
use crate::{Machine, MachineFault};
use devices::Shelf;
use sound_terms::Program;
use wavread::Sound;

impl Sums {
    /// Fills `out` with the first sums at full scale.
    fn put(&self, out: &mut [i64])
        requires { FillFrames self.now.extent out.old }
        ensures { (all : ℕ → ℕ → ℤ) → AreSums self.now all → (frames : ℕ)
            → length out.old ≡ frames * self.now.extent.channels
            → AreSumsOf frames self.now.extent.channels out.new all }
    {
        let layers = self.layers.as_slice();
        let values = self.values.as_slice();
        if self.at_depth {
            widen_all(self.depth, &layers[..out.len()], out);
        } else {
            out.copy_from_slice(&values[..out.len()]);
        }
    }
}

impl Machine {
    /// Runs the program of a block over open sounds and writes its exact sums to `out`: at full
    /// scale (48 bits), interleaved, neither rounded nor clipped. Allocates nothing. Returns
    /// `MachineFault::Source` if a read fails; `out` is then unspecified, and the machine can be
    /// used again.
    pub fn sum<S: Shelf>(
        &mut self,
        program: &Program,
        sounds: &[Sound],
        shelf: &mut S,
        out: &mut [i64],
    ) -> Result<(), MachineFault>
        requires fits { CanRun self.old program.now out.old }
        requires inside { PlaysWithin sounds.now program.now }
        ensures summed { IsTrue (S.honest shelf.old)
            → OnOk result ((frames : ℕ) (depth : declared.Depth) (start : BlockState)
            → IsBlockProgram frames self.old.channels depth program.now.lines
            → length out.old ≡ frames * self.old.channels
            → AreSumsOf frames self.old.channels out.new
            (executed_all (reading_by (S.stored shelf.old) sounds.now) self.old.channels program.now.lines start).sums) }
        ensures full { IsTrue (S.honest shelf.old)
            → OnOk result (All (PlaysFull (reading_by (S.stored shelf.old) sounds.now)) program.now.lines) }
        ensures ready { self.new ≡ self.old }
        ensures source { IfErr result IsSource }
        ensures only_reads { OnlyReads S.Shelf shelf.old shelf.new result (λ fault. IsSource fault)
            (λ fault failed. FailsAt sounds.now fault failed) }
    {
        let instructions = program.as_slice();
        if let Some(depth) = depth_of(instructions) {
            let lines = &instructions[1..instructions.len() - 1];
            let sums = &mut self.sums;
            sum_all(lines, depth, sounds, shelf, &mut self.buffer, sums)?;
            sums.put(out);
        }
        Ok(())
    }
}
