// The machine that runs programs of blocks.
ghost use Rattle.std.specs.Prelude.{◌≡◌, ◌*◌, ◌/◌, ◌<◌, ◌≤◌, ◌++◌, ◌∷◌, [], ℕ, List, Some, IsTrue, IfOk, IfErr, OnOk, length};
ghost use Rattle.std.specs.List.{All, flat_map};
ghost use Rattle.sound_terms.specs.declared.Depth as declared;
ghost use Rattle.sound_terms.specs.declared.block.Instruction as word;
ghost use Rattle.sound_terms.specs.declared.block.Instruction.TheVariants as instruction;
ghost use Rattle.sound_terms.specs.Depth.{bits_of};
ghost use Rattle.clipping.specs.Clips.{IsClippingOf, block_sums};
ghost use Rattle.pcm.specs.Samples.{FitsDepth};
ghost use Rattle.sound_terms.specs.Blocks.{BlockState, IsBlockProgram, PlaysFull, addition_of, executed_all};
ghost use Rattle.sound_terms.specs.Sounds.{reading_by};
ghost use Rattle.sound_terms.specs.Waves.{sample_bytes};
ghost use Rattle.devices.specs.Frame.{OnlyReads};
ghost use Rattle.list_terms.specs.Heard.{sounds_of};
ghost use Rattle.blockmachine.specs.Fault.{FailsAt, IsSource};
ghost use Rattle.blockmachine.specs.Lines.{CanAdd, CanRun, CanSum, PlaysWithin, silent};
ghost use Rattle.blockmachine.specs.Sums.{AreSums};

use crate::MachineFault;
use crate::buffer::Buffer;
use crate::faded::play_alone;
use crate::first_layer::begin_sums;
use crate::frames::Lanes;
use crate::stretches::add_stretch;
use crate::sums::Sums;
use clipping::Clips;
use devices::Shelf;
use sound_terms::{Depth, Format, Instruction, Program, Shape, Stretch};
use sourceindex::Bound;
use std::alloc::Global;
use std::marker::Model;
use wavread::Sound;

/// Sums of a block and buffers for one read. Contracts see the capacity in sample frames and
/// channels.
pub struct Machine {
    pub(crate) sums: Sums,
    pub(crate) buffer: Buffer,
}

// Written out so that dropping a machine is a single call.
impl Drop for Machine {
    fn drop(self) {
        let Machine { sums, buffer } = self;
        drop(sums);
        drop(buffer);
    }
}

impl Model for Machine {
    ghost use Rattle.blockmachine.specs.Sums.{Extent};

    ghost Value = { Extent };

    ghost view = { λ machine. machine.sums.extent };
}

/// Returns the stretch that an instruction adds, and its shape.
pub(crate) fn added_by(line: &Instruction) -> Option<(Stretch, Shape)>
    ensures { result ≡ addition_of line.now }
{
    match line {
        Instruction::Flat { stretch } => Some((*stretch, Shape::Flat)),
        Instruction::Rise {
            stretch,
            offset,
            den,
        } => Some((
            *stretch,
            Shape::Rise {
                offset: *offset,
                den: *den,
            },
        )),
        Instruction::Fall {
            stretch,
            offset,
            den,
        } => Some((
            *stretch,
            Shape::Fall {
                offset: *offset,
                den: *den,
            },
        )),
        Instruction::Start { .. } | Instruction::Emit { .. } => None,
    }
}

/// Sums the samples of all instructions in a block of the given depth.
pub(crate) fn sum_all<S: Shelf>(
    lines: &[Instruction],
    depth: Depth,
    sounds: &[Sound],
    shelf: &mut S,
    buffer: &mut Buffer,
    sums: &mut Sums,
) -> Result<(), MachineFault>
    requires { All (CanAdd sounds.now sums.old.extent) lines.now }
    ensures summed { IsTrue (S.honest shelf.old)
        → OnOk result ((channels : ℕ) (begun : BlockState) → AreSums sums.new
        (executed_all (reading_by (S.stored shelf.old) sounds.now) channels lines.now (silent begun)).sums) }
    ensures full { IsTrue (S.honest shelf.old)
        → OnOk result (All (PlaysFull (reading_by (S.stored shelf.old) sounds.now)) lines.now) }
    ensures same_extent { sums.new.extent ≡ sums.old.extent }
    ensures source { IfErr result IsSource }
    ensures only_reads { OnlyReads S.Shelf shelf.old shelf.new result (λ fault. IsSource fault)
        (λ fault failed. FailsAt sounds.now fault failed) }
{
    let begun = begin_sums(lines, depth, sounds, shelf, buffer, sums)?;
    for k in begun..lines.len() {
        let Some((stretch, shape)) = added_by(&lines[k]) else {
            continue;
        };
        add_stretch(&stretch, shape, sounds, shelf, buffer, sums)?;
    }
    Ok(())
}

/// Returns the bit depth of a program's output.
pub(crate) fn depth_of(program: &[Instruction]) -> Option<Depth>
    ensures { (frames : ℕ) (depth : declared.Depth) (lines : List word.Instruction)
        → program.now ≡ instruction.Start frames ∷ (lines ++ instruction.Emit depth ∷ []) → result ≡ Some depth }
{
    match program.last() {
        Some(Instruction::Emit { depth }) => Some(*depth),
        _ => None,
    }
}

impl Machine {
    /// Creates a machine for blocks of up to `frames` sample frames (at most 4096) on `channels`
    /// channels (1 to 64). Returns `MachineFault::Memory` if out of memory.
    pub fn new(alloc: Global, frames: u32, channels: u8) -> Result<Self, MachineFault>
        requires frames { frames ≤ 4096 }
        requires channels { (1 ≤ channels) × (channels ≤ 64) }
        ensures made { IfOk result (λ machine. machine ≡ record { frames = frames; channels = channels }) }
        ensures only_memory { IfErr result (λ fault. fault ≡ MachineFault.Memory) }
    {
        let lanes = Lanes {
            frames: frames as usize,
            channels: channels as usize,
        };
        let sums = Sums::new(alloc, lanes)?;
        let buffer = Buffer::new(alloc)?;
        Ok(Machine { sums, buffer })
    }

    /// Sums the instructions from zero and emits the sums.
    fn run_lines<S: Shelf>(
        &mut self,
        lines: &[Instruction],
        depth: Depth,
        sounds: &[Sound],
        shelf: &mut S,
        out: &mut [i32],
    ) -> Result<(), MachineFault>
        requires { CanSum sounds.now self.old lines.now (length out.old) }
        ensures ran { IsTrue (S.honest shelf.old)
            → OnOk result ((frames : ℕ) (start : BlockState) → length out.old ≡ frames * self.old.channels
            → out.new ≡ (executed_all (reading_by (S.stored shelf.old) sounds.now) self.old.channels
            (instruction.Start frames ∷ (lines.now ++ instruction.Emit depth ∷ [])) start).out) }
        ensures fit { OnOk result (All (FitsDepth (bits_of depth)) out.new) }
        ensures full { IsTrue (S.honest shelf.old)
            → OnOk result (All (PlaysFull (reading_by (S.stored shelf.old) sounds.now)) lines.now) }
        ensures ready { self.new ≡ self.old }
        ensures source { IfErr result IsSource }
        ensures only_reads { OnlyReads S.Shelf shelf.old shelf.new result (λ fault. IsSource fault)
            (λ fault failed. FailsAt sounds.now fault failed) }
    {
        let sums = &mut self.sums;
        sum_all(lines, depth, sounds, shelf, &mut self.buffer, sums)?;
        sums.emit(depth, out);
        Ok(())
    }

    /// Sums the instructions from zero and writes the sums to `bytes` as stored samples of the
    /// given depth, by way of `samples`. Returns the clipped samples.
    fn store_lines<S: Shelf>(
        &mut self,
        lines: &[Instruction],
        depth: Depth,
        sounds: &[Sound],
        shelf: &mut S,
        samples: &mut [i32],
        bytes: &mut [u8],
    ) -> Result<Clips, MachineFault>
        requires sum { CanSum sounds.now self.old lines.now (length samples.old) }
        requires room { length bytes.old ≡ length samples.old * (bits_of depth / 8) }
        ensures ran { IsTrue (S.honest shelf.old)
            → OnOk result ((frames : ℕ) (start : BlockState) → length samples.old ≡ frames * self.old.channels
            → bytes.new ≡ flat_map (sample_bytes (bits_of depth))
            (executed_all (reading_by (S.stored shelf.old) sounds.now) self.old.channels
            (instruction.Start frames ∷ (lines.now ++ instruction.Emit depth ∷ [])) start).out) }
        ensures clips { IsTrue (S.honest shelf.old)
            → IfOk result (λ clips. (frames : ℕ) (start : BlockState) → length samples.old ≡ frames * self.old.channels
            → IsClippingOf (bits_of depth) self.old.channels
            (block_sums (executed_all (reading_by (S.stored shelf.old) sounds.now) self.old.channels
            (instruction.Start frames ∷ (lines.now ++ instruction.Emit depth ∷ [])) start).sums
            self.old.channels 0 frames) clips) }
        ensures full { IsTrue (S.honest shelf.old)
            → OnOk result (All (PlaysFull (reading_by (S.stored shelf.old) sounds.now)) lines.now) }
        ensures ready { self.new ≡ self.old }
        ensures source { IfErr result IsSource }
        ensures only_reads { OnlyReads S.Shelf shelf.old shelf.new result (λ fault. IsSource fault)
            (λ fault failed. FailsAt sounds.now fault failed) }
    {
        let sums = &mut self.sums;
        sum_all(lines, depth, sounds, shelf, &mut self.buffer, sums)?;
        Ok(sums.store(depth, samples, bytes))
    }

    /// Runs the program of a block over the files of a bound project and writes its samples to
    /// `out`, interleaved. Allocates nothing. Returns `MachineFault::Source` if a read fails; `out`
    /// is then unspecified, and the machine can be used again.
    pub fn run<S: Shelf>(
        &mut self,
        program: &Program,
        bound: &Bound,
        shelf: &mut S,
        out: &mut [i32],
    ) -> Result<(), MachineFault>
        requires fits { CanRun self.old program.now out.old }
        requires inside { PlaysWithin (sounds_of bound.now) program.now }
        ensures ran { IsTrue (S.honest shelf.old) → OnOk result ((start : BlockState)
            → out.new ≡ (executed_all (reading_by (S.stored shelf.old) (sounds_of bound.now))
            self.old.channels program.now.lines start).out) }
        ensures fit { OnOk result ((frames : ℕ) (depth : declared.Depth)
            → IsBlockProgram frames self.old.channels depth program.now.lines
            → All (FitsDepth (bits_of depth)) out.new) }
        ensures full { IsTrue (S.honest shelf.old)
            → OnOk result (All (PlaysFull (reading_by (S.stored shelf.old) (sounds_of bound.now))) program.now.lines) }
        ensures ready { self.new ≡ self.old }
        ensures source { IfErr result IsSource }
        ensures only_reads { OnlyReads S.Shelf shelf.old shelf.new result (λ fault. IsSource fault)
            (λ fault failed. FailsAt (sounds_of bound.now) fault failed) }
    {
        self.run_over(program, bound.sounds(), shelf, out)
    }

    /// Runs the program of a block over open sounds, which needn't belong to a project; otherwise
    /// like `run`.
    pub fn run_over<S: Shelf>(
        &mut self,
        program: &Program,
        sounds: &[Sound],
        shelf: &mut S,
        out: &mut [i32],
    ) -> Result<(), MachineFault>
        requires fits { CanRun self.old program.now out.old }
        requires inside { PlaysWithin sounds.now program.now }
        ensures ran { IsTrue (S.honest shelf.old) → OnOk result ((start : BlockState)
            → out.new ≡ (executed_all (reading_by (S.stored shelf.old) sounds.now)
            self.old.channels program.now.lines start).out) }
        ensures fit { OnOk result ((frames : ℕ) (depth : declared.Depth)
            → IsBlockProgram frames self.old.channels depth program.now.lines
            → All (FitsDepth (bits_of depth)) out.new) }
        ensures full { IsTrue (S.honest shelf.old)
            → OnOk result (All (PlaysFull (reading_by (S.stored shelf.old) sounds.now)) program.now.lines) }
        ensures ready { self.new ≡ self.old }
        ensures source { IfErr result IsSource }
        ensures only_reads { OnlyReads S.Shelf shelf.old shelf.new result (λ fault. IsSource fault)
            (λ fault failed. FailsAt sounds.now fault failed) }
    {
        let instructions = program.as_slice();
        if let Some(depth) = depth_of(instructions) {
            let lines = &instructions[1..instructions.len() - 1];
            self.run_lines(lines, depth, sounds, shelf, out)?;
        }
        Ok(())
    }

    /// Runs the program of a block, which must emit at the given depth, and writes its samples to
    /// `bytes` as stored samples of that depth. Returns the clipped samples. `samples` is working
    /// space. Allocates nothing, and doesn't sum at all if one file fills the block. Returns
    /// `MachineFault::Source` if a read fails; `bytes` is then unspecified, and the machine can be
    /// used again.
    pub fn run_packed<S: Shelf>(
        &mut self,
        program: &Program,
        depth: Depth,
        sounds: &[Sound],
        shelf: &mut S,
        samples: &mut [i32],
        bytes: &mut [u8],
    ) -> Result<Clips, MachineFault>
        requires fits { (frames : ℕ) × (frames ≤ self.old.frames)
            × IsBlockProgram frames self.old.channels depth program.now.lines
            × (length samples.old ≡ frames * self.old.channels) }
        requires room { length bytes.old ≡ length samples.old * (bits_of depth / 8) }
        requires inside { PlaysWithin sounds.now program.now }
        ensures ran { IsTrue (S.honest shelf.old) → OnOk result ((start : BlockState)
            → bytes.new ≡ flat_map (sample_bytes (bits_of depth)) (executed_all (reading_by (S.stored shelf.old) sounds.now)
            self.old.channels program.now.lines start).out) }
        ensures clips { IsTrue (S.honest shelf.old)
            → IfOk result (λ clips. (frames : ℕ) (start : BlockState) → length samples.old ≡ frames * self.old.channels
            → IsClippingOf (bits_of depth) self.old.channels
            (block_sums (executed_all (reading_by (S.stored shelf.old) sounds.now) self.old.channels
            program.now.lines start).sums self.old.channels 0 frames) clips) }
        ensures full { IsTrue (S.honest shelf.old)
            → OnOk result (All (PlaysFull (reading_by (S.stored shelf.old) sounds.now)) program.now.lines) }
        ensures ready { self.new ≡ self.old }
        ensures source { IfErr result IsSource }
        ensures only_reads { OnlyReads S.Shelf shelf.old shelf.new result (λ fault. IsSource fault)
            (λ fault failed. FailsAt sounds.now fault failed) }
    {
        let lanes = self.sums.lanes();
        let frames = samples.len() / lanes.channels;
        let format = Format {
            channels: lanes.channels as u8,
            depth,
        };
        let played = play_alone(
            program,
            frames as u32,
            format,
            sounds,
            shelf,
            samples,
            bytes,
        )?;
        if let Some(clips) = played {
            return Ok(clips);
        }
        let instructions = program.as_slice();
        let lines = &instructions[1..instructions.len() - 1];
        let clips = self.store_lines(lines, depth, sounds, shelf, samples, bytes)?;
        Ok(clips)
    }
}
