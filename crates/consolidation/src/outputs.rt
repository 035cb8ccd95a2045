// The media of a consolidation as outputs by number: laid out, and synced.
ghost use Rattle.std.specs.Prelude.{◌≡◌, ◌≢◌, ◌<◌, ◌+◌, ℕ, IsTrue, IfErr, OnOk, length, ⊤};
ghost use Rattle.work_terms.specs.Disk.{IsDurable, ReadsTo};
ghost use Rattle.list_terms.specs.Renewed.{media_name};
ghost use Rattle.devices.specs.Frame.{OnlyWrites};
ghost use Rattle.consolidation.specs.Media.{AreKeptFrom, IsLaidOut, IsNoMedium, Narrows};
ghost use Rattle.consolidation.specs.Outputs.{FailsAtMedium};
ghost use Rattle.consolidation.specs.Planned.{IsMediaPlan};
ghost use Rattle.mediacopy.specs.Moment.{IsLater};

use crate::Consolidation;
use devices::Bench;
use execution::OutputFault;
use mediacopy::{LONGEST_HEADER, info_of, lay_out_in, medium_name};

impl<'a> Consolidation<'a> {
    /// Makes the medium at a position at its full length, all samples zero. Its header is made in `room`.
    fn lay_out_output<B: Bench>(
        &self,
        position: u32,
        room: &mut [u8; LONGEST_HEADER],
        bench: &mut B,
    ) -> Result<(), OutputFault>
        requires { position < length self.now.runs }
        ensures laid { IsTrue (B.honest bench.old) → OnOk result (IsLaidOut self.now (B.stored bench.new) position) }
        ensures number { IfErr result (λ fault. fault.file ≡ position) }
        ensures only_writes { OnlyWrites B.Bench (λ n. n ≢ media_name (position + 1)) bench.old bench.new result (λ _. ⊤)
            (FailsAtMedium (length self.now.runs)) }
        ensures later { IsLater B.moment bench.old bench.new }
    {
        let run = &self.runs.as_slice()[position as usize];
        let sound = &self.bound.sounds()[run.file as usize];
        let base = self.runs.homes().base(run.file);
        let info = info_of(sound, base, run);
        let name = medium_name(u64::from(position) + 1);
        match lay_out_in(bench, name.as_str(), &info, room) {
            Ok(()) => Ok(()),
            Err(_) => Err(OutputFault { file: position }),
        }
    }

    /// Preallocates the media in order: each with its header and zeros in place of all samples. If one fails, the media
    /// before it are preallocated and those after it are unchanged. Allocates no memory.
    pub(crate) fn lay_out_outputs<B: Bench>(&self, bench: &mut B) -> Result<(), OutputFault>
        ensures laid { IsTrue (B.honest bench.old) → OnOk result ((k : ℕ) → k < length self.now.runs
            → IsLaidOut self.now (B.stored bench.new) k) }
        ensures before { IsTrue (B.honest bench.old) → IfErr result (λ fault. (k : ℕ) → k < fault.file
            → IsLaidOut self.now (B.stored bench.new) k) }
        ensures after { IsTrue (B.honest bench.old)
            → IfErr result (λ fault. AreKeptFrom self.now (fault.file + 1) (B.stored bench.old) (B.stored bench.new)) }
        ensures only_writes { OnlyWrites B.Bench (IsNoMedium (length self.now.runs)) bench.old bench.new result (λ _. ⊤)
            (FailsAtMedium (length self.now.runs)) }
        ensures later { IsLater B.moment bench.old bench.new }
        ensures planned { IsMediaPlan self.now }
    {
        let mut room = [0; LONGEST_HEADER];
        for position in 0..self.runs.len() as u32 {
            self.lay_out_output(position, &mut room, bench)?;
        }
        Ok(())
    }

    /// Syncs the medium at a position.
    fn sync_output<B: Bench>(&self, position: u32, bench: &mut B) -> Result<(), OutputFault>
        requires { position < length self.now.runs }
        ensures durable { IsTrue (B.honest bench.old)
            → OnOk result (IsDurable (media_name (position + 1)) (B.stored bench.new) (B.may_leave bench.new)) }
        ensures crash { Narrows B.Bench bench.old bench.new }
        ensures only_reads { ReadsTo B.stored B.honest B.failures B.failed_at bench.old bench.new result (λ _. ⊤)
            (FailsAtMedium (length self.now.runs)) }
        ensures later { IsLater B.moment bench.old bench.new }
    {
        let name = medium_name(u64::from(position) + 1);
        match bench.sync(name.as_str()) {
            Ok(()) => Ok(()),
            Err(_) => Err(OutputFault { file: position }),
        }
    }

    /// Syncs each medium, once.
    pub(crate) fn sync_outputs<B: Bench>(&self, bench: &mut B) -> Result<(), OutputFault>
        ensures durable { IsTrue (B.honest bench.old) → OnOk result ((k : ℕ) → k < length self.now.runs
            → IsDurable (media_name (k + 1)) (B.stored bench.new) (B.may_leave bench.new)) }
        ensures crash { Narrows B.Bench bench.old bench.new }
        ensures only_reads { ReadsTo B.stored B.honest B.failures B.failed_at bench.old bench.new result (λ _. ⊤)
            (FailsAtMedium (length self.now.runs)) }
        ensures later { IsLater B.moment bench.old bench.new }
        ensures planned { IsMediaPlan self.now }
    {
        for position in 0..self.runs.len() as u32 {
            self.sync_output(position, bench)?;
        }
        Ok(())
    }
}
