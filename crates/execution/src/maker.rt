// What a work is, to a board.
ghost use Rattle.std.specs.Prelude.{◌≡◌, ◌<◌, ℕ, ⊤, Bool, false, length, IsTrue, IsErrOf, OnOk, Some};
ghost use Rattle.work_terms.specs.Disk.{Files};
ghost use Rattle.devices.specs.Frame.{OnlyReads, OnlyWrites};
ghost use Rattle.devices.specs.Views.{output_view};
ghost use Rattle.execution.specs.Maker.{Finishes, LaysOut};
ghost use Rattle.execution.specs.Marking.{IsRunningBy, Marking, Marks};
ghost use Rattle.execution.specs.Noted.{StillIs, StillNoted};
ghost use Rattle.execution.specs.Plan.{IsAt, IsForeign, JobPlan, Stays};
ghost use Rattle.execution.specs.Together.{AreGroups, are_done, with_done};
ghost use Rattle.execution.specs.Worlds.{IsPlaced};

use crate::{OutputFault, PlaceFault};
use devices::{Bench, DeviceFault, Shelf};

/// A work: its jobs, each of which makes the bytes of one place of an output, and what comes before and after them.
pub trait JobMaker {
    /// Its jobs, its marks, and all bytes of its outputs.
    ghost plan: { Self → JobPlan };

    /// It is the work that another one was, whatever it has noted since.
    ghost remains: { Self → Self → Type 0 };

    /// It has noted of a job what these sources make of it, whatever it wants to know of its jobs in the end.
    ghost noted: { Self → Files → ℕ → Type 0 };

    /// How many jobs there are.
    fn count(&self) -> u32
        ensures { result ≡ (plan self.now).jobs.count };

    /// How many bytes the job has.
    fn size(&self, job: u32) -> usize
        requires { job < (plan self.now).jobs.count }
        ensures { result ≡ (plan self.now).jobs.size job };

    /// The first of the jobs that are marked together with this one. All between are marked with them.
    fn group(&self, job: u32) -> u32
        requires { job < (plan self.now).jobs.count }
        ensures first { result ≡ (plan self.now).group job }
        ensures groups { AreGroups (plan self.now).jobs.count (plan self.now).group };

    /// How many frames the job has: what is reported to a watch.
    fn frames(&self, job: u32) -> u64
        requires { job < (plan self.now).jobs.count };

    /// Makes the bytes of the job. It takes no memory: only the device of a source can fail it.
    fn make<S: Shelf>(
        &mut self,
        job: u32,
        shelf: &mut S,
        bytes: &mut [u8],
    ) -> Result<(), DeviceFault>
        requires there { job < (plan self.old).jobs.count }
        requires room { length bytes.old ≡ (plan self.old).jobs.size job }
        ensures made { IsTrue (S.honest shelf.old)
            → OnOk result (bytes.new ≡ (plan self.old).jobs.bytes (S.stored shelf.old) job) }
        ensures same { plan self.new ≡ plan self.old }
        ensures remains { StillIs remains self.old self.new }
        ensures notes { IsTrue (S.honest shelf.old) → OnOk result (noted self.new (S.stored shelf.old) job) }
        ensures keeps { IsTrue (S.honest shelf.old) → (k : ℕ) → noted self.old (S.stored shelf.old) k
            → noted self.new (S.stored shelf.old) k }
        ensures only_reads { OnlyReads S.Shelf shelf.old shelf.new result (λ _. ⊤) (λ _ failed. ⊤) };

    /// Writes the bytes of the job at its place; where it is the last of those that are marked together, makes their
    /// bytes durable and marks them.
    fn write<B: Bench>(
        &mut self,
        job: u32,
        bytes: &[u8],
        last: bool,
        bench: &mut B,
    ) -> Result<(), PlaceFault>
        requires there { job < (plan self.old).jobs.count }
        requires room { length bytes.now ≡ (plan self.old).jobs.size job }
        ensures placed { IsTrue (B.honest bench.old) → IsPlaced (plan self.old).jobs (plan self.old).marks job bytes.now
            (B.stored bench.old) (B.stored bench.new) result }
        ensures same { plan self.new ≡ plan self.old }
        ensures remains { StillIs remains self.old self.new }
        ensures keeps { StillNoted noted self.old self.new }
        ensures marks { IsTrue (B.honest bench.old) → (sources : Files) (done : ℕ → Bool)
            → bytes.now ≡ (plan self.old).jobs.bytes sources job → done job ≡ false
            → last ≡ are_done (plan self.old).jobs.count (plan self.old).group (with_done done job) job
            → IsRunningBy ((plan self.old).marking sources) done (output_view B.Bench bench.old)
            → Marks ((plan self.old).marking sources) done job (output_view B.Bench bench.old)
            (output_view B.Bench bench.new) result }
        ensures only_marks { IsErrOf result PlaceFault.Mark → IsTrue (plan self.old).marks }
        ensures only_writes { OnlyWrites B.Bench (Stays (plan self.old)) bench.old bench.new result (λ _. ⊤)
            (λ fault failed. fault ≡ PlaceFault.Mark → (sources : Files) (m : Marking)
            → (plan self.old).marking sources ≡ Some m → failed m.marks) };

    /// Lays out every output of a job at full length, zero in the jobs' places, with fresh marks where the work has
    /// some. What comes last stays as it is.
    fn lay_out<B: Bench>(&mut self, bench: &mut B) -> Result<(), OutputFault>
        ensures lays_out { LaysOut (plan self.old) (output_view B.Bench bench.old) (output_view B.Bench bench.new) result }
        ensures same { plan self.new ≡ plan self.old }
        ensures remains { StillIs remains self.old self.new }
        ensures keeps { StillNoted noted self.old self.new }
        ensures only_writes { OnlyWrites B.Bench (Stays (plan self.old)) bench.old bench.new result (λ _. ⊤)
            (λ fault failed. IsAt (plan self.old) fault.file failed) };

    /// Makes all outputs durable, once every job is done, and writes those that come last, in their order: where it
    /// fails at an output, those after it stay as they are.
    fn finish<B: Bench>(&mut self, bench: &mut B) -> Result<(), OutputFault>
        ensures finishes { Finishes (plan self.old) (output_view B.Bench bench.old) (output_view B.Bench bench.new) result }
        ensures same { plan self.new ≡ plan self.old }
        ensures remains { StillIs remains self.old self.new }
        ensures keeps { StillNoted noted self.old self.new }
        ensures only_writes { OnlyWrites B.Bench (IsForeign (plan self.old)) bench.old bench.new result (λ _. ⊤)
            (λ fault failed. IsAt (plan self.old) fault.file failed) };
}
