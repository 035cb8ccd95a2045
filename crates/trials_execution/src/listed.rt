// A run that writes 64 bytes of value 7, and then a list.
ghost use Rattle.std.specs.Prelude.{◌≡◌, ◌≢◌, ◌∷◌, [], IfErr, IsTrue, OnOk, Some, codes, replicate, ⊤};
ghost use Rattle.work_terms.specs.Disk.{IsDurable};
ghost use Rattle.devices.specs.Frame.{OnlyWrites};
ghost use Rattle.devices.specs.Views.{CrashesLeave, output_view};
ghost use Rattle.execution.specs.declared.fault.ExecutionFault.TheVariants as execution_fault;

use devices::{Bench, DeviceFault, Shelf, Watch};
use execution::{Execution, ExecutionFault, JobMaker, OutputFault, PlaceFault, in_turn};
use job_terms::Progress;
use std::alloc::Global;

/// The file that the jobs write.
const OUT: &str = "out";

/// The file that is written last.
const LIST: &str = "list";

/// A job maker without state.
#[derive(Clone, Copy, Debug, Drop, PartialEq, Eq)]
pub struct Listed;

/// Writes the list and syncs it.
fn write_list<B: Bench>(bench: &mut B) -> Result<(), DeviceFault>
    ensures written { IsTrue (B.honest bench.old)
        → OnOk result (B.stored bench.new (codes "list") ≡ Some (1 ∷ [])) }
    ensures durable { IsTrue (B.honest bench.old)
        → OnOk result (IsDurable (codes "list") (B.stored bench.new) (B.may_leave bench.new)) }
    ensures moments { CrashesLeave (λ _. ⊤) (output_view B.Bench bench.old) (output_view B.Bench bench.new) }
    ensures only_writes { OnlyWrites B.Bench (λ n. n ≢ codes "list") bench.old bench.new result (λ _. ⊤)
        (λ _ failed. failed (codes "list")) }
{
    bench.create(LIST)?;
    bench.append(LIST, &[1])?;
    bench.sync(LIST)
}

impl JobMaker for Listed {
    ghost use Rattle.std.specs.Prelude.{⊤};
    ghost use Rattle.trials_execution.specs.Listed.{plan_of};

    ghost plan = { λ _. plan_of };

    ghost remains = { λ _ _. ⊤ };

    ghost noted = { λ _ _ _. ⊤ };

    fn count(&self) -> u32 {
        64
    }

    fn size(&self, _job: u32) -> usize {
        1
    }

    fn group(&self, job: u32) -> u32 {
        job
    }

    fn frames(&self, _job: u32) -> u64 {
        1
    }

    fn make<S: Shelf>(
        &mut self,
        _job: u32,
        _shelf: &mut S,
        bytes: &mut [u8],
    ) -> Result<(), DeviceFault> {
        bytes[0] = 7;
        Ok(())
    }

    fn write<B: Bench>(
        &mut self,
        job: u32,
        bytes: &[u8],
        _last: bool,
        bench: &mut B,
    ) -> Result<(), PlaceFault> {
        match bench.write_at(OUT, job as u64, bytes) {
            Ok(()) => return Ok(()),
            Err(_) => return Err(PlaceFault::Write),
        }
    }

    fn lay_out<B: Bench>(&mut self, bench: &mut B) -> Result<(), OutputFault> {
        match bench.create(OUT) {
            Ok(()) => {}
            Err(_) => return Err(OutputFault { file: 0 }),
        }
        match bench.append(OUT, &[0; 64]) {
            Ok(()) => return Ok(()),
            Err(_) => return Err(OutputFault { file: 0 }),
        }
    }

    fn finish<B: Bench>(&mut self, bench: &mut B) -> Result<(), OutputFault> {
        match bench.sync(OUT) {
            Ok(()) => {}
            Err(_) => return Err(OutputFault { file: 0 }),
        }
        match write_list(bench) {
            Ok(()) => return Ok(()),
            Err(_) => return Err(OutputFault { file: 1 }),
        }
    }
}

/// Writes both files, by rounds of one worker. Returns `ExecutionFault` if a device fails or memory
/// runs out.
pub fn write_listed<S: Shelf, B: Bench, T: Watch>(
    alloc: Global,
    shelf: &mut S,
    bench: &mut B,
    watch: &mut T,
) -> Result<Progress, ExecutionFault>
    ensures out { IsTrue (S.honest shelf.old) → IsTrue (B.honest bench.old)
        → OnOk result (B.stored bench.new (codes "out") ≡ Some (replicate 64 7)) }
    ensures list { IsTrue (S.honest shelf.old) → IsTrue (B.honest bench.old)
        → OnOk result (B.stored bench.new (codes "list") ≡ Some (1 ∷ [])) }
    ensures list_last { IsTrue (B.honest bench.old)
        → IfErr result (λ fault. fault ≢ execution_fault.Output 1
        → B.stored bench.new (codes "list") ≡ B.stored bench.old (codes "list")) }
{
    let order = match in_turn(alloc, 64) {
        Ok(order) => order,
        Err(_) => return Err(ExecutionFault::Memory),
    };
    let mut execution = match Execution::new(alloc, Listed, order) {
        Ok(execution) => execution,
        Err(fault) => return Err(fault),
    };
    match execution.execute(shelf, bench, watch) {
        Ok(progress) => return Ok(progress),
        Err(fault) => return Err(fault),
    }
}
