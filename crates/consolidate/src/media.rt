// The pieces of a consolidation on a board.
ghost use Rattle.std.specs.Prelude.{◌≡◌, ◌<◌, IfErr, IfOk, false, ℕ};
ghost use Rattle.std.specs.List.{range_with_len};
ghost use Rattle.job_terms.specs.Workers.{Nothing};
ghost use Rattle.execution.specs.Alone.{AtRest};
ghost use Rattle.execution.specs.Boards.{fresh_board};
ghost use Rattle.execution.specs.Marking.{done_of};
ghost use Rattle.execution.specs.View.{hands_at};
ghost use Rattle.consolidation.specs.Jobs.{work_of};
ghost use Rattle.consolidate.specs.declared.fault.Fault.TheVariants as fault;

use crate::Fault;
use consolidation::Consolidation;
use execution::{Execution, JobMaker, in_turn};
use std::alloc::Global;

/// Its pieces are all to be copied, each in its turn.
pub fn execution_of(
    alloc: Global,
    consolidation: Consolidation<'_>,
) -> Result<Execution<Consolidation<'_>>, Fault>
    ensures work { IfOk result (λ run. run.work ≡ consolidation.entry) }
    ensures board { IfOk result (λ run. run.board ≡ fresh_board (work_of consolidation.entry).count
        (range_with_len 0 (work_of consolidation.entry).count)) }
    ensures undone { IfOk result (λ run. (k : ℕ) → k < (work_of consolidation.entry).count
        → done_of run.board k ≡ false) }
    ensures idle { IfOk result (λ run. (w : ℕ) → hands_at run w ≡ Nothing) }
    ensures rest { IfOk result (λ run. AtRest run.board) }
    ensures memory { IfErr result (λ cause. cause ≡ fault.BoardMemory) }
{
    let count = JobMaker::count(&consolidation);
    let order = match in_turn(alloc, count) {
        Ok(order) => order,
        Err(_) => return Err(Fault::BoardMemory),
    };
    match Execution::new(alloc, consolidation, order) {
        Ok(execution) => Ok(execution),
        Err(_) => Err(Fault::BoardMemory),
    }
}
