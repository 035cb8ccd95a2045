// Hands out the jobs of an execution.
ghost use Rattle.std.specs.Prelude.{◌≡◌, IfOk};
ghost use Rattle.devices.specs.Views.{output_view, source_view};
ghost use Rattle.execution.specs.Boards.{ReportsOf};
ghost use Rattle.execution.specs.Ends.{WantsNoPlace, WantsNoRoom};
ghost use Rattle.execution.specs.Outcome.{Executed};
ghost use Rattle.execution.specs.View.{DoesAll, RunStaysNoted, hands_at, run_at};
ghost use Rattle.consolidate.specs.Approaches.{AreRounds, events_by};

use crate::request::HandingOut;
use devices::{Bench, Shelf, Watch};
use execution::{Execution, ExecutionFault, JobMaker};
use job_terms::Progress;

/// Hands out the jobs of an execution that begins.
pub(crate) fn hand_out<J: JobMaker, S: Shelf, B: Bench, W: Watch>(
    execution: &mut Execution<J>,
    handing: HandingOut<'_>,
    shelf: &mut S,
    bench: &mut B,
    watch: &mut W,
) -> Result<Progress, ExecutionFault>
    ensures notes { RunStaysNoted J.remains J.noted (source_view S.Shelf shelf.old) execution.old execution.new }
    ensures executed { Executed (events_by handing.entry (J.plan execution.old.work).jobs.count)
        (run_at J.plan execution.old (source_view S.Shelf shelf.old) (output_view B.Bench bench.old))
        (hands_at execution.old)
        (run_at J.plan execution.new (source_view S.Shelf shelf.new) (output_view B.Bench bench.new))
        (shelf.new ≡ shelf.old) result }
    ensures finished { AreRounds handing.entry → DoesAll execution.old execution.new result }
    ensures reported { AreRounds handing.entry → IfOk result (ReportsOf execution.new.board) }
    ensures memory { AreRounds handing.entry → WantsNoPlace result }
    ensures job_memory { AreRounds handing.entry → WantsNoRoom result }
{
    match handing {
        HandingOut::Rounds => execution.execute(shelf, bench, watch),
        HandingOut::Events(events) => execution.execute_events(events, shelf, bench, watch),
    }
}
