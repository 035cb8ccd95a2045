// The course of a work: its outputs laid out, its jobs done, and what comes last.
ghost use Rattle.std.specs.Prelude.{◌≡◌, IfOk, OnOk, true};
ghost use Rattle.devices.specs.Views.{output_view, source_view};
ghost use Rattle.job_terms.specs.Board.{is_finished};
ghost use Rattle.job_terms.specs.Workers.{Nothing};
ghost use Rattle.execution.specs.Alone.{AtRest};
ghost use Rattle.execution.specs.Boards.{ReportsOf};
ghost use Rattle.execution.specs.Ends.{OnlyInEvents};
ghost use Rattle.execution.specs.EventRun.{listed};
ghost use Rattle.execution.specs.Held.{IsWorkshop, hands_in};
ghost use Rattle.execution.specs.Outcome.{Executed, Resumed};
ghost use Rattle.execution.specs.Shops.{ShopStaysNoted, shop_at};

use crate::performance::perform;
use crate::workshop::Workshop;
use crate::{ExecutionFault, JobMaker};
use devices::{Bench, Shelf, Watch};
use job_terms::{BoardEvent, Progress};

/// Does these events on outputs as they are, and what comes last where all jobs are done.
pub fn resume<W: JobMaker, S: Shelf, B: Bench, T: Watch>(
    shop: &mut Workshop<W>,
    in_rounds: bool,
    events: &[BoardEvent],
    shelf: &mut S,
    bench: &mut B,
    watch: &mut T,
) -> Result<Progress, ExecutionFault>
    requires { IsWorkshop W.plan shop.old }
    ensures resumed { Resumed (listed in_rounds (W.plan shop.old.work).jobs.count events.now)
        (shop_at W.plan shop.old 0 (source_view S.Shelf shelf.old) (output_view B.Bench bench.old))
        (hands_in shop.old.hands)
        (shop_at W.plan shop.new 0 (source_view S.Shelf shelf.new) (output_view B.Bench bench.new))
        result }
    ensures finished { in_rounds ≡ true → AtRest shop.old.board → hands_in shop.old.hands 1 ≡ Nothing
        → OnOk result (is_finished shop.new.board ≡ true) }
    ensures reported { IfOk result (ReportsOf shop.new.board) }
    ensures notes { ShopStaysNoted W.remains W.noted (source_view S.Shelf shelf.old) shop.old shop.new }
    ensures ready { IsWorkshop W.plan shop.new }
    ensures memory { OnlyInEvents in_rounds result }
{
    let progress = match perform(shop, in_rounds, events, shelf, bench, watch) {
        Ok(progress) => progress,
        Err(fault) => return Err(fault),
    };
    if !progress.finished {
        return Ok(progress);
    }
    match shop.work.finish(bench) {
        Ok(()) => return Ok(progress),
        Err(fault) => return Err(ExecutionFault::from(fault)),
    }
}

/// Lays out every output, does these events, and what comes last where all jobs are done.
pub fn execute<W: JobMaker, S: Shelf, B: Bench, T: Watch>(
    shop: &mut Workshop<W>,
    in_rounds: bool,
    events: &[BoardEvent],
    shelf: &mut S,
    bench: &mut B,
    watch: &mut T,
) -> Result<Progress, ExecutionFault>
    requires { IsWorkshop W.plan shop.old }
    ensures executed { Executed (listed in_rounds (W.plan shop.old.work).jobs.count events.now)
        (shop_at W.plan shop.old 0 (source_view S.Shelf shelf.old) (output_view B.Bench bench.old))
        (hands_in shop.old.hands)
        (shop_at W.plan shop.new 0 (source_view S.Shelf shelf.new) (output_view B.Bench bench.new))
        (shelf.new ≡ shelf.old) result }
    ensures finished { in_rounds ≡ true → AtRest shop.old.board → hands_in shop.old.hands 1 ≡ Nothing
        → OnOk result (is_finished shop.new.board ≡ true) }
    ensures reported { IfOk result (ReportsOf shop.new.board) }
    ensures notes { ShopStaysNoted W.remains W.noted (source_view S.Shelf shelf.old) shop.old shop.new }
    ensures ready { IsWorkshop W.plan shop.new }
    ensures memory { OnlyInEvents in_rounds result }
{
    match shop.work.lay_out(bench) {
        Ok(()) => {}
        Err(fault) => return Err(ExecutionFault::from(fault)),
    }
    resume(shop, in_rounds, events, shelf, bench, watch)
}
