// Consolidates a list by the events of any number of workers.
ghost use Rattle.passes.specs.Left.{left_by};
ghost use Rattle.consolidate.specs.Schedules.{IsConsolidationSchedule};

use crate::Fault;
use crate::choice::Keeping;
use crate::copy_call::{MediaRequest, copy_list};
use crate::request::HandingOut;
use devices::{Bench, Shelf, Unwatched};
use job_terms::{BoardEvent, Progress};
use std::alloc::Global;

/// Consolidates a list by these events.
pub fn schedule_media<S: Shelf, B: Bench>(
    alloc: Global,
    list: &[u8],
    keeping: Keeping,
    events: &[BoardEvent],
    shelf: &mut S,
    bench: &mut B,
) -> Result<Progress, Fault>
    ensures { IsConsolidationSchedule S.Shelf B.Bench
        (left_by (λ pass. looking pass) (λ pass. gives pass) keeping.passes.items)
        list.now keeping.handle events.now shelf.old shelf.new bench.old bench.new result }
{
    let request = MediaRequest {
        keeping,
        report: None,
        handing: HandingOut::Events(events),
    };
    match copy_list(alloc, list, request, shelf, bench, &mut Unwatched) {
        Ok(made) => return Ok(made.copied.progress),
        Err(fault) => return Err(fault),
    }
}
