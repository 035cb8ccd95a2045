// Renders a list by the events of any number of workers.
ghost use Rattle.rendering.specs.Rendering.{values_of};
ghost use Rattle.consolidate.specs.Schedules.{IsRenderSchedule};

use crate::Fault;
use crate::choice::RenderChoice;
use crate::made::make_list;
use crate::request::{Approach, HandingOut, RenderRequest};
use devices::{Bench, Shelf, Unwatched};
use job_terms::{BoardEvent, Progress};
use std::alloc::Global;

/// Renders a list by these events.
pub fn schedule_render<S: Shelf, B: Bench>(
    alloc: Global,
    list: &[u8],
    choice: &RenderChoice,
    events: &[BoardEvent],
    shelf: &mut S,
    bench: &mut B,
) -> Result<Progress, Fault>
    ensures { IsRenderSchedule S.Shelf B.Bench choice.now.jobs list.now
        (values_of choice.now.options) events.now shelf.old shelf.new bench.old bench.new result }
{
    let request = RenderRequest {
        list,
        choice: *choice,
        approach: Approach::Anew(HandingOut::Events(events)),
    };
    match make_list(alloc, &request, shelf, bench, &mut Unwatched) {
        Ok(list) => return Ok(list.made.progress),
        Err(fault) => return Err(fault),
    }
}
