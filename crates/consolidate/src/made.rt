// Renders a list, or goes on with its rendering, as it is asked for.
ghost use Rattle.consolidate.specs.Listed.{MakesListed, listed_of};
ghost use Rattle.consolidate.specs.MadeSound.{MakesSound};

use crate::Fault;
use crate::choice::Clipping;
use crate::marks::{open_marks, work_off};
use crate::open_call::open;
use crate::request::{Made, Planned, RenderRequest};
use devices::{Bench, Shelf, Watch};
use list_terms::Notice;
use opening::Opened;
use projectcheck::Checked;
use rendering::RenderingWork;
use std::alloc::Global;

/// What was made of a list, and what its user should know of.
#[derive(Drop)]
pub(crate) struct MadeList {
    pub made: Made,
    pub notices: Vec<Notice>,
}

/// Makes what is asked for of an opened project: it is planned, its marks are opened where it is gone on with, and its
/// jobs are done.
fn make_listed<S: Shelf, B: Bench, W: Watch>(
    alloc: Global,
    request: &RenderRequest<'_, '_>,
    checked: &Checked,
    shelf: &mut S,
    bench: &mut B,
    watch: &mut W,
) -> Result<Made, Fault>
    ensures { MakesListed S.Shelf B.Bench (listed_of request.now checked.now.project checked.now.bound)
        shelf.old shelf.new bench.old bench.new result }
{
    let choice = request.choice;
    let planned = RenderingWork::plan(alloc, checked, &choice.options, request.list, choice.jobs);
    let mut work = match planned {
        Ok(work) => work,
        Err(fault) => return Err(Fault::of_rendering(fault)),
    };
    let rendered = work.rendered();
    let start = work.start();
    let found = match open_marks(alloc, request.approach, choice.jobs, &mut work, bench) {
        Ok(found) => found,
        Err(fault) => return Err(Fault::Marks(fault)),
    };
    let planned = Planned {
        work,
        checked,
        order: choice.options.order,
        approach: request.approach,
        found,
    };
    match work_off(alloc, planned, shelf, bench, watch) {
        Ok(worked) => {
            let clipping = Clipping {
                clips: worked.clips,
                start,
                channels: rendered.channels,
            };
            return Ok(Made {
                progress: worked.progress,
                rendered,
                marked: found.unwrap_or(0),
                clipping,
            });
        }
        Err(fault) => return Err(fault),
    }
}

/// Makes what is asked for of a list over the sources of a shelf.
pub(crate) fn make_list<S: Shelf, B: Bench, W: Watch>(
    alloc: Global,
    request: &RenderRequest<'_, '_>,
    shelf: &mut S,
    bench: &mut B,
    watch: &mut W,
) -> Result<MadeList, Fault>
    ensures { MakesSound S.Shelf B.Bench request.now shelf.old shelf.new bench.old bench.new result }
{
    let Opened { checked, notices } = open(alloc, request.list, shelf)?;
    let made = make_listed(alloc, request, &checked, shelf, bench, watch)?;
    Ok(MadeList { made, notices })
}
