// Goes on with a rendering that was stopped.
ghost use Rattle.std.specs.Prelude.{IfOk, IsTrue};
ghost use Rattle.list_terms.specs.Steps.{ok_map};
ghost use Rattle.markfile.specs.Opened.{opened_of};
ghost use Rattle.rendering.specs.Clipping.{marked_in};
ghost use Rattle.rendering.specs.Marked.{run_of};
ghost use Rattle.rendering.specs.Rendering.{HaveChannels, values_of};
ghost use Rattle.rendering.specs.declared.job_length.JobLength.TheVariants.{OneBlock};
ghost use Rattle.consolidate.specs.Clipping.{ClipsList};
ghost use Rattle.consolidate.specs.Resuming.{IsResuming};

use crate::Fault;
use crate::choice::{Clipping, RenderChoice};
use crate::made::make_list;
use crate::request::{Approach, RenderRequest};
use devices::{Bench, Shelf, Unwatched, Watch};
use list_terms::Notice;
use rendering::{JobLength, Options};
use std::alloc::Global;

/// What was gone on with: so many frames in all, so many blocks of 4,096 frames (the last may be shorter) that were
/// marked before, and what the list's user should know of.
#[derive(Debug, Drop)]
pub struct Resumed {
    pub frames: u64,
    pub marked: u32,
    pub notices: Vec<Notice>,
}

/// What going on with a rendering reports, and what was clipped of the blocks that weren't marked before.
#[derive(Debug, Drop)]
pub struct ResumedSound {
    pub resumed: Resumed,
    pub clipping: Clipping,
}

/// Goes on with the rendering of a list over the sources of a shelf, which an earlier `render` or `resume` of the same
/// list and options, the order aside, began on this bench and didn't end. Blocks of 4,096 frames whose marks are set in
/// `render.marks` are neither read nor written again. Where no marks are started it renders from the beginning. What it
/// leaves is what an unbroken `render` leaves.
///
/// Its refusals are those of `render`, and behind them those of the marks: the device of the output fails at one of the
/// two files (62), the marks belong to another list, range, number of channels or depth (67), or they are broken, or the
/// rendered file isn't theirs (68), and want of memory for them (69). All of these come before the first write.
pub fn resume<S: Shelf, B: Bench>(
    alloc: Global,
    list: &[u8],
    options: &Options,
    shelf: &mut S,
    bench: &mut B,
) -> Result<Resumed, Fault>
    requires { HaveChannels options.now }
    ensures { IsResuming S.Shelf B.Bench OneBlock list.now
        (values_of options.now) shelf.old shelf.new bench.old bench.new result }
{
    let choice = RenderChoice {
        options: *options,
        jobs: JobLength::OneBlock,
    };
    match resume_watched(alloc, list, &choice, shelf, bench, &mut Unwatched) {
        Ok(made) => Ok(made.resumed),
        Err(fault) => Err(fault),
    }
}

/// The same in jobs of at most a chosen length, with a watch, which is notified after each job of how many frames are
/// there. An earlier run may have had jobs of another length. It reports what was clipped of the blocks that it rendered
/// itself.
pub fn resume_watched<S: Shelf, B: Bench, W: Watch>(
    alloc: Global,
    list: &[u8],
    choice: &RenderChoice,
    shelf: &mut S,
    bench: &mut B,
    watch: &mut W,
) -> Result<ResumedSound, Fault>
    ensures resumes { IsResuming S.Shelf B.Bench choice.now.jobs list.now
        (values_of choice.now.options) shelf.old shelf.new bench.old bench.new (ok_map (λ made. made.resumed) result) }
    ensures clips { IsTrue (S.honest shelf.old) → IsTrue (B.honest bench.old) → IfOk result (λ made.
        ClipsList list.now (values_of choice.now.options) (S.stored shelf.old)
        (λ range. marked_in (opened_of (run_of list.now range) (B.stored bench.old))) made.clipping) }
{
    let request = RenderRequest {
        list,
        choice: *choice,
        approach: Approach::Again,
    };
    match make_list(alloc, &request, shelf, bench, watch) {
        Ok(list) => {
            let resumed = Resumed {
                frames: list.made.rendered.frames,
                marked: list.made.marked,
                notices: list.notices,
            };
            return Ok(ResumedSound {
                resumed,
                clipping: list.made.clipping,
            });
        }
        Err(fault) => return Err(fault),
    }
}
