// Renders a list to one sound file.
ghost use Rattle.std.specs.Prelude.{IfOk, IsTrue, []};
ghost use Rattle.list_terms.specs.Steps.{ok_map};
ghost use Rattle.rendering.specs.Rendering.{HaveChannels, values_of};
ghost use Rattle.rendering.specs.declared.job_length.JobLength.TheVariants.{OneBlock};
ghost use Rattle.consolidate.specs.Clipping.{ClipsList};
ghost use Rattle.consolidate.specs.Commands.{IsRendering};

use crate::Fault;
use crate::choice::{Clipping, RenderChoice};
use crate::made::make_list;
use crate::request::{Approach, HandingOut, RenderRequest};
use devices::{Bench, Shelf, Unwatched, Watch};
use list_terms::Notice;
use rendering::{JobLength, Options};
use std::alloc::Global;

/// What was rendered: so many frames of so many channels, and what the list's user should know of.
#[derive(Debug, Drop)]
pub struct Rendered {
    pub frames: u64,
    pub channels: u32,
    pub notices: Vec<Notice>,
}

/// What a rendering reports, and what of it was clipped.
#[derive(Debug, Drop)]
pub struct RenderedSound {
    pub rendered: Rendered,
    pub clipping: Clipping,
}

/// Renders a list over the sources of a shelf to the file `render.wav` of a bench: Broadcast Wave (EBU Tech 3285) whose
/// TimeReference is the time of its first frame. Entries on the same samples are added; the exact sum is rounded,
/// halves up, and clipped. A chosen number of channels has to be 1 to 64.
///
/// The list is refused first, then a file in the order of the source index, then an entry in the order of the list,
/// then an empty range, and want of memory. All of these come before the first write, and no memory is taken behind it.
///
/// The file is laid out at its full length and synced; then `render.marks` is begun, which has one byte for each block of
/// 4,096 frames (the last may be shorter). Each block is a job, done by one worker in the chosen order: its bytes are
/// written at their position and synced, then it is marked, and the marks are synced. So `resume` goes on with a rendering
/// that was stopped. A job whose device fails is done again; the third time it is given up (66), and what is written is
/// unfinished. Outside the jobs, and where a mark isn't written, a device that fails ends the call at once (62).
pub fn render<S: Shelf, B: Bench>(
    alloc: Global,
    list: &[u8],
    options: &Options,
    shelf: &mut S,
    bench: &mut B,
) -> Result<Rendered, Fault>
    requires { HaveChannels options.now }
    ensures { IsRendering S.Shelf B.Bench OneBlock list.now
        (values_of options.now) shelf.old shelf.new bench.old bench.new result }
{
    let choice = RenderChoice {
        options: *options,
        jobs: JobLength::OneBlock,
    };
    match render_watched(alloc, list, &choice, shelf, bench, &mut Unwatched) {
        Ok(made) => Ok(made.rendered),
        Err(fault) => Err(fault),
    }
}

/// The same in jobs of a chosen length, with a watch, which is notified after each job of how many frames are there. It
/// reports what was clipped.
pub fn render_watched<S: Shelf, B: Bench, W: Watch>(
    alloc: Global,
    list: &[u8],
    choice: &RenderChoice,
    shelf: &mut S,
    bench: &mut B,
    watch: &mut W,
) -> Result<RenderedSound, Fault>
    ensures renders { IsRendering S.Shelf B.Bench choice.now.jobs list.now
        (values_of choice.now.options) shelf.old shelf.new bench.old bench.new (ok_map (λ made. made.rendered) result) }
    ensures clips { IsTrue (S.honest shelf.old) → IfOk result (λ made.
        ClipsList list.now (values_of choice.now.options) (S.stored shelf.old) (λ _. []) made.clipping) }
{
    let request = RenderRequest {
        list,
        choice: *choice,
        approach: Approach::Anew(HandingOut::Rounds),
    };
    match make_list(alloc, &request, shelf, bench, watch) {
        Ok(list) => {
            let rendered = Rendered {
                frames: list.made.rendered.frames,
                channels: u32::from(list.made.rendered.channels),
                notices: list.notices,
            };
            return Ok(RenderedSound {
                rendered,
                clipping: list.made.clipping,
            });
        }
        Err(fault) => return Err(fault),
    }
}
