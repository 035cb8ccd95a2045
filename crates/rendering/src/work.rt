// A rendering of a project, planned before anything is written.
ghost use Rattle.std.specs.Prelude.{◌≡◌, ◌<◌, ◌≤◌, ◌^◌, IfErr, IfOk};
ghost use Rattle.std.specs.List.{All};
ghost use Rattle.work_terms.specs.Refusals.{Answers};
ghost use Rattle.sound_terms.specs.Blocks.{block_count};
ghost use Rattle.sound_terms.specs.Media.{IsPieceOf};
ghost use Rattle.sound_terms.specs.Render.{render_info};
ghost use Rattle.sound_terms.specs.Waves.{header_of, zeros};
ghost use Rattle.list_terms.specs.Accepted as accepted;
ghost use Rattle.list_terms.specs.Heard.{sounds_of};
ghost use Rattle.markfile.specs.Range as marks;
ghost use Rattle.wavwrite.specs.Info.{Fits};
ghost use Rattle.rendering.specs.Cut.{AreEven, AreFewTogether, AreGrouped, IsCut};
ghost use Rattle.rendering.specs.Fault.{ComesFirst, WantsMemory, refusal_of};
ghost use Rattle.rendering.specs.Planned.{IsPlanFor, IsRenderingOf, MixAs};
ghost use Rattle.rendering.specs.Rendering.{HasRange, HaveChannels, IsSpan, render_fault, values_of};
ghost use Rattle.rendering.specs.Work.{IsRenderWork, job_blocks, marked_jobs};
ghost use Rattle.rendering.specs.declared.fault.RenderFault.TheVariants.{Memory};

use crate::blocks::Blocks;
use crate::job_length::{JobLength, fresh_stretches};
use crate::span::span_of;
use crate::stretch::Stretch;
use crate::{Options, RenderFault};
use interval::from_checked;
use markfile::RunRange;
use projectcheck::Checked;
use renderplan::Plan;
use sampletime::SampleTime;
use sound_terms::Bext;
use std::alloc::{AllocError, Global};
use std::marker::Model;
use wavwrite::SoundInfoRef;

/// What was rendered: so many frames of so many channels.
#[derive(Clone, Copy, Debug, PartialEq, Eq)]
pub struct Rendered {
    pub frames: u64,
    pub channels: u8,
}

/// A rendering of a project without a fault over its sources to the file `render.wav`: Broadcast Wave (EBU Tech 3285)
/// whose TimeReference is the time of its first frame, without texts. Entries on the same samples are added; the exact
/// sum is rounded, halves up, and clipped.
///
/// It holds all memory that the rendering takes: room for one block, and the list of its jobs, which are stretches of
/// blocks. A clause sees the plan, the opened files and the stretches.
pub struct Rendering<'a> {
    pub(crate) blocks: Blocks<'a>,
    pub(crate) rendered: Rendered,
    pub(crate) head: Vec<u8>,
    pub(crate) stretches: Vec<Stretch>,
    pub(crate) range: RunRange,
}

// Written out, so that it is one call where a rendering is dropped.
impl Drop for Rendering<'_> {
    fn drop(self) {
        let Rendering {
            blocks,
            rendered: _,
            head,
            stretches,
            range: _,
        } = self;
        drop(blocks);
        drop(head);
        drop(stretches);
    }
}

impl<'a> Model for Rendering<'a> {
    ghost use Rattle.std.specs.Prelude.{◌≡◌};
    ghost use Rattle.sound_terms.specs.Render.{render_info};
    ghost use Rattle.sound_terms.specs.Waves.{header_of};
    ghost use Rattle.markfile.specs.Range as marks;
    ghost use Rattle.rendering.specs.Rendering.{HasRange};
    ghost use Rattle.rendering.specs.Work.{IsRenderWork, RenderWork};

    ghost Value = { RenderWork };

    ghost view = { λ r. record {
      planned = r.blocks.planned;
      sounds = r.blocks.sounds;
      stretches = r.stretches.items;
    } };

    ghost invariant = { λ r. IsRenderWork (record {
      planned = r.blocks.planned;
      sounds = r.blocks.sounds;
      stretches = r.stretches.items;
    })
        × HasRange r.rendered r.blocks.planned.range
        × (r.head.items ≡ header_of (render_info r.blocks.planned.range))
        × (marks.range_of r.range ≡ r.blocks.planned.range) };
}

/// The plan of a span of a project. `Intervals`, `EmptyRange` or `Memory` where there is none.
fn plan_of(alloc: Global, checked: &Checked, span: &RunRange) -> Result<Plan, RenderFault>
    requires { (1 ≤ span.now.channels) × (span.now.channels ≤ 64) }
    ensures range { IfOk result (λ plan. plan.range ≡ marks.range_of span.now) }
    ensures some { IfOk result (λ _. span.now.from < span.now.to) }
    ensures inside { IfOk result (λ plan. All (IsPieceOf (sounds_of checked.now.bound)) plan.pieces) }
    ensures mixes { IfOk result (λ plan. MixAs checked.now.project checked.now.bound plan.pieces) }
    ensures first { IfErr result (ComesFirst (marks.range_of span.now)) }
{
    let intervals = from_checked(alloc, checked)?;
    let plan = Plan::new(
        alloc,
        intervals,
        span.from,
        span.to,
        span.channels,
        span.depth,
    )?;
    Ok(plan)
}

/// The fields of a file without texts whose first frame stands at this time.
#[tactic(auto, unfolding(sound_terms::specs::Waves::zeros))]
fn bext_at(time: SampleTime) -> Bext
    ensures text { result.text ≡ zeros 338 }
    ensures time { result.time_reference ≡ time }
{
    Bext {
        text: [0; 338],
        time_reference: time.get(),
    }
}

/// What the file of a span tells of itself.
fn info_of(span: &RunRange) -> SoundInfoRef<'static>
    requires { IsSpan span.now }
    ensures info { result ≡ render_info (marks.range_of span.now) }
    ensures short { result.frames < 2 ^ 48 }
{
    let frames = span.to.get() - span.from.get();
    let bext = bext_at(span.from);
    SoundInfoRef::over(span.channels, span.depth, frames, bext, &[])
}

/// All that stands before the samples of a file.
fn head_of(alloc: Global, info: &SoundInfoRef) -> Result<Vec<u8>, AllocError>
    requires { Fits info.now }
    ensures { IfOk result (λ head. head.items ≡ header_of info.now) }
{
    let mut head = Vec::new(alloc);
    head.resize(info.header_length(), 0)?;
    info.put_header(head.as_mut_slice());
    Ok(head)
}

/// All blocks, cut into jobs of this length.
fn stretches_of(
    alloc: Global,
    blocks: &Blocks,
    jobs: JobLength,
) -> Result<Vec<Stretch>, RenderFault>
    ensures cut { IfOk result (λ stretches. IsCut 0 stretches.items (block_count blocks.now.planned.range)) }
    ensures even { IfOk result (λ stretches. AreEven (job_blocks jobs blocks.now.planned.range)
        (block_count blocks.now.planned.range) stretches.items) }
    ensures grouped { IfOk result (λ stretches. AreGrouped (marked_jobs jobs blocks.now.planned.range) stretches.items) }
    ensures short { IfOk result (λ stretches. AreFewTogether stretches.items) }
    ensures only_memory { IfErr result WantsMemory }
{
    let count = blocks.count();
    let limits = blocks.limits(jobs);
    let stretches = fresh_stretches(alloc, count, limits.blocks, limits.together)?;
    Ok(stretches)
}

/// A rendering of what was chosen, where its range isn't empty.
fn prepared<'a>(
    alloc: Global,
    checked: &'a Checked,
    options: &Options,
    jobs: JobLength,
) -> Result<Rendering<'a>, RenderFault>
    requires { HaveChannels options.now }
    ensures prepared { IfOk result (IsPlanFor jobs checked.now.project checked.now.bound (values_of options.now)) }
    ensures first { IfErr result (ComesFirst (accepted.range_of checked.now.project (values_of options.now))) }
    ensures whole { IfOk result (λ rendering. IsRenderWork rendering) }
{
    let span = span_of(checked.project(), options);
    let plan = plan_of(alloc, checked, &span)?;
    let info = info_of(&span);
    info.reads_back();
    let head = head_of(alloc, &info)?;
    let rendered = Rendered {
        frames: info.frames(),
        channels: info.channels(),
    };
    let blocks = Blocks::new(alloc, plan, checked.bound().sounds())?;
    let stretches = stretches_of(alloc, &blocks, jobs)?;
    Ok(Rendering {
        blocks,
        rendered,
        head,
        stretches,
        range: span,
    })
}

impl<'a> Rendering<'a> {
    /// A rendering of what was chosen of a project, in jobs of this length. Nothing of it is written yet, and it takes no
    /// more memory.
    pub fn plan(
        alloc: Global,
        checked: &'a Checked,
        options: &Options,
        jobs: JobLength,
    ) -> Result<Self, RenderFault>
        requires { HaveChannels options.now }
        ensures planned { IfOk result
            (IsRenderingOf jobs checked.now.project checked.now.bound (values_of options.now)) }
        ensures refusals { Answers refusal_of result (render_fault checked.now.project (values_of options.now)) }
    {
        let rendering = prepared(alloc, checked, options, jobs)?;
        Ok(rendering)
    }

    /// So many frames and channels as it has.
    pub fn rendered(&self) -> Rendered
        ensures { HasRange result self.now.planned.range }
    {
        self.rendered
    }
}
