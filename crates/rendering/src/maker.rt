// A marked rendering as a work of an execution.
ghost use Rattle.std.specs.Prelude.{◌≡◌, ◌<◌, ◌*◌, ℕ, Bool, IfOk, IfSome, IsTrue, List, [], None, Ok, Some, false, length, slice_index_or, ⊤};
ghost use Rattle.std.specs.List.{All, range_with_len};
ghost use Rattle.work_terms.specs.Disk.{Files};
ghost use Rattle.work_terms.specs.Refusals.{Answers};
ghost use Rattle.devices.specs.Frame.{OnlyWrites};
ghost use Rattle.devices.specs.Views.{output_view};
ghost use Rattle.job_terms.specs.declared.Order.TheVariants.{ByTime};
ghost use Rattle.job_terms.specs.Workers.{jobs_over};
ghost use Rattle.workboard.specs.Indexed.{IsOrder};
ghost use Rattle.markfile.specs.Fault.{ReadsMarks};
ghost use Rattle.markfile.specs.Opened.{Settles, opened_of};
ghost use Rattle.execution.specs.Filled.{AreFilled};
ghost use Rattle.execution.specs.Maker.{LaysOut};
ghost use Rattle.execution.specs.Marking.{AreLeftBy, IsRunningBy, NoneStartedBy};
ghost use Rattle.execution.specs.Plan.{IsAt, Stays};
ghost use Rattle.rendering.specs.Fault.{refusal_of};
ghost use Rattle.rendering.specs.Clipping.{ClipsIn, ClipsUnmarked};
ghost use Rattle.rendering.specs.Cut.{IsUniform, stretch_at};
ghost use Rattle.rendering.specs.Maker.{HasClips, HasSoundJobs, IsMarkedWork, IsReopened, plan_of};
ghost use Rattle.rendering.specs.Marked.{IsFoundAs, run_of};
ghost use Rattle.rendering.specs.Planned.{IsRenderingOf};
ghost use Rattle.rendering.specs.Rendering.{HasRange, HaveChannels, render_fault, values_of};
ghost use Rattle.rendering.specs.Work.{AreCutBy, IsInRange, done_before, heard, work_of};
ghost use Rattle.rendering.specs.Written.{frames_before};

use crate::blocks::BLOCK_LENGTH;
use crate::job_length::JobLength;
use crate::marked::count_of;
use crate::placement::{place, place_marked};
use crate::stretch::Stretch;
use crate::{Options, Order, RenderFault, Rendered, Rendering};
use clipping::Clips;
use devices::{Bench, DeviceFault, Shelf};
use execution::{JobMaker, OutputFault, PlaceFault};
use markfile::{FreshMarks, MARKS, MarkFault, RunId, SOUND, open_marks, start_fresh};
use projectcheck::Checked;
use sampletime::SampleTime;
use std::alloc::{AllocError, Global};
use std::marker::Model;

/// The number of the rendered file among the outputs.
const SOUND_OUTPUT: u32 = 0;

/// The number of its marks.
const MARKS_OUTPUT: u32 = 1;

/// A rendering whose blocks are marked, as an execution does it: the rendered file is laid out and its marks are begun,
/// each job's bytes are written, once those of all jobs that are marked together are written they are synced and their
/// blocks marked, and both files are synced at the end. Another run of the same list goes on where this one stopped. It
/// notes what is clipped of each job. It holds its marks as they are begun, so that no memory is taken once it is
/// planned and its marks are opened.
pub struct RenderingWork<'a> {
    rendering: Rendering<'a>,
    run: RunId,
    fresh: FreshMarks,
    clips: Vec<Clips>,
}

// Written out, so that it is one call where it is dropped.
impl Drop for RenderingWork<'_> {
    fn drop(self) {
        let RenderingWork {
            rendering,
            run: _,
            fresh,
            clips,
        } = self;
        drop(rendering);
        drop(fresh);
        drop(clips);
    }
}

impl<'a> Model for RenderingWork<'a> {
    ghost use Rattle.std.specs.Prelude.{◌≡◌, length};
    ghost use Rattle.rendering.specs.Marked.{IsRunOf, MarkedWork};
    ghost use Rattle.rendering.specs.Work.{IsRenderWork};

    ghost Value = { MarkedWork };

    ghost view = { λ m. record { work = m.rendering; run = m.run; clips = m.clips.items } };

    ghost invariant = { λ m. IsRenderWork m.rendering × IsRunOf m.rendering m.run × ((m.fresh ≡ m.run)
        × (length m.clips.items ≡ length m.rendering.stretches)) };
}

impl<'a> Rendering<'a> {
    /// How many jobs it has.
    pub(crate) fn job_count(&self) -> u32
        ensures { result ≡ (work_of self.now).count }
    {
        self.stretches.len() as u32
    }

    /// How many bytes this job has.
    fn job_size(&self, job: u32) -> usize
        requires { job < (work_of self.now).count }
        ensures { result ≡ (work_of self.now).size job }
    {
        let stretch = self.stretch(job);
        let frames = self.blocks.frames_in(stretch.first..stretch.end);
        self.blocks.length_of(frames)
    }

    /// How many samples come before this stretch, frame by frame.
    fn samples_before(&self, stretch: &Stretch) -> u64
        requires { IsInRange self.now.planned.range stretch.now.first stretch.now.end }
        ensures { result ≡ frames_before self.now.planned.range stretch.now.first * self.now.planned.range.channels }
    {
        let frames = u64::from(stretch.first) * BLOCK_LENGTH as u64;
        frames * u64::from(self.rendered.channels)
    }

    /// How many frames this job has.
    fn job_frames(&self, job: u32) -> u64
        requires { job < (work_of self.now).count }
    {
        let stretch = self.stretch(job);
        self.blocks.frames_in(stretch.first..stretch.end) as u64
    }
}

/// Nothing is clipped of so many jobs.
fn unclipped(alloc: Global, count: usize) -> Result<Vec<Clips>, AllocError>
    ensures { IfOk result (λ clips. length clips.items ≡ count) }
{
    let clips = vec![in alloc; Clips::none(); count]?;
    Ok(clips)
}

/// Makes the rendered file at its full length, with every sample zero, and syncs it; then these marks of it.
fn lay_out_marked<B: Bench>(
    rendering: &Rendering,
    fresh: &FreshMarks,
    bench: &mut B,
) -> Result<(), OutputFault>
    requires { IsMarkedWork (record { work = rendering.now; run = fresh.now; clips = [] }) }
    ensures lays_out { LaysOut (plan_of (record { work = rendering.now; run = fresh.now; clips = [] }))
        (output_view B.Bench bench.old) (output_view B.Bench bench.new) result }
    ensures only_writes { OnlyWrites B.Bench (Stays (plan_of (record { work = rendering.now; run = fresh.now; clips = [] })))
        bench.old bench.new result (λ _. ⊤)
        (λ fault failed. IsAt (plan_of (record { work = rendering.now; run = fresh.now; clips = [] })) fault.file failed) }
{
    match rendering.lay_out_synced(bench) {
        Ok(()) => {}
        Err(_) => return Err(OutputFault { file: SOUND_OUTPUT }),
    }
    match start_fresh(bench, fresh) {
        Ok(()) => return Ok(()),
        Err(_) => return Err(OutputFault { file: MARKS_OUTPUT }),
    }
}

impl<'a> JobMaker for RenderingWork<'a> {
    ghost plan = { plan_of };

    ghost remains = { λ first now. now.work ≡ first.work };

    ghost noted = { HasClips };

    fn count(&self) -> u32 {
        self.rendering.job_count()
    }

    fn size(&self, job: u32) -> usize {
        self.rendering.job_size(job)
    }

    fn group(&self, job: u32) -> u32 {
        self.rendering.stretch(job).group
    }

    fn frames(&self, job: u32) -> u64 {
        self.rendering.job_frames(job)
    }

    fn make<S: Shelf>(
        &mut self,
        job: u32,
        shelf: &mut S,
        bytes: &mut [u8],
    ) -> Result<(), DeviceFault> {
        match self.rendering.play(job, shelf, bytes) {
            Ok(clips) => {
                self.clips[job as usize] = clips;
                return Ok(());
            }
            Err(fault) => return Err(fault),
        }
    }

    fn write<B: Bench>(
        &mut self,
        job: u32,
        bytes: &[u8],
        last: bool,
        bench: &mut B,
    ) -> Result<(), PlaceFault> {
        let stretch = self.rendering.stretch(job);
        let at = self.rendering.place_at(&stretch);
        if !last {
            return place(bench, at, bytes);
        }
        let blocks = self.rendering.blocks_with(job);
        place_marked(bench, at, bytes, blocks)
    }

    fn lay_out<B: Bench>(&mut self, bench: &mut B) -> Result<(), OutputFault> {
        lay_out_marked(&self.rendering, &self.fresh, bench)
    }

    fn finish<B: Bench>(&mut self, bench: &mut B) -> Result<(), OutputFault> {
        match bench.sync(SOUND) {
            Ok(()) => {}
            Err(_) => return Err(OutputFault { file: SOUND_OUTPUT }),
        }
        match bench.sync(MARKS) {
            Ok(()) => return Ok(()),
            Err(_) => return Err(OutputFault { file: MARKS_OUTPUT }),
        }
    }
}

impl<'a> RenderingWork<'a> {
    /// A rendering of what was chosen of a project, in jobs of this length, whose marks belong to this list. Nothing of it
    /// is written yet.
    pub fn plan(
        alloc: Global,
        checked: &'a Checked,
        options: &Options,
        list: &[u8],
        jobs: JobLength,
    ) -> Result<Self, RenderFault>
        requires { HaveChannels options.now }
        ensures planned { IfOk result (λ marked. IsRenderingOf jobs checked.now.project checked.now.bound
            (values_of options.now) marked.work) }
        ensures run { IfOk result (λ marked. marked.run ≡ run_of list.now marked.work.planned.range) }
        ensures whole { IfOk result (λ marked. IsMarkedWork marked) }
        ensures jobs { IfOk result (λ marked. HasSoundJobs marked) }
        ensures refusals { Answers refusal_of result (render_fault checked.now.project (values_of options.now)) }
    {
        let rendering = match Rendering::plan(alloc, checked, options, jobs) {
            Ok(rendering) => rendering,
            Err(fault) => return Err(fault),
        };
        let clips = match unclipped(alloc, rendering.job_count() as usize) {
            Ok(clips) => clips,
            Err(_) => return Err(RenderFault::Memory),
        };
        let run = rendering.run(list);
        match FreshMarks::of(alloc, &run) {
            Ok(fresh) => Ok(RenderingWork {
                rendering,
                run,
                fresh,
                clips,
            }),
            Err(_) => Err(RenderFault::MarksMemory),
        }
    }

    /// So many frames and channels as it has.
    pub fn rendered(&self) -> Rendered
        ensures { HasRange result self.now.work.planned.range }
    {
        self.rendering.rendered()
    }

    /// The time of its first frame.
    pub fn start(&self) -> SampleTime
        ensures { result ≡ self.now.work.planned.range.from }
    {
        self.rendering.range.from
    }

    /// Opens the marks that an earlier run left, once the rendered file and the marks are synced. Where they are this
    /// run's, the blocks that they mark are done, the others are cut into jobs of this length, and it gives how many are
    /// marked; `None` where none are started. Nothing is written.
    pub fn open<B: Bench>(
        &mut self,
        alloc: Global,
        jobs: JobLength,
        bench: &mut B,
    ) -> Result<Option<u32>, MarkFault>
        ensures running { IsTrue (B.honest bench.old) → (sources : Files)
            → AreLeftBy ((plan_of self.old).marking sources) (B.may_leave bench.old)
            → (done : ℕ → Bool) → ((k : ℕ) → k < (plan_of self.new).jobs.count → done k ≡ done_before self.new.work k)
            → IfOk result (λ found. IfSome found (λ _. IsRunningBy ((plan_of self.new).marking sources) done
            (output_view B.Bench bench.new))) }
        ensures filled { IsTrue (B.honest bench.old) → (sources : Files)
            → AreLeftBy ((plan_of self.old).marking sources) (B.may_leave bench.old)
            → (done : ℕ → Bool) → ((k : ℕ) → k < (plan_of self.new).jobs.count → done k ≡ done_before self.new.work k)
            → IfOk result (λ found. IfSome found (λ _. AreFilled (jobs_over (plan_of self.new).jobs sources)
            ((plan_of self.new).whole sources) done (B.stored bench.new))) }
        ensures unstarted { IsTrue (B.honest bench.old) → (sources : Files) → IfOk result (λ found. found ≡ None
            → NoneStartedBy ((plan_of self.new).marking sources) (B.may_leave bench.new)) }
        ensures found { IsTrue (B.honest bench.old)
            → IsFoundAs result (opened_of self.old.run (B.stored bench.old)) }
        ensures cut { IsTrue (B.honest bench.old) → IfOk result (λ found. IfSome found (λ _. (marked : List Bool)
            × (opened_of self.old.run (B.stored bench.old) ≡ Ok (Some marked)) × AreCutBy jobs marked self.new.work)) }
        ensures unchanged { IfOk result (λ found. found ≡ None → self.new ≡ self.old) }
        ensures reopened { IsReopened self.old self.new }
        ensures untouched { Settles B.Bench bench.old bench.new }
        ensures only_reads { ReadsMarks B.Bench bench.old bench.new result }
    {
        let found = match open_marks(alloc, bench, &self.run) {
            Ok(found) => found,
            Err(fault) => return Err(fault),
        };
        let Some(marks) = found else {
            return Ok(None);
        };
        let cut = match self.rendering.cut_by(alloc, marks.marked.as_slice(), jobs) {
            Ok(cut) => cut,
            Err(_) => return Err(MarkFault::Memory),
        };
        self.clips = match unclipped(alloc, cut.len()) {
            Ok(clips) => clips,
            Err(_) => return Err(MarkFault::Memory),
        };
        self.rendering.take_up(cut);
        Ok(Some(count_of(marks.marked.as_slice())))
    }

    /// What was clipped of this job, as it was made last; nothing where it was done before.
    fn clips_in(&self, job: u32) -> Clips
        requires { job < (plan_of self.now).jobs.count }
        ensures { (sources : Files) (marked : List Bool) → All (IsUniform marked) self.now.work.stretches
            → (done_before self.now.work job ≡ false → HasClips self.now sources job)
            → ClipsIn marked self.now.work sources (stretch_at self.now.work.stretches job) result }
    {
        let stretch = self.rendering.stretch(job);
        if stretch.done {
            return Clips::none();
        }
        self.clips[job as usize]
    }

    /// What was clipped of all jobs that weren't done before, as they were made last.
    pub fn clips(&self) -> Clips
        ensures { (sources : Files) (marked : List Bool) → All (IsUniform marked) self.now.work.stretches
            → ((k : ℕ) → k < (plan_of self.now).jobs.count → done_before self.now.work k ≡ false
            → HasClips self.now sources k) → ClipsUnmarked marked self.now.work.planned.range
            (heard self.now.work.planned self.now.work.sounds sources) result }
    {
        let mut clips = Clips::none();
        for job in 0..self.rendering.job_count() {
            let stretch = self.rendering.stretch(job);
            let before = self.rendering.samples_before(&stretch);
            clips = clips.joined(self.clips_in(job), before);
        }
        clips
    }

    /// The order in which its jobs are handed out, of the project that it was planned of: by time, or by the source of
    /// the first block in which something sounds of those that are marked together. Want of memory is the only error.
    pub fn order(
        &self,
        alloc: Global,
        checked: &Checked,
        order: Order,
    ) -> Result<Vec<u32>, AllocError>
        ensures order { IfOk result (λ jobs. IsOrder (plan_of self.now).jobs.count jobs.items) }
        ensures by_time { order ≡ ByTime
            → IfOk result (λ jobs. jobs.items ≡ range_with_len 0 (plan_of self.now).jobs.count) }
    {
        self.rendering.order(alloc, checked, order)
    }

    /// Which of its jobs are done: those whose blocks were marked. Want of memory is the only error.
    pub fn done(&self, alloc: Global) -> Result<Vec<bool>, AllocError>
        ensures count { IfOk result (λ done. length done.items ≡ (plan_of self.now).jobs.count) }
        ensures each { IfOk result (λ done. (k : ℕ) → k < length done.items
            → slice_index_or done.items k false ≡ done_before self.now.work k) }
    {
        match self.rendering.done(alloc) {
            Ok(done) => return Ok(done),
            Err(fault) => return Err(fault),
        }
    }
}
