// Runs over files in memory: the call that makes each, and the files expected from it.
ghost use Rattle.rendering.specs.Rendering.{HaveChannels};

use consolidate::{
    BoardEvent, ConsolidateChoice, Depth, Fault, JobLength, Keeping, Options, Order, Progress,
    RenderChoice, ReportChoice, Resumed, Work, consolidate_watched, render_watched, resume,
    resume_watched, run_schedule,
};
use passes::{DropSilent, JoinCuts, Pass, Regroup, SplitFades};
use shelf::{Bench, MemoryBench, MemoryShelf, Shelf, Unwatched};
use std::alloc::{AllocError, Global};
use std::test::Fail;
use trials_projects::lists::{FADED, list};
use trials_projects::media::{LOUD, head_at, sample, silent_middle, sound};
use trials_projects::recorded::Recorded;

/// Sample frames of a rendering of three blocks.
pub(crate) const FRAMES: u64 = 12_000;

/// Bytes of a block of 4,096 samples, mono at 16 bits.
pub(crate) const BLOCK: u64 = 8_192;

pub(crate) const SOUND: &str = "render.wav";

pub(crate) const MARKS: &str = "render.marks";

/// An entry that plays three blocks of `A.wav` at their original time, from midnight on.
const THREE_BLOCKS: &str =
    "(Entry) 1 (Cut) I 1 1 1 00.00.00.00/0000 00.00.00.00/0000 00.00.00.06/0480
";

/// Sample frames of 200 blocks.
const MANY_FRAMES: u64 = 819_200;

/// An entry that plays 200 blocks of `A.wav` at their original time.
const MANY_BLOCKS: &str =
    "(Entry) 1 (Cut) I 1 1 1 00.00.00.00/0000 00.00.00.00/0000 00.00.17.01/1280
";

/// The list over two media of an entry with a silent middle.
pub(crate) const CONSOLIDATED: &[u8] = b"<ADL>\r
<SEQUENCE>\r
(SEQ_SAMPLE_RATE) S48000\r
(SEQ_FRAME_RATE) 25\r
</SEQUENCE>\r
<SOURCE_INDEX>\r
(Index) 0001 (F) \"URL:file://localhost/M00001.wav\" _ 00.00.00.00/0000 00.00.00.00/0004\r
(Index) 0002 (F) \"URL:file://localhost/M00002.wav\" _ 00.00.00.00/0008 00.00.00.00/0004\r
</SOURCE_INDEX>\r
<EVENT_LIST>\r
(Entry) 0001 (Cut) I 0001 1~2 1~2 00.00.00.00/0000 00.00.00.00/0000 00.00.00.00/0004\r
(Infade) 00.00.00.00/0004 LIN _ _ _\r
(Entry) 0002 (Cut) I 0002 1~2 1~2 00.00.00.00/0008 00.00.00.00/0008 00.00.00.00/0012\r
(Outfade) 00.00.00.00/0004 LIN _ _ _\r
</EVENT_LIST>\r
</ADL>\r
";

/// The report requested.
const ASKED: ReportChoice<'static> = ReportChoice {
    program: "trials",
    version: "1.2",
    digests: true,
};

/// The expected report; its SHA-256 digests were computed by another program.
const REPORT: &[u8] =
    b"{\"entries\":[{\"entry\":1,\"group\":0},{\"entry\":2,\"group\":0}],\"form\":6,\
\"given_list_sha256\":\"b58928c762d83f96f5d166d1012337a63e022741b949beca6d2555c0955e3f1a\",\
\"groups\":[{\"given\":[1],\"more\":0}],\"handle\":0,\
\"media\":[{\"base\":0,\"channels\":2,\"depth\":16,\"file\":\"M00001.wav\",\"frames\":4,\
\"sha256\":\"c375e3651a9458f0dc99102df3b6a7d54a9b733b3ace72081d2010a3b508a958\",\
\"source\":{\"file\":\"A.wav\",\"first\":0,\"identifier\":\"_\",\"index\":1,\
\"sha256\":\"65ff694fd8eb4f15e72c67a4da08f8a5f451343afc2fad0ac92a9f20cdf7a0a8\",\"url\":\"URL:file://localhost/A.wav\"}},\
{\"base\":8,\"channels\":2,\"depth\":16,\"file\":\"M00002.wav\",\"frames\":4,\
\"sha256\":\"8e81d770610a480fd7fd16e43074903a8adff6822f43a41b24f881b00da2d3ec\",\
\"source\":{\"file\":\"A.wav\",\"first\":8,\"identifier\":\"_\",\"index\":1,\
\"sha256\":\"65ff694fd8eb4f15e72c67a4da08f8a5f451343afc2fad0ac92a9f20cdf7a0a8\",\"url\":\"URL:file://localhost/A.wav\"}}],\
\"new_list_sha256\":\"4691bb81a5d74d115e04cb7c0977f93e64725e1ee50e4cec69e7d525ddca8832\",\
\"notices\":[],\"program\":\"trials\",\"version\":\"1.2\"}
";

/// The expected checksums, in the format of `sha256sum`.
const SUMS: &[u8] = b"\
c375e3651a9458f0dc99102df3b6a7d54a9b733b3ace72081d2010a3b508a958  M00001.wav
8e81d770610a480fd7fd16e43074903a8adff6822f43a41b24f881b00da2d3ec  M00002.wav
4691bb81a5d74d115e04cb7c0977f93e64725e1ee50e4cec69e7d525ddca8832  consolidated.adl
ad7cd4dc63045e1eb48187baa070b7a40c575e1ff72f03bdd5f6c13f4277c95c  consolidated.json
";

/// All files that these runs may write.
const OUTPUTS: [&str; 8] = [
    SOUND,
    MARKS,
    "M00001.wav",
    "M00002.wav",
    "M00003.wav",
    "SHA256SUMS",
    "consolidated.json",
    "consolidated.adl",
];

/// Returns the expected rendering of 200 blocks; only the first channel is audible.
fn many_rendered(alloc: Global) -> Result<Vec<u8>, Fail> {
    let mut file = head_at(alloc, 2, Depth::TwentyFour, MANY_FRAMES, 0)?;
    for place in 0..MANY_FRAMES {
        let [low, high] = sample(place);
        file.extend_from_slice(&[0, low, high, 0, 0, 0])?;
    }
    Ok(file)
}

/// Returns a medium of four audible sample frames that starts at time `first`, in samples.
fn medium(alloc: Global, first: u64) -> Result<Vec<u8>, Fail> {
    let mut file = head_at(alloc, 2, Depth::Sixteen, 4, first)?;
    file.extend_from_slice(&LOUD)?;
    Ok(file)
}

fn one_file(alloc: Global, name: &'static str, bytes: Vec<u8>) -> Result<Files, AllocError> {
    let mut files = Vec::new(alloc);
    files.push((name, bytes))?;
    Ok(files)
}

/// Returns the expected rendering of three blocks.
fn rendered(alloc: Global) -> Result<Files, Fail> {
    Ok(one_file(alloc, SOUND, sound(alloc, FRAMES)?)?)
}

/// Adds a copy of a file.
fn push_file(files: &mut Files, name: &'static str, bytes: &[u8]) -> Result<(), AllocError> {
    let bytes = bytes.to_vec(*files.allocator())?;
    files.push((name, bytes))?;
    Ok(())
}

/// Returns the expected output for the entry with a silent middle, with or without a report.
fn consolidated(alloc: Global, is_reported: bool) -> Result<Files, Fail> {
    let mut files = one_file(alloc, "M00001.wav", medium(alloc, 0)?)?;
    push_file(&mut files, "M00002.wav", medium(alloc, 8)?.as_slice())?;
    push_file(&mut files, "consolidated.adl", CONSOLIDATED)?;
    if is_reported {
        push_file(&mut files, "consolidated.json", REPORT)?;
        push_file(&mut files, "SHA256SUMS", SUMS)?;
    }
    Ok(files)
}

/// Returns the four standard passes.
fn standard(alloc: Global) -> Result<Vec<Box<dyn Pass>>, AllocError> {
    let mut passes: Vec<Box<dyn Pass>> = Vec::new(alloc);
    passes.push(Box::new(alloc, SplitFades)?)?;
    passes.push(Box::new(alloc, DropSilent)?)?;
    passes.push(Box::new(alloc, JoinCuts)?)?;
    passes.push(Box::new(alloc, Regroup)?)?;
    Ok(passes)
}

/// Returns one round of a worker: it is given a job, does it and delivers it.
pub(crate) fn round(worker: u32) -> [BoardEvent; 3] {
    [
        BoardEvent::Give(worker),
        BoardEvent::Work(worker),
        BoardEvent::Deliver(worker),
    ]
}

/// Returns `count` rounds of the first worker.
pub(crate) fn rounds(alloc: Global, count: usize) -> Result<Vec<BoardEvent>, AllocError> {
    let mut events = Vec::new(alloc);
    for _ in 0..count {
        events.extend_from_slice(&round(1))?;
    }
    Ok(events)
}

/// A call that writes output.
#[derive(Clone, Copy)]
pub(crate) enum Call {
    Consolidate,
    /// A consolidation with a report.
    Report,
    Render,
    /// A resumed rendering that was interrupted after its first block was marked.
    Resume,
    /// A schedule of `rounds` rounds of one worker.
    Schedule { is_rendering: bool, rounds: usize },
}

/// A rendering and a consolidation, each with two rounds more than jobs.
pub(crate) const RENDERED_BY_EVENTS: Call = Call::Schedule {
    is_rendering: true,
    rounds: 5,
};

pub(crate) const CONSOLIDATED_BY_EVENTS: Call = Call::Schedule {
    is_rendering: false,
    rounds: 4,
};

impl Call {
    fn is_rendering(self) -> bool {
        match self {
            Call::Consolidate | Call::Report => false,
            Call::Render | Call::Resume => true,
            Call::Schedule { is_rendering, .. } => is_rendering,
        }
    }
}

/// Files by name.
pub(crate) type Files = Vec<(&'static str, Vec<u8>)>;

/// A list over `A.wav`, a call on it, the files present before, and the files expected after.
pub(crate) struct Job {
    pub(crate) alloc: Global,
    call: Call,
    list: String,
    /// Whether two channels are rendered instead of one.
    is_wide: bool,
    jobs: JobLength,
    depth: Depth,
    source: Vec<u8>,
    /// Number of sample frames of the source.
    frames: u64,
    before: Files,
    wanted: Files,
}

// Written out so that dropping a job is a single call.
impl Drop for Job {
    fn drop(self) {
        let Job {
            alloc: _,
            call: _,
            list,
            is_wide: _,
            jobs: _,
            depth: _,
            source,
            frames: _,
            before,
            wanted,
        } = self;
        drop(list);
        drop(source);
        drop(before);
        drop(wanted);
    }
}

impl Job {
    /// Creates the rendering of three blocks, or the consolidation without handles of an entry with
    /// a silent middle.
    pub(crate) fn new(alloc: Global, call: Call) -> Result<Self, Fail> {
        if call.is_rendering() {
            // the expected rendering is the source itself
            let wanted = rendered(alloc)?;
            Ok(Job::over(
                alloc,
                call,
                THREE_BLOCKS,
                sound(alloc, FRAMES)?,
                FRAMES,
                wanted,
            )?)
        } else {
            let wanted = consolidated(alloc, matches!(call, Call::Report))?;
            Ok(Job::over(alloc, call, FADED, silent_middle(alloc)?, 12, wanted)?)
        }
    }

    /// Creates a job for a call with the given entries and source, with one block per job at 16
    /// bits.
    pub(crate) fn over(
        alloc: Global,
        call: Call,
        entries: &str,
        source: Vec<u8>,
        frames: u64,
        wanted: Files,
    ) -> Result<Self, AllocError> {
        Ok(Job {
            alloc,
            call,
            list: list(alloc, entries)?,
            is_wide: false,
            jobs: JobLength::OneBlock,
            depth: Depth::Sixteen,
            source,
            frames,
            before: Vec::new(alloc),
            wanted,
        })
    }

    /// Creates a job that resumes the rendering of three blocks after the first is marked: 12 calls
    /// create the files, and 4 write and mark a block.
    pub(crate) fn half_done(alloc: Global) -> Result<Self, Fail> {
        let mut job = Job::new(alloc, Call::Resume)?;
        let before = job.stopped()?;
        job.before = before;
        Ok(job)
    }

    /// Returns the files of the rendering after it is interrupted.
    fn stopped(&self) -> Result<Files, Fail> {
        let mut bench = MemoryBench::new(self.alloc).stop_at(16, 0);
        let _ = self.run_by(Call::Render, &mut self.shelf(0, 0)?, &mut bench)?;
        first_block_on(self.alloc, &bench)
    }

    /// Creates the rendering of 200 blocks of 24-bit stereo, in longer jobs of 32 blocks; two
    /// blocks are marked at a time.
    pub(crate) fn of_many_blocks(alloc: Global) -> Result<Self, Fail> {
        let source = sound(alloc, MANY_FRAMES)?;
        let wanted = one_file(alloc, SOUND, many_rendered(alloc)?)?;
        let mut job = Job::over(
            alloc,
            Call::Render,
            MANY_BLOCKS,
            source,
            MANY_FRAMES,
            wanted,
        )?;
        job.is_wide = true;
        job.jobs = JobLength::Longer;
        job.depth = Depth::TwentyFour;
        Ok(job)
    }

    /// Returns the sources, with `count` failing calls after `from` calls.
    pub(crate) fn shelf(&self, from: u64, count: u64) -> Result<MemoryShelf, AllocError> {
        let shelf = MemoryShelf::new(self.alloc).with_file("A.wav", self.source.as_slice())?;
        Ok(shelf.failing(from, count))
    }

    /// Returns the output with the files present before.
    pub(crate) fn bench(&self) -> Result<MemoryBench, Fail> {
        let mut bench = MemoryBench::new(self.alloc);
        for (name, bytes) in &self.before {
            put(&mut bench, name, bytes.as_slice())?;
        }
        Ok(bench.after_crash(0, 0)?)
    }

    /// Returns the sources, which record reads.
    pub(crate) fn recorded(&self) -> Result<Recorded, Fail> {
        let samples = self.frames.saturating_mul(2);
        let head = (self.source.len() as u64).saturating_sub(samples);
        Ok(Recorded::new(self.shelf(0, 0)?, head))
    }

    /// Returns the range of sample bytes that a rendering reads after `marked` blocks, or `None` if
    /// all blocks are marked.
    pub(crate) fn range_behind(&self, marked: u64) -> Option<(u64, u64)> {
        let first = marked.saturating_mul(BLOCK);
        let behind = self.frames.saturating_mul(2);
        if first < behind {
            Some((first, behind))
        } else {
            None
        }
    }

    /// Returns the options for everything audible.
    fn options(&self) -> Options
        ensures { HaveChannels result }
    {
        Options {
            from: None,
            to: None,
            channels: Some(if self.is_wide { 2 } else { 1 }),
            depth: self.depth,
            order: Order::ByTime,
        }
    }

    /// Returns the options and job length.
    fn choice(&self) -> RenderChoice {
        RenderChoice {
            options: self.options(),
            jobs: self.jobs,
        }
    }

    fn render<S: Shelf>(&self, shelf: &mut S, bench: &mut MemoryBench) -> Result<(), Fault> {
        let (list, choice) = (self.list.as_bytes(), self.choice());
        render_watched(self.alloc, list, &choice, shelf, bench, &mut Unwatched)?;
        Ok(())
    }

    /// Resumes the rendering.
    pub(crate) fn resume<S: Shelf>(
        &self,
        shelf: &mut S,
        bench: &mut MemoryBench,
    ) -> Result<Resumed, Fault> {
        let (list, choice) = (self.list.as_bytes(), self.choice());
        let made = resume_watched(self.alloc, list, &choice, shelf, bench, &mut Unwatched)?;
        Ok(made.resumed)
    }

    /// Resumes it by the call that takes no watch.
    pub(crate) fn resume_unwatched<S: Shelf>(
        &self,
        shelf: &mut S,
        bench: &mut MemoryBench,
    ) -> Result<Resumed, Fault> {
        resume(
            self.alloc,
            self.list.as_bytes(),
            &self.options(),
            shelf,
            bench,
        )
    }

    fn consolidate<S: Shelf>(
        &self,
        passes: Vec<Box<dyn Pass>>,
        report: Option<ReportChoice<'_>>,
        shelf: &mut S,
        bench: &mut MemoryBench,
    ) -> Result<(), Fault> {
        let choice = ConsolidateChoice {
            keeping: Keeping { handle: 0, passes },
            report,
        };
        let list = self.list.as_bytes();
        consolidate_watched(self.alloc, list, choice, shelf, bench, &mut Unwatched)?;
        Ok(())
    }

    /// Runs the job by events.
    pub(crate) fn run_events<S: Shelf>(
        &self,
        events: &[BoardEvent],
        shelf: &mut S,
        bench: &mut MemoryBench,
    ) -> Result<Result<Progress, Fault>, AllocError> {
        let list = self.list.as_bytes();
        let work = if self.call.is_rendering() {
            let options = self.options();
            Work::Render { list, options }
        } else {
            Work::Consolidate {
                list,
                handle: 0,
                passes: standard(self.alloc)?,
                order: Order::ByTime,
            }
        };
        Ok(run_schedule(self.alloc, work, events, shelf, bench))
    }

    /// Returns the progress after events, if no call fails.
    pub(crate) fn progress_by(
        &self,
        events: &[BoardEvent],
        bench: &mut MemoryBench,
    ) -> Result<Progress, Fail> {
        let mut shelf = self.shelf(0, 0)?;
        Ok(self.run_events(events, &mut shelf, bench)??)
    }

    /// Runs the job.
    pub(crate) fn run<S: Shelf>(
        &self,
        shelf: &mut S,
        bench: &mut MemoryBench,
    ) -> Result<Result<(), Fault>, AllocError> {
        self.run_by(self.call, shelf, bench)
    }

    /// Runs the job by the given call.
    pub(crate) fn run_by<S: Shelf>(
        &self,
        call: Call,
        shelf: &mut S,
        bench: &mut MemoryBench,
    ) -> Result<Result<(), Fault>, AllocError> {
        match call {
            Call::Render => Ok(self.render(shelf, bench)),
            Call::Resume => Ok(self.resume(shelf, bench).map(|_| ())),
            Call::Consolidate => {
                let passes = standard(self.alloc)?;
                Ok(self.consolidate(passes, None, shelf, bench))
            }
            Call::Report => {
                let passes = standard(self.alloc)?;
                Ok(self.consolidate(passes, Some(ASKED), shelf, bench))
            }
            Call::Schedule { rounds: count, .. } => {
                let events = rounds(self.alloc, count)?;
                let done = self.run_events(events.as_slice(), shelf, bench)?;
                Ok(done.map(|_| ()))
            }
        }
    }

    /// Returns whether the expected files exist.
    pub(crate) fn is_whole(&self, bench: &MemoryBench) -> bool {
        self.wanted.iter().all(|(name, bytes)| bench.bytes(name) == Some(bytes.as_slice()))
    }

    /// Returns whether each block is marked.
    pub(crate) fn is_marked(&self, bench: &MemoryBench) -> bool {
        let blocks = marks_on(bench);
        blocks.len() as u64 == self.frames.div_ceil(4_096) && blocks.iter().all(|block| *block == 1)
    }

    /// Returns whether exactly the expected files exist, apart from the marks of a rendering, which
    /// must all be set.
    pub(crate) fn is_done(&self, bench: &MemoryBench) -> bool {
        let are_marked = if self.call.is_rendering() {
            self.is_marked(bench)
        } else {
            bench.bytes(MARKS).is_none()
        };
        let are_whole = |name: &&str| {
            *name == MARKS || bench.bytes(name) == bytes_in(&self.wanted, name)
        };
        are_marked && OUTPUTS.iter().all(are_whole)
    }

    /// Returns whether the files are unchanged.
    fn are_as_before(&self, bench: &MemoryBench) -> bool {
        OUTPUTS
            .iter()
            .all(|name| bench.bytes(name) == bytes_in(&self.before, name))
    }

    /// Returns whether no call was made on the output.
    pub(crate) fn is_untouched(&self, bench: &MemoryBench) -> bool {
        bench.calls() == 0 && self.are_as_before(bench)
    }

    /// Returns whether the files are unchanged, even after a crash that spoils all unsynced bytes.
    pub(crate) fn is_unchanged(&self, bench: MemoryBench) -> Result<bool, AllocError> {
        Ok(self.are_as_before(&bench) && self.are_as_before(&bench.after_crash(0, 7)?))
    }
}

/// Returns the files of a rendering with only the first block marked; fails only if out of memory.
fn first_block_on(alloc: Global, bench: &MemoryBench) -> Result<Files, Fail> {
    if marks_on(bench) != [1, 0, 0].as_slice() {
        Err(AllocError)?;
    }
    let mut files = Vec::new(alloc);
    for name in [SOUND, MARKS] {
        push_file(&mut files, name, bench.bytes(name).ok_or("no file")?)?;
    }
    Ok(files)
}

/// Returns the content of the named file.
fn bytes_in<'a>(files: &'a Files, name: &str) -> Option<&'a [u8]> {
    let (_, bytes) = files.iter().find(|(other, _)| *other == name)?;
    Some(bytes.as_slice())
}

/// Creates a file on disk. Fails only if out of memory.
fn put(bench: &mut MemoryBench, name: &str, bytes: &[u8]) -> Result<(), AllocError> {
    if bench.create(name).is_err()
        || bench.append(name, bytes).is_err()
        || bench.sync(name).is_err()
    {
        return Err(AllocError);
    }
    Ok(())
}

/// Returns an output with the given files of a rendering.
pub(crate) fn bench_of(
    alloc: Global,
    sound: Option<&[u8]>,
    marks: Option<&[u8]>,
) -> Result<MemoryBench, Fail> {
    let mut bench = MemoryBench::new(alloc);
    if let Some(bytes) = sound {
        put(&mut bench, SOUND, bytes)?;
    }
    if let Some(bytes) = marks {
        put(&mut bench, MARKS, bytes)?;
    }
    Ok(bench)
}

/// Returns the marks of the blocks, one byte each.
pub(crate) fn marks_on(bench: &MemoryBench) -> &[u8] {
    match bench.bytes(MARKS) {
        Some(marks) => marks.get(44..).unwrap_or(&[]),
        None => &[],
    }
}
