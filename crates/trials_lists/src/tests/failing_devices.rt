// Failure of each call on the sources and the output in turn: once, twice in a row, and three
// times.
use crate::tests::works::{
    CONSOLIDATED as TEXT, CONSOLIDATED_BY_EVENTS, Call, Job, RENDERED_BY_EVENTS,
};
use adlmodel::Project;
use adlread::read;
use adlwrite::{WriteFault, write};
use consolidate::{Fault, MarkFault, MarkedFile, OutputFile};
use shelf::{Bench, MemoryBench};
use std::alloc::Global;
use std::process::Abort;
use std::test::Fail;

/// Outcome of a run.
#[derive(Clone, Copy, Debug, PartialEq, Eq)]
enum Ended {
    Done,
    /// The source can't be opened (refusal 22).
    Unread,
    /// The source can't be read for silence or for a report (refusal 52).
    Unheard,
    /// An output can't be written (refusal 62).
    Unwritten(OutputFile),
    /// A job failed three times (refusal 66).
    GivenUp(u32),
    Otherwise(u8),
}

impl Ended {
    fn of(answer: &Result<(), Fault>) -> Self {
        let Err(fault) = answer else {
            return Ended::Done;
        };
        match fault {
            Fault::Project(
                opening::Fault::Media {
                    index: 1,
                    fault,
                    ..
                },
            ) if fault.number() == 22 => { Ended::Unread }
            Fault::Silence { name } if name.as_str() == "A.wav" => Ended::Unheard,
            Fault::Output(file) => Ended::Unwritten(*file),
            Fault::Marks(
                MarkFault::Device {
                    file: MarkedFile::Sound,
                },
            ) => Ended::Unwritten(OutputFile::Rendering),
            Fault::Marks(
                MarkFault::Device {
                    file: MarkedFile::Marks,
                },
            ) => Ended::Unwritten(OutputFile::Marks),
            Fault::GivenUp { job } => Ended::GivenUp(*job),
            _ => Ended::Otherwise(fault.number()),
        }
    }

    /// Returns whether the output agrees with the outcome: all files or none, and no list with
    /// unfinished media.
    fn agrees(self, job: &Job, bench: &MemoryBench) -> bool {
        match self {
            Ended::Done => job.is_whole(bench),
            Ended::Unread | Ended::Unheard => job.is_untouched(bench),
            Ended::Unwritten(OutputFile::List) => true,
            _ => bench.bytes("consolidated.adl").is_none(),
        }
    }
}

/// Purpose of a call on a device.
#[derive(Clone, Copy)]
enum Part {
    /// Opening the source.
    Open,
    /// Reading for silence.
    Hear,
    /// Creating, preallocating or syncing this file.
    Write(OutputFile),
    /// Part of this job.
    Job(u32),
}

impl Part {
    /// Returns the outcome if `times` calls fail from this one on.
    fn ended(self, times: u64) -> Ended {
        match self {
            Part::Open => Ended::Unread,
            Part::Hear => Ended::Unheard,
            Part::Write(file) => Ended::Unwritten(file),
            Part::Job(job) if times == 3 => Ended::GivenUp(job),
            Part::Job(_) => Ended::Done,
        }
    }

    /// Returns the number of calls that fail: outside of jobs the first failure ends the run.
    fn failures(self, times: u64) -> u64 {
        match self {
            Part::Job(_) => times,
            _ => 1,
        }
    }
}

const RENDERING: Part = Part::Write(OutputFile::Rendering);

const MARKS: Part = Part::Write(OutputFile::Marks);

const FIRST: Part = Part::Write(OutputFile::Medium(1));

const SECOND: Part = Part::Write(OutputFile::Medium(2));

const SUMS: Part = Part::Write(OutputFile::Sums);

const REPORT: Part = Part::Write(OutputFile::Report);

const LIST: Part = Part::Write(OutputFile::List);

/// A number of consecutive calls with the same purpose.
type Calls = (u64, Part);

/// Calls on the sources of a rendering: the list is opened, and each job reads a block.
const OPENED: [Calls; 1] = [(8, Part::Open)];

const OPENED_AND_READ: [Calls; 2] = [(8, Part::Open), (1, Part::Job(0))];

const REST_READ: [Calls; 2] = [(1, Part::Job(1)), (1, Part::Job(2))];

/// Calls on its output: the file is created, preallocated and synced, then the marks, whose gate is
/// opened last. The first block is written and synced, and then marked.
const BEGUN: [Calls; 4] = [(4, RENDERING), (8, MARKS), (2, Part::Job(0)), (2, MARKS)];

/// The other blocks are written and marked in the same way; at the end both files are synced.
const REST_RENDERED: [Calls; 6] = [
    (2, Part::Job(1)),
    (2, MARKS),
    (2, Part::Job(2)),
    (2, MARKS),
    (1, RENDERING),
    (1, MARKS),
];

/// Calls of a resumed rendering after its first block: the lengths of both files are queried, both
/// files are synced, and the marks are read.
const RESUMED: [Calls; 2] = [(2, RENDERING), (4, MARKS)];

/// Calls on the sources of a consolidation: the list is opened, and both fades and the part between
/// them are read for silence at once.
const HEARD: [Calls; 2] = [(8, Part::Open), (1, Part::Hear)];

/// Calls on the sources with a report: in addition, the samples of the first medium are read, then
/// length and content of the whole source, and then the samples of the second medium.
const HEARD_TWICE: [Calls; 2] = [(8, Part::Open), (5, Part::Hear)];

/// Calls on the sources by the jobs: each reads its samples.
const FRAMES_READ: [Calls; 2] = [(1, Part::Job(0)), (1, Part::Job(1))];

/// Calls on the output: both media are created and preallocated, their pieces are written, and they
/// are synced.
const MEDIA: [Calls; 6] = [
    (3, FIRST),
    (3, SECOND),
    (1, Part::Job(0)),
    (1, Part::Job(1)),
    (1, FIRST),
    (1, SECOND),
];

/// Calls after the media: the list is created, written and synced, after the checksums and the
/// report if requested.
const LISTED: [Calls; 1] = [(3, LIST)];

const REPORTED: [Calls; 3] = [(3, SUMS), (3, REPORT), (3, LIST)];

/// A device with failing calls.
#[derive(Clone, Copy, Debug)]
enum Device {
    Sources,
    Output,
}

/// Runs a job with `times` failing calls of a device after `from` calls. Returns the outcome and
/// the number of failures.
fn fail(
    rt: &impl Abort,
    job: &Job,
    device: Device,
    from: u64,
    times: u64,
) -> Result<(Ended, u64), Fail> {
    let (of_sources, of_output) = match device {
        Device::Sources => (times, 0),
        Device::Output => (0, times),
    };
    let mut shelf = job.shelf(from, of_sources)?;
    let mut bench = job.bench()?.failing(from, of_output);
    let ended = Ended::of(&job.run(&mut shelf, &mut bench)?);
    assert!(rt; ended.agrees(job, &bench), "{device:?}, {from}, {times}");
    Ok((ended, shelf.failures().saturating_add(bench.failures())))
}

/// Lets each of these calls be the first of `times` failing ones. Returns the number of calls so
/// far.
fn fail_each(
    rt: &impl Abort,
    job: &Job,
    device: Device,
    times: u64,
    before: u64,
    calls: &[Calls],
) -> Result<u64, Fail> {
    let mut from = before;
    for (count, part) in calls {
        for _ in 0..*count {
            let found = fail(rt, job, device, from, times)?;
            let wanted = (part.ended(times), part.failures(times));
            assert_eq!(rt; found, wanted, "{device:?}, {from}, {times}");
            from = from.saturating_add(1);
        }
    }
    Ok(from)
}

/// Lets each call of a device fail, once, twice in a row, and three times. Checks that exactly
/// these calls are made.
fn fail_all(
    rt: &impl Abort,
    job: &Job,
    device: Device,
    first: &[Calls],
    rest: &[Calls],
) -> Result<(), Fail> {
    for times in 1..4 {
        let from = fail_each(rt, job, device, times, 0, first)?;
        let from = fail_each(rt, job, device, times, from, rest)?;
        assert_eq!(rt; fail(rt, job, device, from, times)?, (Ended::Done, 0));
    }
    Ok(())
}

#[test]
fn each_call_of_a_rendering_fails(rt: HostRuntime) -> Result<(), Fail> {
    for call in [Call::Render, RENDERED_BY_EVENTS] {
        let job = Job::new(rt.alloc(), call)?;
        fail_all(&rt, &job, Device::Sources, &OPENED_AND_READ, &REST_READ)?;
        fail_all(&rt, &job, Device::Output, &BEGUN, &REST_RENDERED)?;
    }
    Ok(())
}

#[test]
fn each_call_of_a_rendering_that_goes_on_fails(rt: HostRuntime) -> Result<(), Fail> {
    let job = Job::half_done(rt.alloc())?;
    fail_all(&rt, &job, Device::Sources, &OPENED, &REST_READ)?;
    fail_all(&rt, &job, Device::Output, &RESUMED, &REST_RENDERED)
}

#[test]
fn each_call_of_a_consolidation_fails(rt: HostRuntime) -> Result<(), Fail> {
    for call in [Call::Consolidate, CONSOLIDATED_BY_EVENTS] {
        let job = Job::new(rt.alloc(), call)?;
        fail_all(&rt, &job, Device::Sources, &HEARD, &FRAMES_READ)?;
        fail_all(&rt, &job, Device::Output, &MEDIA, &LISTED)?;
    }
    Ok(())
}

#[test]
fn each_call_of_a_consolidation_with_a_report_fails(rt: HostRuntime) -> Result<(), Fail> {
    let job = Job::new(rt.alloc(), Call::Report)?;
    fail_all(&rt, &job, Device::Sources, &HEARD_TWICE, &FRAMES_READ)?;
    fail_all(&rt, &job, Device::Output, &MEDIA, &REPORTED)
}

/// Writes the list with a failing call after `from` calls. Returns whether no call failed; the file
/// then has the whole list, otherwise a part.
fn is_written(alloc: Global, project: &Project, from: u64) -> Result<bool, Fail> {
    let mut bench = MemoryBench::new(alloc).failing(from, 1);
    bench.create("a.adl")?;
    let written = write(project, &mut bench, "a.adl");
    let bytes = bench.bytes("a.adl").ok_or("no file")?;
    let is_whole = bench.failures() == 0;
    let is_right = if is_whole {
        written.is_ok() && bytes == TEXT
    } else {
        written == Err(WriteFault::Device) && TEXT.starts_with(bytes) && bytes.len() < TEXT.len()
    };
    if is_right {
        Ok(is_whole)
    } else {
        Err("another text".into())
    }
}

#[test]
fn each_part_of_a_list_fails(rt: HostRuntime) -> Result<(), Fail> {
    let project = read(rt.alloc(), TEXT)?;
    for from in 1..1_000 {
        if is_written(rt.alloc(), &project, from)? {
            // at least one call per line
            assert!(rt; from > 18, "{from}");
            return Ok(());
        }
    }
    Err("it never ends".into())
}
