// Renderings and consolidations by the events of any number of workers, over files in memory.
use crate::tests::works::{Call, Job, round};
use consolidate::{BoardEvent, Fault, Progress};
use std::alloc::{AllocError, Global};
use std::process::Abort;
use std::test::Fail;
use trials_projects::media::sound;

/// Upper bound of the number of jobs of these runs.
const JOBS: u32 = 3;

/// Progress after three jobs are planned.
const BEGUN: Progress = Progress {
    idle: 3,
    out: 0,
    done: 0,
    stale: 0,
    finished: false,
};

/// Pseudorandom numbers with a fixed seed.
#[derive(Drop)]
struct Draws {
    state: u64,
}

impl Draws {
    fn new(state: u64) -> Self {
        Draws { state }
    }

    /// Returns a number below `end`.
    fn below(&mut self, end: u32) -> u32 {
        self.state = self
            .state
            .wrapping_mul(6_364_136_223_846_793_005)
            .wrapping_add(1_442_695_040_888_963_407);
        let drawn = (self.state >> 33) as u32;
        if end == 0 { 0 } else { drawn % end }
    }

    /// Returns an event of one of 64 workers, or the reclaiming of a job.
    fn event(&mut self) -> BoardEvent {
        let worker = self.below(64);
        match self.below(12) {
            0..=3 => BoardEvent::Give(worker),
            4..=6 => BoardEvent::Work(worker),
            7..=9 => BoardEvent::Deliver(worker),
            10 => BoardEvent::Lose(worker),
            _ => BoardEvent::Reclaim(worker % 4),
        }
    }
}

/// Appends events that finish all jobs: each job is reclaimed, and worker 99 does it.
fn put_end(events: &mut Vec<BoardEvent>) -> Result<(), Fail> {
    for job in 0..JOBS {
        events.push(BoardEvent::Reclaim(job))?;
    }
    for _ in 0..JOBS {
        events.extend_from_slice(&round(99))?;
    }
    Ok(())
}

/// Returns fewer than `most` random events, followed `ends` times by events that finish all jobs.
fn drawn(alloc: Global, draws: &mut Draws, most: u32, ends: u32) -> Result<Vec<BoardEvent>, Fail> {
    let mut events = Vec::new(alloc);
    for _ in 0..draws.below(most) {
        events.push(draws.event())?;
    }
    for _ in 0..ends {
        put_end(&mut events)?;
    }
    Ok(events)
}

/// Runs a thousand schedules and checks that each ends with the expected files.
fn ends_the_same(rt: &impl Abort, job: &Job, seed: u64) -> Result<(), Fail> {
    let mut draws = Draws::new(seed);
    for turn in 0..1000 {
        let events = drawn(job.alloc, &mut draws, 60, 1)?;
        let mut bench = job.bench()?;
        let progress = job.progress_by(events.as_slice(), &mut bench)?;
        assert!(rt; progress.finished && job.is_done(&bench), "{turn}");
    }
    Ok(())
}

/// Outcome of a schedule with failing devices.
#[derive(Clone, Copy)]
enum Ended {
    Whole,
    Unfinished,
    GivenUp,
    Stopped,
}

impl Ended {
    fn of(answer: &Result<Progress, Fault>) -> Self {
        match answer {
            Ok(progress) if progress.finished => Ended::Whole,
            Ok(_) => Ended::Unfinished,
            Err(Fault::GivenUp { .. }) => Ended::GivenUp,
            Err(_) => Ended::Stopped,
        }
    }
}

/// Returns the outcome of random events with random failures of the devices, and whether all files
/// are complete.
fn end_of_draw(job: &Job, draws: &mut Draws) -> Result<(Ended, bool), Fail> {
    let events = drawn(job.alloc, draws, 40, 2)?;
    let from = u64::from(draws.below(40));
    let mut shelf = job.shelf(from, u64::from(draws.below(4)))?;
    let from = u64::from(draws.below(40));
    let mut bench = job.bench()?.failing(from, u64::from(draws.below(4)));
    let answer = job.run_events(events.as_slice(), &mut shelf, &mut bench)?;
    Ok((Ended::of(&answer), job.is_done(&bench)))
}

/// Runs a thousand schedules with failing devices and checks that the files are complete whenever
/// all jobs are done.
fn ends_right(rt: &impl Abort, job: &Job, seed: u64) -> Result<(), Fail> {
    let mut draws = Draws::new(seed);
    let mut seen = [0u32; 4];
    for turn in 0..1000 {
        let (ended, is_done) = end_of_draw(job, &mut draws)?;
        assert!(rt; is_done || !matches!(ended, Ended::Whole), "{turn}");
        seen[ended as usize] = seen[ended as usize].saturating_add(1);
    }
    // most schedules complete, and every other outcome occurs
    assert!(rt; (seen[0] > 200) & (seen[2] > 0) & (seen[3] > 0), "{seen:?}");
    Ok(())
}

/// A cut of 65,537 samples.
const LONG: &str = "(Entry) 1 (Cut) I 1 1 1 00.00.00.00/0000 00.00.00.00/0000 00.00.01.09/0257
";

/// Events, and the resulting progress of a rendering.
type Move = (&'static [BoardEvent], Progress);

const MOVES: [Move; 6] = [
    (&[], BEGUN),
    (
        &[BoardEvent::Give(1), BoardEvent::Lose(1)],
        Progress {
            idle: 2,
            out: 1,
            ..BEGUN
        },
    ),
    (
        &[
            BoardEvent::Give(1),
            BoardEvent::Lose(1),
            BoardEvent::Reclaim(0),
        ],
        BEGUN,
    ),
    (
        &[
            BoardEvent::Give(1),
            BoardEvent::Work(1),
            BoardEvent::Reclaim(0),
            BoardEvent::Deliver(1),
        ],
        Progress { stale: 1, ..BEGUN },
    ),
    (
        &[
            BoardEvent::Give(7),
            BoardEvent::Work(7),
            BoardEvent::Deliver(7),
        ],
        Progress {
            idle: 2,
            done: 1,
            ..BEGUN
        },
    ),
    (&[BoardEvent::Deliver(1), BoardEvent::Reclaim(3)], BEGUN),
];

#[test]
fn events_move_jobs(rt: HostRuntime) -> Result<(), Fail> {
    let job = Job::new(rt.alloc(), Call::Render)?;
    for (events, want) in MOVES {
        let progress = job.progress_by(events, &mut job.bench()?)?;
        assert_eq!(rt; progress, want);
    }
    Ok(())
}

#[test]
fn a_long_medium_is_two_jobs(rt: HostRuntime) -> Result<(), Fail> {
    let file = sound(rt.alloc(), 65_537)?;
    let wanted = Vec::new(rt.alloc());
    let job = Job::over(rt.alloc(), Call::Consolidate, LONG, file, 65_537, wanted)?;
    let mut bench = job.bench()?;
    let progress = job.progress_by(&[], &mut bench)?;
    assert_eq!(rt; progress, Progress { idle: 2, ..BEGUN });
    assert!(rt; bench.bytes("consolidated.adl").is_none());
    Ok(())
}

#[test]
fn any_schedule_that_ends_gives_the_same_files(rt: HostRuntime) -> Result<(), Fail> {
    for (call, seed) in [(Call::Render, 16), (Call::Consolidate, 18)] {
        ends_the_same(&rt, &Job::new(rt.alloc(), call)?, seed)?;
    }
    Ok(())
}

#[test]
fn devices_that_fail_leave_right_files(rt: HostRuntime) -> Result<(), Fail> {
    for (call, seed) in [(Call::Render, 17), (Call::Consolidate, 19)] {
        ends_right(&rt, &Job::new(rt.alloc(), call)?, seed)?;
    }
    Ok(())
}
