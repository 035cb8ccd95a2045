// Renderings by the events of several workers, with outcomes worked out by hand.
use crate::tests::works::{BLOCK, Call, Job, round, rounds};
use consolidate::{BoardEvent, Progress};
use std::alloc::{AllocError, Global};
use std::process::Abort;
use std::test::Fail;

/// The first job is reclaimed from the first worker and delivered by the second; the first worker
/// does the rest.
const TAKEN_BACK: [BoardEvent; 13] = [
    BoardEvent::Give(1),
    BoardEvent::Reclaim(0),
    BoardEvent::Give(2),
    BoardEvent::Work(1),
    BoardEvent::Work(2),
    BoardEvent::Deliver(2),
    BoardEvent::Deliver(1),
    BoardEvent::Give(1),
    BoardEvent::Work(1),
    BoardEvent::Deliver(1),
    BoardEvent::Give(1),
    BoardEvent::Work(1),
    BoardEvent::Deliver(1),
];

/// Returns events: three workers render one block each, and then one worker does all open jobs.
fn three_at_once(alloc: Global) -> Result<Vec<BoardEvent>, AllocError> {
    let mut events = Vec::new(alloc);
    for worker in 1..4 {
        events.push(BoardEvent::Give(worker))?;
    }
    for worker in 1..4 {
        events.push(BoardEvent::Work(worker))?;
    }
    events.extend_from_slice(rounds(alloc, 200)?.as_slice())?;
    Ok(events)
}

#[test]
fn a_block_that_was_taken_back_is_delivered_twice(rt: HostRuntime) -> Result<(), Fail> {
    let job = Job::new(rt.alloc(), Call::Render)?;
    let mut bench = job.bench()?;
    let progress = job.progress_by(&TAKEN_BACK, &mut bench)?;
    let wanted = Progress {
        idle: 0,
        out: 0,
        done: 3,
        stale: 1,
        finished: true,
    };
    assert_eq!(rt; progress, wanted);
    assert!(rt; job.is_whole(&bench) & job.is_marked(&bench));
    Ok(())
}

/// Resumes a rendering whose first job was reclaimed and delivered by another worker: the samples
/// of that block aren't read again.
fn goes_on(rt: &impl Abort, job: &Job) -> Result<(), Fail> {
    let mut shelf = job.recorded()?;
    let mut bench = job.bench()?;
    let progress = job.run_events(&TAKEN_BACK[..6], &mut shelf, &mut bench)??;
    assert!(rt; progress.idle == 2 && progress.done == 1);
    shelf.take_range();
    let resumed = job.resume(&mut shelf, &mut bench)?;
    assert!(rt; resumed.marked == 1);
    assert!(rt; shelf.take_range() == job.range_behind(1));
    assert!(rt; job.is_whole(&bench));
    Ok(())
}

#[test]
fn a_rendering_goes_on_behind_its_events(rt: HostRuntime) -> Result<(), Fail> {
    goes_on(&rt, &Job::new(rt.alloc(), Call::Render)?)
}

/// Returns the number of reads of samples during these events, and the range of bytes read.
fn read_by(job: &Job, events: &[BoardEvent]) -> Result<(u32, Option<(u64, u64)>), Fail> {
    let mut shelf = job.recorded()?;
    let mut bench = job.bench()?;
    let _ = job.run_events(events, &mut shelf, &mut bench)??;
    Ok((shelf.reads(), shelf.take_range()))
}

#[test]
fn only_work_reads_samples(rt: HostRuntime) -> Result<(), Fail> {
    let job = Job::new(rt.alloc(), Call::Render)?;
    let events = round(1);
    assert!(rt; read_by(&job, &events[..1])? == (0, None));
    let (reads, range) = read_by(&job, &events[..2])?;
    assert!(rt; range == Some((0, BLOCK)));
    assert!(rt; read_by(&job, &events)? == (reads, range));
    Ok(())
}

/// Returns whether these events complete a rendering of 200 blocks if three source calls fail after
/// `from` calls. The rendering is refused if the failing calls belong to opening the list.
fn is_done_behind(
    rt: &impl Abort,
    job: &Job,
    events: &[BoardEvent],
    from: u64,
) -> Result<bool, Fail> {
    let mut shelf = job.shelf(from, 3)?;
    let mut bench = job.bench()?;
    let Ok(progress) = job.run_events(events, &mut shelf, &mut bench)? else {
        return Ok(false);
    };
    assert!(rt; progress.finished & (progress.done == 200), "{from}");
    assert_eq!(rt; shelf.failures(), 3, "{from}");
    assert!(rt; job.is_whole(&bench), "{from}");
    Ok(true)
}

#[test]
fn three_blocks_of_many_that_fail_once_are_made_again(rt: HostRuntime) -> Result<(), Fail> {
    let events = three_at_once(rt.alloc())?;
    let job = Job::of_many_blocks(rt.alloc())?;
    for from in 0..100 {
        // the first three calls after the list is open are made by the three workers
        if is_done_behind(&rt, &job, events.as_slice(), from)? {
            return Ok(());
        }
    }
    Err("it is never done".into())
}
