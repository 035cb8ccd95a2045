// Events after the last job is done.
use crate::Listed;
use devices::Unwatched;
use execution::{Execution, in_turn};
use job_terms::{BoardEvent, Progress};
use shelf::{MemoryBench, MemoryShelf};
use std::test::Fail;

/// Worker 2 delivers the last job while worker 1 still holds an older ticket for it.
const LAST_JOB: [BoardEvent; 7] = [
    BoardEvent::Give(1),
    BoardEvent::Reclaim(63),
    BoardEvent::Give(2),
    BoardEvent::Work(1),
    BoardEvent::Work(2),
    BoardEvent::Deliver(2),
    BoardEvent::Deliver(1),
];

#[test]
fn a_stale_delivery_after_the_last_job_is_counted(rt: HostRuntime) -> Result<(), Fail> {
    let mut events = Vec::new(rt.alloc());
    for _job in 0..63 {
        events.push(BoardEvent::Give(1))?;
        events.push(BoardEvent::Work(1))?;
        events.push(BoardEvent::Deliver(1))?;
    }
    for event in LAST_JOB {
        events.push(event)?;
    }
    let mut execution = Execution::new(rt.alloc(), Listed, in_turn(rt.alloc(), 64)?)?;
    let mut shelf = MemoryShelf::new(rt.alloc());
    let mut bench = MemoryBench::new(rt.alloc());
    let progress = execution.execute_events(&events, &mut shelf, &mut bench, &mut Unwatched)?;
    let want = Progress {
        idle: 0,
        out: 0,
        done: 64,
        stale: 1,
        finished: true,
    };
    assert_eq!(rt; progress, want);
    assert_eq!(rt; bench.bytes("list"), Some([1].as_slice()));
    Ok(())
}
