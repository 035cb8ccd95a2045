// The main functions: check, consolidate, render, resume, and schedules of workers.
use consolidate::{
    Accepted, BoardEvent, Depth, Fault, Options, Order, Progress, Rendered, Resumed, Work, Written,
    check_project, consolidate, render, resume, run_schedule,
};
use passes::Pass;
use shelf::{Bench, Shelf};
use std::alloc::Global;

/// Checks a list.
pub fn checked<S: Shelf>(alloc: Global, list: &[u8], shelf: &mut S) -> Result<Accepted, Fault> {
    check_project(alloc, list, shelf)
}

/// Consolidates a list with a handle of one second.
pub fn consolidated<S: Shelf, B: Bench>(
    alloc: Global,
    list: &[u8],
    passes: Vec<Box<dyn Pass>>,
    shelf: &mut S,
    bench: &mut B,
) -> Result<Written, Fault> {
    consolidate(alloc, list, 48_000, passes, shelf, bench)
}

/// Renders a whole list, on two channels at 24 bits.
pub fn rendered<S: Shelf, B: Bench>(
    alloc: Global,
    list: &[u8],
    shelf: &mut S,
    bench: &mut B,
) -> Result<Rendered, Fault> {
    let options = Options {
        channels: Some(2),
        ..Options::default()
    };
    render(alloc, list, &options, shelf, bench)
}

/// Resumes the rendering of a whole list.
pub fn resumed<S: Shelf, B: Bench>(
    alloc: Global,
    list: &[u8],
    shelf: &mut S,
    bench: &mut B,
) -> Result<Resumed, Fault> {
    let options = Options {
        channels: Some(2),
        ..Options::default()
    };
    resume(alloc, list, &options, shelf, bench)
}

/// Runs a consolidation with two workers: the job of the first fails, and the second is lost with
/// its job.
pub fn consolidated_in_part<S: Shelf, B: Bench>(
    alloc: Global,
    list: &[u8],
    passes: Vec<Box<dyn Pass>>,
    shelf: &mut S,
    bench: &mut B,
) -> Result<Progress, Fault> {
    let work = Work::Consolidate {
        list,
        handle: 0,
        passes,
        order: Order::BySource,
    };
    let events = [
        BoardEvent::Give(1),
        BoardEvent::Give(2),
        BoardEvent::Fault(1),
        BoardEvent::Lose(2),
    ];
    run_schedule(alloc, work, &events, shelf, bench)
}

/// Runs a rendering at 16 bits with one worker, which renders the first block and loses another to
/// a reclaim.
pub fn rendered_in_part<S: Shelf, B: Bench>(
    alloc: Global,
    list: &[u8],
    shelf: &mut S,
    bench: &mut B,
) -> Result<Progress, Fault> {
    let options = Options {
        depth: Depth::Sixteen,
        ..Options::default()
    };
    let events = [
        BoardEvent::Give(1),
        BoardEvent::Work(1),
        BoardEvent::Deliver(1),
        BoardEvent::Give(1),
        BoardEvent::Reclaim(1),
    ];
    run_schedule(alloc, Work::Render { list, options }, &events, shelf, bench)
}

/// Returns a refusal number.
pub fn number_of(fault: &Fault) -> u8 {
    fault.number()
}
