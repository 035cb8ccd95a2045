// The jobs of a rendering whose blocks are marked.
ghost use Rattle.std.specs.Prelude.{◌≡◌, IfErr, IfOk};
ghost use Rattle.consolidate.specs.Fault.{IsAlwaysDue};
ghost use Rattle.consolidate.specs.RenderWorks.{FailsBy, FailsInTurn, IsSoundWork, IsTakenUp, IsUnbegun, OpensMarks, RunsOn, WorksOff};

use crate::Fault;
use crate::handing::hand_out;
use crate::request::{Approach, HandingOut, Planned};
use clipping::Clips;
use devices::{Bench, Shelf, Watch};
use execution::{Execution, ExecutionFault};
use job_terms::Progress;
use markfile::MarkFault;
use rendering::{JobLength, RenderingWork};
use std::alloc::Global;

/// How far the jobs of a rendering are, and what was clipped of those that were done just now.
#[derive(Clone, Copy)]
pub(crate) struct Worked {
    pub progress: Progress,
    pub clips: Clips,
}

/// Opens the marks of a rendering that is gone on with, and cuts its other blocks into jobs of at most this length: so
/// many blocks are marked, where any marks are started. Nothing is opened of one that is begun.
pub(crate) fn open_marks<B: Bench>(
    alloc: Global,
    approach: Approach<'_>,
    jobs: JobLength,
    work: &mut RenderingWork<'_>,
    bench: &mut B,
) -> Result<Option<u32>, MarkFault>
    requires { IsSoundWork None work.old }
    ensures { OpensMarks B.Bench approach.entry jobs work.old work.new bench.old bench.new result }
{
    match approach {
        Approach::Anew(_) => Ok(None),
        Approach::Again => work.open(alloc, jobs, bench),
    }
}

/// An execution of this work, whose marked blocks are done. Want of memory is the only error.
fn taken_up<'a>(
    alloc: Global,
    planned: Planned<'a, '_>,
) -> Result<Execution<RenderingWork<'a>>, Fault>
    ensures taken_up { IfOk result (λ run. IsTakenUp planned.entry.work run) }
    ensures only_memory { IfErr result IsUnbegun }
{
    let Planned {
        work,
        checked,
        order,
        ..
    } = planned;
    let jobs = match work.order(alloc, checked, order) {
        Ok(jobs) => jobs,
        Err(_) => return Err(Fault::BoardMemory),
    };
    let done = match work.done(alloc) {
        Ok(done) => done,
        Err(_) => return Err(Fault::BoardMemory),
    };
    match Execution::with_done(alloc, work, jobs, done.as_slice()) {
        Ok(execution) => Ok(execution),
        Err(ExecutionFault::JobMemory) => Err(Fault::RenderMemory),
        Err(_) => Err(Fault::BoardMemory),
    }
}

/// Does its open jobs: on from the blocks that were found to be marked, and else from the beginning.
fn run<S: Shelf, B: Bench, W: Watch>(
    execution: &mut Execution<RenderingWork<'_>>,
    handing: HandingOut<'_>,
    found: Option<u32>,
    shelf: &mut S,
    bench: &mut B,
    watch: &mut W,
) -> Result<Progress, ExecutionFault>
    ensures { RunsOn S.Shelf B.Bench handing.entry found execution.old execution.new shelf.old shelf.new bench.old
        bench.new result }
{
    match found {
        None => hand_out(execution, handing, shelf, bench, watch),
        Some(_) => execution.resume(shelf, bench, watch),
    }
}

/// Does a planned work. In rounds want of memory comes before the first write; by events a worker takes memory as it
/// comes.
pub(crate) fn work_off<S: Shelf, B: Bench, W: Watch>(
    alloc: Global,
    planned: Planned<'_, '_>,
    shelf: &mut S,
    bench: &mut B,
    watch: &mut W,
) -> Result<Worked, Fault>
    requires { IsSoundWork planned.found planned.work }
    ensures off { WorksOff S.Shelf B.Bench planned.entry shelf.old shelf.new bench.old bench.new result }
    ensures own { FailsBy planned.entry.approach result }
    ensures in_turn { FailsInTurn result }
    ensures due { IfErr result IsAlwaysDue }
{
    let handing = planned.approach.handing();
    let found = planned.found;
    let mut execution = match taken_up(alloc, planned) {
        Ok(execution) => execution,
        Err(fault) => return Err(fault),
    };
    match run(&mut execution, handing, found, shelf, bench, watch) {
        Ok(progress) => {
            let clips = execution.work().clips();
            return Ok(Worked { progress, clips });
        }
        Err(fault) => return Err(Fault::of_execution(fault)),
    }
}
