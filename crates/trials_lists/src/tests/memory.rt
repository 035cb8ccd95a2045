// Runs that either get all their memory or are refused. The end-to-end tests repeat these runs with
// each allocation failing in turn.
use crate::tests::works::{CONSOLIDATED_BY_EVENTS, Job, RENDERED_BY_EVENTS};
use consolidate::Fault;
use std::test::Fail;

/// Runs a job. Returns the refusal number, or `None` if it is done. A refused run must have written
/// nothing.
fn refusal(job: &Job) -> Result<Option<u8>, Fail> {
    let mut shelf = job.shelf(0, 0)?;
    let mut bench = job.bench()?;
    let Err(fault) = job.run(&mut shelf, &mut bench)? else {
        return if job.is_whole(&bench) {
            Ok(None)
        } else {
            Err("it is done, and isn't whole".into())
        };
    };
    let number = fault.number();
    // workers allocate late, and the output allocates for its content
    let is_late = matches!(
        fault,
        Fault::WorkerMemory | Fault::BlockMemory | Fault::Output(_)
    );
    if is_late || job.is_unchanged(bench)? {
        Ok(Some(number))
    } else {
        Err("something was written".into())
    }
}

/// Does a work, and prints the number of its refusal. Only one allocation fails, so a second run has all the memory that
/// it needs.
fn tell(rt: &HostRuntime, job: &Job) -> Result<(), Fail> {
    let Some(number) = refusal(job)? else {
        return Ok(());
    };
    if let Some(again) = refusal(job)? {
        println!(rt; "refused {again} again")?;
        return Err("refused although there was memory".into());
    }
    println!(rt; "refused {number}")?;
    Ok(())
}

#[test]
fn a_rendering_by_events(rt: HostRuntime) -> Result<(), Fail> {
    tell(&rt, &Job::new(rt.alloc(), RENDERED_BY_EVENTS)?)
}

#[test]
fn a_consolidation_by_events(rt: HostRuntime) -> Result<(), Fail> {
    tell(&rt, &Job::new(rt.alloc(), CONSOLIDATED_BY_EVENTS)?)
}

#[test]
fn a_rendering_that_goes_on(rt: HostRuntime) -> Result<(), Fail> {
    tell(&rt, &Job::half_done(rt.alloc())?)
}
