// Calls over a list and its stores: a check, and the resumption of a rendering.
use crate::tests::works::Job;
use consolidate::{Accepted, Fault, check_project};
use shelf::MemoryShelf;
use std::alloc::Global;
use std::test::Fail;
use trials_projects::lists::list;
use trials_projects::media::sound;

/// Two entries of four frames each.
const TWO_ENTRIES: &str =
    "(Entry) 1 (Cut) I 1 1 1 00.00.00.00/0000 01.00.00.00/0000 01.00.00.00/0004
(Entry) 2 (Cut) I 1 1 1 00.00.00.00/0008 01.00.00.00/0004 01.00.00.00/0008
";

/// Two entries. The second plays one frame past the end of the file, which has 12.
const SECOND_OUTSIDE: &str =
    "(Entry) 1 (Cut) I 1 1 1 00.00.00.00/0000 01.00.00.00/0000 01.00.00.00/0004
(Entry) 2 (Cut) I 1 1 1 00.00.00.00/0009 01.00.00.00/0004 01.00.00.00/0008
";

/// Checks a list of these entries over a file of 12 frames.
fn checked(alloc: Global, entries: &str) -> Result<Result<Accepted, Fault>, Fail> {
    let mut shelf = MemoryShelf::new(alloc).with_file("A.wav", sound(alloc, 12)?.as_slice())?;
    let list = list(alloc, entries)?;
    Ok(check_project(alloc, list.as_bytes(), &mut shelf))
}

#[test]
fn a_list_without_a_fault_is_accepted_with_its_counts(rt: HostRuntime) -> Result<(), Fail> {
    let accepted = checked(rt.alloc(), TWO_ENTRIES)??;
    assert_eq!(rt; (accepted.entries, accepted.indexes), (2, 1));
    assert!(rt; accepted.notices.is_empty());
    Ok(())
}

#[test]
fn an_entry_that_passes_the_end_of_its_file_is_refused(rt: HostRuntime) -> Result<(), Fail> {
    let Err(fault) = checked(rt.alloc(), SECOND_OUTSIDE)? else {
        return Err("accepted".into());
    };
    assert_eq!(rt; fault.number(), 46);
    assert!(rt; matches!(fault, Fault::Project(opening::Fault::Entry(fault)) if fault.entry == 2));
    Ok(())
}

#[test]
fn a_rendering_with_one_marked_block_is_resumed_to_its_end(rt: HostRuntime) -> Result<(), Fail> {
    let job = Job::half_done(rt.alloc())?;
    let mut bench = job.bench()?;
    let resumed = job.resume_unwatched(&mut job.shelf(0, 0)?, &mut bench)?;
    assert_eq!(rt; (resumed.frames, resumed.marked), (12_000, 1));
    assert!(rt; resumed.notices.is_empty());
    assert!(rt; job.is_done(&bench));
    Ok(())
}
