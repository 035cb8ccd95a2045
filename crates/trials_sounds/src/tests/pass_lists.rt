// Queries of passes about an entry with a silent middle.
use crate::tests::intervals::{entry, intervals};
use crate::tests::table::Table;
use passes::{DropSilent, Pass, SplitFades, run, silent_of};
use std::test::Fail;

/// Returns a stereo file of 12 sample frames: the left is silent, the right is audible in the first
/// and the last four.
fn one_side() -> Table {
    Table {
        left: [0; 12],
        right: [1, 1, 1, 1, 0, 0, 0, 0, 1, 1, 1, 1],
        asked: 0,
        failures: 0,
    }
}

/// Returns the number of pieces that the passes query, for an entry of 12 samples with two fades of
/// four.
fn asked(rt: &HostRuntime, passes: Vec<Box<dyn Pass>>) -> Result<u64, Fail> {
    let mut samples = one_side();
    run(rt.alloc(), passes, intervals(rt, &entry()?)?, &mut samples)?;
    Ok(samples.asked)
}

#[test]
fn pieces_are_asked_about_once_a_pass_looks(rt: HostRuntime) -> Result<(), Fail> {
    let alloc = rt.alloc();
    let mut passes: Vec<Box<dyn Pass>> = Vec::new(alloc);
    passes.push(Box::new(alloc, SplitFades)?)?;
    assert_eq!(rt; asked(&rt, passes)?, 0);
    let mut passes: Vec<Box<dyn Pass>> = Vec::new(alloc);
    passes.push(Box::new(alloc, SplitFades)?)?;
    passes.push(Box::new(alloc, DropSilent)?)?;
    assert_eq!(rt; asked(&rt, passes)?, 3);
    Ok(())
}

#[test]
fn what_is_silent_of_an_entry_is_told_piece_by_piece(rt: HostRuntime) -> Result<(), Fail> {
    let mut samples = one_side();
    let silent = silent_of(rt.alloc(), &intervals(&rt, &entry()?)?, &mut samples)?;
    assert_eq!(rt; silent.as_slice(), [false, true, false].as_slice());
    assert_eq!(rt; samples.asked, 3);
    Ok(())
}
