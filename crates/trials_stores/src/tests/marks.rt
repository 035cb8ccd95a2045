// Marks of a rendering in memory.
use markfile::{MarkFault, MarkedFile, RunId, mark, mark_all, open_marks, start};
use shelf::{Bench, MemoryBench};
use std::alloc::Global;
use std::test::Fail;

/// A rendering of six blocks to a file of three bytes.
const RUN: RunId = RunId {
    digest: [9; 32],
    blocks: 6,
    length: 3,
};

/// The same rendering for another list.
const OTHER: RunId = RunId {
    digest: [8; 32],
    blocks: 6,
    length: 3,
};

/// The bytes before the block marks: the gate, the signature, the run, and the number of blocks.
const FRONT: [u8; 44] = [
    1, b'A', b'D', b'L', b'M', b'R', b'K', b'1', 9, 9, 9, 9, 9, 9, 9, 9, 9, 9, 9, 9, 9, 9, 9, 9, 9,
    9, 9, 9, 9, 9, 9, 9, 9, 9, 9, 9, 9, 9, 9, 9, 6, 0, 0, 0,
];

/// Returns whether the marks belong to the run and have the given block marks.
fn are_marks(bench: &MemoryBench, blocks: &[u8]) -> bool {
    let Some(bytes) = bench.bytes("render.marks") else {
        return false;
    };
    (bytes.get(..44) == Some(FRONT.as_slice())) & (bytes.get(44..) == Some(blocks))
}

/// Returns the marked blocks, none if there are no marks.
fn found(alloc: Global, bench: &mut MemoryBench, run: &RunId) -> Result<[bool; 6], MarkFault> {
    let Some(marks) = open_marks(alloc, bench, run)? else {
        return Ok([false; 6]);
    };
    let mut all = [false; 6];
    for (mark, is_set) in all.iter_mut().zip(marks.marked.iter()) {
        *mark = *is_set;
    }
    Ok(all)
}

#[test]
fn blocks_are_marked_one_by_one_and_together(rt: HostRuntime) -> Result<(), Fail> {
    let mut bench = MemoryBench::new(rt.alloc());
    assert!(rt; bench.create("render.wav").is_ok() & bench.append("render.wav", &[7; 3]).is_ok());
    assert!(rt; start(rt.alloc(), &mut bench, &RUN).is_ok() & are_marks(&bench, &[0; 6]));
    assert!(rt; mark(&mut bench, 4).is_ok() & are_marks(&bench, &[0, 0, 0, 0, 1, 0]));
    assert!(rt; mark_all(&mut bench, 0, 2).is_ok() & are_marks(&bench, &[1, 1, 0, 0, 1, 0]));
    let want = [true, true, false, false, true, false];
    assert!(rt; found(rt.alloc(), &mut bench, &RUN) == Ok(want));
    assert!(rt; found(rt.alloc(), &mut bench, &OTHER) == Err(MarkFault::OtherRun));
    let crashed = bench.after_crash(0, 7)?;
    assert!(rt; are_marks(&crashed, &[1, 1, 0, 0, 1, 0]));
    Ok(())
}

const FAILED: Result<(), MarkFault> = Err(MarkFault::Device {
    file: MarkedFile::Marks,
});

/// Returns whether a failure of this call is reported at the marks.
fn fails_at(alloc: Global, call: u64) -> bool {
    let mut bench = MemoryBench::new(alloc).failing(call, 1);
    let started = start(alloc, &mut bench, &RUN);
    let marked = mark(&mut bench, 5);
    (if call < 8 { started } else { marked }) == FAILED
}

#[test]
fn a_device_that_fails_is_reported_at_the_marks(rt: HostRuntime) -> Result<(), Fail> {
    for call in 0..10 {
        assert!(rt; fails_at(rt.alloc(), call), "{call}");
    }
    assert!(rt; FAILED.is_err_and(|fault| fault.number() == 62));
    Ok(())
}
