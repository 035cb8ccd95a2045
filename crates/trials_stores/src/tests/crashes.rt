// State of outputs in memory after a crash.
use crate::tests::calls::{Call, made};
use shelf::{Bench, MemoryBench, ShelfFault};
use std::alloc::{AllocError, Global};
use std::test::Fail;

/// One file that is synced, then overwritten and extended, and another that is created and never
/// synced.
const WORKED: [Call; 7] = [
    Call::Create("A.wav"),
    Call::Append("A.wav", &[1, 2, 3, 4]),
    Call::Sync("A.wav"),
    Call::Write("A.wav", 1, &[20, 30]),
    Call::Append("A.wav", &[5, 6]),
    Call::Create("B.wav"),
    Call::Append("B.wav", &[7]),
];

/// A file that is synced and then created again.
const CREATED: [Call; 4] = [
    Call::Create("A.wav"),
    Call::Append("A.wav", &[1, 2, 3, 4]),
    Call::Sync("A.wav"),
    Call::Create("A.wav"),
];

/// A file that is synced, created again, and extended.
const FILLED: [Call; 5] = [
    Call::Create("A.wav"),
    Call::Append("A.wav", &[1, 2, 3, 4]),
    Call::Sync("A.wav"),
    Call::Create("A.wav"),
    Call::Append("A.wav", &[8, 9]),
];

const BOTH_SYNCED: [Call; 2] = [Call::Sync("A.wav"), Call::Sync("B.wav")];

/// The content of `A.wav` and of `B.wav`.
type Files = (Option<&'static [u8]>, Option<&'static [u8]>);

/// Returns whether the output has exactly these files.
fn has_files(bench: &MemoryBench, want: Files) -> bool {
    (bench.bytes("A.wav"), bench.bytes("B.wav")) == want
}

/// Returns an output after the given calls.
fn worked(alloc: Global, calls: &[Call]) -> MemoryBench {
    let mut bench = MemoryBench::new(alloc);
    made(&mut bench, calls);
    bench
}

/// Calls, the number of bytes kept of each unsynced call, the fill for the other bytes, and the
/// expected files.
type Crash = (&'static [Call], u64, u8, Files);

const CRASHES: [Crash; 11] = [
    (&WORKED, 0, 0, (Some(&[1, 0, 0, 4, 0, 0]), None)),
    (&WORKED, 0, 1, (Some(&[1, 1, 1, 4, 1, 1]), None)),
    (&WORKED, 0, 7, (Some(&[1, 7, 7, 4, 7, 7]), None)),
    (&WORKED, 1, 0, (Some(&[1, 20, 0, 4, 5, 0]), Some(&[7]))),
    (&WORKED, 1, 7, (Some(&[1, 20, 7, 4, 5, 7]), Some(&[7]))),
    (
        &WORKED,
        u64::MAX,
        0,
        (Some(&[1, 20, 30, 4, 5, 6]), Some(&[7])),
    ),
    (
        &WORKED,
        u64::MAX,
        7,
        (Some(&[1, 20, 30, 4, 5, 6]), Some(&[7])),
    ),
    // a file created again has its old content or is empty
    (&CREATED, 0, 7, (Some(&[1, 2, 3, 4]), None)),
    (&CREATED, 1, 7, (Some(&[]), None)),
    (&FILLED, 0, 7, (Some(&[7, 7, 3, 4]), None)),
    (&FILLED, 1, 7, (Some(&[8, 7]), None)),
];

/// Returns whether a crash leaves the expected files and resets the counters.
fn leaves(alloc: Global, case: &Crash) -> Result<bool, AllocError> {
    let (calls, kept, fill, want) = *case;
    let bench = worked(alloc, calls).after_crash(kept, fill)?;
    Ok(has_files(&bench, want) & (bench.failures() == 0) & (bench.calls() == 0))
}

#[test]
fn a_crash_loses_what_is_not_synced(rt: HostRuntime) -> Result<(), Fail> {
    for case in &CRASHES {
        assert!(rt; leaves(rt.alloc(), case)?, "{}, {}", case.1, case.2);
    }
    Ok(())
}

#[test]
fn what_is_synced_stays(rt: HostRuntime) -> Result<(), Fail> {
    let mut bench = worked(rt.alloc(), &WORKED);
    made(&mut bench, &BOTH_SYNCED);
    assert_eq!(rt; bench.calls(), 9);
    let bench = bench.after_crash(0, 7)?;
    let want: Files = (Some(&[1, 20, 30, 4, 5, 6]), Some(&[7]));
    assert!(rt; has_files(&bench, want));
    Ok(())
}

/// Calls after a crash; the last one isn't synced.
const GONE_ON: [Call; 3] = [
    Call::Append("A.wav", &[8]),
    Call::Sync("A.wav"),
    Call::Write("B.wav", 0, &[9]),
];

#[test]
fn a_bench_goes_on_after_a_crash(rt: HostRuntime) -> Result<(), Fail> {
    let mut bench = worked(rt.alloc(), &WORKED).after_crash(1, 7)?;
    assert_eq!(rt; made(&mut bench, &GONE_ON), 3);
    let again = bench.after_crash(0, 0)?;
    let want: Files = (Some(&[1, 20, 7, 4, 5, 7, 8]), Some(&[0]));
    assert!(rt; has_files(&again, want));
    Ok(())
}

/// An interrupted output.
#[derive(Clone, Copy)]
struct Stop {
    /// Calls made before, which succeed.
    before: &'static [Call],
    /// Number of successful calls in `behind`, and number of bytes written by the next one.
    at: u64,
    part: u64,
    behind: &'static [Call],
    files: Files,
    /// Number of bytes kept of each unsynced call in a crash, and the files after it.
    kept: u64,
    left: Files,
}

/// Six calls; those after the interruption fail.
const APPENDED: [Call; 6] = [
    Call::Create("A.wav"),
    Call::Append("A.wav", &[1, 2]),
    Call::Sync("A.wav"),
    Call::Append("A.wav", &[3, 4]),
    Call::Append("A.wav", &[5]),
    Call::Create("B.wav"),
];

const SYNCED: [Call; 2] = [Call::Sync("B.wav"), Call::Append("B.wav", &[8])];

/// Appending zeros is one call, which can be interrupted after the first zeros.
const LAID_OUT: [Call; 3] = [
    Call::Create("A.wav"),
    Call::Append("A.wav", &[1]),
    Call::Zeros("A.wav", 5000),
];

/// An append, interrupted after one byte that the crash drops.
const IN_APPEND: Stop = Stop {
    before: &[],
    at: 3,
    part: 1,
    behind: &APPENDED,
    files: (Some(&[1, 2, 3]), None),
    kept: 0,
    left: (Some(&[1, 2, 0]), None),
};

/// The creation of a file, interrupted after the file exists; the crash keeps it.
const IN_CREATE: Stop = Stop {
    before: &[],
    at: 0,
    part: 1,
    behind: &[Call::Create("A.wav")],
    files: (Some(&[]), None),
    kept: 1,
    left: (Some(&[]), None),
};

const STOPS: [Stop; 8] = [
    Stop {
        before: &[],
        at: 2,
        part: 2,
        behind: &LAID_OUT,
        files: (Some(&[1, 0, 0]), None),
        kept: 1,
        left: (Some(&[1, 0, 0]), None),
    },
    Stop {
        part: 0,
        files: (Some(&[1, 2]), None),
        left: (Some(&[1, 2]), None),
        ..IN_APPEND
    },
    IN_APPEND,
    Stop {
        part: 9,
        files: (Some(&[1, 2, 3, 4]), None),
        left: (Some(&[1, 2, 0, 0]), None),
        ..IN_APPEND
    },
    Stop {
        part: 0,
        files: (None, None),
        left: (None, None),
        ..IN_CREATE
    },
    Stop {
        kept: 0,
        left: (None, None),
        ..IN_CREATE
    },
    IN_CREATE,
    Stop {
        before: &WORKED,
        at: 0,
        part: 5,
        behind: &SYNCED,
        files: (Some(&[1, 20, 30, 4, 5, 6]), Some(&[7])),
        kept: u64::MAX,
        left: (Some(&[1, 20, 30, 4, 5, 6]), Some(&[7])),
    },
];

/// Returns whether the expected number of calls succeeds and leaves the expected files, before and
/// after a crash.
fn stops(alloc: Global, stop: &Stop) -> Result<bool, AllocError> {
    let mut bench = worked(alloc, stop.before).stop_at(stop.at, stop.part);
    let count = made(&mut bench, stop.behind) as u64;
    let is_stopped = (count == stop.at) & (bench.length("A.wav") == Err(ShelfFault::Device));
    let is_left = has_files(&bench, stop.files);
    let bench = bench.after_crash(stop.kept, 0)?;
    Ok(is_stopped & is_left & has_files(&bench, stop.left))
}

#[test]
fn a_stopped_bench_writes_a_part_and_nothing_more(rt: HostRuntime) -> Result<(), Fail> {
    for stop in &STOPS {
        assert!(rt;
            stops(rt.alloc(), stop)?,
            "{} of call {}",
            stop.part,
            stop.at
        );
    }
    Ok(())
}
