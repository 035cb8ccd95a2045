// Marks of a rendering.
use markfile::{
    FreshMarks, MarkFault, MarkedFile, Marks, RunId, RunRange, mark, mark_all, open_marks, start,
    start_fresh,
};
use shelf::{Bench, DeviceFault};
use std::alloc::{AllocError, Global};

/// Returns the identity of a rendering: list, range, number of blocks and file length.
pub fn run_of(list: &[u8], range: &RunRange, blocks: u32, length: u64) -> RunId {
    RunId::new(list, range, blocks, length)
}

/// Creates the marks of a run; sets the first mark, and then the next seven.
pub fn marked<B: Bench>(alloc: Global, bench: &mut B, run: &RunId) -> Result<(), MarkFault> {
    start(alloc, bench, run)?;
    mark(bench, 0)?;
    mark_all(bench, 1, 8)
}

/// Returns marks of a run in memory, to be written later.
pub fn fresh_marks(alloc: Global, run: &RunId) -> Result<FreshMarks, AllocError> {
    FreshMarks::of(alloc, run)
}

/// Writes new marks without allocating.
pub fn started<B: Bench>(bench: &mut B, fresh: &FreshMarks) -> Result<(), DeviceFault> {
    start_fresh(bench, fresh)
}

/// Returns the marks of a run, one flag per block, or `None` if there are no marks.
pub fn marked_before<B: Bench>(
    alloc: Global,
    bench: &mut B,
    run: &RunId,
) -> Result<Option<Vec<bool>>, MarkFault> {
    let found: Option<Marks> = open_marks(alloc, bench, run)?;
    Ok(found.map(|marks| marks.marked))
}

/// Returns the number of an error, and the file on which the device failed.
pub fn number_and_file(fault: &MarkFault) -> (u8, Option<MarkedFile>) {
    let file = match fault {
        MarkFault::Device { file } => Some(*file),
        MarkFault::OtherRun | MarkFault::BadMarks | MarkFault::Memory => None,
    };
    (fault.number(), file)
}
