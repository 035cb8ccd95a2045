// Opening of existing marks.
ghost use Rattle.std.specs.Prelude.{◌≡◌, ◌+◌, ◌==◌, ◌≢◌, ◌≤◌, IsTrue, IfErr, IfOk, OnOk, IfSome, ℕ, List, Some, drop, length, map};
ghost use Rattle.work_terms.specs.Disk.{Files};
ghost use Rattle.markfile.specs.Fault.{ReadsMarks, number_of};
ghost use Rattle.markfile.specs.Format.{marks_name};
ghost use Rattle.markfile.specs.Opened.{Answers, AreFound, AreSettled, Settles, marks_in, opened_of};

use crate::front::{FRONT, OPEN, front_fault, read_front};
use crate::settled::{Sizes, settle_both};
use crate::{MARKS, MarkFault, MarkedFile, RunId};
use devices::Bench;
use std::alloc::{AllocError, Global};

/// The state of each block of a rendering: true if the block is on the disk.
#[derive(Debug, Drop)]
pub struct Marks {
    pub marked: Vec<bool>,
}

/// Decodes marks from their bytes.
fn marks_among(alloc: Global, bytes: &[u8]) -> Result<Vec<bool>, AllocError>
    ensures { IfOk result (λ marked. marked.items ≡ map (λ byte. byte == 1) bytes.now) }
{
    bytes.iter().map(|byte| *byte == 1).collect(alloc)
}

/// Reads the marks of all blocks.
fn read_marked<B: Bench>(alloc: Global, bench: &mut B, blocks: u32) -> Result<Marks, MarkFault>
    ensures marked { IsTrue (B.honest bench.old) → (marks : List ℕ) → B.stored bench.old marks_name ≡ Some marks
        → length marks ≡ 44 + blocks
        → IfOk result (λ read. read.marked.items ≡ map (λ byte. byte == 1) (drop 44 marks)) }
    ensures count { IfOk result (λ read. length read.marked.items ≡ blocks) }
    ensures due { IfErr result (λ fault. (fault ≢ MarkFault.BadMarks) × (fault ≢ MarkFault.OtherRun)) }
    ensures untouched { Settles B.Bench bench.old bench.new }
    ensures only_reads { ReadsMarks B.Bench bench.old bench.new result }
{
    let Ok(mut bytes) = vec![in alloc; 0; blocks as usize] else {
        return Err(MarkFault::Memory);
    };
    match bench.read_at(MARKS, FRONT as u64, bytes.as_mut_slice()) {
        Ok(()) => {}
        Err(_) => return Err(MarkFault::Device {
            file: MarkedFile::Marks,
        }),
    }
    match marks_among(alloc, bytes.as_slice()) {
        Ok(marked) => return Ok(Marks { marked }),
        Err(_) => return Err(MarkFault::Memory),
    }
}

/// Reads marks of the given length, at least 44 bytes. Returns `None` if they aren't started.
fn read_marks<B: Bench>(
    alloc: Global,
    bench: &mut B,
    run: &RunId,
    size: u64,
    sound: Option<u64>,
) -> Result<Option<Marks>, MarkFault>
    ensures found { IsTrue (B.honest bench.old) → (marks : List ℕ) → B.stored bench.old marks_name ≡ Some marks
        → length marks ≡ size → 44 ≤ size → Answers result (marks_in run.now sound marks) }
    ensures each { IfOk result (λ found. IfSome found (λ marks. length marks.marked.items ≡ run.now.blocks)) }
    ensures untouched { Settles B.Bench bench.old bench.new }
    ensures only_reads { ReadsMarks B.Bench bench.old bench.new result }
{
    let front = match read_front(bench) {
        Ok(front) => front,
        Err(fault) => return Err(fault),
    };
    if front[0] != OPEN {
        return Ok(None);
    }
    if let Some(fault) = front_fault(run, &front, size, sound) {
        return Err(fault);
    }
    match read_marked(alloc, bench, run.blocks) {
        Ok(marks) => return Ok(Some(marks)),
        Err(fault) => return Err(fault),
    }
}

/// Opens the marks of an earlier run, after syncing the rendered file and the marks if they exist, so that nothing is
/// pending for either. Nothing is written.
///
/// Returns `None` if the marks aren't started: the file doesn't exist, is shorter than 44 bytes, or its first byte
/// isn't 1. Otherwise returns the first error that applies:
///
/// 1. `BadMarks` if the file isn't a file of marks.
/// 2. `OtherRun` if the marks belong to another run.
/// 3. `BadMarks` if the number of blocks or the length of the marks is wrong, or the rendered file is missing or has
///   the wrong length.
///
/// Returns `Device` if a file can't be synced or read, and `Memory` if out of memory.
pub fn open_marks<B: Bench>(
    alloc: Global,
    bench: &mut B,
    run: &RunId,
) -> Result<Option<Marks>, MarkFault>
    ensures found { IsTrue (B.honest bench.old) → Answers result (opened_of run.now (B.stored bench.old)) }
    ensures each { IfOk result (λ found. IfSome found (λ marks. length marks.marked.items ≡ run.now.blocks)) }
    ensures whole { IsTrue (B.honest bench.old) → IfOk result (λ found. IfSome found (λ marks.
        AreFound run.now (B.stored bench.old) marks.marked.items)) }
    ensures settled { IsTrue (B.honest bench.old) → OnOk result ((c : Files) → B.may_leave bench.new c
        → AreSettled (B.stored bench.new) c) }
    ensures untouched { Settles B.Bench bench.old bench.new }
    ensures only_reads { ReadsMarks B.Bench bench.old bench.new result }
{
    let sizes = match settle_both(bench) {
        Ok(sizes) => sizes,
        Err(fault) => return Err(fault),
    };
    match sizes.marks {
        Some(size) if size >= FRONT as u64 => read_marks(alloc, bench, run, size, sizes.sound),
        _ => Ok(None),
    }
}
