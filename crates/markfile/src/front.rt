// The front of a marks file, and the run it belongs to.
ghost use Rattle.std.specs.Prelude.{◌≡◌, ◌≢◌, codes, IsTrue, IfErr, IfOk, IfSome, ℕ, List, Some, take};
ghost use Rattle.sound_terms.specs.Chunks.{stands_at};
ghost use Rattle.work_terms.specs.Disk.{IsUntouched};
ghost use Rattle.markfile.specs.Fault.{ReadsMarks, number_of};
ghost use Rattle.markfile.specs.Format.{marks_name};
ghost use Rattle.markfile.specs.Opened.{fits_run, front_fault};

use crate::fields::bytes_of_u32;
use crate::settled::Sizes;
use crate::{MARKS, MarkFault, MarkedFile, RunId};
use devices::Bench;

/// The length of the front.
pub const FRONT: usize = 44;

/// The gate byte of marks that aren't started, and of marks that are.
pub const SHUT: u8 = 0;

pub const OPEN: u8 = 1;

/// Returns true if the front is one of a marks file.
fn is_of_marks(front: &[u8; 44]) -> bool
    ensures { result ≡ stands_at (codes "ADLMRK1") 1 front.now }
{
    front[1..].starts_with(b"ADLMRK1")
}

/// Returns true if the front belongs to this run.
fn is_of_run(run: &RunId, front: &[u8; 44]) -> bool
    ensures { result ≡ stands_at run.now.digest 8 front.now }
{
    front[8..].starts_with(&run.digest)
}

/// Returns true if the number of blocks in the front and the lengths of both files match the run.
fn fits_run(run: &RunId, front: &[u8; 44], marks: u64, sound: Option<u64>) -> bool
    ensures { result ≡ fits_run run.now front.now marks sound }
{
    front[40..].starts_with(&bytes_of_u32(run.blocks))
        && marks == FRONT as u64 + u64::from(run.blocks)
        && sound == Some(run.length)
}

/// Returns the reason why a run can't resume with marks that have this front, or `None` if it can.
pub fn front_fault(
    run: &RunId,
    front: &[u8; 44],
    marks: u64,
    sound: Option<u64>,
) -> Option<MarkFault>
    ensures fault { result ≡ front_fault run.now front.now marks sound }
    ensures no_device { IfSome result (λ fault. number_of fault ≢ 62) }
{
    if !is_of_marks(front) {
        return Some(MarkFault::BadMarks);
    }
    if !is_of_run(run, front) {
        return Some(MarkFault::OtherRun);
    }
    if !fits_run(run, front, marks, sound) {
        return Some(MarkFault::BadMarks);
    }
    None
}

/// Reads the front of marks that are at least 44 bytes long. Returns `Device` if the read fails.
pub fn read_front<B: Bench>(bench: &mut B) -> Result<[u8; 44], MarkFault>
    ensures front { IsTrue (B.honest bench.old) → (marks : List ℕ) → B.stored bench.old marks_name ≡ Some marks
        → IfOk result (λ front. front ≡ take 44 marks) }
    ensures device { IfErr result (λ fault. fault ≡ MarkFault.Device MarkedFile.Marks) }
    ensures untouched { IsUntouched B.stored B.may_leave B.moment B.left_since bench.old bench.new }
    ensures only_reads { ReadsMarks B.Bench bench.old bench.new result }
{
    let mut front = [0; FRONT];
    match bench.read_at(MARKS, 0, &mut front) {
        Ok(()) => return Ok(front),
        Err(_) => return Err(MarkFault::Device {
            file: MarkedFile::Marks,
        }),
    }
}
