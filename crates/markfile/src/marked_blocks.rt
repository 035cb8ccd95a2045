// Setting of marks.
ghost use Rattle.std.specs.Prelude.{◌≢◌, ◌+◌, ◌-◌, ◌^◌, ◌<◌, ◌≤◌, ◌∷◌, [], ℕ, IfErr, IsTrue, List, OnOk, replicate, ⊤};
ghost use Rattle.work_terms.specs.Disk.{Changes, Files, IsDurable, IsTorn, IsWritten, LeavesOnly};
ghost use Rattle.devices.specs.Frame.{OnlyWrites};
ghost use Rattle.markfile.specs.Fault.{FailsAtMarks, WritesMarks};
ghost use Rattle.markfile.specs.Format.{marks_name};
ghost use Rattle.markfile.specs.Started.{AreSet, IsAfter, IsSet, Lasts, LeavesMark, LeavesMarks};
ghost use Rattle.markfile.specs.declared.run.RunId.{RunId};

use crate::front::FRONT;
use crate::synced::write_synced;
use crate::{MarkFault, MarkedFile};
use devices::{Bench, DeviceFault};

/// The maximum number of marks that one call sets.
pub const MOST_AT_ONCE: usize = 2048;

/// Writes `count` marks from offset `at` on and syncs them.
fn write_ones<B: Bench>(bench: &mut B, at: u64, count: usize) -> Result<(), DeviceFault>
    requires { count ≤ 2048 }
    ensures written { IsTrue (B.honest bench.old)
        → OnOk result (Changes (IsWritten at (replicate count 1)) marks_name
        (B.stored bench.old) (B.stored bench.new)) }
    ensures durable { IsTrue (B.honest bench.old)
        → OnOk result (IsDurable marks_name (B.stored bench.new) (B.may_leave bench.new)) }
    ensures crash { (c : Files) → B.may_leave bench.new c → IsAfter (B.may_leave bench.old) (IsTorn at count) c }
    ensures moments { LeavesOnly B.moment B.left_since bench.old bench.new
        (IsAfter (B.may_leave bench.old) (IsTorn at count)) }
    ensures only_writes { OnlyWrites B.Bench (λ n. n ≢ marks_name) bench.old bench.new result (λ _. ⊤)
        (λ _ failed. failed marks_name) }
{
    let ones = [1; MOST_AT_ONCE];
    write_synced(bench, at, &ones[..count])
}

/// Sets the marks of the blocks from `from` up to but not including `end`.
#[tactic(auto, using(crate::proofs::Torn::moments_set, crate::proofs::Torn::outcome_set))]
fn set_marks<B: Bench>(bench: &mut B, from: u64, end: u64) -> Result<(), MarkFault>
    requires order { from ≤ end }
    requires few { end - from ≤ 2048 }
    requires numbered { end ≤ 2 ^ 32 }
    ensures written { IsTrue (B.honest bench.old)
        → OnOk result (Changes (IsWritten (44 + from) (replicate (end - from) 1)) marks_name
        (B.stored bench.old) (B.stored bench.new)) }
    ensures marked { IsTrue (B.honest bench.old) → (run : RunId) (marks : List ℕ)
        → Lasts B.Bench run marks bench.old → end ≤ run.blocks
        → OnOk result ((now : List ℕ) × AreSet run from end marks now × Lasts B.Bench run now bench.new) }
    ensures any_moment { IsTrue (B.honest bench.old) → (run : RunId) (marks : List ℕ)
        → Lasts B.Bench run marks bench.old
        → LeavesOnly B.moment B.left_since bench.old bench.new
        (LeavesMarks run from end marks (B.may_leave bench.old)) }
    ensures crash { IsTrue (B.honest bench.old) → (run : RunId) (marks : List ℕ)
        → Lasts B.Bench run marks bench.old
        → (c : Files) → B.may_leave bench.new c → LeavesMarks run from end marks (B.may_leave bench.old) c }
    ensures fault { IfErr result FailsAtMarks }
    ensures only_writes { WritesMarks B.Bench bench.old bench.new result }
{
    match write_ones(bench, FRONT as u64 + from, (end - from) as usize) {
        Ok(()) => return Ok(()),
        Err(_) => {
            return Err(MarkFault::Device {
                file: MarkedFile::Marks,
            });
        }
    }
}

/// Sets the marks of the blocks from `from` up to but not including `end` with one write, and syncs them. The bytes of
/// these blocks must already be on the disk.
///
/// Returns `Device` if writing the marks fails; any of these marks may be set then.
pub fn mark_all<B: Bench>(bench: &mut B, from: u32, end: u32) -> Result<(), MarkFault>
    requires order { from ≤ end }
    requires few { end - from ≤ 2048 }
    ensures written { IsTrue (B.honest bench.old)
        → OnOk result (Changes (IsWritten (44 + from) (replicate (end - from) 1)) marks_name
        (B.stored bench.old) (B.stored bench.new)) }
    ensures marked { IsTrue (B.honest bench.old) → (run : RunId) (marks : List ℕ)
        → Lasts B.Bench run marks bench.old → end ≤ run.blocks
        → OnOk result ((now : List ℕ) × AreSet run from end marks now × Lasts B.Bench run now bench.new) }
    ensures any_moment { IsTrue (B.honest bench.old) → (run : RunId) (marks : List ℕ)
        → Lasts B.Bench run marks bench.old
        → LeavesOnly B.moment B.left_since bench.old bench.new
        (LeavesMarks run from end marks (B.may_leave bench.old)) }
    ensures crash { IsTrue (B.honest bench.old) → (run : RunId) (marks : List ℕ)
        → Lasts B.Bench run marks bench.old
        → (c : Files) → B.may_leave bench.new c → LeavesMarks run from end marks (B.may_leave bench.old) c }
    ensures fault { IfErr result FailsAtMarks }
    ensures only_writes { WritesMarks B.Bench bench.old bench.new result }
{
    set_marks(bench, from as u64, end as u64)
}

/// Sets the mark of one block and syncs it. The bytes of the block must already be on the disk.
///
/// Returns `Device` if writing the marks fails; the mark may or may not be set then.
pub fn mark<B: Bench>(bench: &mut B, block: u32) -> Result<(), MarkFault>
    ensures written { IsTrue (B.honest bench.old)
        → OnOk result (Changes (IsWritten (44 + block) (1 ∷ [])) marks_name
        (B.stored bench.old) (B.stored bench.new)) }
    ensures marked { IsTrue (B.honest bench.old) → (run : RunId) (marks : List ℕ)
        → Lasts B.Bench run marks bench.old → block < run.blocks
        → OnOk result ((now : List ℕ) × IsSet run block marks now × Lasts B.Bench run now bench.new) }
    ensures any_moment { IsTrue (B.honest bench.old) → (run : RunId) (marks : List ℕ)
        → Lasts B.Bench run marks bench.old
        → LeavesOnly B.moment B.left_since bench.old bench.new
        (LeavesMark run block marks (B.may_leave bench.old)) }
    ensures crash { IsTrue (B.honest bench.old) → (run : RunId) (marks : List ℕ)
        → Lasts B.Bench run marks bench.old
        → (c : Files) → B.may_leave bench.new c → LeavesMark run block marks (B.may_leave bench.old) c }
    ensures fault { IfErr result FailsAtMarks }
    ensures only_writes { WritesMarks B.Bench bench.old bench.new result }
{
    set_marks(bench, block as u64, block as u64 + 1)
}
