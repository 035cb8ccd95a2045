// Changes to the marks file, each followed by a sync.
ghost use Rattle.std.specs.Prelude.{◌≡◌, ◌≢◌, IsTrue, List, OnOk, Some, ⊤, [], ◌++◌, ℕ, length};
ghost use Rattle.work_terms.specs.Disk.{Changes, Files, IsDurable, IsPending, IsTorn, IsTornBehind, IsWritten, LeavesOnly, end_of};
ghost use Rattle.devices.specs.Frame.{OnlyWrites};
ghost use Rattle.markfile.specs.Format.{marks_name};
ghost use Rattle.markfile.specs.Started.{IsAfter};

use crate::MARKS;
use devices::{Bench, DeviceFault};

/// Creates or truncates the file and syncs it.
pub fn create_synced<B: Bench>(bench: &mut B) -> Result<(), DeviceFault>
    ensures created { IsTrue (B.honest bench.old) → OnOk result (B.stored bench.new marks_name ≡ Some []) }
    ensures durable { IsTrue (B.honest bench.old)
        → OnOk result (IsDurable marks_name (B.stored bench.new) (B.may_leave bench.new)) }
    ensures crash { (c : Files) → B.may_leave bench.new c → IsAfter (B.may_leave bench.old) IsPending c }
    ensures moments { LeavesOnly B.moment B.left_since bench.old bench.new
        (IsAfter (B.may_leave bench.old) IsPending) }
    ensures only_writes { OnlyWrites B.Bench (λ n. n ≢ marks_name) bench.old bench.new result (λ _. ⊤)
        (λ _ failed. failed marks_name) }
{
    match bench.create(MARKS) {
        Ok(()) => {}
        Err(fault) => return Err(fault),
    }
    bench.sync(MARKS)
}

/// Appends the bytes and syncs the file.
pub fn append_synced<B: Bench>(bench: &mut B, bytes: &[u8]) -> Result<(), DeviceFault>
    ensures appended { IsTrue (B.honest bench.old) → (file : List ℕ) → B.stored bench.old marks_name ≡ Some file
        → OnOk result (B.stored bench.new marks_name ≡ Some (file ++ bytes.now)) }
    ensures durable { IsTrue (B.honest bench.old)
        → OnOk result (IsDurable marks_name (B.stored bench.new) (B.may_leave bench.new)) }
    ensures crash { (c : Files) → B.may_leave bench.new c → IsAfter (B.may_leave bench.old)
        (IsTornBehind (end_of (B.stored bench.old marks_name)) (length bytes.now)) c }
    ensures moments { LeavesOnly B.moment B.left_since bench.old bench.new (IsAfter (B.may_leave bench.old)
        (IsTornBehind (end_of (B.stored bench.old marks_name)) (length bytes.now))) }
    ensures only_writes { OnlyWrites B.Bench (λ n. n ≢ marks_name) bench.old bench.new result (λ _. ⊤)
        (λ _ failed. failed marks_name) }
{
    match bench.append(MARKS, bytes) {
        Ok(()) => {}
        Err(fault) => return Err(fault),
    }
    bench.sync(MARKS)
}

/// Overwrites the bytes from offset `at` on and syncs the file.
pub fn write_synced<B: Bench>(bench: &mut B, at: u64, bytes: &[u8]) -> Result<(), DeviceFault>
    ensures written { IsTrue (B.honest bench.old)
        → OnOk result (Changes (IsWritten at bytes.now) marks_name (B.stored bench.old) (B.stored bench.new)) }
    ensures durable { IsTrue (B.honest bench.old)
        → OnOk result (IsDurable marks_name (B.stored bench.new) (B.may_leave bench.new)) }
    ensures crash { (c : Files) → B.may_leave bench.new c
        → IsAfter (B.may_leave bench.old) (IsTorn at (length bytes.now)) c }
    ensures moments { LeavesOnly B.moment B.left_since bench.old bench.new
        (IsAfter (B.may_leave bench.old) (IsTorn at (length bytes.now))) }
    ensures only_writes { OnlyWrites B.Bench (λ n. n ≢ marks_name) bench.old bench.new result (λ _. ⊤)
        (λ _ failed. failed marks_name) }
{
    match bench.write_at(MARKS, at, bytes) {
        Ok(()) => {}
        Err(fault) => return Err(fault),
    }
    bench.sync(MARKS)
}
