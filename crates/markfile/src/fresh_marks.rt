// Starting the marks of a new run.
ghost use Rattle.std.specs.Prelude.{◌≡◌, ◌≢◌, ◌⊎◌, ◌∷◌, Err, IfErr, IsTrue, OnOk, ⊤};
ghost use Rattle.work_terms.specs.Disk.{Files, LeavesOnly};
ghost use Rattle.devices.specs.Frame.{OnlyWrites};
ghost use Rattle.markfile.specs.Fault.{WritesMarks};
ghost use Rattle.markfile.specs.Format.{AreFresh, fresh_marks, marks_name};
ghost use Rattle.markfile.specs.Started.{Holds, LeavesStart, LeavesUnstarted, NoneStarted};

use crate::front::{OPEN, SHUT};
use crate::synced::{append_synced, create_synced, write_synced};
use crate::{FreshMarks, MarkFault, MarkedFile, RunId};
use devices::{Bench, DeviceFault};
use std::alloc::Global;

/// Writes the file with its gate shut, followed by `rest`.
fn lay<B: Bench>(bench: &mut B, rest: &[u8]) -> Result<(), DeviceFault>
    ensures made { IsTrue (B.honest bench.old) → OnOk result (Holds B.Bench (0 ∷ rest.now) bench.new) }
    ensures any_moment { IsTrue (B.honest bench.old) → NoneStarted (B.may_leave bench.old)
        → LeavesOnly B.moment B.left_since bench.old bench.new (LeavesUnstarted (B.may_leave bench.old)) }
    ensures crash { IsTrue (B.honest bench.old) → NoneStarted (B.may_leave bench.old)
        → (c : Files) → B.may_leave bench.new c → LeavesUnstarted (B.may_leave bench.old) c }
    ensures only_writes { OnlyWrites B.Bench (λ n. n ≢ marks_name) bench.old bench.new result (λ _. ⊤)
        (λ _ failed. failed marks_name) }
{
    create_synced(bench)?;
    append_synced(bench, &[SHUT])?;
    append_synced(bench, rest)
}

/// Writes the file of new marks, without allocating. The gate is opened last, when everything after it is on the disk:
/// if the earlier marks weren't started, a crash leaves marks that are complete or not started.
///
/// Returns `DeviceFault` if writing the marks fails; no block is marked then.
pub fn start_fresh<B: Bench>(bench: &mut B, fresh: &FreshMarks) -> Result<(), DeviceFault>
    ensures started { IsTrue (B.honest bench.old) → OnOk result (Holds B.Bench (fresh_marks fresh.now) bench.new) }
    ensures any_moment { IsTrue (B.honest bench.old) → NoneStarted (B.may_leave bench.old)
        → LeavesOnly B.moment B.left_since bench.old bench.new (LeavesStart fresh.now (B.may_leave bench.old)) }
    ensures crash { IsTrue (B.honest bench.old) → NoneStarted (B.may_leave bench.old)
        → (c : Files) → B.may_leave bench.new c → LeavesStart fresh.now (B.may_leave bench.old) c }
    ensures only_writes { OnlyWrites B.Bench (λ n. n ≢ marks_name) bench.old bench.new result (λ _. ⊤)
        (λ _ failed. failed marks_name) }
    ensures fresh { AreFresh fresh.now (fresh_marks fresh.now) }
{
    match lay(bench, fresh.rest.as_slice()) {
        Ok(()) => {}
        Err(fault) => return Err(fault),
    }
    write_synced(bench, 0, &[OPEN])
}

/// Creates and writes the file of new marks of a run, none of them set.
///
/// Returns `Memory` if out of memory; nothing has been written then. Returns `Device` if writing the marks fails; no
/// block is marked then.
pub fn start<B: Bench>(alloc: Global, bench: &mut B, run: &RunId) -> Result<(), MarkFault>
    ensures started { IsTrue (B.honest bench.old) → OnOk result (Holds B.Bench (fresh_marks run.now) bench.new) }
    ensures any_moment { IsTrue (B.honest bench.old) → NoneStarted (B.may_leave bench.old)
        → LeavesOnly B.moment B.left_since bench.old bench.new (LeavesStart run.now (B.may_leave bench.old)) }
    ensures crash { IsTrue (B.honest bench.old) → NoneStarted (B.may_leave bench.old)
        → (c : Files) → B.may_leave bench.new c → LeavesStart run.now (B.may_leave bench.old) c }
    ensures fault { IfErr result (λ fault. (fault ≡ MarkFault.Memory) ⊎ (fault ≡ MarkFault.Device MarkedFile.Marks)) }
    ensures untouched { result ≡ Err MarkFault.Memory → bench.new ≡ bench.old }
    ensures only_writes { WritesMarks B.Bench bench.old bench.new result }
    ensures fresh { AreFresh run.now (fresh_marks run.now) }
{
    let fresh = match FreshMarks::of(alloc, run) {
        Ok(fresh) => fresh,
        Err(_) => return Err(MarkFault::Memory),
    };
    match start_fresh(bench, &fresh) {
        Ok(()) => return Ok(()),
        Err(_) => return Err(MarkFault::Device {
            file: MarkedFile::Marks,
        }),
    }
}
