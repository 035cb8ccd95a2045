// A stretch of blocks that is written, and then marked.
ghost use Rattle.std.specs.Prelude.{ℕ, Bool, IsTrue, OnOk, false, true};
ghost use Rattle.work_terms.specs.Disk.{Files, IsDurable};
ghost use Rattle.markfile.specs.Format.{sound_name};
ghost use Rattle.rendering.specs.Maker.{marks_of};
ghost use Rattle.rendering.specs.Marked.{MarkedWork};
ghost use Rattle.rendering.specs.Placed.{AreBlocksWith, AreFewBlocks, HasPlaced, PlacesJob, WritesJob, WritesSound};

use devices::{Bench, DeviceFault};
use execution::PlaceFault;
use markfile::{SOUND, mark_all};
use std::ops::Range;

/// Writes the bytes to the rendered file from this position on.
fn write_bytes<B: Bench>(bench: &mut B, at: u64, bytes: &[u8]) -> Result<(), DeviceFault>
    ensures writes { WritesSound B.Bench bench.old bench.new at bytes.now result }
{
    bench.write_at(SOUND, at, bytes)
}

/// Writes the bytes to the rendered file from this position on, and syncs it.
fn write_sound<B: Bench>(bench: &mut B, at: u64, bytes: &[u8]) -> Result<(), DeviceFault>
    ensures writes { WritesSound B.Bench bench.old bench.new at bytes.now result }
    ensures durable { IsTrue (B.honest bench.old)
        → OnOk result (IsDurable sound_name (B.stored bench.new) (B.may_leave bench.new)) }
{
    match bench.write_at(SOUND, at, bytes) {
        Ok(()) => {}
        Err(fault) => return Err(fault),
    }
    match bench.sync(SOUND) {
        Ok(()) => return Ok(()),
        Err(fault) => return Err(fault),
    }
}

/// Writes the bytes of a job to the rendered file from this position on, where others are still to be written that are
/// marked together with it.
pub(crate) fn place<B: Bench>(bench: &mut B, at: u64, bytes: &[u8]) -> Result<(), PlaceFault>
    ensures marks { IsTrue (B.honest bench.old)
        → (marked : MarkedWork) (sources : Files) (done : ℕ → Bool) (job : ℕ)
        → PlacesJob B.Bench bench.old bench.new (marks_of marked sources) done job false at bytes.now result }
    ensures placed { IsTrue (B.honest bench.old)
        → HasPlaced at bytes.now (B.stored bench.old sound_name) (B.stored bench.new sound_name) result }
    ensures only_writes { WritesJob B.Bench bench.old bench.new result }
{
    match write_bytes(bench, at, bytes) {
        Ok(()) => return Ok(()),
        Err(_) => return Err(PlaceFault::Write),
    }
}

/// Writes the bytes of the last job of those that are marked together to the rendered file from this position on, and
/// marks their blocks once the bytes of all of them are on the disk.
pub(crate) fn place_marked<B: Bench>(
    bench: &mut B,
    at: u64,
    bytes: &[u8],
    blocks: Range<u32>,
) -> Result<(), PlaceFault>
    requires { AreFewBlocks blocks.start blocks.end }
    ensures marks { IsTrue (B.honest bench.old)
        → (marked : MarkedWork) (sources : Files) (done : ℕ → Bool) (job : ℕ)
        → AreBlocksWith (marks_of marked sources) job blocks.start blocks.end
        → PlacesJob B.Bench bench.old bench.new (marks_of marked sources) done job true at bytes.now result }
    ensures placed { IsTrue (B.honest bench.old)
        → HasPlaced at bytes.now (B.stored bench.old sound_name) (B.stored bench.new sound_name) result }
    ensures only_writes { WritesJob B.Bench bench.old bench.new result }
{
    match write_sound(bench, at, bytes) {
        Ok(()) => {}
        Err(_) => return Err(PlaceFault::Write),
    }
    match mark_all(bench, blocks.start, blocks.end) {
        Ok(()) => return Ok(()),
        Err(_) => return Err(PlaceFault::Mark),
    }
}
