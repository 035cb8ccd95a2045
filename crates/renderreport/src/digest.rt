// Hashing of the rendered file.
ghost use Rattle.std.specs.Prelude.{◌≡◌, ◌+◌, ◌≤◌, IfOk, IsSome, IsTrue, OnOk, length, take, ⊤};
ghost use Rattle.sha2.specs.Hashers.{Holds256};
ghost use Rattle.sha2.specs.Sha256.{sha256};
ghost use Rattle.renderreport.specs.Report.{content, sound_name};
ghost use Rattle.renderreport.specs.Reads.{ReadsSound};

use devices::{Bench, DeviceFault, ShelfFault};
use sha2::{Digest, Sha256};

/// Name of the rendered file.
const SOUND: &str = "render.wav";

/// Number of bytes per read.
const ROOM: usize = 65_536;

/// Returns the length of the rendered file in bytes.
///
/// A missing file is read, so that the bench counts a failure. If that read succeeds, the length is `u64::MAX`, so that
/// a later read fails.
fn sound_length<B: Bench>(bench: &mut B) -> Result<u64, DeviceFault>
    ensures length { IsTrue (B.honest bench.old)
        → IfOk result (λ n. length (content (B.stored bench.old) sound_name) ≡ n) }
    ensures exists { IsTrue (B.honest bench.old) → OnOk result (IsSome (B.stored bench.old sound_name)) }
    ensures reads { ReadsSound B.Bench bench.old bench.new result }
{
    match bench.length(SOUND) {
        Ok(length) => Ok(length),
        Err(ShelfFault::Device) => Err(DeviceFault),
        Err(ShelfFault::NotFound) => match bench.read_at(SOUND, 0, &mut [0]) {
            Ok(()) => Ok(u64::MAX),
            Err(_) => Err(DeviceFault),
        },
    }
}

/// Reads `count` bytes at offset `at` of the rendered file into `room` and hashes them.
fn hash_bytes<B: Bench>(
    bench: &mut B,
    at: u64,
    count: usize,
    room: &mut [u8],
    hasher: &mut Sha256,
) -> Result<(), DeviceFault>
    requires room { count ≤ length room.old }
    ensures hashed { let bytes = content (B.stored bench.old) sound_name in IsTrue (B.honest bench.old)
        → Holds256 hasher.old (take at bytes) → OnOk result (Holds256 hasher.new (take (at + count) bytes)) }
    ensures reads { ReadsSound B.Bench bench.old bench.new result }
{
    let bytes = &mut room[..count];
    match bench.read_at(SOUND, at, bytes) {
        Ok(()) => {
            hasher.update(&*bytes);
            Ok(())
        }
        Err(_) => Err(DeviceFault),
    }
}

/// Returns the SHA-256 of the rendered file.
pub fn sound_digest<B: Bench>(bench: &mut B) -> Result<[u8; 32], DeviceFault>
    ensures digest { IsTrue (B.honest bench.old)
        → IfOk result (λ digest. digest ≡ sha256 (content (B.stored bench.old) sound_name)) }
    ensures exists { IsTrue (B.honest bench.old) → OnOk result (IsSome (B.stored bench.old sound_name)) }
    ensures reads { ReadsSound B.Bench bench.old bench.new result }
{
    let mut room = [0; ROOM];
    let end = sound_length(bench)?;
    let mut hasher = Sha256::new();
    let mut done = 0;
    while done < end {
        let count = (ROOM as u64).min(end - done);
        hash_bytes(bench, done, count as usize, &mut room, &mut hasher)?;
        done += count;
    }
    Ok(hasher.finalize())
}
