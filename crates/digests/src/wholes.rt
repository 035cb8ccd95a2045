// Digests of whole sources.
ghost use Rattle.std.specs.Prelude.{◌≡◌, ◌+◌, ◌≤◌, ℕ, IfOk, IsSome, IsTrue, List, OnOk, Some, length, option_copied, take, ⊤};
ghost use Rattle.sha2.specs.Hashers.{Holds256};
ghost use Rattle.sha2.specs.Sha256.{sha256};
ghost use Rattle.sound_terms.specs.Media.{IsRunOf, sound_at};
ghost use Rattle.mediacopy.specs.Pieces.{content};
ghost use Rattle.devices.specs.Frame.{OnlyReads};
ghost use Rattle.digests.specs.declared.medium.Medium as medium;
ghost use Rattle.digests.specs.Fault.{FailsAt, IsDevice};
ghost use Rattle.digests.specs.Media as spec;
ghost use Rattle.digests.specs.Media.{HasSource};

use crate::digests::ROOM;
use crate::{Medium, ReportFault};
use devices::{DeviceFault, Shelf, ShelfFault};
use sha2::{Digest, Sha256};
use sound_terms::Run;
use wavread::Sound;

/// Returns the length of the named file in bytes. If the file is missing, reads it, so that its
/// shelf counts a failure. If that read succeeds after all, the result is longer than any file, so
/// that a later read fails.
fn length_of<S: Shelf>(shelf: &mut S, name: &str) -> Result<u64, DeviceFault>
    ensures length { IsTrue (S.honest shelf.old)
        → IfOk result (λ n. length (content (S.stored shelf.old) name.now) ≡ n) }
    ensures exists { IsTrue (S.honest shelf.old) → OnOk result (IsSome (S.stored shelf.old name.now)) }
    ensures only_reads { OnlyReads S.Shelf shelf.old shelf.new result (λ _. ⊤) (λ _ failed. failed name.now) }
{
    match shelf.length(name) {
        Ok(length) => Ok(length),
        Err(ShelfFault::Device) => Err(DeviceFault),
        Err(ShelfFault::NotFound) => match shelf.read_at(name, 0, &mut [0]) {
            Ok(()) => Ok(u64::MAX),
            Err(_) => Err(DeviceFault),
        },
    }
}

/// Hashes `count` bytes of the named file from offset `at` on, by way of `room`.
fn hash_bytes<S: Shelf>(
    shelf: &mut S,
    name: &str,
    at: u64,
    count: usize,
    room: &mut [u8; ROOM],
    hasher: &mut Sha256,
) -> Result<(), DeviceFault>
    requires { count ≤ 66226 }
    ensures hashed { let bytes = content (S.stored shelf.old) name.now in IsTrue (S.honest shelf.old)
        → Holds256 hasher.old (take at bytes) → OnOk result (Holds256 hasher.new (take (at + count) bytes)) }
    ensures only_reads { OnlyReads S.Shelf shelf.old shelf.new result (λ _. ⊤) (λ _ failed. failed name.now) }
{
    let bytes = &mut room[..count];
    match shelf.read_at(name, at, bytes) {
        Ok(()) => {
            hasher.update(&*bytes);
            Ok(())
        }
        Err(_) => Err(DeviceFault),
    }
}

/// Returns the SHA-256 of the whole named file, read by way of `room`.
fn file_digest<S: Shelf>(
    shelf: &mut S,
    name: &str,
    room: &mut [u8; ROOM],
) -> Result<[u8; 32], DeviceFault>
    ensures digest { IsTrue (S.honest shelf.old)
        → IfOk result (λ digest. digest ≡ sha256 (content (S.stored shelf.old) name.now)) }
    ensures exists { IsTrue (S.honest shelf.old) → OnOk result (IsSome (S.stored shelf.old name.now)) }
    ensures only_reads { OnlyReads S.Shelf shelf.old shelf.new result (λ _. ⊤) (λ _ failed. failed name.now) }
{
    let end = length_of(shelf, name)?;
    let mut hasher = Sha256::new();
    let mut done = 0;
    while done < end {
        let count = (ROOM as u64).min(end - done);
        hash_bytes(shelf, name, done, count as usize, room, &mut hasher)?;
        done += count;
    }
    Ok(hasher.finalize())
}

/// Returns the digest of the whole source of a run if `digests` is true. Reuses the digest of the
/// medium before it if that is of the same file. Returns `DeviceFault` if the file can't be read.
pub fn source_digest<S: Shelf>(
    shelf: &mut S,
    sounds: &[Sound],
    run: &Run,
    before: Option<&Medium>,
    digests: bool,
    room: &mut [u8; ROOM],
) -> Result<Option<[u8; 32]>, ReportFault>
    requires { IsRunOf sounds.now run.now }
    ensures digest { IsTrue (S.honest shelf.old)
        → ((m : medium.Medium) → option_copied before.entry ≡ Some m
        → HasSource digests (S.stored shelf.old) sounds.now m)
        → IfOk result (λ digest. digest ≡ spec.source_digest digests (S.stored shelf.old) sounds.now run.now) }
    ensures exists { IsTrue (S.honest shelf.old)
        → ((m : medium.Medium) → option_copied before.entry ≡ Some m
        → HasSource digests (S.stored shelf.old) sounds.now m)
        → IsTrue digests → OnOk result (IsSome (S.stored shelf.old (sound_at sounds.now run.now.file).name)) }
    ensures only_reads { OnlyReads S.Shelf shelf.old shelf.new result IsDevice (FailsAt sounds.now) }
{
    if !digests {
        return Ok(None);
    }
    if let Some(medium) = before {
        if medium.run.file == run.file {
            return Ok(medium.source);
        }
    }
    let sound = &sounds[run.file as usize];
    match file_digest(shelf, sound.name(), room) {
        Ok(digest) => Ok(Some(digest)),
        Err(_) => Err(ReportFault::Device { file: run.file }),
    }
}
