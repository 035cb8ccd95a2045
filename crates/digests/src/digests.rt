// Digests of media, computed from their sources.
ghost use Rattle.std.specs.Prelude.{◌≡◌, ◌++◌, ◌+◌, ◌*◌, ◌^◌, ◌<◌, ◌≤◌, ℕ, All, IfOk, IsTrue, List, OnOk, ⊤};
ghost use Rattle.sha2.specs.Hashers.{Holds256};
ghost use Rattle.sha2.specs.Sha256.{sha256};
ghost use Rattle.sound_terms.specs.Media.{IsRunOf, frame_length, frames_in, medium_of};
ghost use Rattle.mediacopy.specs.Pieces.{content};
ghost use Rattle.mediaset.specs.Runs.{EndsInDay};
ghost use Rattle.devices.specs.Frame.{OnlyReads};
ghost use Rattle.digests.specs.Fault.{FailsAt, IsDevice};
ghost use Rattle.digests.specs.Media.{HasSource, IsHashed, IsTellable, media_of, medium_bytes};

use crate::kept::Kept;
use crate::wholes::source_digest;
use crate::{Medium, ReportFault};
use devices::{DeviceFault, Shelf};
use mediacopy::{info_of, reads_back};
use mediaset::Runs;
use sha2::{Digest, Sha256};
use sound_terms::{Homes, Run};
use std::alloc::Global;
use wavread::Sound;

/// Size in bytes of the longest header (with 65,536 bytes of CodingHistory) and of each read.
pub(crate) const ROOM: usize = 66_226;

/// Returns the number of bytes of a sample frame, 2 to 256. Also shows that the number of sample
/// frames fits in 64 bits.
fn frame_of(sound: &Sound) -> usize
    ensures value { result ≡ frame_length sound.now }
    ensures bounded { sound.now.frames < 2 ^ 64 }
    ensures some { 1 ≤ result }
    ensures few { result ≤ 256 }
{
    usize::from(sound.channels()) * usize::from(sound.depth().bits() / 8)
}

/// Hashes `count` sample frames of a sound from frame `from` on, by way of `room`.
fn hash_frames<S: Shelf>(
    shelf: &mut S,
    sound: &Sound,
    from: u64,
    count: usize,
    room: &mut [u8; ROOM],
    hasher: &mut Sha256,
) -> Result<(), DeviceFault>
    requires inside { from + count ≤ sound.now.frames }
    requires room { count * frame_length sound.now ≤ 66226 }
    ensures hashed { IsTrue (S.honest shelf.old) → (m : List ℕ) → Holds256 hasher.old m
        → OnOk result (IsHashed sound.now (S.stored shelf.old) from count m hasher.new) }
    ensures only_reads { OnlyReads S.Shelf shelf.old shelf.new result (λ _. ⊤) (λ _ failed. failed sound.now.name) }
{
    let bytes = &mut room[..count * frame_of(sound)];
    match sound.read_bytes(shelf, from, bytes) {
        Ok(()) => {
            hasher.update(&*bytes);
            Ok(())
        }
        Err(_) => Err(DeviceFault),
    }
}

/// Hashes the sample frames of a run, by way of `room`.
fn hash_run<S: Shelf>(
    shelf: &mut S,
    kept: &Kept,
    room: &mut [u8; ROOM],
    hasher: &mut Sha256,
) -> Result<(), DeviceFault>
    ensures hashed { IsTrue (S.honest shelf.old) → (m : List ℕ) → Holds256 hasher.old m
        → OnOk result (IsHashed kept.now.sound.now (S.stored shelf.old) kept.now.run.first kept.now.run.length m
        hasher.new) }
    ensures only_reads { OnlyReads S.Shelf shelf.old shelf.new result (λ _. ⊤)
        (λ _ failed. failed kept.now.sound.now.name) }
{
    let (sound, run) = (kept.sound, kept.run);
    let most = (ROOM / frame_of(sound)) as u64;
    let mut done = 0;
    while done < run.length {
        let count = most.min(run.length - done);
        hash_frames(shelf, sound, run.first + done, count as usize, room, hasher)?;
        done += count;
    }
    Ok(())
}

/// Returns the SHA-256 of the medium of a run: header, samples and padding.
fn digest_of<S: Shelf>(
    shelf: &mut S,
    kept: &Kept,
    room: &mut [u8; ROOM],
) -> Result<[u8; 32], DeviceFault>
    ensures digest { let sound = kept.now.sound.now in
        IsTrue (S.honest shelf.old) → IfOk result (λ digest. digest
        ≡ sha256 (medium_of sound (content (S.stored shelf.old) sound.name) kept.now.base kept.now.run)) }
    ensures only_reads { OnlyReads S.Shelf shelf.old shelf.new result (λ _. ⊤)
        (λ _ failed. failed kept.now.sound.now.name) }
{
    // Establishes that the length fits in 64 bits.
    reads_back(kept.sound, kept.base, &kept.run);
    let info = info_of(kept.sound, kept.base, &kept.run);
    let head = &mut room[..info.header_length()];
    info.put_header(head);
    let mut hasher = Sha256::new();
    hasher.update(&*head);
    hash_run(shelf, kept, room, &mut hasher)?;
    let pad = &[0][..(info.data_length() % 2) as usize];
    hasher.update(pad);
    Ok(hasher.finalize())
}

/// Returns the medium of the given number, with the digest of its source if given.
fn hashed_medium<S: Shelf>(
    shelf: &mut S,
    sounds: &[Sound],
    homes: &Homes,
    number: u32,
    run: &Run,
    source: Option<[u8; 32]>,
    room: &mut [u8; ROOM],
) -> Result<Medium, ReportFault>
    requires of_file { IsRunOf sounds.now run.now }
    requires in_day { EndsInDay homes.now run.now }
    ensures medium { IsTrue (S.honest shelf.old) → IfOk result (λ medium. medium
        ≡ record {
          number = number;
          run = run.now;
          digest = sha256 (medium_bytes (S.stored shelf.old) sounds.now homes.now run.now);
          source = source;
        }) }
    ensures tellable { IfOk result (IsTellable sounds.now homes.now) }
    ensures only_reads { OnlyReads S.Shelf shelf.old shelf.new result IsDevice (FailsAt sounds.now) }
{
    let kept = Kept {
        sound: &sounds[run.file as usize],
        base: homes.base(run.file),
        run: *run,
    };
    match digest_of(shelf, &kept, room) {
        Ok(digest) => Ok(Medium {
            number,
            run: *run,
            digest,
            source,
        }),
        Err(_) => Err(ReportFault::Device { file: run.file }),
    }
}

/// Returns the media of the runs, numbered from 1 on, each with its SHA-256; reads each kept sample
/// once. If `digests` is true, each medium also has the digest of its whole source; each file is
/// then read again, but only once, since the runs of a file are adjacent. Returns
/// `ReportFault::Device` if a source can't be read, and `ReportFault::Memory` if out of memory.
pub fn hashed_media<S: Shelf>(
    alloc: Global,
    sounds: &[Sound],
    runs: &Runs,
    digests: bool,
    shelf: &mut S,
) -> Result<Vec<Medium>, ReportFault>
    requires { All (IsRunOf sounds.now) runs.now.runs }
    ensures media { IsTrue (S.honest shelf.old) → IfOk result (λ media. media.items
        ≡ media_of digests (S.stored shelf.old) sounds.now runs.now.homes runs.now.runs) }
    ensures sources { IsTrue (S.honest shelf.old)
        → IfOk result (λ media. All (HasSource digests (S.stored shelf.old) sounds.now) media.items) }
    ensures tellable { IfOk result (λ media. All (IsTellable sounds.now runs.now.homes) media.items) }
    ensures only_reads { OnlyReads S.Shelf shelf.old shelf.new result IsDevice (FailsAt sounds.now) }
{
    let homes = runs.homes();
    let list = runs.as_slice();
    let mut room = [0; ROOM];
    let mut media = Vec::with_capacity(alloc, list.len())?;
    for (position, run) in list.iter().enumerate() {
        let source = source_digest(shelf, sounds, run, media.last(), digests, &mut room)?;
        let number = position as u32 + 1;
        let medium = hashed_medium(shelf, sounds, homes, number, run, source, &mut room)?;
        media.push(medium)?;
    }
    Ok(media)
}
