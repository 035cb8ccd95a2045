// Copying of pieces from their sources into preallocated media.
ghost use Rattle.std.specs.Prelude.{◌≡◌, ◌≢◌, ◌+◌, ◌%◌, ◌≤◌, ◌<◌, ◌↔◌, length, IfErr, IsTrue, OnErr, OnOk, ⊤};
ghost use Rattle.work_terms.specs.Disk.{Changes, IsTorn, IsWritten};
ghost use Rattle.sound_terms.specs.Media.{frame_length};
ghost use Rattle.list_terms.specs.Heard.{sounds_of};
ghost use Rattle.list_terms.specs.Renewed.{media_name};
ghost use Rattle.devices.specs.Frame.{OnlyReads, OnlyWrites};
ghost use Rattle.mediacopy.specs.Fault.{IsOutput};
ghost use Rattle.mediacopy.specs.Pieces.{IsPieceIn, piece_bytes, piece_length, piece_place, run_at};
ghost use Rattle.mediacopy.specs.Pieces as spec;
ghost use Rattle.mediacopy.specs.Moment.{IsLater};

use crate::names::medium_name;
use crate::{CopyFault, CopyJob, info_of};
use devices::{Bench, Shelf};
use mediaset::Run;
use sourceindex::Bound;
use wavread::Sound;

/// The length in bytes of a header without CodingHistory.
const HEADER: u64 = 690;

/// Returns the offset of the samples in the media of a source.
fn place_in_media(sound: &Sound) -> u64
    ensures offset { result ≡ 88 + (602 + length sound.now.history + (602 + length sound.now.history) % 2) }
    ensures near { result ≤ 66226 }
{
    let history = sound.history().len() as u64;
    HEADER + history + history % 2
}

/// Returns the length of a sample frame in bytes, 2 to 256.
fn frame_of(sound: &Sound) -> u64
    ensures value { result ≡ frame_length sound.now }
    ensures few { result ≤ 256 }
{
    u64::from(sound.channels()) * u64::from(sound.depth().bits() / 8)
}

fn run_of(runs: &[Run], job: CopyJob) -> &Run
    requires { job.run < length runs.now }
    ensures { result.now ≡ run_at runs.now job.run }
{
    &runs[job.run as usize]
}

/// Returns the source file of a piece.
fn source_of<'a>(bound: &'a Bound, runs: &[Run], job: CopyJob) -> &'a Sound
    requires { IsPieceIn bound.now runs.now job }
    ensures { result.now ≡ spec.source_of (sounds_of bound.now) runs.now job }
{
    let run = run_of(runs, job);
    &bound.sounds()[run.file as usize]
}

/// Returns whether `count` sample frames from `from` on are within the first `frames` ones.
fn lie_within(from: u64, count: u64, frames: u64) -> bool
    ensures { IsTrue result ↔ (from + count ≤ frames) }
{
    count <= frames && from <= frames - count
}

/// Returns whether a job is a valid piece: its run is in the list and within its file, the piece is within the run,
/// and the length of the run's medium fits in 64 bits.
pub fn is_piece(bound: &Bound, runs: &[Run], job: CopyJob) -> bool
    ensures { IsTrue result ↔ IsPieceIn bound.now runs.now job }
{
    let Some(run) = runs.get(job.run as usize) else {
        return false;
    };
    let Some(sound) = bound.sounds().get(run.file as usize) else {
        return false;
    };
    run.length > 0
        && lie_within(run.first, run.length, sound.frames())
        && lie_within(job.from, u64::from(job.frames), run.length)
        && info_of(sound, 0, run).fits()
}

/// Returns the length of a piece in bytes.
pub fn length_of(bound: &Bound, runs: &[Run], job: CopyJob) -> usize
    requires piece { IsPieceIn bound.now runs.now job }
    ensures { result ≡ piece_length (sounds_of bound.now) runs.now job }
{
    let frame = frame_of(source_of(bound, runs, job));
    job.frames as usize * frame as usize
}

/// Reads a piece from its source into `bytes`, which must have the piece's length. Returns `CopyFault::Source` if
/// the source can't be read.
pub fn fetch_piece<S: Shelf>(
    shelf: &mut S,
    bound: &Bound,
    runs: &[Run],
    job: CopyJob,
    bytes: &mut [u8],
) -> Result<(), CopyFault>
    requires piece { IsPieceIn bound.now runs.now job }
    requires room { length bytes.old ≡ piece_length (sounds_of bound.now) runs.now job }
    ensures fetched { IsTrue (S.honest shelf.old)
        → OnOk result (bytes.new ≡ piece_bytes (S.stored shelf.old) (sounds_of bound.now) runs.now job) }
    ensures source { IfErr result (λ fault. fault ≡ CopyFault.Source) }
    ensures only_reads { OnlyReads S.Shelf shelf.old shelf.new result (λ _. ⊤)
        (λ _ failed. failed (spec.source_of (sounds_of bound.now) runs.now job).name) }
{
    let run = run_of(runs, job);
    let sound = source_of(bound, runs, job);
    // This call makes the bounds of the source's length available.
    let _ = sound.channels();
    match sound.read_bytes(shelf, run.first + job.from, bytes) {
        Ok(()) => Ok(()),
        Err(_) => Err(CopyFault::Source),
    }
}

/// Writes a piece at its offset in the preallocated medium of its run, and no other byte. Returns
/// `CopyFault::Output` if the device fails; the piece may then be written in part.
pub fn place_piece<B: Bench>(
    bench: &mut B,
    bound: &Bound,
    runs: &[Run],
    job: CopyJob,
    bytes: &[u8],
) -> Result<(), CopyFault>
    requires piece { IsPieceIn bound.now runs.now job }
    ensures placed { IsTrue (B.honest bench.old)
        → OnOk result (Changes (IsWritten (piece_place (sounds_of bound.now) runs.now job) bytes.now)
        (media_name (job.run + 1)) (B.stored bench.old) (B.stored bench.new)) }
    ensures torn { IsTrue (B.honest bench.old)
        → OnErr result (Changes (IsTorn (piece_place (sounds_of bound.now) runs.now job) (length bytes.now))
        (media_name (job.run + 1)) (B.stored bench.old) (B.stored bench.new)) }
    ensures output { IfErr result IsOutput }
    ensures only_writes { OnlyWrites B.Bench (λ n. n ≢ media_name (job.run + 1)) bench.old bench.new result (λ _. ⊤)
        (λ _ failed. failed (media_name (job.run + 1))) }
    ensures later { IsLater B.moment bench.old bench.new }
{
    let sound = source_of(bound, runs, job);
    let offset = place_in_media(sound) + job.from * frame_of(sound);
    let name = medium_name(u64::from(job.run) + 1);
    match bench.write_at(name.as_str(), offset, bytes) {
        Ok(()) => Ok(()),
        Err(_) => Err(CopyFault::Output),
    }
}

/// Copies a piece from its source into the preallocated medium of its run, using `bytes`, which must have the
/// piece's length, as buffer.
///
/// Returns `CopyFault::Source` if the source can't be read; nothing is written then. Returns `CopyFault::Output` if
/// the medium can't be written.
pub fn copy_piece<S: Shelf, B: Bench>(
    shelf: &mut S,
    bench: &mut B,
    bound: &Bound,
    runs: &[Run],
    job: CopyJob,
    bytes: &mut [u8],
) -> Result<(), CopyFault>
    requires piece { IsPieceIn bound.now runs.now job }
    requires room { length bytes.old ≡ piece_length (sounds_of bound.now) runs.now job }
    ensures copied { IsTrue (S.honest shelf.old) → IsTrue (B.honest bench.old)
        → OnOk result (Changes (IsWritten (piece_place (sounds_of bound.now) runs.now job)
        (piece_bytes (S.stored shelf.old) (sounds_of bound.now) runs.now job)) (media_name (job.run + 1))
        (B.stored bench.old) (B.stored bench.new)) }
    ensures fetched { IsTrue (S.honest shelf.old)
        → OnOk result (bytes.new ≡ piece_bytes (S.stored shelf.old) (sounds_of bound.now) runs.now job) }
    ensures unwritten { IfErr result (λ fault. fault ≡ CopyFault.Source → bench.new ≡ bench.old) }
    ensures fetched_first { IsTrue (S.honest shelf.old) → IfErr result (λ fault. fault ≡ CopyFault.Output
        → bytes.new ≡ piece_bytes (S.stored shelf.old) (sounds_of bound.now) runs.now job) }
    ensures torn { IsTrue (B.honest bench.old) → IfErr result (λ fault. fault ≡ CopyFault.Output
        → Changes (IsTorn (piece_place (sounds_of bound.now) runs.now job)
        (piece_length (sounds_of bound.now) runs.now job)) (media_name (job.run + 1))
        (B.stored bench.old) (B.stored bench.new)) }
    ensures only_reads { OnlyReads S.Shelf shelf.old shelf.new result (λ fault. fault ≡ CopyFault.Source)
        (λ _ failed. failed (spec.source_of (sounds_of bound.now) runs.now job).name) }
    ensures only_writes { OnlyWrites B.Bench (λ n. n ≢ media_name (job.run + 1)) bench.old bench.new result
        (λ fault. fault ≡ CopyFault.Output) (λ _ failed. failed (media_name (job.run + 1))) }
    ensures later { IsLater B.moment bench.old bench.new }
{
    fetch_piece(shelf, bound, runs, job, bytes)?;
    place_piece(bench, bound, runs, job, bytes)
}
