// Which piece a job copies, and where.
ghost use Rattle.std.specs.Prelude.{◌≡◌, ◌≢◌, ◌≤◌, ◌<◌, ◌+◌, IsTrue, List, OnErr, OnOk, length, ⊤};
ghost use Rattle.work_terms.specs.Disk.{Changes, IsTorn, IsWritten};
ghost use Rattle.sound_terms.specs.declared.piece.Run as run;
ghost use Rattle.list_terms.specs.Renewed.{media_name};
ghost use Rattle.devices.specs.Frame.{OnlyReads, OnlyWrites};
ghost use Rattle.mediacopy.specs.Pieces.{piece_bytes, piece_length, piece_place};
ghost use Rattle.mediacopy.specs.Moment.{IsLater};
ghost use Rattle.consolidation.specs.Ends.{AreEnds};
ghost use Rattle.consolidation.specs.Pieces.{job_count, jobs_before};
ghost use Rattle.consolidation.specs.Pieces as spec;
ghost use Rattle.consolidation.specs.Planned.{HasPiece, IsMediaPlan};

use crate::Consolidation;
use crate::media::PIECE;
use devices::{Bench, Shelf};
use mediacopy::{CopyFault, CopyJob, fetch_piece, length_of, place_piece};
use sound_terms::Run;

/// The place of the run that has this job, where the runs' jobs end so: those before it have ended.
fn run_of(runs: &[Run], ends: &[u32], job: u32) -> usize
    requires ends { AreEnds runs.now ends.now }
    requires there { job < job_count runs.now }
    ensures there { result < length runs.now }
    ensures begun { jobs_before runs.now result ≤ job }
    ensures unended { job < jobs_before runs.now (result + 1) }
{
    ends.partition_point(|end| *end <= job)
}

/// How many jobs the runs before this place have, where the runs' jobs end so.
fn before(ends: &[u32], position: usize) -> u32
    requires { position ≤ length ends.now }
    ensures { (runs : List run.Run) → AreEnds runs ends.now → result ≡ jobs_before runs position }
{
    if position == 0 {
        return 0;
    }
    ends[position - 1]
}

/// The piece of a run that begins behind so many others.
fn piece_of(run: &Run, position: u32, number: u32) -> CopyJob
    requires { number < spec.pieces_in run.now }
    ensures { result ≡ spec.piece_from position run.now number }
{
    let from = u64::from(number) * PIECE;
    let left = run.length - from;
    CopyJob {
        run: position,
        from,
        frames: left.min(PIECE) as u32,
    }
}

impl<'a> Consolidation<'a> {
    /// How many jobs there are.
    pub(crate) fn count(&self) -> u32
        ensures count { result ≡ job_count self.now.runs }
        ensures planned { IsMediaPlan self.now }
    {
        before(&self.ends, self.ends.len())
    }

    /// The piece that this job copies.
    pub(crate) fn piece(&self, job: u32) -> CopyJob
        requires { job < job_count self.now.runs }
        ensures piece { result ≡ spec.job_of self.now.runs job }
        ensures within { HasPiece self.now result }
    {
        let runs = self.runs.as_slice();
        let ends = self.ends.as_slice();
        let position = run_of(runs, ends, job);
        let number = job - before(ends, position);
        piece_of(&runs[position], position as u32, number)
    }

    /// How many bytes a piece has.
    pub(crate) fn length(&self, piece: CopyJob) -> usize
        requires { HasPiece self.now piece }
        ensures { result ≡ piece_length self.now.sounds self.now.runs piece }
    {
        length_of(self.bound, self.runs.as_slice(), piece)
    }

    /// Fills `bytes` with the frames of a piece in its source.
    pub(crate) fn fetch<S: Shelf>(
        &self,
        piece: CopyJob,
        shelf: &mut S,
        bytes: &mut [u8],
    ) -> Result<(), CopyFault>
        requires within { HasPiece self.now piece }
        requires room { length bytes.old ≡ piece_length self.now.sounds self.now.runs piece }
        ensures fetched { IsTrue (S.honest shelf.old)
            → OnOk result (bytes.new ≡ piece_bytes (S.stored shelf.old) self.now.sounds self.now.runs piece) }
        ensures only_reads { OnlyReads S.Shelf shelf.old shelf.new result (λ _. ⊤) (λ _ failed. ⊤) }
    {
        fetch_piece(shelf, self.bound, self.runs.as_slice(), piece, bytes)
    }

    /// Writes the bytes of a piece at their place in the medium of its run.
    pub(crate) fn write<B: Bench>(
        &self,
        piece: CopyJob,
        bytes: &[u8],
        bench: &mut B,
    ) -> Result<(), CopyFault>
        requires within { HasPiece self.now piece }
        ensures placed { IsTrue (B.honest bench.old)
            → OnOk result (Changes (IsWritten (piece_place self.now.sounds self.now.runs piece) bytes.now)
            (media_name (piece.run + 1)) (B.stored bench.old) (B.stored bench.new)) }
        ensures torn { IsTrue (B.honest bench.old)
            → OnErr result (Changes (IsTorn (piece_place self.now.sounds self.now.runs piece) (length bytes.now))
            (media_name (piece.run + 1)) (B.stored bench.old) (B.stored bench.new)) }
        ensures only_writes { OnlyWrites B.Bench (λ n. n ≢ media_name (piece.run + 1)) bench.old bench.new result (λ _. ⊤)
            (λ _ failed. failed (media_name (piece.run + 1))) }
        ensures later { IsLater B.moment bench.old bench.new }
    {
        place_piece(bench, self.bound, self.runs.as_slice(), piece, bytes)
    }
}
