// Silence of pieces over opened sound files.
ghost use Rattle.std.specs.Prelude.{◌≡◌, ◌<◌, ℕ, length, IfOk, IsTrue};
ghost use Rattle.std.specs.List.{All, Contains};
ghost use Rattle.sound_terms.specs.Groups as groups;
ghost use Rattle.sound_terms.specs.Groups.{Agrees, IsPiece};
ghost use Rattle.sound_terms.specs.Passes.{silences};
ghost use Rattle.sound_terms.specs.Sounds.{reading_by};
ghost use Rattle.passes.specs.Silent.{IsDevice, silences_of};
ghost use Rattle.devices.specs.Frame.{OnlyReads};
ghost use Rattle.silence.specs.Fault.{FailsAt};

use crate::pieces::reading_order;
use crate::progress::Looking;
use crate::search::Search;
use devices::{Shelf, Watch};
use groups::{Intervals, Piece};
use passes::PassFault;
use std::alloc::Global;
use wavread::Sound;

/// Returns the total number of sample frames of the pieces, saturating at 2^64 - 1.
fn frames_of(pieces: &[Piece]) -> u64 {
    let mut frames: u64 = 0;
    for piece in pieces {
        frames = frames.saturating_add(piece.length);
    }
    frames
}

/// Checks the pieces for silence in the given order and returns the results by piece.
fn asked_in_order<S: Shelf, W: Watch>(
    alloc: Global,
    pieces: &[Piece],
    order: &[usize],
    sounds: &[Sound],
    shelf: &mut S,
    watch: &mut W,
) -> Result<Vec<bool>, PassFault>
    requires pieces { All IsPiece pieces.now }
    requires inside { All (λ position. position < length pieces.now) order.now }
    requires each { (position : ℕ) → position < length pieces.now → Contains order.now position }
    ensures answers { IsTrue (S.honest shelf.old) → IfOk result (λ silent.
        silent.items ≡ silences_of (reading_by (S.stored shelf.old) sounds.now) pieces.now) }
    ensures only_reads { OnlyReads S.Shelf shelf.old shelf.new result IsDevice (FailsAt sounds.now) }
{
    let mut search = Search::new(alloc)?;
    let mut silent = Vec::new(alloc);
    silent.resize(pieces.len(), false)?;
    let mut looking = Looking::new(watch, frames_of(pieces));
    for position in order {
        let piece = &pieces[*position];
        let answer = search.is_silent(piece, sounds, shelf, &mut looking)?;
        silent[*position] = answer;
        looking.answered(piece.length);
    }
    Ok(silent)
}

/// Checks for each piece of the groups, in order, whether all samples that it plays are zero on all its channels.
///
/// Part of a file is read only once, even if several pieces play it on the same channels. The watch receives the number
/// of sample frames searched. Returns `Device` if a read fails, and `Memory` if out of memory.
pub fn silent_of<S: Shelf, W: Watch>(
    alloc: Global,
    intervals: &Intervals,
    sounds: &[Sound],
    shelf: &mut S,
    watch: &mut W,
) -> Result<Vec<bool>, PassFault>
    ensures answers { IsTrue (S.honest shelf.old)
        → IfOk result (λ silent. silent.items ≡ silences (reading_by (S.stored shelf.old) sounds.now) intervals.now) }
    ensures agrees { IsTrue (S.honest shelf.old) → IfOk result (λ silent.
        Agrees (reading_by (S.stored shelf.old) sounds.now) (groups.pieces_of intervals.now) silent.items) }
    ensures only_reads { OnlyReads S.Shelf shelf.old shelf.new result IsDevice (FailsAt sounds.now) }
{
    let pieces = intervals.pieces()?;
    let order = reading_order(alloc, pieces.as_slice())?;
    let silent = asked_in_order(
        alloc,
        pieces.as_slice(),
        order.as_slice(),
        sounds,
        shelf,
        watch,
    )?;
    Ok(silent)
}
