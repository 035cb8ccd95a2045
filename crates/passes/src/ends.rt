// Ends of pieces, used to find the piece that continues another.
ghost use Rattle.std.specs.Prelude.{◌≡◌};
ghost use Rattle.sound_terms.specs.Groups as spec;
ghost use Rattle.sound_terms.specs.Groups.{IsPiece};
ghost use Rattle.passes.specs.Ends.{end_before, end_of};

use groups::{Piece, Shape};

/// Rank of a fade-in, the first part of a group.
pub(crate) const RISE: u8 = 0;

/// Rank of a flat part.
pub(crate) const FLAT: u8 = 1;

/// Rank of a fade-out.
const FALL: u8 = 2;

/// The end of a piece: the rank of its shape, and the position, file and channels from which
/// another piece continues it. Small fields are adjacent so that an end takes 24 bytes.
#[derive(Clone, Copy, Debug, PartialEq, Eq, PartialOrd, Ord)]
pub(crate) struct End {
    start: u64,
    frame: u64,
    file: u32,
    rank: u8,
    first: u8,
    dest: u8,
    width: u8,
}

/// Returns the position of a shape within a group: fade-in, flat part, fade-out.
fn rank_of(shape: Shape) -> u8
    ensures { result ≡ spec.rank_of shape }
{
    match shape {
        Shape::Rise { .. } => RISE,
        Shape::Flat => FLAT,
        Shape::Fall { .. } => FALL,
    }
}

impl End {
    /// Returns the end of a piece.
    pub(crate) fn of(piece: &Piece) -> Self
        requires { IsPiece piece.now }
        ensures { result ≡ end_of piece.now }
    {
        End {
            rank: rank_of(piece.shape),
            start: piece.start + piece.length,
            frame: piece.frame + piece.length,
            file: piece.file,
            first: piece.first,
            dest: piece.dest,
            width: piece.width,
        }
    }

    /// Returns the end that `piece` continues if the shape before it has the given rank.
    pub(crate) fn before(piece: &Piece, rank: u8) -> Self
        ensures { result ≡ end_before rank piece.now }
    {
        End {
            rank,
            start: piece.start,
            frame: piece.frame,
            file: piece.file,
            first: piece.first,
            dest: piece.dest,
            width: piece.width,
        }
    }
}
