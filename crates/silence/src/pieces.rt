// Order in which pieces are checked for silence.
ghost use Rattle.std.specs.Prelude.{◌≡◌, ℕ, ◌<◌, length, IfOk};
ghost use Rattle.std.specs.List.{All, Contains};

use groups::Piece;
use std::alloc::{AllocError, Global};

/// Returns the numbers from 0 up to but not including `count`.
fn places(alloc: Global, count: usize) -> Result<Vec<usize>, AllocError>
    ensures inside { IfOk result (λ places. All (λ position. position < count) places.items) }
    ensures each { IfOk result (λ places. (position : ℕ) → position < count → Contains places.items position) }
{
    let mut places = Vec::with_capacity(alloc, count)?;
    for position in 0..count {
        places.push(position)?;
    }
    Ok(places)
}

/// Returns the sort key of a piece: its file, channels and first sample frame.
fn key(piece: &Piece) -> (u32, u8, u8, u64) {
    (piece.file, piece.first, piece.width, piece.frame)
}

/// Returns the indexes of the pieces in reading order: by file, channels and sample frame.
pub fn reading_order(alloc: Global, pieces: &[Piece]) -> Result<Vec<usize>, AllocError>
    ensures inside { IfOk result (λ places. All (λ position. position < length pieces.now) places.items) }
    ensures each { IfOk result (λ places. (position : ℕ) → position < length pieces.now → Contains places.items position) }
{
    let mut order = places(alloc, pieces.len())?;
    order.sort_by_key(|position| pieces.get(*position).map(key))?;
    Ok(order)
}
