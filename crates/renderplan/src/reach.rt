// An index that skips runs of pieces outside of a block.
ghost use Rattle.std.specs.Prelude.{◌≡◌, ◌+◌, ◌<◌, ◌≤◌, ◌^◌, ◌||◌, nat_le, drop, length, IfOk};
ghost use Rattle.std.specs.List.{All, flat_map};
ghost use Rattle.sound_terms.specs.Blocks.{lines_of};
ghost use Rattle.sound_terms.specs.Groups.{IsPiece};
ghost use Rattle.renderplan.specs.Reaches.{AreReached, AreReaches, IsReach, joined_reach, last};
ghost use Rattle.renderplan.specs.Sources.{first_source};

use crate::lines::Window;
use sound_terms::Piece;
use std::alloc::{AllocError, Global};
use std::marker::Model;

/// The time extent of `count` consecutive pieces of a list: none of them sounds before `least`, or
/// from `greatest` on.
#[derive(Clone, Copy, Debug, PartialEq, Eq)]
pub struct Reach {
    pub count: usize,
    pub least: u64,
    pub greatest: u64,
}

impl Reach {
    /// Returns the reach of one piece.
    fn of(piece: &Piece) -> Self
        requires { IsPiece piece.now }
        ensures { result ≡ record {
          count = 1;
          least = piece.now.start;
          greatest = piece.now.start + piece.now.length;
        } }
    {
        Reach {
            count: 1,
            least: piece.start,
            greatest: piece.start + piece.length,
        }
    }

    /// Returns the reach of two adjacent runs of pieces together.
    fn joined(self, next: Reach) -> Self
        requires { self.count + next.count < 2 ^ 64 }
        ensures { result ≡ joined_reach self next }
    {
        Reach {
            count: self.count + next.count,
            least: self.least.min(next.least),
            greatest: self.greatest.max(next.greatest),
        }
    }

    /// Returns whether none of the pieces sounds from `from` to `to` (exclusive).
    fn is_outside(self, from: u64, to: u64) -> bool
        ensures { result ≡ (nat_le self.greatest from || nat_le to self.least) }
    {
        self.greatest <= from || to <= self.least
    }
}

/// Returns the next reach, which begins one piece before the existing ones.
///
/// Runs of equal length are merged, as in adding 1 to a binary number. So the run that begins n
/// pieces before the end has the length of the lowest bit set in n, and skipping from run to run
/// passes all n pieces in one step per bit set in n.
fn next_reach(pieces: &[Piece], reaches: &[Reach]) -> Reach
    requires more { length reaches.now < length pieces.now }
    requires sound { All IsPiece pieces.now }
    requires after { AreReaches pieces.now reaches.now }
    ensures { IsReach (last (length reaches.now + 1) pieces.now) result }
{
    let mut reach = Reach::of(&pieces[pieces.len() - 1 - reaches.len()]);
    while reach.count <= reaches.len() {
        let next = reaches[reaches.len() - reach.count];
        if next.count != reach.count {
            break;
        }
        reach = reach.joined(next);
    }
    reach
}

/// Computes a reach for the run that begins at each piece, from the last piece to the first.
fn reaches_of(alloc: Global, pieces: &[Piece]) -> Result<Vec<Reach>, AllocError>
    requires { All IsPiece pieces.now }
    ensures { IfOk result (λ reaches. AreReached pieces.now reaches.items) }
{
    let mut reaches = Vec::with_capacity(alloc, pieces.len())?;
    while reaches.len() < pieces.len() {
        let reach = next_reach(pieces, reaches.as_slice());
        reaches.push(reach)?;
    }
    Ok(reaches)
}

/// A list of pieces, indexed so that runs that are silent in a block can be skipped.
#[derive(Drop)]
pub struct Reached {
    pieces: Vec<Piece>,
    reaches: Vec<Reach>,
}

impl Model for Reached {
    ghost use Rattle.std.specs.Prelude.{List};
    ghost use Rattle.sound_terms.specs.declared.piece.Piece.{Piece};
    ghost use Rattle.renderplan.specs.Reaches.{AreReached};

    ghost Value = { List Piece };

    ghost view = { λ reached. reached.pieces.items };

    ghost invariant = { λ reached. AreReached reached.pieces.items reached.reaches.items };
}

impl Reached {
    /// Indexes a list of pieces. Returns `AllocError` if out of memory.
    pub fn new(alloc: Global, pieces: Vec<Piece>) -> Result<Self, AllocError>
        requires { All IsPiece pieces.items }
        ensures { IfOk result (λ reached. reached ≡ pieces.items) }
    {
        let reaches = reaches_of(alloc, pieces.as_slice())?;
        Ok(Reached { pieces, reaches })
    }

    /// Returns the pieces in order.
    pub fn pieces(&self) -> &[Piece]
        ensures lent { result.now ≡ self.now }
        ensures sound { All IsPiece self.now }
    {
        self.pieces.as_slice()
    }

    /// Returns the allocator of the pieces.
    pub fn allocator(&self) -> Global {
        *self.pieces.allocator()
    }

    /// Returns the reach of the run that begins at piece `next`.
    fn reach_from(&self, next: usize) -> Reach
        requires { next < length self.now }
        ensures { IsReach (drop next self.now) result }
    {
        self.reaches[self.pieces.len() - 1 - next]
    }

    /// Returns the index of the first piece from `from` on that may sound in the window, after
    /// skipping silent runs, or the number of pieces if there is none.
    pub fn next_near(&self, from: usize, window: Window) -> usize
        ensures after { from ≤ result }
        ensures there { from ≤ length self.now → result ≤ length self.now }
        ensures lines { flat_map (lines_of window.from window.frames window.channels) (drop result self.now)
            ≡ flat_map (lines_of window.from window.frames window.channels) (drop from self.now) }
        ensures first { first_source window.from window.frames window.channels (drop result self.now)
            ≡ first_source window.from window.frames window.channels (drop from self.now) }
    {
        let end = window.from + u64::from(window.frames);
        let mut next = from;
        while next < self.pieces.len() {
            let reach = self.reach_from(next);
            if !reach.is_outside(window.from, end) {
                break;
            }
            next += reach.count;
        }
        next
    }
}
