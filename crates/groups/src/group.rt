// Groups of contiguous pieces.
ghost use Rattle.std.specs.Prelude.{◌≡◌, ◌≢◌, MatchOption, IfSome, ◌-◌, ◌++◌, ◌∷◌, [], IsTrue, IsSome, Some, length, slice_get};
ghost use Rattle.std.specs.List.{All};
ghost use Rattle.sound_terms.specs.Entries.{event_of};
ghost use Rattle.sound_terms.specs.Groups.{IsGroup, IsPiece, start_of};
ghost use Rattle.sound_terms.specs.Passes.{is_followed_by, lengthened};
ghost use Rattle.groups.specs.Packed.{pieces_in};

use crate::packed::Packed;
use sound_terms::{Piece, Placed};
use std::alloc::Global;
use std::marker::Model;

/// One to three contiguous pieces, in destination and in source: a fade-in, a flat part and a
/// fade-out, each at most once. Contracts see the list of its pieces.
#[derive(Debug, Drop)]
pub struct Group {
    alloc: Global,
    packed: Packed,
}

impl Model for Group {
    ghost use Rattle.std.specs.Prelude.{List};
    ghost use Rattle.std.specs.List.{All};
    ghost use Rattle.sound_terms.specs.declared.piece.Piece.{Piece};
    ghost use Rattle.sound_terms.specs.Groups.{IsGroup, IsPiece};
    ghost use Rattle.groups.specs.Packed.{pieces_in};

    ghost Value = { List Piece };

    ghost view = { λ group. pieces_in group.packed };

    ghost invariant = { λ group. IsGroup (pieces_in group.packed) × All IsPiece (pieces_in group.packed) };
}

impl Group {
    /// Creates a group of one piece.
    pub fn alone(alloc: Global, piece: Piece) -> Self
        requires { IsPiece piece }
        ensures { result ≡ piece ∷ [] }
    {
        let packed = Packed::alone(&piece);
        Group { alloc, packed }
    }

    /// Creates a group from packed pieces, or returns `None` if there are none.
    pub(crate) fn from_packed(alloc: Global, packed: Packed) -> Option<Self>
        requires { pieces_in packed ≢ [] → IsGroup (pieces_in packed) × All IsPiece (pieces_in packed) }
        ensures pieces { MatchOption result (pieces_in packed ≡ []) (λ group. group ≡ pieces_in packed) }
        ensures formed { IfSome result (λ group. IsGroup group × All IsPiece group) }
    {
        if packed.is_empty() {
            return None;
        }
        Some(Group { alloc, packed })
    }

    /// Returns the allocator for values made from the group.
    pub(crate) fn allocator(&self) -> Global {
        self.alloc
    }

    /// Returns the pieces in packed form.
    pub(crate) fn packed(&self) -> Packed
        ensures pieces { pieces_in result ≡ self.now }
        ensures group { IsGroup self.now }
        ensures sound { All IsPiece self.now }
    {
        self.packed
    }

    /// Returns the number of pieces, 1 to 3.
    pub fn len(&self) -> usize
        ensures { result ≡ length self.now }
    {
        self.packed.len()
    }

    /// Returns the first piece.
    pub fn first(&self) -> Piece
        ensures piece { slice_get self.now 0 ≡ Some result }
        ensures sound { All IsPiece self.now }
    {
        self.packed.first()
    }

    /// Returns the last piece.
    pub fn last(&self) -> Piece
        ensures piece { slice_get self.now (length self.now - 1) ≡ Some result }
        ensures sound { All IsPiece self.now }
    {
        self.packed.last()
    }

    /// Returns the event that the group describes.
    pub(crate) fn placed(&self) -> Placed
        ensures { event_of self.now ≡ result ∷ [] }
    {
        self.packed.placed()
    }

    /// Returns the start time in samples.
    pub fn start(&self) -> u64
        ensures { result ≡ start_of self.now }
    {
        self.packed.start()
    }

    /// Appends the pieces of `later`, which must continue this group.
    pub fn append(&mut self, later: Group)
        requires { IsTrue (is_followed_by self.old later) }
        ensures { self.new ≡ self.old ++ later }
    {
        self.packed = self.packed.followed_by(&later.packed);
    }

    /// Extends the only piece of the group, a flat one, by the flat piece that continues it.
    pub fn lengthen(&mut self, later: Piece)
        requires joins { IsSome (lengthened later self.old) }
        requires sound { IsPiece later }
        ensures { lengthened later self.old ≡ Some self.new }
    {
        self.packed = self.packed.lengthened(&later);
    }
}
