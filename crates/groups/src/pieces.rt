// Unpacked pieces of a group. These are free functions and no methods, so that crates above this
// one don't have to load the contracts of `SmallVec`.
ghost use Rattle.std.specs.Prelude.{◌≡◌, ◌≢◌, ◌≤◌, [], IfSome, MatchOption};
ghost use Rattle.std.specs.List.{All};
ghost use Rattle.sound_terms.specs.Groups.{IsGroup, IsPiece};
ghost use Rattle.groups.specs.Packed.{pieces_in};

use crate::group::Group;
use crate::packed::Packed;
use smallvec::SmallVec;
use sound_terms::Piece;

/// The pieces of a group, stored inline.
pub type Pieces = SmallVec<Piece, 3>;

/// Returns the pieces of a group in order.
#[inline(always)]
pub fn group_pieces(group: &Group) -> Pieces
    ensures pieces { result.items ≡ group.now }
    ensures group { IsGroup group.now }
    ensures sound { All IsPiece group.now }
{
    let mut pieces = SmallVec::new(group.allocator());
    push_pieces(&group.packed(), &mut pieces);
    pieces
}

/// Creates a group from its pieces, or returns `None` if there are none.
pub fn group_from(pieces: Pieces) -> Option<Group>
    requires group { pieces.items ≢ [] → IsGroup pieces.items }
    requires sound { All IsPiece pieces.items }
    ensures pieces { MatchOption result (pieces.items ≡ []) (λ group. group ≡ pieces.items) }
    ensures formed { IfSome result (λ group. IsGroup group × All IsPiece group) }
{
    let packed = Packed::of(pieces.as_slice())?;
    Group::from_packed(*pieces.allocator(), packed)
}

/// Fills an empty list with the pieces of a group, in order.
#[inline(always)]
fn push_pieces(group: &Packed, pieces: &mut Pieces)
    requires none { pieces.old.items ≡ [] }
    requires room { 3 ≤ pieces.old.capacity }
    ensures { pieces.new.items ≡ pieces_in group.now }
{
    if group.rise.length > 0 {
        pieces.push_reserved(group.rising());
    }
    if group.middle > 0 {
        pieces.push_reserved(group.flat());
    }
    if group.fall.length > 0 {
        pieces.push_reserved(group.falling());
    }
}
