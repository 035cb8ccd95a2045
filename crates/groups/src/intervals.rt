// Lists of groups in order of start time.
ghost use Rattle.std.specs.Prelude.{◌≡◌, ◌<◌, ◌^◌, ℕ, IfOk, length};
ghost use Rattle.std.specs.List.{All, list_all};
ghost use Rattle.sound_terms.specs.Mix.{Reading};
ghost use Rattle.sound_terms.specs.Groups as spec;
ghost use Rattle.sound_terms.specs.Groups.{AreGroups, IsGroup, IsPiece, are_whole, in_start_order, mix_of, pieces_of, reads};

use crate::pieces::group_pieces;
use crate::{Group, Piece, Shape};
use std::alloc::{AllocError, Global};
use std::marker::Model;

/// A list of groups in order of start time. Contracts see a list of lists of pieces.
#[derive(Debug, Drop)]
pub struct Intervals {
    groups: Vec<Group>,
}

impl Model for Intervals {
    ghost use Rattle.std.specs.Prelude.{List};
    ghost use Rattle.sound_terms.specs.declared.piece.Piece.{Piece};
    ghost use Rattle.sound_terms.specs.Groups.{AreGroups};

    ghost Value = { List (List Piece) };

    ghost view = { λ intervals. intervals.groups.items };

    ghost invariant = { λ intervals. AreGroups intervals.groups.items };
}

impl Intervals {
    /// Creates intervals from groups that are already in order of start time.
    pub fn of(groups: Vec<Group>) -> Self
        requires { AreGroups groups.items }
        ensures { result ≡ groups.items }
    {
        Intervals { groups }
    }

    /// Sorts groups by start time, stably. Returns `AllocError` if out of memory.
    pub fn ordered(mut groups: Vec<Group>) -> Result<Self, AllocError>
        requires groups { All IsGroup groups.items }
        requires pieces { All (All IsPiece) groups.items }
        ensures order { IfOk result (λ intervals. intervals ≡ in_start_order groups.items) }
        ensures same_mix { (reading : Reading) (channel time : ℕ)
            → IfOk result (λ intervals. mix_of reading intervals channel time
            ≡ mix_of reading groups.items channel time) }
        ensures same_reads { (file channel frame : ℕ)
            → IfOk result (λ intervals. reads intervals file channel frame ≡ reads groups.items file channel frame) }
        ensures same_whole { IfOk result (λ intervals. are_whole intervals ≡ are_whole groups.items) }
    {
        groups.sort_by_key(|group| group.start())?;
        Ok(Intervals { groups })
    }

    /// Returns the allocator of the groups.
    pub fn allocator(&self) -> Global {
        *self.groups.allocator()
    }

    /// Returns the groups in order of start time.
    pub fn groups(&self) -> &[Group]
        ensures lent { result.now ≡ self.now }
        ensures sound { AreGroups self.now }
    {
        self.groups.as_slice()
    }

    /// Returns the total number of pieces, to reserve space for a list of them.
    pub fn piece_count(&self) -> usize
        ensures { length (pieces_of self.now) < 2 ^ 64 → result ≡ length (pieces_of self.now) }
    {
        let mut count: usize = 0;
        for group in self.groups() {
            count = count.saturating_add(group.len());
        }
        count
    }

    /// Returns the pieces of all groups, group by group. Returns `AllocError` if out of memory.
    pub fn pieces(&self) -> Result<Vec<Piece>, AllocError>
        ensures all { IfOk result (λ pieces. pieces.items ≡ pieces_of self.now) }
        ensures sound { IfOk result (λ pieces. All IsPiece pieces.items) }
    {
        let mut pieces = Vec::with_capacity(self.allocator(), self.piece_count())?;
        for group in self.groups() {
            pieces.extend_from_slice(group_pieces(group).as_slice())?;
        }
        Ok(pieces)
    }

    /// Converts into the list of groups.
    pub fn into_groups(self) -> Vec<Group>
        ensures handed_out { result.items ≡ self }
        ensures sound { AreGroups self }
    {
        self.groups
    }

    /// Returns whether every fade is uncut.
    pub fn whole(&self) -> bool
        ensures { result ≡ are_whole self.now }
    {
        self.groups.iter().all(is_whole_group)
    }
}

/// Returns whether every fade of the group is uncut.
fn is_whole_group(group: &Group) -> bool
    ensures { result ≡ list_all spec.is_whole group.now }
{
    let pieces = group_pieces(group);
    pieces.as_slice().iter().all(is_whole)
}

/// Returns whether the piece is flat or an uncut fade.
fn is_whole(piece: &Piece) -> bool
    ensures { result ≡ spec.is_whole piece.now }
{
    match piece.shape {
        Shape::Flat => true,
        Shape::Rise { offset, den } | Shape::Fall { offset, den } => offset == 0
            && den == piece.length,
    }
}
