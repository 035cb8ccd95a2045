// Cutting groups at a time.
ghost use Rattle.std.specs.Prelude.{◌≡◌, ◌≢◌, ◌+◌, ◌++◌, ℕ, [], List, IfOk, OnOk, option_to_list};
ghost use Rattle.std.specs.List.{All, flat_map};
ghost use Rattle.sound_terms.specs.Mix.{Reading};
ghost use Rattle.sound_terms.specs.Groups.{IsGroup, IsPiece, mix_of, reads};
ghost use Rattle.groups.specs.Apart.{IsApart};
ghost use Rattle.sound_terms.specs.Passes.{as_group, cut_group, cut_groups, piece_before, piece_behind};

use crate::pieces::{Pieces, group_from, group_pieces};
use crate::{Group, IntervalFault, Intervals, Piece};
use sampletime::SampleTime;
use std::alloc::AllocError;

/// Returns the part of a piece before `time`, if any.
fn before(piece: &Piece, time: u64) -> Option<Piece>
    requires { IsPiece piece.now }
    ensures { option_to_list result ≡ piece_before time piece.now }
{
    if time <= piece.start {
        None
    } else if piece.start + piece.length <= time {
        Some(*piece)
    } else {
        Some(Piece {
            length: time - piece.start,
            ..*piece
        })
    }
}

/// Returns the part of a piece from `time` on, if any.
fn after(piece: &Piece, time: u64) -> Option<Piece>
    requires { IsPiece piece.now }
    ensures { option_to_list result ≡ piece_behind time piece.now }
{
    if time <= piece.start {
        return Some(*piece);
    }
    if piece.start + piece.length <= time {
        return None;
    }
    let cut = time - piece.start;
    Some(Piece {
        start: time,
        length: piece.length - cut,
        frame: piece.frame + cut,
        shape: piece.shape.after(cut),
        ..*piece
    })
}

/// Adds `pieces` as a group unless the list is empty.
fn push_some(groups: &mut Vec<Group>, pieces: Pieces) -> Result<(), AllocError>
    requires group { pieces.items ≢ [] → IsGroup pieces.items }
    requires sound { All IsPiece pieces.items }
    ensures { OnOk result (groups.new.items ≡ groups.old.items ++ as_group pieces.items) }
{
    if let Some(group) = group_from(pieces) {
        groups.push(group)?;
    }
    Ok(())
}

fn push_piece(pieces: &mut Pieces, piece: Option<Piece>) -> Result<(), AllocError>
    ensures { OnOk result (pieces.new.items ≡ pieces.old.items ++ option_to_list piece) }
{
    if let Some(piece) = piece {
        pieces.push(piece)?;
    }
    Ok(())
}

/// The two sides of a cut group; either may be empty.
#[derive(Drop)]
struct Cut {
    before: Pieces,
    after: Pieces,
}

/// Splits the pieces of a group at `time`.
fn cut_pieces(group: &Group, time: u64) -> Result<Cut, AllocError>
    ensures before { IfOk result (λ cut. cut.before.items ≡ flat_map (piece_before time) group.now) }
    ensures after { IfOk result (λ cut. cut.after.items ≡ flat_map (piece_behind time) group.now) }
    ensures group { IsGroup group.now }
    ensures sound { All IsPiece group.now }
{
    let alloc = group.allocator();
    let mut cut = Cut {
        before: Pieces::new(alloc),
        after: Pieces::new(alloc),
    };
    for piece in group_pieces(group).as_slice() {
        push_piece(&mut cut.before, before(piece, time))?;
        push_piece(&mut cut.after, after(piece, time))?;
    }
    Ok(cut)
}

/// Cuts a group at `time` and adds its non-empty sides to `groups`.
fn push_cut(group: &Group, time: u64, groups: &mut Vec<Group>) -> Result<(), AllocError>
    ensures { OnOk result (groups.new.items ≡ groups.old.items ++ cut_group time group.now) }
{
    let Cut { before, after } = cut_pieces(group, time)?;
    push_some(groups, before)?;
    push_some(groups, after)
}

impl Intervals {
    /// Returns the non-empty sides of all groups, group by group.
    fn sides(&self, time: u64) -> Result<Vec<Group>, AllocError>
        ensures { IfOk result (λ sides. sides.items ≡ flat_map (cut_group time) self.now) }
    {
        let mut sides = Vec::new(self.allocator());
        for group in self.groups() {
            push_cut(group, time, &mut sides)?;
        }
        Ok(sides)
    }

    /// Cuts every group that spans `time` (in samples) in two. A fade that is cut continues at the
    /// gain it had there. Returns `IntervalFault::Memory` if out of memory.
    pub fn cut_at(self, time: SampleTime) -> Result<Intervals, IntervalFault>
        ensures cut { IfOk result (λ intervals. intervals ≡ cut_groups time self) }
        ensures same_mix { (reading : Reading) (channel time : ℕ)
            → IfOk result (λ intervals. mix_of reading intervals channel time ≡ mix_of reading self channel time) }
        ensures apart { IfOk result (λ intervals. All (IsApart time) intervals) }
        ensures same_reads { (file channel frame : ℕ)
            → IfOk result (λ intervals. reads intervals file channel frame ≡ reads self file channel frame) }
    {
        let _ = self.groups();
        Ok(Intervals::ordered(self.sides(time.get())?)?)
    }
}
