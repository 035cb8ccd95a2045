// The pass that joins contiguous flat pieces.
ghost use Rattle.std.specs.Prelude.{◌≡◌, ◌∷◌, [], false, IfOk, OnOk};
ghost use Rattle.std.specs.List.{All};
ghost use Rattle.sound_terms.specs.declared.piece.Shape.TheVariants.{Flat};
ghost use Rattle.sound_terms.specs.Groups.{IsPiece};
ghost use Rattle.sound_terms.specs.Passes as spec;
ghost use Rattle.sound_terms.specs.Passes.{lengthened, put_to_first};
ghost use Rattle.passes.specs.Ends as ends;
ghost use Rattle.passes.specs.Ends.{IsFirst, end_before, is_end};
ghost use Rattle.passes.specs.Output.{HasFlatEnds};

use crate::ends::{End, FLAT};
use crate::output::Output;
use crate::queue::Waiting;
use crate::{Pass, PassFault};
use groups::{Group, Intervals, Piece, Shape};
use std::alloc::{AllocError, Global};

/// Returns the piece of a group that consists of one flat piece.
fn flat_alone(group: &Group) -> Option<Piece>
    ensures alone { result ≡ ends.flat_alone group.now }
    ensures sound { All IsPiece group.now }
{
    let piece = group.first();
    if group.len() == 1 && piece.shape == Shape::Flat {
        Some(piece)
    } else {
        None
    }
}

/// Extends the group at `position`, the first that `piece` continues.
fn lengthen(output: &mut Output, position: usize, piece: Piece) -> Result<(), AllocError>
    requires flat { piece.shape ≡ Flat }
    requires sound { IsPiece piece }
    requires ends { HasFlatEnds output.old }
    requires first { IsFirst (is_end (end_before 1 piece)) output.old.ends (Some position) }
    ensures ends { OnOk result (HasFlatEnds output.new) }
    ensures put { OnOk result (output.new.groups.items
        ≡ put_to_first (lengthened piece) (piece ∷ []) output.old.groups.items) }
{
    output.groups[position].lengthen(piece);
    output.ends.set(position, Some(End::of(&piece)))
}

/// Extends the first group that a flat piece continues, or adds the piece as a new group.
fn put_flat(output: &mut Output, piece: Piece) -> Result<(), AllocError>
    requires flat { piece.shape ≡ Flat }
    requires sound { IsPiece piece }
    requires ends { HasFlatEnds output.old }
    ensures ends { OnOk result (HasFlatEnds output.new) }
    ensures put { OnOk result (output.new.groups.items
        ≡ put_to_first (lengthened piece) (piece ∷ []) output.old.groups.items) }
{
    match output.ends.first(End::before(&piece, FLAT)) {
        Some(position) => lengthen(output, position, piece),
        None => {
            let alloc = *output.groups.allocator();
            output.push(Group::alone(alloc, piece), Some(End::of(&piece)))
        }
    }
}

/// Joins a group to the output.
fn put_joined(output: &mut Output, group: Group) -> Result<(), AllocError>
    requires ends { HasFlatEnds output.old }
    ensures ends { OnOk result (HasFlatEnds output.new) }
    ensures put { OnOk result (output.new.groups.items ≡ spec.put_joined output.old.groups.items group) }
{
    match flat_alone(&group) {
        Some(piece) => put_flat(output, piece),
        None => output.push(group, None),
    }
}

/// Joins all groups, one after the other.
fn joined(intervals: Intervals) -> Result<Vec<Group>, AllocError>
    ensures { IfOk result (λ groups. groups.items ≡ spec.join_cuts intervals) }
{
    let mut output = Output::new(intervals.allocator(), intervals.groups().len())?;
    let mut waiting = Waiting::of(intervals.into_groups());
    while let Some(group) = waiting.next() {
        put_joined(&mut output, group)?;
    }
    Ok(output.groups)
}

/// Pass that joins flat pieces that are contiguous in destination and source, on the same channels
/// of one file. A group of one flat piece extends the first such group that it continues; all other
/// groups stay unchanged. This removes inaudible cuts.
#[derive(Debug, Drop)]
pub struct JoinCuts;

impl Pass for JoinCuts {
    ghost gives = { λ _ groups _. spec.join_cuts groups };

    ghost looking = { λ _. false };

    fn looks(&self) -> bool {
        false
    }

    fn apply(
        &mut self,
        _alloc: Global,
        intervals: Intervals,
        _silent: &[bool],
    ) -> Result<Intervals, PassFault> {
        let _ = intervals.groups();
        Ok(Intervals::of(joined(intervals)?))
    }
}
