// A custom pass that cuts flat groups at a time.
ghost use Rattle.std.specs.Prelude.{◌≡◌, ◌++◌, ◌∷◌, [], false, MatchOption, IfOk, IfSome, OnOk};
ghost use Rattle.std.specs.List.{flat_map};
ghost use Rattle.sound_terms.specs.Groups.{IsPiece};
ghost use Rattle.trials_lists.specs.FlatCut as spec;

use groups::{Group, Intervals, Piece, Shape, group_pieces};
use passes::{Pass, PassFault};
use std::alloc::{AllocError, Global};

/// Pass that cuts each group of one flat piece at a time.
#[derive(Drop)]
pub(crate) struct FlatCut {
    pub(crate) time: u64,
}

/// Returns the two halves of a group that is one flat piece across the time.
fn halves(time: u64, group: &Group) -> Option<(Piece, Piece)>
    ensures cut { MatchOption result (spec.flat_cut time group.now ≡ group.now ∷ [])
        (λ halves. spec.flat_cut time group.now ≡ (halves.0 ∷ []) ∷ (halves.1 ∷ []) ∷ []) }
    ensures sound { IfSome result (λ halves. IsPiece halves.0 × IsPiece halves.1) }
{
    let pieces = group_pieces(group);
    match pieces.as_slice() {
        [piece]
            if piece.shape == Shape::Flat
                && piece.start < time
                && time < piece.start + piece.length => {
            let done = time - piece.start;
            let front = Piece {
                length: done,
                ..*piece
            };
            let behind = Piece {
                start: piece.start + done,
                frame: piece.frame + done,
                length: piece.length - done,
                ..*piece
            };
            Some((front, behind))
        }
        _ => None,
    }
}

/// Adds a group, cut if possible.
fn push_cut(time: u64, group: Group, groups: &mut Vec<Group>) -> Result<(), AllocError>
    ensures { OnOk result (groups.new.items ≡ groups.old.items ++ spec.flat_cut time group) }
{
    let alloc = *groups.allocator();
    match halves(time, &group) {
        Some((front, behind)) => {
            groups.push(Group::alone(alloc, front))?;
            groups.push(Group::alone(alloc, behind))?;
        }
        None => groups.push(group)?,
    }
    Ok(())
}

/// Returns all groups, cut if possible.
fn cut(time: u64, alloc: Global, intervals: Intervals) -> Result<Vec<Group>, AllocError>
    ensures { IfOk result (λ groups. groups.items ≡ flat_map (spec.flat_cut time) intervals) }
{
    let mut groups = Vec::new(alloc);
    for group in intervals.into_groups() {
        push_cut(time, group, &mut groups)?;
    }
    Ok(groups)
}

impl Pass for FlatCut {
    ghost gives = { λ pass groups _. spec.cut_flats pass.time groups };

    ghost looking = { λ _. false };

    fn looks(&self) -> bool {
        false
    }

    fn apply(
        &mut self,
        alloc: Global,
        intervals: Intervals,
        _silent: &[bool],
    ) -> Result<Intervals, PassFault> {
        let _ = intervals.groups();
        Ok(Intervals::ordered(cut(self.time, alloc, intervals)?)?)
    }
}
