// The pass that makes each piece a group of its own.
ghost use Rattle.std.specs.Prelude.{◌≡◌, ◌++◌, false, IfOk, OnOk};
ghost use Rattle.std.specs.List.{flat_map};
ghost use Rattle.sound_terms.specs.Passes as spec;
ghost use Rattle.passes.specs.Alone.{each_alone};

use crate::{Pass, PassFault};
use groups::{Group, Intervals, group_pieces};
use std::alloc::{AllocError, Global};

/// Adds each piece of a group as a group of its own.
fn push_each(group: &Group, groups: &mut Vec<Group>) -> Result<(), AllocError>
    ensures { OnOk result (groups.new.items ≡ groups.old.items ++ each_alone group.now) }
{
    let alloc = *groups.allocator();
    for piece in group_pieces(group).as_slice() {
        groups.push(Group::alone(alloc, *piece))?;
    }
    Ok(())
}

/// Makes each piece of the groups a group of its own.
fn pieces_alone(intervals: &Intervals) -> Result<Vec<Group>, AllocError>
    ensures { IfOk result (λ groups. groups.items ≡ flat_map each_alone intervals.now) }
{
    let mut groups = Vec::with_capacity(intervals.allocator(), intervals.piece_count())?;
    for group in intervals.groups() {
        push_each(group, &mut groups)?;
    }
    Ok(groups)
}

/// Pass that makes each piece a group of its own, in order of start time, so that fades are treated
/// separately from the sound that they fade.
#[derive(Debug, Drop)]
pub struct SplitFades;

impl Pass for SplitFades {
    ghost gives = { λ _ groups _. spec.split_fades groups };

    ghost looking = { λ _. false };

    fn looks(&self) -> bool {
        false
    }

    fn apply(
        &mut self,
        _alloc: Global,
        intervals: Intervals,
        _silent: &[bool],
    ) -> Result<Intervals, PassFault> {
        let _ = intervals.groups();
        Ok(Intervals::ordered(pieces_alone(&intervals)?)?)
    }
}
