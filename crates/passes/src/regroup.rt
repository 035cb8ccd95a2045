// The pass that combines contiguous pieces into groups.
ghost use Rattle.std.specs.Prelude.{◌≡◌, false, IfOk, OnOk, Some};
ghost use Rattle.sound_terms.specs.Passes as spec;
ghost use Rattle.passes.specs.Ends as ends;
ghost use Rattle.passes.specs.Ends.{IsFirst, follows, group_end, group_follows};
ghost use Rattle.passes.specs.Output.{HasLastEnds};

use crate::ends::{End, FLAT, RISE};
use crate::marks::Marks;
use crate::output::Output;
use crate::queue::Waiting;
use crate::{Pass, PassFault};
use groups::{Group, Intervals, Piece, Shape};
use std::alloc::{AllocError, Global};

/// Returns the smaller of two optional positions.
fn earlier(one: Option<usize>, other: Option<usize>) -> Option<usize>
    ensures { result ≡ ends.earlier one other }
{
    match (one, other) {
        (Some(one), Some(other)) => Some(if other < one { other } else { one }),
        (Some(one), None) => Some(one),
        (None, other) => other,
    }
}

fn end_of(group: &Group) -> Option<End>
    ensures { result ≡ group_end group.now }
{
    Some(End::of(&group.last()))
}

/// Finds the first end that a piece continues, after a shape of lower rank.
fn first_before(ends: &Marks, piece: &Piece) -> Option<usize>
    ensures { IsFirst (follows piece.now) ends.now result }
{
    match piece.shape {
        Shape::Rise { .. } => None,
        Shape::Flat => ends.first(End::before(piece, RISE)),
        Shape::Fall { .. } => {
            let rise = ends.first(End::before(piece, RISE));
            let flat = ends.first(End::before(piece, FLAT));
            earlier(rise, flat)
        }
    }
}

/// Finds the first end that the first piece of a group continues.
fn place_for(ends: &Marks, group: &Group) -> Option<usize>
    ensures { IsFirst (group_follows group.now) ends.now result }
{
    first_before(ends, &group.first())
}

/// Appends a group to the one at `position`, the first that it continues.
fn append(
    output: &mut Output,
    position: usize,
    group: Group,
    end: Option<End>,
) -> Result<(), AllocError>
    requires end { end ≡ group_end group }
    requires ends { HasLastEnds output.old }
    requires first { IsFirst (group_follows group) output.old.ends (Some position) }
    ensures ends { OnOk result (HasLastEnds output.new) }
    ensures put { OnOk result (output.new.groups.items ≡ spec.put_grouped output.old.groups.items group) }
{
    output.groups[position].append(group);
    output.ends.set(position, end)
}

/// Appends a group to the first one that it continues, or adds it to the output.
fn put_grouped(output: &mut Output, group: Group) -> Result<(), AllocError>
    requires ends { HasLastEnds output.old }
    ensures ends { OnOk result (HasLastEnds output.new) }
    ensures put { OnOk result (output.new.groups.items ≡ spec.put_grouped output.old.groups.items group) }
{
    let end = end_of(&group);
    match place_for(&output.ends, &group) {
        Some(position) => append(output, position, group, end),
        None => output.push(group, end),
    }
}

/// Regroups all groups, one after the other.
fn grouped(intervals: Intervals) -> Result<Vec<Group>, AllocError>
    ensures { IfOk result (λ groups. groups.items ≡ spec.regroup intervals) }
{
    let mut output = Output::new(intervals.allocator(), intervals.groups().len())?;
    let mut waiting = Waiting::of(intervals.into_groups());
    while let Some(group) = waiting.next() {
        put_grouped(&mut output, group)?;
    }
    Ok(output.groups)
}

/// Pass that combines a contiguous fade-in, flat part and fade-out into one group, so that one
/// output file is written for all of them. Each group is appended to the first one that it
/// continues.
#[derive(Debug, Drop)]
pub struct Regroup;

impl Pass for Regroup {
    ghost gives = { λ _ groups _. spec.regroup groups };

    ghost looking = { λ _. false };

    fn looks(&self) -> bool {
        false
    }

    fn apply(
        &mut self,
        _alloc: Global,
        intervals: Intervals,
        _silent: &[bool],
    ) -> Result<Intervals, PassFault> {
        let _ = intervals.groups();
        Ok(Intervals::of(grouped(intervals)?))
    }
}
