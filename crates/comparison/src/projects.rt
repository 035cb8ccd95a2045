// Comparison of two valid projects.
ghost use Rattle.std.specs.Prelude.{◌≡◌, ◌*◌, ◌<◌, ◌≤◌, ◌↔◌, ℕ, IfErr, IfOk, IsErrOf, IsTrue, length};
ghost use Rattle.std.specs.List.{All};
ghost use Rattle.sampletime.specs.TimeCode.{day};
ghost use Rattle.sound_terms.specs.Groups.{sum_of};
ghost use Rattle.sound_terms.specs.Media.{IsPieceOf};
ghost use Rattle.sound_terms.specs.Mix.{Reading};
ghost use Rattle.work_terms.specs.Disk.{Files};
ghost use Rattle.list_terms.specs.Heard.{project_mix, reading_of, sounds_of};
ghost use Rattle.devices.specs.Frame.{OnlyReads};
ghost use Rattle.comparison.specs.Alike.{IsCompared};
ghost use Rattle.comparison.specs.Fault.{FailsAt, IsMemory, IsSource, IsAny, OfEither, OfFirst, OfSecond};
ghost use Rattle.comparison.specs.Matched.{AreSameFrames, ReadFiles};
ghost use Rattle.comparison.specs.Sided.{IsSideOf, range_of};
ghost use Rattle.comparison.specs.Range as range;
ghost use Rattle.comparison.specs.Range.{HasChannels};
ghost use Rattle.comparison.specs.Whole.{HasCompared, IsComparison};

use crate::difference::Difference;
use crate::first_difference::compare_sides;
use crate::matches::Matches;
use crate::range::{Region, Selection, compared_in};
use crate::side::Side;
use crate::sides::Sides;
use crate::stored::Stored;
use crate::{CompareFault, SideFault};
use devices::{Shelf, Watch};
use interval::from_checked;
use projectcheck::Checked;
use renderplan::Plan;
use sampletime::SampleTime;
use sound_terms::Depth;
use std::alloc::Global;

/// Result of a comparison: `frames` samples of `channels` channels are equal, or the projects first
/// differ at time `at` on `channel`, the lowest that differs there. `first` and `second` are the
/// exact sums of both projects at that sample, neither rounded nor clipped. Full scale is 2^47.
#[derive(Clone, Copy, Debug, PartialEq, Eq)]
pub enum Comparison {
    Same {
        frames: u64,
        channels: u8,
    },
    Differs {
        at: SampleTime,
        channel: u8,
        first: i64,
        second: i64,
    },
}

/// Creates the plan of a region of a project.
fn plan_of(alloc: Global, checked: &Checked, region: &Region) -> Result<Plan, SideFault>
    ensures from { IfOk result (λ plan. plan.range.from ≡ region.now.from) }
    ensures to { IfOk result (λ plan. plan.range.to ≡ region.now.to) }
    ensures same { IfOk result (λ plan. plan.range ≡ range_of region.now) }
    ensures inside { IfOk result (λ plan. All (IsPieceOf (sounds_of checked.now.bound)) plan.pieces) }
    ensures mixes { IfOk result (λ plan. (files : Files) (channel time : ℕ)
        → sum_of (reading_of files checked.now.bound) plan.pieces channel time
        ≡ project_mix files checked.now.project checked.now.bound channel time) }
    ensures only_memory { IfErr result IsMemory }
{
    let Ok(intervals) = from_checked(alloc, checked) else {
        return Err(SideFault::Intervals);
    };
    match Plan::new(
        alloc,
        intervals,
        region.from,
        region.to,
        region.channels,
        Depth::TwentyFour,
    ) {
        Ok(plan) => Ok(plan),
        Err(_) => Err(SideFault::Memory),
    }
}

/// Creates one side of a comparison, and a buffer for the stored samples of its files.
fn side_of<'a>(
    alloc: Global,
    checked: &'a Checked,
    region: &Region,
) -> Result<(Side<'a>, Vec<u8>), SideFault>
    ensures side { IfOk result (λ made. IsSideOf checked.now.project checked.now.bound region.now made.0) }
    ensures only_memory { IfErr result IsMemory }
{
    let plan = plan_of(alloc, checked, region)?;
    let side = Side::new(alloc, plan, checked.bound().sounds())?;
    let bytes = side.bytes(alloc)?;
    Ok((side, bytes))
}

/// Creates both sides of a comparison of a region. Returns `CompareFault::First` or `Second` if out
/// of memory.
pub fn sides_of<'a, 'b>(
    alloc: Global,
    first: &'a Checked,
    second: &'b Checked,
    region: &Region,
) -> Result<Sides<'a, 'b>, CompareFault>
    ensures first { IfOk result (λ sides. IsSideOf first.now.project first.now.bound region.now sides.first) }
    ensures second { IfOk result (λ sides. IsSideOf second.now.project second.now.bound region.now
        sides.second) }
    ensures no_match { IfOk result (λ sides. (reading other : Reading)
        → All (AreSameFrames reading other) sides.stored.matches) }
    ensures only_memory { IfErr result (OfEither IsMemory) }
{
    let (first, bytes) = match side_of(alloc, first, region) {
        Ok(made) => made,
        Err(fault) => return Err(CompareFault::First(fault)),
    };
    let (second, other_bytes) = match side_of(alloc, second, region) {
        Ok(made) => made,
        Err(fault) => return Err(CompareFault::Second(fault)),
    };
    Ok(Sides {
        first,
        second,
        stored: Stored {
            bytes,
            other_bytes,
            matches: Matches::new(),
        },
    })
}

/// Returns the first difference of two projects in a region.
fn compare_in<S: Shelf, T: Shelf, W: Watch>(
    alloc: Global,
    first: &Checked,
    second: &Checked,
    region: &Region,
    first_shelf: &mut S,
    second_shelf: &mut T,
    watch: &mut W,
) -> Result<Option<Difference>, CompareFault>
    ensures compared { IsTrue (S.honest first_shelf.old) → IsTrue (T.honest second_shelf.old)
        → IfOk result (IsCompared
        region.now.from region.now.to region.now.channels
        (project_mix (S.stored first_shelf.old) first.now.project first.now.bound)
        (project_mix (T.stored second_shelf.old) second.now.project second.now.bound)) }
    ensures of_sums { IfErr result (OfEither IsAny) }
    ensures files { ReadFiles S.Shelf T.Shelf first_shelf.old first_shelf.new second_shelf.old second_shelf.new
        (sounds_of first.now.bound) (sounds_of second.now.bound) result }
{
    let mut sides = sides_of(alloc, first, second, region)?;
    compare_sides(&mut sides, first_shelf, second_shelf, watch)
}

/// Converts a number of samples to a time of day; numbers beyond a day become `SampleTime::DAY`.
pub fn time_of(samples: u64) -> SampleTime
    ensures { samples ≤ day → result ≡ samples }
{
    SampleTime::new(samples).unwrap_or(SampleTime::DAY)
}

/// Compares two projects by their exact sums, before any rounding, on every selected channel at
/// every selected time. Reads and sums nothing if neither plays. Reports the number of samples
/// compared to `watch` after each equal block. Returns `CompareFault::EmptyRange`, before any
/// allocation, if the selected range is empty, and `CompareFault::First` or `Second` if that
/// project's files can't be read or memory runs out.
pub fn compare_projects<S: Shelf, T: Shelf, W: Watch>(
    alloc: Global,
    first: &Checked,
    second: &Checked,
    selection: &Selection,
    first_shelf: &mut S,
    second_shelf: &mut T,
    watch: &mut W,
) -> Result<Comparison, CompareFault>
    requires { HasChannels selection.now }
    ensures compared { IsTrue (S.honest first_shelf.old) → IsTrue (T.honest second_shelf.old)
        → IfOk result (IsComparison selection.now
        (project_mix (S.stored first_shelf.old) first.now.project first.now.bound)
        (project_mix (T.stored second_shelf.old) second.now.project second.now.bound)) }
    ensures counted { IfOk result
        (HasCompared (range.compared_in selection.now first.now.project.events second.now.project.events)) }
    ensures empty { IsErrOf result CompareFault.EmptyRange
        ↔ ((range.compared_in selection.now first.now.project.events second.now.project.events).to
        ≤ (range.compared_in selection.now first.now.project.events second.now.project.events).from) }
    ensures first_read { OnlyReads S.Shelf first_shelf.old first_shelf.new result (λ fault. OfFirst IsSource fault)
        (λ fault failed. OfFirst (λ of. FailsAt (sounds_of first.now.bound) of failed) fault) }
    ensures second_read { OnlyReads T.Shelf second_shelf.old second_shelf.new result
        (λ fault. OfSecond IsSource fault)
        (λ fault failed. OfSecond (λ of. FailsAt (sounds_of second.now.bound) of failed) fault) }
{
    let extent = compared_in(selection, first.project(), second.project());
    if extent.to.get() <= extent.from.get() {
        return Err(CompareFault::EmptyRange);
    }
    let region = Region {
        from: extent.from,
        to: extent.to,
        channels: extent.channels,
    };
    match compare_in(
        alloc,
        first,
        second,
        &region,
        first_shelf,
        second_shelf,
        watch,
    )? {
        Some(difference) => Ok(Comparison::Differs {
            at: time_of(difference.at),
            channel: difference.channel,
            first: difference.first,
            second: difference.second,
        }),
        None => Ok(Comparison::Same {
            frames: extent.to.get() - extent.from.get(),
            channels: extent.channels,
        }),
    }
}
