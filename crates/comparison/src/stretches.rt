// The number of differing samples in a stretch of two projects, channel by channel.
ghost use Rattle.std.specs.Prelude.{◌≡◌, ◌+◌, ◌-◌, ◌≤◌, ℕ, max, min, IfErr, IfOk, IsTrue, OnOk, length, slice_index_or};
ghost use Rattle.list_terms.specs.Heard.{project_mix, sounds_of};
ghost use Rattle.devices.specs.Frame.{OnlyReads};
ghost use Rattle.comparison.specs.Counted as spec;
ghost use Rattle.comparison.specs.Counted.{AreCounts};
ghost use Rattle.comparison.specs.Fault.{FailsAt, IsAny, IsSource, OfEither, OfFirst, OfSecond};
ghost use Rattle.comparison.specs.Matched.{ReadFiles};
ghost use Rattle.comparison.specs.Range as range;
ghost use Rattle.comparison.specs.Range.{HasChannels};

use crate::projects::{sides_of, time_of};
use crate::range::{Extent, Region, Selection, compared_in};
use crate::tally::count_sides;
use crate::{CompareFault, SideFault};
use devices::{Shelf, Watch};
use projectcheck::Checked;
use sampletime::SampleTime;
use std::alloc::{AllocError, Global};
use std::marker::Model;

/// Number of differing samples per channel, from channel 1 on.
#[derive(Drop)]
pub struct DifferingCounts {
    counts: Vec<u32>,
}

impl Model for DifferingCounts {
    ghost use Rattle.std.specs.Prelude.{ℕ, List};

    ghost Value = { List ℕ };

    ghost view = { λ c. c.counts.items };
}

impl DifferingCounts {
    /// Returns the counts, one per channel.
    pub fn as_slice(&self) -> &[u32]
        ensures { result.now ≡ self.now }
    {
        self.counts.as_slice()
    }
}

/// Returns the part of an extent of at most `frames` samples from a time on.
fn stretch_in(extent: &Extent, from: SampleTime, frames: u64) -> Extent
    ensures from { result.from ≡ max extent.now.from from }
    ensures to { result.to ≡ min extent.now.to (from + frames) }
    ensures channels { result.channels ≡ extent.now.channels }
{
    let end = from.get().saturating_add(frames);
    Extent {
        from: extent.from.max(from),
        to: time_of(extent.to.get().min(end)),
        channels: extent.channels,
    }
}

/// Returns a count of zero for each channel.
fn zeros_for(alloc: Global, channels: u8) -> Result<Vec<u32>, AllocError>
    ensures wide { IfOk result (λ counts. length counts.items ≡ channels) }
    ensures zero { IfOk result (λ counts. (k : ℕ) → slice_index_or counts.items k 0 ≡ 0) }
{
    let mut counts = Vec::new(alloc);
    counts.resize(usize::from(channels), 0)?;
    Ok(counts)
}

/// Adds the number of differing samples in an extent to each channel's count, which must be zero.
/// Reads nothing if the extent is empty.
fn count_in<S: Shelf, T: Shelf, W: Watch>(
    alloc: Global,
    first: &Checked,
    second: &Checked,
    extent: &Extent,
    first_shelf: &mut S,
    second_shelf: &mut T,
    counts: &mut [u32],
    watch: &mut W,
) -> Result<(), CompareFault>
    requires wide { length counts.old ≡ extent.now.channels }
    requires zero { (k : ℕ) → slice_index_or counts.old k 0 ≡ 0 }
    ensures counted { IsTrue (S.honest first_shelf.old) → IsTrue (T.honest second_shelf.old) → OnOk result (AreCounts
        (project_mix (S.stored first_shelf.old) first.now.project first.now.bound)
        (project_mix (T.stored second_shelf.old) second.now.project second.now.bound)
        extent.now.from (extent.now.to - extent.now.from) counts.new) }
    ensures of_sums { IfErr result (OfEither IsAny) }
    ensures files { ReadFiles S.Shelf T.Shelf first_shelf.old first_shelf.new second_shelf.old second_shelf.new
        (sounds_of first.now.bound) (sounds_of second.now.bound) result }
{
    if extent.to.get() <= extent.from.get() {
        return Ok(());
    }
    let region = Region {
        from: extent.from,
        to: extent.to,
        channels: extent.channels,
    };
    let mut sides = sides_of(alloc, first, second, &region)?;
    count_sides(&mut sides, first_shelf, second_shelf, counts, watch)
}

/// Counts the differing samples of two projects per channel, by their exact sums: within the range
/// that `compare_projects` compares, at most `frames` samples from time `from` on. Reads only
/// blocks in that stretch; the counts of an empty stretch are zero. Reports progress to `watch`
/// after each block. Returns `CompareFault::First` or `Second` if that project's files can't be
/// read or memory runs out.
pub fn differing_in<S: Shelf, T: Shelf, W: Watch>(
    alloc: Global,
    first: &Checked,
    second: &Checked,
    selection: &Selection,
    from: SampleTime,
    frames: u64,
    first_shelf: &mut S,
    second_shelf: &mut T,
    watch: &mut W,
) -> Result<DifferingCounts, CompareFault>
    requires { HasChannels selection.now }
    ensures counted { let stretch = spec.stretch_in
        (range.compared_in selection.now first.now.project.events second.now.project.events) from frames in
        IsTrue (S.honest first_shelf.old) → IsTrue (T.honest second_shelf.old) → IfOk result (AreCounts
        (project_mix (S.stored first_shelf.old) first.now.project first.now.bound)
        (project_mix (T.stored second_shelf.old) second.now.project second.now.bound)
        stretch.from (stretch.to - stretch.from)) }
    ensures wide { IfOk result (λ counts. length counts
        ≡ (range.compared_in selection.now first.now.project.events second.now.project.events).channels) }
    ensures of_sums { IfErr result (OfEither IsAny) }
    ensures first_read { OnlyReads S.Shelf first_shelf.old first_shelf.new result (λ fault. OfFirst IsSource fault)
        (λ fault failed. OfFirst (λ of. FailsAt (sounds_of first.now.bound) of failed) fault) }
    ensures second_read { OnlyReads T.Shelf second_shelf.old second_shelf.new result
        (λ fault. OfSecond IsSource fault)
        (λ fault failed. OfSecond (λ of. FailsAt (sounds_of second.now.bound) of failed) fault) }
{
    let extent = compared_in(selection, first.project(), second.project());
    let stretch = stretch_in(&extent, from, frames);
    let Ok(mut counts) = zeros_for(alloc, stretch.channels) else {
        return Err(CompareFault::First(SideFault::Memory));
    };
    let written = counts.as_mut_slice();
    count_in(
        alloc,
        first,
        second,
        &stretch,
        first_shelf,
        second_shelf,
        written,
        watch,
    )?;
    Ok(DifferingCounts { counts })
}
