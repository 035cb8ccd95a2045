// Counts of the differing samples of two sides, channel by channel.
ghost use Rattle.std.specs.Prelude.{◌≡◌, ◌+◌, ◌-◌, ◌<◌, ◌≤◌, ℕ, OnOk, length, slice_index_or};
ghost use Rattle.sound_terms.specs.Blocks.{block_frames, block_start};
ghost use Rattle.comparison.specs.Both.{AreKept, AreMatched, HasCounts, OfBoth};
ghost use Rattle.comparison.specs.Counted.{AreCounts, AreInDay, HasCounted, differing, of_channel};
ghost use Rattle.comparison.specs.Side.{HasBlock};

use crate::CompareFault;
use crate::block::BlockSums;
use crate::sides::Sides;
use devices::{Shelf, Watch};

/// Returns the number of differing samples of a channel (from 0) in a block.
#[tactic(auto, using(crate::proofs::Counts::same_more, crate::proofs::Counts::apart_more))]
fn count_channel(block: &BlockSums, channel: usize) -> u32
    requires { channel < block.now.channels }
    ensures counted { result ≡ differing (of_channel block.now.channels channel block.now.sums.now)
        (of_channel block.now.channels channel block.now.others.now) block.now.frames }
    ensures few { result ≤ 4096 }
{
    let (sums, others) = (block.sums, block.others);
    let channels = usize::from(block.channels);
    let mut count = 0;
    for i in 0..block.frames {
        let k = i * channels + channel;
        if sums[k] != others[k] {
            count += 1;
        }
    }
    count
}

/// Adds the number of differing samples in a block to each channel's count; returns whether there
/// are any.
fn count_apart(block: &BlockSums, counts: &mut [u32]) -> bool
    requires wide { length counts.old ≡ block.now.channels }
    requires in_day { AreInDay counts.old }
    ensures { (k : ℕ) → k < length counts.new → slice_index_or counts.new k 0 ≡ slice_index_or counts.old k 0
        + differing (of_channel block.now.channels k block.now.sums.now)
        (of_channel block.now.channels k block.now.others.now) block.now.frames }
{
    let mut apart = false;
    for k in 0..counts.len() {
        let count = count_channel(block, k);
        counts[k] += count;
        apart |= count > 0;
    }
    apart
}

/// Adds the number of differing samples in block `k` to each channel's count; returns whether there
/// are any. Tries to avoid summing, except after a block that differed, since the next one then
/// usually differs too.
fn count_block<S: Shelf, T: Shelf>(
    k: u64,
    was_apart: bool,
    sides: &mut Sides,
    first_shelf: &mut S,
    second_shelf: &mut T,
    counts: &mut [u32],
) -> Result<bool, CompareFault>
    requires there { HasBlock sides.old.first.work k }
    requires matched { AreMatched S.Shelf T.Shelf first_shelf.old second_shelf.old sides.old }
    requires wide { HasCounts sides.old counts.old }
    requires in_day { AreInDay counts.old }
    ensures counted { OfBoth S.Shelf T.Shelf first_shelf.old second_shelf.old sides.old
        (λ mix other. OnOk result (HasCounted mix other (block_start sides.old.first.work.planned.range k)
        (block_frames sides.old.first.work.planned.range k) counts.old counts.new)) }
    ensures few { OnOk result ((c : ℕ) → slice_index_or counts.new c 0
        ≤ slice_index_or counts.old c 0 + block_frames sides.old.first.work.planned.range k) }
    ensures kept { AreKept S.Shelf T.Shelf first_shelf.old first_shelf.new second_shelf.old second_shelf.new sides.old
        sides.new result }
{
    let alike = sides.are_alike(k, !was_apart, first_shelf, second_shelf)?;
    if alike {
        return Ok(false);
    }
    sides.sum(k, first_shelf, second_shelf)?;
    let block = sides.sums(k);
    Ok(count_apart(&block, counts))
}

/// Counts the differing samples of two sides per channel, over their common range. `counts` must be
/// zero. Reports progress to `watch` after each block. Returns `CompareFault::First` or `Second` if
/// a file of that side can't be read.
pub fn count_sides<S: Shelf, T: Shelf, W: Watch>(
    sides: &mut Sides,
    first_shelf: &mut S,
    second_shelf: &mut T,
    counts: &mut [u32],
    watch: &mut W,
) -> Result<(), CompareFault>
    requires matched { AreMatched S.Shelf T.Shelf first_shelf.old second_shelf.old sides.old }
    requires wide { HasCounts sides.old counts.old }
    requires zero { (c : ℕ) → slice_index_or counts.old c 0 ≡ 0 }
    ensures counted { OfBoth S.Shelf T.Shelf first_shelf.old second_shelf.old sides.old
        (λ mix other. OnOk result (AreCounts mix other sides.old.first.work.planned.range.from
        (sides.old.first.work.planned.range.to - sides.old.first.work.planned.range.from) counts.new)) }
    ensures kept { AreKept S.Shelf T.Shelf first_shelf.old first_shelf.new second_shelf.old second_shelf.new sides.old
        sides.new result }
{
    let mut apart = false;
    for k in 0..sides.first.blocks() {
        apart = count_block(k, apart, sides, first_shelf, second_shelf, counts)?;
        sides.show_progress(k, watch);
    }
    Ok(())
}
