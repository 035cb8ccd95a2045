// The first difference between the sums of two blocks.
ghost use Rattle.std.specs.Prelude.{◌≡◌, ◌+◌, ◌<◌, ℕ, ℤ, pos, IsTrue, length, slice_index_or};
ghost use Rattle.comparison.specs.Alike.{IsCompared, IsFirstDiffering};
ghost use Rattle.comparison.specs.Both.{AreSumsOfBlock};

use crate::block::BlockSums;

/// A difference of two projects at a sample: its time of day in samples, its channel from 1, and
/// the exact sums of both projects. Full scale is 2^47.
#[derive(Clone, Copy, Debug, PartialEq, Eq)]
pub struct Difference {
    pub at: u64,
    pub channel: u8,
    pub first: i64,
    pub second: i64,
}

/// Returns whether all sums are equal. The loop has no early exit, so that it is vectorised.
#[inline(always)]
fn are_same(block: &BlockSums) -> bool
    ensures { IsTrue result → (k : ℕ) → k < length block.now.sums.now
        → slice_index_or block.now.sums.now k (pos 0) ≡ slice_index_or block.now.others.now k (pos 0) }
{
    let (sums, others) = (block.sums, block.others);
    let mut same = true;
    for k in 0..sums.len() {
        same &= sums[k] == others[k];
    }
    same
}

/// Returns the index of the first sum that differs.
fn first_differing(block: &BlockSums) -> Option<usize>
    ensures { IsFirstDiffering block.now.sums.now block.now.others.now (length block.now.sums.now) result }
{
    let (sums, others) = (block.sums, block.others);
    for k in 0..sums.len() {
        if sums[k] != others[k] {
            return Some(k);
        }
    }
    None
}

/// Returns the first difference between the sums of both sides of a block, or `None` if there is
/// none.
pub fn first_difference(block: &BlockSums) -> Option<Difference>
    ensures { (mix other : ℕ → ℕ → ℤ) → AreSumsOfBlock block.now mix other
        → IsCompared block.now.start (block.now.start + block.now.frames) block.now.channels mix other result }
{
    if are_same(block) {
        return None;
    }
    let Some(position) = first_differing(block) else {
        return None;
    };
    let channels = block.channels as usize;
    Some(Difference {
        at: block.start + (position / channels) as u64,
        channel: (position % channels) as u8 + 1,
        first: block.sums[position],
        second: block.others[position],
    })
}
