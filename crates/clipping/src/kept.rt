// Fast twin of `Clips::note` for sums stored at a depth: the tally of a whole slice, equal to noting each sum at full
// scale.
ghost use Rattle.std.specs.Prelude.{◌≡◌, ◌↔◌, ◌-◌, ◌*◌, ◌/◌, ◌^◌, ◌<◌, ◌≤◌, ◌++◌, ◌∷◌, [], ℕ, ℤ, List, IsTrue, false, length};
ghost use Rattle.std.specs.Int.{IsBitSet};
ghost use Rattle.std.specs.List.{position};
ghost use Rattle.sound_terms.specs.Depth.{bits_of};
ghost use Rattle.sound_terms.specs.Mix.{full_scale};
ghost use Rattle.clipping.specs.Clips.{IsClippedOn, IsClippingOf, is_clipped};
ghost use Rattle.clipping.specs.Kept.{AreOutside, at_full_scale};

use crate::Clips;
use sound_terms::Depth;

/// Interleaved sums stored as samples of a depth; they may exceed the range of the depth.
#[derive(Clone, Copy)]
pub struct Kept<'a> {
    pub sums: &'a [i32],
    pub depth: Depth,
    pub channels: usize,
    ghost some_channels: { 1 ≤ channels },
    ghost few_channels: { channels ≤ 64 },
    ghost whole: { length sums.now / channels * channels ≡ length sums.now },
}

/// The number of sums outside the range of a depth, and the greatest distance of such a sum from zero.
#[derive(Clone, Copy)]
struct Outside {
    count: u64,
    farthest: u32,
}

#[inline(always)]
fn is_outside(sum: i32, depth: Depth) -> bool
    ensures { result ≡ is_clipped (bits_of depth) (full_scale (bits_of depth) sum) }
{
    match depth {
        Depth::Sixteen => sum < -(1 << 15) || sum >= 1 << 15,
        Depth::TwentyFour => sum < -(1 << 23) || sum >= 1 << 23,
        Depth::ThirtyTwo => false,
    }
}

impl Outside {
    /// Counts one more sum.
    #[inline(always)]
    fn with(self, sum: i32, depth: Depth) -> Self
        ensures { (sums : List ℤ) → length sums < 2 ^ 63 → AreOutside (bits_of depth) sums self.count self.farthest
            → AreOutside (bits_of depth) (sums ++ sum ∷ []) result.count result.farthest }
    {
        let is_outside = is_outside(sum, depth);
        let distance = if is_outside { sum.unsigned_abs() } else { 0 };
        Outside {
            count: self.count.wrapping_add(u64::from(is_outside)),
            farthest: self.farthest.max(distance),
        }
    }
}

/// Returns true if a sum is outside the range of the depth.
#[inline(always)]
fn is_one_outside(sums: &[i32], depth: Depth) -> bool
    ensures { result ≡ false → AreOutside (bits_of depth) sums.now 0 0 }
{
    let mut found = false;
    for k in 0..sums.len() {
        found |= is_outside(sums[k], depth);
    }
    found
}

/// Counts the sums outside the range of the depth. Most slices have none, which a faster loop checks first.
#[inline(always)]
fn outside_by(sums: &[i32], depth: Depth) -> Outside
    ensures { AreOutside (bits_of depth) sums.now result.count result.farthest }
{
    let mut outside = Outside {
        count: 0,
        farthest: 0,
    };
    if !is_one_outside(sums, depth) {
        return outside;
    }
    for k in 0..sums.len() {
        outside = outside.with(sums[k], depth);
    }
    outside
}

/// Calls `outside_by` with a constant depth, so that each depth has its own specialised loop.
fn outside_of(sums: &[i32], depth: Depth) -> Outside
    ensures { AreOutside (bits_of depth) sums.now result.count result.farthest }
{
    match depth {
        Depth::Sixteen => outside_by(sums, Depth::Sixteen),
        Depth::TwentyFour => outside_by(sums, Depth::TwentyFour),
        Depth::ThirtyTwo => outside_by(sums, Depth::ThirtyTwo),
    }
}

/// Returns the index of the first sum outside the range of the depth.
fn first_outside(sums: &[i32], depth: Depth) -> Option<u64>
    ensures { result ≡ position (is_clipped (bits_of depth)) (at_full_scale (bits_of depth) sums.now) }
{
    for k in 0..sums.len() {
        if is_outside(sums[k], depth) {
            return Some(k as u64);
        }
    }
    None
}

impl<'a> Kept<'a> {
    /// Returns true if a sum on this channel, counted from 0, is outside the range of the depth.
    fn is_outside_on(&self, channel: usize) -> bool
        requires { channel < self.now.channels }
        ensures { IsTrue result ↔ IsClippedOn (bits_of self.now.depth) self.now.channels
            (at_full_scale (bits_of self.now.depth) self.now.sums.now) channel }
    {
        for frame in 0..self.sums.len() / self.channels {
            if is_outside(self.sums[frame * self.channels + channel], self.depth) {
                return true;
            }
        }
        false
    }

    /// Returns the channels with a sum outside the range of the depth: bit c for channel c + 1.
    fn channels_outside(&self) -> u64
        ensures { (channel : ℕ) → IsBitSet result channel ↔ IsClippedOn (bits_of self.now.depth) self.now.channels
            (at_full_scale (bits_of self.now.depth) self.now.sums.now) channel }
    {
        let mut found = 0;
        for channel in 0..self.channels {
            if self.is_outside_on(channel) {
                found |= 1 << channel;
            }
        }
        found
    }
}

/// Scales a distance from zero to full scale.
fn full_distance(distance: u32, depth: Depth) -> u64
    ensures { result ≡ distance * 2 ^ (48 - bits_of depth) }
{
    match depth {
        Depth::Sixteen => u64::from(distance) << 32,
        Depth::TwentyFour => u64::from(distance) << 24,
        Depth::ThirtyTwo => u64::from(distance) << 16,
    }
}

impl Clips {
    /// Counts the clipped sums of a slice.
    pub fn of_kept(kept: &Kept) -> Self
        ensures { IsClippingOf (bits_of kept.now.depth) kept.now.channels
            (at_full_scale (bits_of kept.now.depth) kept.now.sums.now) result }
    {
        let outside = outside_of(kept.sums, kept.depth);
        if outside.count == 0 {
            return Clips::none();
        }
        Clips {
            samples: outside.count,
            first: first_outside(kept.sums, kept.depth),
            peak: full_distance(outside.farthest, kept.depth),
            channels: kept.channels_outside(),
        }
    }
}
