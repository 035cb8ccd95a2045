// Shares of samples by multiplication with a 62-bit binary fraction. Fast twin of `contribution`, which divides.
ghost use Rattle.std.specs.Prelude.{◌≡◌, ◌+◌, ◌*◌, ◌^◌, ◌<◌, ◌≤◌, pos, neg_ℤ, ◌+ℤ◌, ◌*ℤ◌, ◌≤ℤ◌};
ghost use Rattle.std.specs.Int.{int_div_euclid};
ghost use Rattle.sampletime.specs.TimeCode.{day};
ghost use Rattle.sound_terms.specs.Depth.{bits_of};
ghost use Rattle.sound_terms.specs.Mix.{full_scale, quantized, share_of};
ghost use Rattle.pcm.specs.Samples.{FitsDepth};

use crate::{Fraction, contribution, finish, widen};
use pcm::Depth;

/// A fraction with its binary approximation: it is between `parts` / 2^62 and (`parts` + 1) / 2^62.
#[derive(Clone, Copy)]
pub struct Gain {
    pub fraction: Fraction,
    pub(crate) parts: u64,
    ghost low: { parts * fraction.den ≤ fraction.num * 2 ^ 62 },
    ghost high: { fraction.num * 2 ^ 62 ≤ (parts + 1) * fraction.den },
    ghost most: { parts ≤ 2 ^ 62 },
}

impl Gain {
    /// Returns the share of a sample at full scale: the fraction of the sample, rounded down. Equal to
    /// [`contribution`], which is only called if the lower and the upper approximation round differently.
    #[inline(always)]
    pub fn share(&self, v: i64) -> i64
        requires low { neg_ℤ (pos (2 ^ 47)) ≤ℤ v }
        requires high { v ≤ℤ pos (2 ^ 47) }
        ensures share { result ≡ share_of v (self.now.fraction.num, self.now.fraction.den) }
        ensures within { (neg_ℤ (pos (2 ^ 47)) ≤ℤ result) × (result ≤ℤ pos (2 ^ 47)) }
    {
        let scaled = 4 * v;
        let low = scaled_parts(scaled, self.parts);
        let share = upper(low);
        if upper(low + i128::from(scaled)) == share {
            share
        } else {
            contribution(v, self.fraction.num, self.fraction.den)
        }
    }

    /// Returns the share of a sample of this depth, rounded to the depth (to nearest, halves up). Up to 24 bits a
    /// 64-bit product with 39-bit approximations is enough unless the two round differently.
    #[inline(always)]
    pub fn rounded_share(&self, sample: i32, depth: Depth) -> i32
        requires { FitsDepth (bits_of depth) sample }
        ensures share { result ≡ quantized (bits_of depth) (share_of (full_scale (bits_of depth) sample)
            (self.now.fraction.num, self.now.fraction.den)) }
    {
        match depth {
            Depth::Sixteen | Depth::TwentyFour => self.rounded_by_parts(sample, depth),
            Depth::ThirtyTwo => {
                rounded_at_full_scale(sample, depth, self.fraction.num, self.fraction.den)
            }
        }
    }

    /// Rounds the share of a sample of up to 24 bits by 39-bit approximations.
    #[inline(always)]
    fn rounded_by_parts(&self, sample: i32, depth: Depth) -> i32
        requires shallow { bits_of depth ≤ 24 }
        requires fit { FitsDepth (bits_of depth) sample }
        ensures { result ≡ quantized (bits_of depth) (share_of (full_scale (bits_of depth) sample)
            (self.now.fraction.num, self.now.fraction.den)) }
    {
        let size = i64::from(sample);
        let product = parts_and_half(size, self.parts >> 23);
        let share = whole_parts(product);
        if whole_parts(product + size) == share {
            share as i32
        } else {
            rounded_at_full_scale(sample, depth, self.fraction.num, self.fraction.den)
        }
    }
}

/// Rounds the share at full scale. Takes the fraction's numbers, since a `Gain` argument would be stored to memory in
/// each iteration of the caller's loop.
#[cold]
#[inline(never)]
fn rounded_at_full_scale(sample: i32, depth: Depth, num: u64, den: u64) -> i32
    requires fit { FitsDepth (bits_of depth) sample }
    requires fraction { num ≤ den }
    requires some { 0 < den }
    requires in_day { den ≤ day }
    ensures { result ≡ quantized (bits_of depth) (share_of (full_scale (bits_of depth) sample) (num, den)) }
{
    finish(contribution(widen(sample, depth), num, den), depth)
}

/// Returns `parts` / 2^39 of a sample, scaled by 2^39, plus one half for rounding.
#[inline(always)]
fn parts_and_half(sample: i64, parts: u64) -> i64
    requires low { neg_ℤ (pos (2 ^ 23)) ≤ℤ sample }
    requires high { sample ≤ℤ pos (2 ^ 23) }
    requires few { parts ≤ 2 ^ 39 }
    ensures is { result ≡ sample *ℤ pos parts +ℤ pos (2 ^ 38) }
    ensures within { (neg_ℤ (pos (2 ^ 62)) ≤ℤ result) × (result ≤ℤ pos (2 ^ 62 + 2 ^ 38)) }
{
    sample * parts as i64 + (1 << 38)
}

#[inline(always)]
fn whole_parts(product: i64) -> i64
    ensures { result ≡ int_div_euclid product (pos (2 ^ 39)) }
{
    product >> 39
}

#[inline(always)]
fn scaled_parts(v: i64, parts: u64) -> i128
    requires low { neg_ℤ (pos (2 ^ 49)) ≤ℤ v }
    requires high { v ≤ℤ pos (2 ^ 49) }
    requires few { parts ≤ 2 ^ 62 }
    ensures is { result ≡ v *ℤ pos parts }
    ensures within { (neg_ℤ (pos (2 ^ 111)) ≤ℤ result) × (result ≤ℤ pos (2 ^ 111)) }
{
    i128::from(v) * i128::from(parts as i64)
}

#[inline(always)]
fn upper(product: i128) -> i64
    ensures { result ≡ int_div_euclid product (pos (2 ^ 64)) }
{
    (product >> 64) as i64
}
