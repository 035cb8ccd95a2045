//! Arithmetic of a mix. Samples of every depth are scaled to full scale, 48 bits, and their exact sum is rounded once.
#![tactic(auto)]

ghost use Rattle.std.specs.Prelude.{false, negsuc, if◌then◌else◌, ◌≡◌, ◌*◌, ◌/◌, ◌%◌, ◌==◌, ◌*ℤ◌, ◌^◌, ◌<◌, ◌≤◌, pos, neg_ℤ, ◌≤ℤ◌};
ghost use Rattle.sampletime.specs.TimeCode.{day};
ghost use Rattle.sound_terms.specs.Depth.{bits_of};
ghost use Rattle.sound_terms.specs.Mix.{full_scale, quantized, share_of};
ghost use Rattle.pcm.specs.Samples.{FitsDepth};
ghost use Rattle.soundlaw.specs.Crossfade.{IsCrossfadeExact};

mod addition;
mod fraction;
mod gain;
mod rise;
mod scale;

pub use addition::{added, two_added};
pub use fraction::Fraction;
pub use gain::Gain;
use pcm::Depth;
pub use rise::Rise;
pub use scale::Scale;

/// Scales a sample of this depth to full scale: -2^47 to 2^47 if the sample is in the range of the depth.
#[inline(always)]
pub fn widen(x: i32, depth: Depth) -> i64
    ensures value { result ≡ full_scale (bits_of depth) x }
    ensures within { FitsDepth (bits_of depth) x → (neg_ℤ (pos (2 ^ 47)) ≤ℤ result) × (result ≤ℤ pos (2 ^ 47)) }
{
    Scale::of(depth).widen(x)
}

/// Returns the fraction of an absolute value, rounded down, and true if the result is exact.
fn scaled(size: u64, fraction: Fraction) -> (u64, bool)
    requires { size ≤ 2 ^ 47 }
    ensures quotient { result.0 ≡ size * fraction.num / fraction.den }
    ensures exact { result.1 ≡ (size * fraction.num % fraction.den == 0) }
    ensures no_larger { result.0 ≤ size }
    ensures smaller { result.1 ≡ false → result.0 < size }
{
    let whole = size / fraction.den * fraction.num;
    let rest = size % fraction.den * fraction.num;
    (whole + rest / fraction.den, rest % fraction.den == 0)
}

/// Negates an absolute value; an inexact one is rounded down, away from zero.
fn negated(size: u64, is_exact: bool) -> i64
    requires { size ≤ 2 ^ 47 }
    ensures { result ≡ (if is_exact then neg_ℤ (pos size) else negsuc size) }
{
    let size = size as i64;
    if is_exact { -size } else { -size - 1 }
}

/// Returns the share of a sample at full scale in a fade: `num` / `den` of it, rounded down. The fraction is at most 1,
/// and `den` at most the number of samples in a day.
#[cold]
#[inline(never)]
pub fn contribution(v: i64, num: u64, den: u64) -> i64
    requires low { neg_ℤ (pos (2 ^ 47)) ≤ℤ v }
    requires high { v ≤ℤ pos (2 ^ 47) }
    requires fraction { num ≤ den }
    requires some { 0 < den }
    requires in_day { den ≤ day }
    ensures share { result ≡ share_of v (num, den) }
    ensures within { (neg_ℤ (pos (2 ^ 47)) ≤ℤ result) × (result ≤ℤ pos (2 ^ 47)) }
{
    let fraction = Fraction { num, den };
    let (share, is_exact) = scaled(v.unsigned_abs(), fraction);
    if v >= 0 {
        share as i64
    } else {
        negated(share, is_exact)
    }
}

/// Rounds a sum of samples at full scale to this depth (to nearest, halves up) and clips it to the range of the depth.
pub fn finish(sum: i64, depth: Depth) -> i32
    ensures rounded { result ≡ quantized (bits_of depth) sum }
    ensures fit { FitsDepth (bits_of depth) result }
    ensures crossfade { IsCrossfadeExact depth }
{
    match depth {
        Depth::Sixteen => to_sixteen(sum),
        Depth::TwentyFour => to_twenty_four(sum),
        Depth::ThirtyTwo => to_thirty_two(sum),
    }
}

// The clipped sum gets half a step added because the shift rounds down, and full scale added because shifts of
// non-negative numbers are faster.

#[inline(always)]
fn to_sixteen(sum: i64) -> i32
    ensures { result ≡ quantized 16 sum }
{
    let clipped = sum.clamp(-(1 << 47), (1 << 47) - (1 << 31) - 1);
    (((clipped + ((1 << 47) + (1 << 31))) as u64 >> 32) as i64 - (1 << 15)) as i32
}

#[inline(always)]
fn to_twenty_four(sum: i64) -> i32
    ensures { result ≡ quantized 24 sum }
{
    let clipped = sum.clamp(-(1 << 47), (1 << 47) - (1 << 23) - 1);
    (((clipped + ((1 << 47) + (1 << 23))) as u64 >> 24) as i64 - (1 << 23)) as i32
}

#[inline(always)]
fn to_thirty_two(sum: i64) -> i32
    ensures { result ≡ quantized 32 sum }
{
    let clipped = sum.clamp(-(1 << 47), (1 << 47) - (1 << 15) - 1);
    (((clipped + ((1 << 47) + (1 << 15))) as u64 >> 16) as i64 - (1 << 31)) as i32
}
