// Addition of one more sample to a sum.
ghost use Rattle.std.specs.Prelude.{true, ◌≡◌, ◌∷◌, [], ◌+ℤ◌};
ghost use Rattle.sound_terms.specs.Blocks.{held};
ghost use Rattle.soundlaw.specs.Sums.{TakeShare};

use std::simd::prelude::*;

/// Adds a sample at full scale, or the share of one, to a sum. The result saturates at 64 bits; if `is_small` is true
/// it can't overflow and saturation is skipped.
#[inline(always)]
pub fn added(sum: i64, share: i64, is_small: bool) -> i64
    requires { TakeShare is_small sum share }
    ensures { result ≡ held (sum +ℤ share) }
{
    if is_small {
        sum + share
    } else {
        sum.saturating_add(share)
    }
}

/// Adds a sample to each of two small sums.
#[inline(always)]
pub fn two_added(first: i64, second: i64, low: i64, high: i64) -> [i64; 2]
    requires first { TakeShare true first low }
    requires second { TakeShare true second high }
    ensures { result ≡ held (first +ℤ low) ∷ held (second +ℤ high) ∷ [] }
{
    (i64x2::from_array([first, second]) + i64x2::from_array([low, high])).to_array()
}
