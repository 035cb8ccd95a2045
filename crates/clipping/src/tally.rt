// Tallies of clipped sums.
ghost use Rattle.std.specs.Prelude.{◌≡◌, ◌+◌, ◌-◌, ◌*◌, ◌^◌, ◌<◌, ◌++◌, ◌∷◌, [], min, ℕ, ℤ, List, None, Some, IfSome, false, length};
ghost use Rattle.std.specs.List.{All};
ghost use Rattle.std.specs.Option.{option_map};
ghost use Rattle.sound_terms.specs.Depth.{bits_of};
ghost use Rattle.clipping.specs.Clips as clipping;
ghost use Rattle.clipping.specs.Clips.{IsClippingOf};

use sound_terms::Depth;

/// A tally of the clipped sums among interleaved sums of up to 64 channels.
#[derive(Clone, Copy, Debug, PartialEq, Eq)]
pub struct Clips {
    /// The number of clipped sums.
    pub samples: u64,
    /// The index of the first clipped sum, counted from 0 over the interleaved sums.
    pub first: Option<u64>,
    /// The greatest distance of a clipped sum from zero, on a scale with full scale at 2^47; 0 if no sum is clipped.
    pub peak: u64,
    /// A bit mask of the channels with clipped sums: bit c, counted from 0 at the lowest bit, for channel c + 1.
    pub channels: u64,
}

/// Returns true if a sum at full scale, rounded to this depth, is outside the range of the depth.
pub fn is_clipped(sum: i64, depth: Depth) -> bool
    ensures { result ≡ clipping.is_clipped (bits_of depth) sum }
{
    match depth {
        Depth::Sixteen => sum < -(1 << 47) - (1 << 31) || sum >= (1 << 47) - (1 << 31),
        Depth::TwentyFour => sum < -(1 << 47) - (1 << 23) || sum >= (1 << 47) - (1 << 23),
        Depth::ThirtyTwo => sum < -(1 << 47) - (1 << 15) || sum >= (1 << 47) - (1 << 15),
    }
}

/// Returns the first index, or the next index shifted by `before`.
fn first_joined(first: Option<u64>, next: Option<u64>, before: u64) -> Option<u64>
    ensures kept { IfSome first (λ index. result ≡ Some index) }
    ensures shifted { first ≡ None → result ≡ option_map (λ index. min (before + index) (2 ^ 64 - 1)) next }
{
    match (first, next) {
        (Some(index), _) => Some(index),
        (None, Some(index)) => Some(before.saturating_add(index)),
        (None, None) => None,
    }
}

impl Clips {
    /// Creates the tally of sums without clipping.
    pub fn none() -> Self
        ensures { (depth channels : ℕ) (sums : List ℤ) → All (λ sum. clipping.is_clipped depth sum ≡ false) sums
            → IsClippingOf depth channels sums result }
    {
        Clips {
            samples: 0,
            first: None,
            peak: 0,
            channels: 0,
        }
    }

    /// Adds the sum with this index on this channel, both counted from 0.
    pub fn note(&mut self, sum: i64, depth: Depth, index: u64, channel: u32)
        requires { channel < 64 }
        ensures { (channels frame : ℕ) (sums : List ℤ) → index ≡ frame * channels + channel → channel < channels
            → length sums ≡ index → index + 1 < 2 ^ 64 → IsClippingOf (bits_of depth) channels sums self.old
            → IsClippingOf (bits_of depth) channels (sums ++ sum ∷ []) self.new }
    {
        if is_clipped(sum, depth) {
            self.samples = self.samples.saturating_add(1);
            self.first = self.first.or(Some(index));
            self.peak = self.peak.max(sum.unsigned_abs());
            self.channels |= 1 << channel;
        }
    }

    /// Combines this tally of `before` sums with the tally of the sums that follow them.
    pub fn joined(self, next: Clips, before: u64) -> Clips
        ensures { (depth channels frames : ℕ) (sums others : List ℤ) → before ≡ frames * channels
            → length sums ≡ before → length sums + length others < 2 ^ 64 → IsClippingOf depth channels sums self
            → IsClippingOf depth channels others next → IsClippingOf depth channels (sums ++ others) result }
    {
        Clips {
            samples: self.samples.saturating_add(next.samples),
            first: first_joined(self.first, next.first, before),
            peak: self.peak.max(next.peak),
            channels: self.channels | next.channels,
        }
    }
}
