// Scaling of samples to full scale.
ghost use Rattle.std.specs.Prelude.{◌≡◌, ◌-◌, ◌^◌, pos, neg_ℤ, ◌≤ℤ◌};
ghost use Rattle.sound_terms.specs.Depth.{bits_of};
ghost use Rattle.sound_terms.specs.Mix.{full_scale};
ghost use Rattle.pcm.specs.Samples.{FitsDepth};

use pcm::Depth;

/// A depth with the factor that scales its samples to full scale, looked up once for many samples.
#[derive(Clone, Copy)]
pub struct Scale {
    pub depth: Depth,
    factor: i64,
    ghost is: { factor ≡ pos (2 ^ (48 - bits_of depth)) },
}

impl Scale {
    /// Returns the scale of a depth.
    #[inline(always)]
    pub fn of(depth: Depth) -> Self
        ensures { result.depth ≡ depth }
    {
        let factor = match depth {
            Depth::Sixteen => 1 << 32,
            Depth::TwentyFour => 1 << 24,
            Depth::ThirtyTwo => 1 << 16,
        };
        Scale { depth, factor }
    }

    /// Scales a sample to full scale: -2^47 to 2^47 if the sample is in the range of the depth.
    #[inline(always)]
    pub fn widen(&self, x: i32) -> i64
        ensures value { result ≡ full_scale (bits_of self.now.depth) x }
        ensures within { FitsDepth (bits_of self.now.depth) x
            → (neg_ℤ (pos (2 ^ 47)) ≤ℤ result) × (result ≤ℤ pos (2 ^ 47)) }
    {
        i64::from(x) * self.factor
    }
}
