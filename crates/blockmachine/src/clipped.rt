// Detection of clipped sums in a block.
ghost use Rattle.std.specs.Prelude.{◌≡◌, ◌*◌, ◌<◌, ◌≤ℤ◌, pos, false, slice_index_or};
ghost use Rattle.std.specs.List.{All};
ghost use Rattle.sound_terms.specs.Depth.{bits_of};
ghost use Rattle.blockmachine.specs.Clipped.{IsBetween, TellsClips};
ghost use Rattle.blockmachine.specs.Lines.{FillFrames};

use crate::sums::Sums;
use clipping::Clips;
use sound_terms::Depth;
use soundlaw::widen;

/// Returns the minimum and the maximum of the samples.
fn bounds_of(samples: &[i32]) -> (i32, i32)
    ensures { All (λ sample. (result.0 ≤ℤ sample) × (sample ≤ℤ result.1)) samples.now }
{
    let mut least = i32::MAX;
    let mut greatest = i32::MIN;
    for k in 0..samples.len() {
        least = least.min(samples[k]);
        greatest = greatest.max(samples[k]);
    }
    (least, greatest)
}

/// Returns whether a sample is at either end of the range, as every clipped sample is.
fn may_be_clipped(samples: &[i32], depth: Depth) -> bool
    ensures { result ≡ false → All (IsBetween (bits_of depth)) samples.now }
{
    let (least, greatest) = bounds_of(samples);
    match depth {
        Depth::Sixteen => least <= -(1 << 15) || greatest >= (1 << 15) - 1,
        Depth::TwentyFour => least <= -(1 << 23) || greatest >= (1 << 23) - 1,
        Depth::ThirtyTwo => least == i32::MIN || greatest == i32::MAX,
    }
}

impl Sums {
    /// Returns the sum at index `k`, at full scale.
    fn sum_at(&self, k: usize) -> i64
        requires { k < self.now.extent.frames * self.now.extent.channels }
        ensures { result ≡ slice_index_or self.now.values k (pos 0) }
    {
        if self.at_depth {
            widen(self.layers[k], self.depth)
        } else {
            self.values[k]
        }
    }

    /// Returns which of the first sums were clipped when they were emitted as `samples`. Checks
    /// each sum, in either form of storage, if a sample is at an end of the range.
    pub(crate) fn clips_one_by_one(&self, depth: Depth, samples: &[i32]) -> Clips
        requires { FillFrames self.now.extent samples.now }
        ensures { TellsClips depth self.now samples.now result }
    {
        let mut clips = Clips::none();
        if !may_be_clipped(samples, depth) {
            return clips;
        }
        let channels = self.lanes.channels;
        let count = samples.len();
        for k in 0..count {
            clips.note(self.sum_at(k), depth, k as u64, (k % channels) as u32);
        }
        clips
    }
}
