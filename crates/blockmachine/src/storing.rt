// Conversion of sums to stored samples.
ghost use Rattle.std.specs.Prelude.{◌≡◌, ◌*◌, ◌/◌, ℕ, ℤ, length, map};
ghost use Rattle.std.specs.List.{flat_map};
ghost use Rattle.sound_terms.specs.Depth.{bits_of};
ghost use Rattle.sound_terms.specs.Mix.{quantized};
ghost use Rattle.sound_terms.specs.Blocks.{block_samples};
ghost use Rattle.sound_terms.specs.Waves.{sample_bytes};
ghost use Rattle.clipping.specs.Clips.{IsClippingOf, block_sums};
ghost use Rattle.clipping.specs.Kept.{at_full_scale};
ghost use Rattle.blockmachine.specs.Lines.{FillFrames};
ghost use Rattle.blockmachine.specs.Sums.{AreSums};

use crate::layers::emit_layers;
use crate::sums::Sums;
use clipping::{Clips, Kept};
use pcm::pack;
use sound_terms::Depth;

/// Writes sums to `bytes` as stored samples of the depth that they are kept at, without conversion
/// if none is clipped. Returns the clipped samples.
fn store_kept(kept: &Kept, samples: &mut [i32], bytes: &mut [u8]) -> Clips
    requires samples { length samples.old ≡ length kept.now.sums.now }
    requires bytes { length bytes.old ≡ length samples.old * (bits_of kept.now.depth / 8) }
    ensures stored { bytes.new ≡ flat_map (sample_bytes (bits_of kept.now.depth))
        (map (quantized (bits_of kept.now.depth)) (at_full_scale (bits_of kept.now.depth) kept.now.sums.now)) }
    ensures clips { IsClippingOf (bits_of kept.now.depth) kept.now.channels
        (at_full_scale (bits_of kept.now.depth) kept.now.sums.now) result }
{
    let clips = Clips::of_kept(kept);
    if clips.samples == 0 {
        pack(kept.depth, kept.sums, bytes);
    } else {
        emit_layers(kept.sums, kept.depth, kept.depth, samples);
        pack(kept.depth, samples, bytes);
    }
    clips
}

impl Sums {
    /// Fills `bytes` with the first sample frames as stored samples of the given depth; `samples`
    /// is working space, and its length determines their number. Returns the clipped samples.
    pub fn store(&self, depth: Depth, samples: &mut [i32], bytes: &mut [u8]) -> Clips
        requires frames { FillFrames self.now.extent samples.old }
        requires room { length bytes.old ≡ length samples.old * (bits_of depth / 8) }
        ensures stored { (all : ℕ → ℕ → ℤ) → AreSums self.now all → (frames : ℕ)
            → length samples.old ≡ frames * self.now.extent.channels
            → bytes.new ≡ flat_map (sample_bytes (bits_of depth))
            (block_samples (bits_of depth) all self.now.extent.channels 0 frames) }
        ensures clips { (all : ℕ → ℕ → ℤ) → AreSums self.now all → (frames : ℕ)
            → length samples.old ≡ frames * self.now.extent.channels
            → IsClippingOf (bits_of depth) self.now.extent.channels
            (block_sums all self.now.extent.channels 0 frames) result }
    {
        if self.at_depth && self.depth.bits() == depth.bits() {
            let kept = Kept {
                sums: &self.layers[..samples.len()],
                depth,
                channels: self.lanes.channels,
            };
            return store_kept(&kept, samples, bytes);
        }
        self.emit(depth, samples);
        pack(depth, samples, bytes);
        self.clips_one_by_one(depth, samples)
    }
}
