// The sums of a block.
ghost use Rattle.std.specs.Prelude.{◌≡◌, ◌*◌, ◌/◌, ℕ, ℤ, pos, length, IfOk};
ghost use Rattle.sound_terms.specs.Depth.{bits_of};
ghost use Rattle.sound_terms.specs.Blocks.{FitsBlock, block_samples};
ghost use Rattle.pcm.specs.Samples.{samples_in};
ghost use Rattle.blockmachine.specs.Lines.{FillFrames};
ghost use Rattle.blockmachine.specs.Sums.{AreSums, BlockSums, HasPlayed, TakeStored, widened};

use crate::addition;
use crate::additions::Additions;
use crate::frames::{Frames, Lanes, Played, Stored};
use crate::layers::{
    self, FEW_LAYERS, add_layer, add_stored_layer, emit_layers, is_layer, is_stored_layer,
    widen_layers,
};
use crate::output::emit;
use pcm::unpack;
use sound_terms::Depth;
use std::alloc::{AllocError, Global};
use std::marker::Model;

/// The number of samples whose sum fits in 64 bits.
const FEW: u32 = 32_767;

/// The sums of a block, interleaved. While at most n stretches overlap at any sample, no sum
/// exceeds n samples at full scale. Sums start in 32 bits at the depth of the block, and move to
/// full scale at the first stretch that is faded, of greater depth, or on only some of the
/// channels.
#[derive(Drop)]
pub struct Sums {
    pub(crate) lanes: Lanes,
    pub(crate) at_depth: bool,
    pub(crate) depth: Depth,
    pub(crate) layers: Vec<i32>,
    pub(crate) values: Vec<i64>,
    additions: Additions,
}

impl Model for Sums {
    ghost use Rattle.std.specs.Prelude.{◌≡◌, ◌*◌, ◌<◌, ◌≤◌, length};
    ghost use Rattle.sound_terms.specs.Depth.{bits_of};
    ghost use Rattle.blockmachine.specs.Sums.{AreFew, BlockSums, block_of, few_additions, kept_sums};

    ghost Value = { BlockSums };

    ghost view = { λ s. block_of s.lanes.frames s.lanes.channels
        (kept_sums s.at_depth (bits_of s.depth) s.layers.items s.values.items) };

    ghost invariant = { λ s. (length s.values.items ≡ s.lanes.frames * s.lanes.channels)
        × (length s.layers.items ≡ s.lanes.frames * s.lanes.channels) × (s.additions.most < few_additions
        → AreFew s.additions.most (s.additions.fewer_from * s.lanes.channels)
        (kept_sums s.at_depth (bits_of s.depth) s.layers.items s.values.items)) };
}

impl Sums {
    /// Allocates sums for a block of the given layout. Returns `AllocError` if out of memory.
    pub fn new(alloc: Global, lanes: Lanes) -> Result<Self, AllocError>
        ensures { IfOk result (λ sums. sums.extent ≡ record { frames = lanes.frames; channels = lanes.channels }) }
    {
        let mut layers = Vec::new(alloc);
        layers.resize(lanes.frames * lanes.channels, 0)?;
        let mut values = Vec::new(alloc);
        values.resize(lanes.frames * lanes.channels, 0)?;
        Ok(Sums {
            lanes,
            at_depth: false,
            depth: Depth::TwentyFour,
            layers,
            values,
            additions: Additions {
                most: FEW,
                fewer_from: 0,
            },
        })
    }

    /// Returns the layout.
    pub fn lanes(&self) -> Lanes
        ensures frames { result.frames ≡ self.now.extent.frames }
        ensures channels { result.channels ≡ self.now.extent.channels }
    {
        self.lanes
    }

    /// Resets every sum to zero, for a block of the given depth.
    pub fn clear(&mut self, depth: Depth)
        ensures zero { AreSums self.new (λ _ _. pos 0) }
        ensures same_extent { self.new.extent ≡ self.old.extent }
    {
        layers::set_to_zero(self.layers.as_mut_slice());
        self.at_depth = true;
        self.depth = depth;
        self.additions = Additions {
            most: 0,
            fewer_from: 0,
        };
    }

    /// Sets the sums to stored samples, one per sum, of the block's depth.
    pub fn fill(&mut self, depth: Depth, bytes: &[u8])
        requires { length bytes.now ≡ self.old.extent.frames * self.old.extent.channels * (bits_of depth / 8) }
        ensures filled { self.new.values ≡ widened (bits_of depth)
            (samples_in (bits_of depth) (self.old.extent.frames * self.old.extent.channels) bytes.now) }
        ensures same_extent { self.new.extent ≡ self.old.extent }
    {
        unpack(depth, bytes, self.layers.as_mut_slice());
        self.at_depth = true;
        self.depth = depth;
        self.additions = Additions {
            most: 1,
            fewer_from: self.lanes.frames as u32,
        };
    }

    /// Adds a stored stretch. `samples` is working space with room for its samples.
    pub fn add(&mut self, stored: &Stored, samples: &mut [i32])
        requires { TakeStored self.old.extent stored.now.stretch stored.now.channels (length samples.old) }
        ensures played { HasPlayed stored.now.stretch stored.now.shape stored.now.channels (bits_of stored.now.depth)
            (samples_in (bits_of stored.now.depth) (stored.now.stretch.length * stored.now.channels) stored.now.bytes.now)
            self.old self.new }
        ensures same_extent { self.new.extent ≡ self.old.extent }
    {
        let lanes = self.lanes;
        let few = self.at_depth && self.additions.most < FEW_LAYERS;
        if few && is_stored_layer(stored, lanes.channels, self.depth) {
            add_stored_layer(stored, lanes, self.layers.as_mut_slice());
            self.additions = self.additions.with(&stored.stretch);
        } else {
            let samples = &mut samples[..stored.stretch.length as usize * stored.channels];
            unpack(stored.depth, stored.bytes, samples);
            let frames = Frames {
                samples,
                channels: stored.channels,
                depth: stored.depth,
            };
            self.add_played(&Played {
                stretch: stored.stretch,
                shape: stored.shape,
                frames,
            });
        }
    }

    /// Adds an unpacked stretch. The first one that isn't a layer moves the sums to full scale.
    fn add_played(&mut self, played: &Played)
        requires { FitsBlock self.old.extent.frames self.old.extent.channels played.now.stretch }
        ensures played { HasPlayed played.now.stretch played.now.shape played.now.frames.channels
            (bits_of played.now.frames.depth) played.now.frames.samples.now self.old self.new }
        ensures same_extent { self.new.extent ≡ self.old.extent }
    {
        let lanes = self.lanes;
        let few = self.at_depth && self.additions.most < FEW_LAYERS;
        if few && is_layer(played, lanes.channels, self.depth) {
            add_layer(played, lanes, self.depth, self.layers.as_mut_slice());
            self.additions = self.additions.with(&played.stretch);
            return;
        }
        let layers = self.layers.as_slice();
        widen_layers(
            self.at_depth,
            self.additions.most == 0,
            self.depth,
            layers,
            self.values.as_mut_slice(),
        );
        self.at_depth = false;
        let is_small = self.additions.most < FEW;
        addition::add_played(played, lanes, is_small, self.values.as_mut_slice());
        self.additions = self.additions.with(&played.stretch);
    }

    /// Fills `out` with the first sample frames at the given depth.
    pub fn emit(&self, depth: Depth, out: &mut [i32])
        requires { FillFrames self.now.extent out.old }
        ensures { (all : ℕ → ℕ → ℤ) → AreSums self.now all → (frames : ℕ)
            → length out.old ≡ frames * self.now.extent.channels
            → out.new ≡ block_samples (bits_of depth) all self.now.extent.channels 0 frames }
    {
        let layers = self.layers.as_slice();
        let values = self.values.as_slice();
        if self.at_depth {
            emit_layers(layers, self.depth, depth, out);
        } else {
            emit(values, depth, out);
        }
    }
}
