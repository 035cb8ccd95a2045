// Sums in 32 bits, at the depth of their block, for unfaded samples of no greater depth.
ghost use Rattle.std.specs.Prelude.{IsTrue, true, ◌≡◌, ◌*◌, ◌≤◌, ◌+ℤ◌, length};
ghost use Rattle.std.specs.List.{All};
ghost use Rattle.sound_terms.specs.Depth.{bits_of};
ghost use Rattle.sound_terms.specs.Mix.{full_scale, quantized};
ghost use Rattle.sound_terms.specs.Blocks.{held};
ghost use Rattle.pcm.specs.Samples.{FitsDepth, samples_in};
ghost use Rattle.blockmachine.specs.Sums.{AreZero, CanWiden, EmitsAt, HasAdded, HasPlayed, IsLayer, TakeLayer, TakeSample, TakeSamples, block_of, kept_sums, widened};

use crate::addition::is_run;
use crate::frames::{Frames, Lanes, Played, Stored};
use pcm::add_unpacked;
use sound_terms::{Depth, Shape};
use soundlaw::{Scale, finish, widen};

/// The number of 24-bit samples whose sum fits in 32 bits.
pub const FEW_LAYERS: u32 = 255;

/// Samples to be converted to the depth of a block, 16 or 24 bits, which is at least their own
/// depth.
#[derive(Clone, Copy)]
struct Layer<'a> {
    frames: Frames<'a>,
    depth: Depth,
    ghost no_deeper: { bits_of frames.depth ≤ bits_of depth },
    ghost shallow: { bits_of depth ≤ 24 },
}

/// Returns whether a stretch plays all channels of its file on all channels of the block, in order
/// and unfaded, at no more than the block's depth, which must be 16 or 24 bits.
pub fn is_layer(played: &Played, channels: usize, depth: Depth) -> bool
    ensures { IsTrue result → IsLayer played.now.stretch played.now.shape played.now.frames.channels channels
        (bits_of played.now.frames.depth) (bits_of depth) }
{
    let source = played.frames.depth;
    is_run(played, channels) && source.bits() <= depth.bits() && depth.bits() <= 24
}

/// Returns a sample at the depth of the block.
#[inline(always)]
fn at_depth(layer: &Layer, sample: i32) -> i32
    requires { FitsDepth (bits_of layer.now.frames.depth) sample }
    ensures value { full_scale (bits_of layer.now.depth) result ≡ full_scale (bits_of layer.now.frames.depth) sample }
    ensures fit { FitsDepth (bits_of layer.now.depth) result }
{
    if layer.frames.depth.bits() == layer.depth.bits() {
        sample
    } else {
        sample * 256
    }
}

/// Adds a sample to a sum of few samples.
#[inline(always)]
fn layered(layer: &Layer, sum: i32, sample: i32) -> i32
    requires { TakeSample (bits_of layer.now.frames.depth) (bits_of layer.now.depth) sum sample }
    ensures { full_scale (bits_of layer.now.depth) result
        ≡ held (full_scale (bits_of layer.now.depth) sum +ℤ full_scale (bits_of layer.now.frames.depth) sample) }
{
    sum + at_depth(layer, sample)
}

/// Adds one sample to each sum.
#[inline(always)]
fn add_samples(layer: &Layer, sums: &mut [i32])
    requires { TakeSamples (length layer.now.frames.samples.now) 254 true sums.old
        (widened (bits_of layer.now.depth) sums.old) }
    ensures { HasAdded (1, 1) (bits_of layer.now.frames.depth) layer.now.frames.samples.now
        (widened (bits_of layer.now.depth) sums.old) (widened (bits_of layer.now.depth) sums.new) }
{
    for (i, sum) in sums.iter_mut().enumerate() {
        *sum = layered(layer, *sum, layer.frames.samples[i]);
    }
}

/// Adds a stretch that is a layer of the block to sums of few samples.
pub fn add_layer(played: &Played, lanes: Lanes, depth: Depth, sums: &mut [i32])
    requires { TakeLayer lanes.frames lanes.channels played.now.stretch played.now.shape played.now.frames.channels
        (bits_of played.now.frames.depth) (bits_of depth) sums.old }
    ensures { HasPlayed played.now.stretch played.now.shape played.now.frames.channels
        (bits_of played.now.frames.depth) played.now.frames.samples.now
        (block_of lanes.frames lanes.channels (widened (bits_of depth) sums.old))
        (block_of lanes.frames lanes.channels (widened (bits_of depth) sums.new)) }
{
    let from = played.stretch.at as usize * lanes.channels;
    let count = played.stretch.length as usize * lanes.channels;
    let run = &mut sums[from..from + count];
    let layer = Layer {
        frames: played.frames,
        depth,
    };
    add_samples(&layer, run);
}

/// Returns whether a stored stretch plays all channels of its file on all channels of the block, in
/// order and unfaded, at exactly the block's depth, which must be 16 or 24 bits.
pub fn is_stored_layer(stored: &Stored, channels: usize, depth: Depth) -> bool
    ensures layer { IsTrue result → IsLayer stored.now.stretch stored.now.shape stored.now.channels channels
        (bits_of stored.now.depth) (bits_of stored.now.depth) }
    ensures same_depth { IsTrue result → stored.now.depth ≡ depth }
{
    let width = stored.stretch.width as usize;
    let is_run = stored.shape == Shape::Flat && width == channels && stored.channels == channels;
    is_run && stored.depth == depth && depth.bits() <= 24
}

/// Adds a stored stretch that is a layer at the depth of the block to sums of few samples.
pub fn add_stored_layer(stored: &Stored, lanes: Lanes, sums: &mut [i32])
    requires { TakeLayer lanes.frames lanes.channels stored.now.stretch stored.now.shape stored.now.channels
        (bits_of stored.now.depth) (bits_of stored.now.depth) sums.old }
    ensures fit { All (FitsDepth (bits_of stored.now.depth))
        (samples_in (bits_of stored.now.depth) (stored.now.stretch.length * stored.now.channels) stored.now.bytes.now) }
    ensures played { HasPlayed stored.now.stretch stored.now.shape stored.now.channels (bits_of stored.now.depth)
        (samples_in (bits_of stored.now.depth) (stored.now.stretch.length * stored.now.channels) stored.now.bytes.now)
        (block_of lanes.frames lanes.channels (widened (bits_of stored.now.depth) sums.old))
        (block_of lanes.frames lanes.channels (widened (bits_of stored.now.depth) sums.new)) }
{
    let from = stored.stretch.at as usize * lanes.channels;
    let count = stored.stretch.length as usize * lanes.channels;
    let run = &mut sums[from..from + count];
    add_unpacked(stored.depth, stored.bytes, run);
}

/// Overwrites `values` with the sums at full scale if the sums are kept at a depth. All are zero if
/// nothing was added.
pub fn widen_layers(
    at_depth: bool,
    is_clear: bool,
    depth: Depth,
    layers: &[i32],
    values: &mut [i64],
)
    requires { CanWiden at_depth is_clear (bits_of depth) layers.now values.old }
    ensures { values.new ≡ kept_sums at_depth (bits_of depth) layers.now values.old }
{
    if at_depth && is_clear {
        set_wide_to_zero(values);
    } else if at_depth {
        widen_all(depth, layers, values);
    }
}

/// Overwrites `values` with sums kept at a depth, at full scale. Specialised by depth.
pub fn widen_all(depth: Depth, layers: &[i32], values: &mut [i64])
    requires { length layers.now ≡ length values.old }
    ensures { values.new ≡ widened (bits_of depth) layers.now }
{
    match depth {
        Depth::Sixteen => widen_by(Scale::of(Depth::Sixteen), layers, values),
        Depth::TwentyFour => widen_by(Scale::of(Depth::TwentyFour), layers, values),
        Depth::ThirtyTwo => widen_by(Scale::of(Depth::ThirtyTwo), layers, values),
    }
}

/// Converts sums by the given scale.
#[inline(always)]
fn widen_by(scale: Scale, layers: &[i32], values: &mut [i64])
    requires { length layers.now ≡ length values.old }
    ensures { values.new ≡ widened (bits_of scale.depth) layers.now }
{
    for (i, value) in values.iter_mut().enumerate() {
        *value = scale.widen(layers[i]);
    }
}

/// Sets every sum to zero.
pub fn set_to_zero(sums: &mut [i32])
    ensures { AreZero sums.new }
{
    for sum in sums.iter_mut() {
        *sum = 0;
    }
}

/// Sets every sum at full scale to zero.
fn set_wide_to_zero(sums: &mut [i64])
    ensures { AreZero sums.new }
{
    for sum in sums.iter_mut() {
        *sum = 0;
    }
}

/// Returns a sum at its own depth, clipped to the range of the depth.
#[inline(always)]
fn clipped(sum: i32, depth: Depth) -> i32
    ensures { result ≡ quantized (bits_of depth) (full_scale (bits_of depth) sum) }
{
    match depth {
        Depth::Sixteen => sum.clamp(-(1 << 15), (1 << 15) - 1),
        Depth::TwentyFour => sum.clamp(-(1 << 23), (1 << 23) - 1),
        Depth::ThirtyTwo => sum,
    }
}

/// Emits the first sums as samples of the depth that they are kept at.
fn clip(sums: &[i32], depth: Depth, out: &mut [i32])
    requires { length out.old ≤ length sums.now }
    ensures { EmitsAt depth depth sums.now out.new }
{
    for (k, sample) in out.iter_mut().enumerate() {
        *sample = clipped(sums[k], depth);
    }
}

/// Emits the first sums as samples of another depth.
fn finish_layers(sums: &[i32], kept: Depth, depth: Depth, out: &mut [i32])
    requires { length out.old ≤ length sums.now }
    ensures { EmitsAt kept depth sums.now out.new }
{
    for (k, sample) in out.iter_mut().enumerate() {
        *sample = finish(widen(sums[k], kept), depth);
    }
}

/// Emits the first sums, kept at one depth, as samples of any depth.
pub fn emit_layers(sums: &[i32], kept: Depth, depth: Depth, out: &mut [i32])
    requires { length out.old ≤ length sums.now }
    ensures { EmitsAt kept depth sums.now out.new }
{
    match (kept, depth) {
        (Depth::Sixteen, Depth::Sixteen) => clip(sums, Depth::Sixteen, out),
        (Depth::TwentyFour, Depth::TwentyFour) => clip(sums, Depth::TwentyFour, out),
        _ => finish_layers(sums, kept, depth, out),
    }
}
