// Addition of a stretch's samples to the sums of a block.
ghost use Rattle.std.specs.Prelude.{if◌then◌else◌, IsTrue, true, ◌≡◌, ◌<◌, ◌≤◌, pos, length, slice_index_or};
ghost use Rattle.sound_terms.specs.declared.piece.Shape.TheVariants as shape;
ghost use Rattle.sound_terms.specs.Depth.{bits_of};
ghost use Rattle.sound_terms.specs.Mix.{full_scale};
ghost use Rattle.soundlaw.specs.Sums.{IsWithin};
ghost use Rattle.blockmachine.specs.Sums.{HasAdded, HasAddedTo, HasPlayed, TakeRows, TakeSamples, TakeStretch, block_of};

use crate::frames::{Frames, Lanes, Played, Row};
use crate::slope::Slope;
use sound_terms::{Depth, Shape};
use soundlaw::{Gain, Scale, added, two_added};

/// Returns sample `k` of the row at full scale.
#[inline(always)]
fn full_sample(row: &Row, k: usize) -> i64
    requires { k < length row.now.samples.now }
    ensures value { result ≡ full_scale (bits_of row.now.scale.depth) (slice_index_or row.now.samples.now k (pos 0)) }
    ensures within { IsWithin 1 result }
{
    row.scale.widen(row.samples[k])
}

/// Adds samples to small sums in pairs, as far as there are pairs. Returns the number of samples
/// added.
#[inline(always)]
fn add_lanes(row: &Row, sums: &mut [i64]) -> usize
    requires { TakeSamples (length row.now.samples.now) 32766 true sums.old sums.old }
    ensures some { result ≤ length sums.new }
    ensures added { HasAddedTo result (1, 1) (bits_of row.now.scale.depth) row.now.samples.now sums.old sums.new }
{
    let mut done = 0;
    while sums.len() - done >= 2 {
        let low = full_sample(row, done);
        let high = full_sample(row, done + 1);
        let [first, second] = two_added(sums[done], sums[done + 1], low, high);
        sums[done] = first;
        sums[done + 1] = second;
        done += 2;
    }
    done
}

/// Adds one sample to each sum: to small sums in pairs first, then one by one.
#[inline(always)]
fn add_flat(row: &Row, is_small: bool, sums: &mut [i64])
    requires { TakeSamples (length row.now.samples.now) 32766 is_small sums.old sums.old }
    ensures { HasAdded (1, 1) (bits_of row.now.scale.depth) row.now.samples.now sums.old sums.new }
{
    let done = if is_small { add_lanes(row, sums) } else { 0 };
    for i in done..sums.len() {
        let sample = full_sample(row, i);
        sums[i] = added(sums[i], sample, is_small);
    }
}

/// Adds a share of one sample to each sum.
#[inline(always)]
fn add_shares(gain: Gain, row: &Row, is_small: bool, sums: &mut [i64])
    requires { TakeSamples (length row.now.samples.now) 32766 is_small sums.old sums.old }
    ensures { HasAdded (gain.fraction.num, gain.fraction.den) (bits_of row.now.scale.depth)
        row.now.samples.now sums.old sums.new }
{
    for (i, sum) in sums.iter_mut().enumerate() {
        let sample = full_sample(row, i);
        let share = gain.share(sample);
        *sum = added(*sum, share, is_small);
    }
}

/// Adds the samples of one sample frame, unchanged or faded.
#[inline(always)]
fn add_row(gain: Gain, row: &Row, is_flat: bool, is_small: bool, sums: &mut [i64])
    requires { TakeSamples (length row.now.samples.now) 32766 is_small sums.old sums.old }
    ensures { HasAdded (if is_flat then (1, 1) else (gain.fraction.num, gain.fraction.den)) (bits_of row.now.scale.depth)
        row.now.samples.now sums.old sums.new }
{
    if is_flat {
        add_flat(row, is_small, sums)
    } else {
        add_shares(gain, row, is_small, sums)
    }
}

/// Adds a stretch one sample frame at a time, with or without a fade.
#[inline(always)]
fn add_rows(
    played: &Played,
    width: usize,
    lanes: Lanes,
    is_flat: bool,
    is_small: bool,
    sums: &mut [i64],
)
    requires { TakeRows lanes.frames lanes.channels is_flat is_small width played.now.stretch played.now.shape sums.old }
    ensures { HasPlayed played.now.stretch played.now.shape played.now.frames.channels
        (bits_of played.now.frames.depth) played.now.frames.samples.now (block_of lanes.frames lanes.channels sums.old)
        (block_of lanes.frames lanes.channels sums.new) }
{
    let stretch = played.stretch;
    let all = played.frames.samples;
    let source = played.frames.channels;
    let scale = Scale::of(played.frames.depth);
    let mut slope = Slope::of(played.shape);
    for i in 0..stretch.length {
        let from = i as usize * source + (stretch.first as usize - 1);
        let to = (stretch.at as usize + i as usize) * lanes.channels + (stretch.dest as usize - 1);
        let samples = &all[from..from + width];
        let gain = slope.step();
        let row = Row { samples, scale };
        add_row(gain, &row, is_flat, is_small, &mut sums[to..to + width]);
    }
}

/// Returns whether a stretch plays all channels of its file on all channels of the block, in order
/// and unfaded.
pub fn is_run(played: &Played, channels: usize) -> bool
    ensures { IsTrue result → (played.now.shape ≡ shape.Flat) × (played.now.stretch.width ≡ channels)
        × (played.now.frames.channels ≡ channels) }
{
    let width = played.stretch.width as usize;
    played.shape == Shape::Flat && width == channels && played.frames.channels == channels
}

/// Adds a stretch to small sums. Specialised for one and two channels.
#[inline(always)]
fn add_by_width(played: &Played, lanes: Lanes, is_flat: bool, sums: &mut [i64])
    requires { TakeRows lanes.frames lanes.channels is_flat true played.now.stretch.width played.now.stretch
        played.now.shape sums.old }
    ensures { HasPlayed played.now.stretch played.now.shape played.now.frames.channels
        (bits_of played.now.frames.depth) played.now.frames.samples.now (block_of lanes.frames lanes.channels sums.old)
        (block_of lanes.frames lanes.channels sums.new) }
{
    match played.stretch.width {
        1 => add_rows(played, 1, lanes, is_flat, true, sums),
        2 => add_rows(played, 2, lanes, is_flat, true, sums),
        width => add_rows(played, width as usize, lanes, is_flat, true, sums),
    }
}

/// Adds one sample to each small sum. Specialised by bit depth.
#[inline(always)]
fn add_run(frames: &Frames, sums: &mut [i64])
    requires { TakeSamples (length frames.now.samples.now) 32766 true sums.old sums.old }
    ensures { HasAdded (1, 1) (bits_of frames.now.depth) frames.now.samples.now sums.old sums.new }
{
    let samples = frames.samples;
    match frames.depth {
        Depth::Sixteen => {
            let scale = Scale::of(Depth::Sixteen);
            add_flat(&Row { samples, scale }, true, sums)
        }
        Depth::TwentyFour => {
            let scale = Scale::of(Depth::TwentyFour);
            add_flat(&Row { samples, scale }, true, sums)
        }
        Depth::ThirtyTwo => {
            let scale = Scale::of(Depth::ThirtyTwo);
            add_flat(&Row { samples, scale }, true, sums)
        }
    }
}

/// Adds a stretch to small sums, in one pass if it covers all channels. Specialised by kind of
/// fade.
#[inline(always)]
fn add_small(played: &Played, lanes: Lanes, sums: &mut [i64])
    requires { TakeStretch lanes.frames lanes.channels 32766 true played.now.stretch sums.old sums.old }
    ensures { HasPlayed played.now.stretch played.now.shape played.now.frames.channels
        (bits_of played.now.frames.depth) played.now.frames.samples.now (block_of lanes.frames lanes.channels sums.old)
        (block_of lanes.frames lanes.channels sums.new) }
{
    let channels = lanes.channels;
    if is_run(played, channels) {
        let from = played.stretch.at as usize * channels;
        let count = played.stretch.length as usize * channels;
        let run = &mut sums[from..from + count];
        add_run(&played.frames, run)
    } else {
        match played.shape {
            Shape::Flat => add_by_width(played, lanes, true, sums),
            Shape::Rise { .. } => add_by_width(played, lanes, false, sums),
            Shape::Fall { .. } => add_by_width(played, lanes, false, sums),
        }
    }
}

/// Adds the samples of a stretch to the sums of a block; uses the fast loops if the sums are small.
pub fn add_played(played: &Played, lanes: Lanes, is_small: bool, sums: &mut [i64])
    requires { TakeStretch lanes.frames lanes.channels 32766 is_small played.now.stretch sums.old sums.old }
    ensures { HasPlayed played.now.stretch played.now.shape played.now.frames.channels
        (bits_of played.now.frames.depth) played.now.frames.samples.now (block_of lanes.frames lanes.channels sums.old)
        (block_of lanes.frames lanes.channels sums.new) }
{
    if is_small {
        add_small(played, lanes, sums)
    } else {
        let width = played.stretch.width as usize;
        add_rows(played, width, lanes, false, false, sums)
    }
}
