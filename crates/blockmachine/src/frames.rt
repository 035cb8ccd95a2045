// Samples read from files, and the layout of a block.
ghost use Rattle.std.specs.Prelude.{◌≡◌, ◌+◌, ◌*◌, ◌/◌, ◌≤◌, length};
ghost use Rattle.std.specs.List.{All};
ghost use Rattle.sound_terms.specs.Depth.{bits_of};
ghost use Rattle.sound_terms.specs.Groups.{IsRamp};
ghost use Rattle.pcm.specs.Laws.{AreBytes};
ghost use Rattle.pcm.specs.Samples.{FitsDepth};
ghost use Rattle.blockmachine.specs.Playing.{IsRamp-prop};

use sound_terms::{Depth, Shape, Stretch};
use soundlaw::Scale;

/// The layout of the sums of a block: interleaved, one sample frame after another.
#[derive(Clone, Copy, Drop)]
pub struct Lanes {
    pub frames: usize,
    pub channels: usize,
    ghost few_frames: { frames ≤ 4096 },
    ghost some_channels: { 1 ≤ channels },
    ghost few_channels: { channels ≤ 64 },
}

/// Consecutive samples, with the scale that converts them to full scale.
#[derive(Clone, Copy)]
pub struct Row<'a> {
    pub samples: &'a [i32],
    pub scale: Scale,
    ghost fit: { All (FitsDepth (bits_of scale.depth)) samples.now },
}

/// Interleaved samples of a file.
#[derive(Clone, Copy)]
pub struct Frames<'a> {
    pub samples: &'a [i32],
    pub channels: usize,
    pub depth: Depth,
    ghost fit: { All (FitsDepth (bits_of depth)) samples.now },
}

/// A stretch with its samples and their shape.
#[derive(Clone, Copy)]
pub struct Played<'a> {
    pub stretch: Stretch,
    pub shape: Shape,
    pub frames: Frames<'a>,
    ghost whole: { length frames.samples.now ≡ stretch.length * frames.channels },
    ghost source: { stretch.first + stretch.width ≤ frames.channels + 1 },
    ghost ramp: { IsRamp shape stretch.length } by { IsRamp-prop shape stretch.length },
}

/// A stretch with its samples as stored in the file, and their shape.
#[derive(Clone, Copy)]
pub struct Stored<'a> {
    pub stretch: Stretch,
    pub shape: Shape,
    pub bytes: &'a [u8],
    pub channels: usize,
    pub depth: Depth,
    ghost whole: { length bytes.now ≡ stretch.length * channels * (bits_of depth / 8) },
    ghost small: { AreBytes bytes.now },
    ghost source: { stretch.first + stretch.width ≤ channels + 1 },
    ghost ramp: { IsRamp shape stretch.length } by { IsRamp-prop shape stretch.length },
}
