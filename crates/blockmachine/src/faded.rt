// Fast path for blocks that one file fills, faded or unchanged; equal to `Machine::store_lines`.
ghost use Rattle.std.specs.Prelude.{◌≡◌, ◌*◌, IfErr, IfOk, IfSome, IsTrue, length};
ghost use Rattle.std.specs.List.{All, flat_map};
ghost use Rattle.clipping.specs.Clips.{IsClippingOf, block_sums};
ghost use Rattle.devices.specs.Frame.{OnlyReads};
ghost use Rattle.sound_terms.specs.Blocks.{BlockState, PlaysFull, executed_all};
ghost use Rattle.sound_terms.specs.Depth.{bits_of};
ghost use Rattle.sound_terms.specs.Sounds.{reading_by};
ghost use Rattle.sound_terms.specs.Waves.{sample_bytes};
ghost use Rattle.pcm.specs.Samples.{FitsDepth};
ghost use Rattle.blockmachine.specs.Alone.{CanCopy};
ghost use Rattle.blockmachine.specs.Fading.{AreFrames, HasFaded, HasFadedBy};
ghost use Rattle.blockmachine.specs.Fault.{FailsAt, IsSource};

use crate::MachineFault;
use crate::alone::{copy_alone, fills_alone};
use crate::slope::Slope;
use crate::stretches::read_stored;
use clipping::Clips;
use devices::Shelf;
use pcm::{pack, unpack};
use sound_terms::{Depth, Format, Program, Shape};
use soundlaw::Gain;
use wavread::Sound;

/// Applies a gain to each sample of a sample frame and rounds to the bit depth.
#[inline(always)]
fn fade_frame(gain: Gain, depth: Depth, samples: &mut [i32])
    requires { All (FitsDepth (bits_of depth)) samples.old }
    ensures { HasFadedBy (gain.fraction.num, gain.fraction.den) (bits_of depth) samples.old samples.new }
{
    for sample in samples.iter_mut() {
        *sample = gain.rounded_share(*sample, depth);
    }
}

/// Applies a fade to `frames` sample frames in place, starting at the fade's first sample.
#[inline(always)]
fn fade_frames(shape: Shape, depth: Depth, frames: usize, channels: usize, samples: &mut [i32])
    requires { AreFrames shape (bits_of depth) frames channels samples.old }
    ensures { HasFaded shape channels (bits_of depth) samples.old samples.new }
{
    let mut slope = Slope::of(shape);
    for i in 0..frames {
        let gain = slope.step();
        let from = i * channels;
        fade_frame(gain, depth, &mut samples[from..from + channels]);
    }
}

/// Specialised for one and two channels; otherwise like `fade_frames`.
#[inline(always)]
fn fade_by_width(shape: Shape, format: Format, frames: usize, samples: &mut [i32])
    requires { AreFrames shape (bits_of format.depth) frames format.channels samples.old }
    ensures { HasFaded shape format.channels (bits_of format.depth) samples.old samples.new }
{
    let depth = format.depth;
    match format.channels {
        1 => fade_frames(shape, depth, frames, 1, samples),
        2 => fade_frames(shape, depth, frames, 2, samples),
        channels => fade_frames(shape, depth, frames, channels as usize, samples),
    }
}

/// Specialised for fade-in and fade-out, so that no loop checks the kind of fade; otherwise like
/// `fade_by_width`.
fn fade(shape: Shape, format: Format, frames: usize, samples: &mut [i32])
    requires { AreFrames shape (bits_of format.depth) frames format.channels samples.old }
    ensures { HasFaded shape format.channels (bits_of format.depth) samples.old samples.new }
{
    match shape {
        // Rebuilt in each arm, or else the compiler merges the loops into one.
        Shape::Rise { offset, den } => fade_by_width(
            Shape::Rise { offset, den },
            format,
            frames,
            samples,
        ),
        Shape::Fall { offset, den } => fade_by_width(
            Shape::Fall { offset, den },
            format,
            frames,
            samples,
        ),
        Shape::Flat => fade_by_width(Shape::Flat, format, frames, samples),
    }
}

/// Writes the output of a program to `bytes`, like `copy_alone`, if one file fills it under any
/// shape. `samples` has room for the output. Nothing is clipped, since fading can't exceed the
/// file's own samples.
fn fade_alone<S: Shelf>(
    program: &Program,
    frames: u32,
    format: Format,
    sounds: &[Sound],
    shelf: &mut S,
    samples: &mut [i32],
    bytes: &mut [u8],
) -> Result<Option<Clips>, MachineFault>
    requires copy { CanCopy sounds.now frames format program.now (length bytes.old) }
    requires room { length samples.old ≡ frames * format.channels }
    ensures ran { IsTrue (S.honest shelf.old) → IfOk result (λ faded. IfSome faded (λ _. (start : BlockState)
        → bytes.new ≡ flat_map (sample_bytes (bits_of format.depth)) (executed_all (reading_by (S.stored shelf.old) sounds.now)
        format.channels program.now.lines start).out)) }
    ensures clips { IsTrue (S.honest shelf.old) → IfOk result (λ faded. IfSome faded (λ clips. (start : BlockState)
        → IsClippingOf (bits_of format.depth) format.channels
        (block_sums (executed_all (reading_by (S.stored shelf.old) sounds.now) format.channels
        program.now.lines start).sums format.channels 0 frames) clips)) }
    ensures full { IsTrue (S.honest shelf.old) → IfOk result (λ faded. IfSome faded
        (λ _. All (PlaysFull (reading_by (S.stored shelf.old) sounds.now)) program.now.lines)) }
    ensures source { IfErr result IsSource }
    ensures only_reads { OnlyReads S.Shelf shelf.old shelf.new result (λ fault. IsSource fault)
        (λ fault failed. FailsAt sounds.now fault failed) }
{
    let instructions = program.as_slice();
    let lines = &instructions[1..instructions.len() - 1];
    let Some((stretch, shape)) = fills_alone(lines, frames, format, sounds) else {
        return Ok(None);
    };
    read_stored(&stretch, sounds, shelf, bytes)?;
    unpack(format.depth, bytes, samples);
    fade(shape, format, frames as usize, samples);
    pack(format.depth, samples, bytes);
    Ok(Some(Clips::none()))
}

/// Writes the output of a program to `bytes` in the encoding of `format`, if one file fills it
/// unchanged (read straight into `bytes`) or faded (through `samples`). Returns `None` if the
/// program needs more than that, and `MachineFault::Source` if the read fails; the content of
/// `bytes` is then unspecified.
pub fn play_alone<S: Shelf>(
    program: &Program,
    frames: u32,
    format: Format,
    sounds: &[Sound],
    shelf: &mut S,
    samples: &mut [i32],
    bytes: &mut [u8],
) -> Result<Option<Clips>, MachineFault>
    requires copy { CanCopy sounds.now frames format program.now (length bytes.old) }
    requires room { length samples.old ≡ frames * format.channels }
    ensures ran { IsTrue (S.honest shelf.old) → IfOk result (λ played. IfSome played (λ _. (start : BlockState)
        → bytes.new ≡ flat_map (sample_bytes (bits_of format.depth)) (executed_all (reading_by (S.stored shelf.old) sounds.now)
        format.channels program.now.lines start).out)) }
    ensures clips { IsTrue (S.honest shelf.old) → IfOk result (λ played. IfSome played (λ clips. (start : BlockState)
        → IsClippingOf (bits_of format.depth) format.channels
        (block_sums (executed_all (reading_by (S.stored shelf.old) sounds.now) format.channels
        program.now.lines start).sums format.channels 0 frames) clips)) }
    ensures full { IsTrue (S.honest shelf.old) → IfOk result (λ played. IfSome played
        (λ _. All (PlaysFull (reading_by (S.stored shelf.old) sounds.now)) program.now.lines)) }
    ensures source { IfErr result IsSource }
    ensures only_reads { OnlyReads S.Shelf shelf.old shelf.new result (λ fault. IsSource fault)
        (λ fault failed. FailsAt sounds.now fault failed) }
{
    let copied = copy_alone(program, frames, format, sounds, shelf, bytes)?;
    if copied.is_some() {
        return Ok(copied);
    }
    fade_alone(program, frames, format, sounds, shelf, samples, bytes)
}
