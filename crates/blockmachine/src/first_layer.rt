// Fast path for the first instruction of a block, read straight into the sums; equal to
// `Sums::clear` and `add_stretch`.
ghost use Rattle.std.specs.Prelude.{◌≡◌, ◌*◌, ◌≤◌, ℕ, pos, List, None, IsTrue, IfErr, IfOk, IfSome, OnOk, length, take};
ghost use Rattle.std.specs.List.{All};
ghost use Rattle.devices.specs.Frame.{OnlyReads};
ghost use Rattle.sound_terms.specs.declared.piece.Shape.TheVariants as shape;
ghost use Rattle.sound_terms.specs.Blocks.{BlockState, IsFull, PlaysFull, executed_all, sums_with};
ghost use Rattle.sound_terms.specs.Sounds.{reading_by};
ghost use Rattle.blockmachine.specs.Alone.{CanFill, FillsAlone};
ghost use Rattle.blockmachine.specs.Fault.{FailsAt, IsSource};
ghost use Rattle.blockmachine.specs.Lines.{CanAdd, silent};
ghost use Rattle.blockmachine.specs.Sums.{AreSums};

use crate::MachineFault;
use crate::alone::fills_alone;
use crate::buffer::{Buffer, SAMPLES};
use crate::frames::Lanes;
use crate::stretches::read_stored;
use crate::sums::Sums;
use devices::Shelf;
use sound_terms::{Depth, Format, Instruction, Shape, Stretch};
use wavread::Sound;

/// Returns the stretch of the first instruction, if it fills the block unchanged at the block's
/// depth and fits in one read.
fn first_layer(
    lines: &[Instruction],
    depth: Depth,
    lanes: Lanes,
    sounds: &[Sound],
) -> Option<Stretch>
    ensures fills { IfSome result (λ stretch. FillsAlone sounds.now lanes.frames lanes.channels depth (take 1 lines.now)
        stretch shape.Flat) }
    ensures some { IfSome result (λ _. 1 ≤ length lines.now) }
    ensures few { IfSome result (λ _. lanes.frames * lanes.channels ≤ 16384) }
{
    if lines.is_empty() || lanes.frames * lanes.channels > SAMPLES {
        return None;
    }
    let format = Format {
        channels: lanes.channels as u8,
        depth,
    };
    match fills_alone(&lines[..1], lanes.frames as u32, format, sounds)? {
        (stretch, Shape::Flat) => Some(stretch),
        _ => None,
    }
}

/// Reads a stretch that fills the block unchanged and makes it the sums.
fn read_layer<S: Shelf>(
    stretch: &Stretch,
    depth: Depth,
    sounds: &[Sound],
    shelf: &mut S,
    bytes: &mut [u8],
    sums: &mut Sums,
) -> Result<(), MachineFault>
    requires { CanFill sounds.now sums.old.extent depth stretch.now (length bytes.old) }
    ensures summed { IsTrue (S.honest shelf.old) → OnOk result (AreSums sums.new
        (sums_with (reading_by (S.stored shelf.old) sounds.now) stretch.now shape.Flat (λ _ _. pos 0))) }
    ensures full { IsTrue (S.honest shelf.old)
        → OnOk result (IsFull (reading_by (S.stored shelf.old) sounds.now) stretch.now) }
    ensures same_extent { sums.new.extent ≡ sums.old.extent }
    ensures source { IfErr result IsSource }
    ensures only_reads { OnlyReads S.Shelf shelf.old shelf.new result (λ fault. IsSource fault)
        (λ fault failed. FailsAt sounds.now fault failed) }
{
    let lanes = sums.lanes();
    let count = lanes.frames * lanes.channels * usize::from(depth.bits() / 8);
    let bytes = &mut bytes[..count];
    read_stored(stretch, sounds, shelf, bytes)?;
    sums.fill(depth, bytes);
    Ok(())
}

/// Starts the sums of a block at the given depth: with the first instruction, if it fills the block
/// unchanged, otherwise with zeros. Returns the number of instructions already summed, 0 or 1, or
/// `MachineFault::Source` if the read fails.
pub fn begin_sums<S: Shelf>(
    lines: &[Instruction],
    depth: Depth,
    sounds: &[Sound],
    shelf: &mut S,
    buffer: &mut Buffer,
    sums: &mut Sums,
) -> Result<usize, MachineFault>
    requires { All (CanAdd sounds.now sums.old.extent) lines.now }
    ensures some { IfOk result (λ n. n ≤ length lines.now) }
    ensures summed { IsTrue (S.honest shelf.old)
        → IfOk result (λ n. (channels : ℕ) (begun : BlockState) → AreSums sums.new
        (executed_all (reading_by (S.stored shelf.old) sounds.now) channels (take n lines.now) (silent begun)).sums) }
    ensures full { IsTrue (S.honest shelf.old) → IfOk result
        (λ n. All (PlaysFull (reading_by (S.stored shelf.old) sounds.now)) (take n lines.now)) }
    ensures same_extent { sums.new.extent ≡ sums.old.extent }
    ensures held { buffer.new.held ≡ None }
    ensures source { IfErr result IsSource }
    ensures only_reads { OnlyReads S.Shelf shelf.old shelf.new result (λ fault. IsSource fault)
        (λ fault failed. FailsAt sounds.now fault failed) }
{
    buffer.held = None;
    let lanes = sums.lanes();
    let Some(stretch) = first_layer(lines, depth, lanes, sounds) else {
        sums.clear(depth);
        return Ok(0);
    };
    let bytes = buffer.bytes.as_mut_slice();
    read_layer(&stretch, depth, sounds, shelf, bytes, sums)?;
    Ok(1)
}
