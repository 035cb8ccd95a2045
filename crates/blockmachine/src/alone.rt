// Fast path for blocks that one file fills unchanged; equal to `Machine::store_lines`.
ghost use Rattle.std.specs.Prelude.{◌≡◌, IfErr, IfOk, IfSome, IsTrue, length};
ghost use Rattle.std.specs.List.{All, flat_map};
ghost use Rattle.clipping.specs.Clips.{IsClippingOf, block_sums};
ghost use Rattle.devices.specs.Frame.{OnlyReads};
ghost use Rattle.sound_terms.specs.Blocks.{BlockState, PlaysFull, executed_all};
ghost use Rattle.sound_terms.specs.Depth.{bits_of};
ghost use Rattle.sound_terms.specs.Sounds.{reading_by};
ghost use Rattle.sound_terms.specs.Waves.{sample_bytes};
ghost use Rattle.blockmachine.specs.Alone.{CanCopy, FillsAlone};
ghost use Rattle.blockmachine.specs.Fault.{FailsAt, IsSource};

use crate::MachineFault;
use crate::machine::added_by;
use crate::stretches::read_stored;
use clipping::Clips;
use devices::Shelf;
use sound_terms::{Format, Instruction, Program, Shape, Stretch};
use wavread::Sound;

/// Returns the stretch and the shape of the only instruction, if that stretch fills a block of
/// `frames` sample frames with all channels of a file of the given format. Returns `None`
/// otherwise.
pub(crate) fn fills_alone(
    lines: &[Instruction],
    frames: u32,
    format: Format,
    sounds: &[Sound],
) -> Option<(Stretch, Shape)>
    ensures { IfSome result (λ filling. FillsAlone sounds.now frames format.channels format.depth lines.now filling.0
        filling.1) }
{
    let [line] = lines else {
        return None;
    };
    let (stretch, shape) = added_by(line)?;
    let filling = Stretch {
        at: 0,
        length: frames,
        first: 1,
        dest: 1,
        width: format.channels,
        ..stretch
    };
    let sound = sounds.get(stretch.file as usize)?;
    if stretch != filling {
        return None;
    }
    if sound.channels() != format.channels || sound.depth() != format.depth {
        return None;
    }
    Some((filling, shape))
}

/// Writes the output of a program, `frames` sample frames, to `bytes` in the encoding of `format`,
/// if one file fills it unchanged: the samples are read straight into `bytes`, and none is clipped.
/// `frames` may exceed the capacity of a machine. Returns `None` if the program needs more than
/// that, and `MachineFault::Source` if the read fails; the content of `bytes` is then unspecified.
pub fn copy_alone<S: Shelf>(
    program: &Program,
    frames: u32,
    format: Format,
    sounds: &[Sound],
    shelf: &mut S,
    bytes: &mut [u8],
) -> Result<Option<Clips>, MachineFault>
    requires { CanCopy sounds.now frames format program.now (length bytes.old) }
    ensures ran { IsTrue (S.honest shelf.old) → IfOk result (λ copied. IfSome copied (λ _. (start : BlockState)
        → bytes.new ≡ flat_map (sample_bytes (bits_of format.depth)) (executed_all (reading_by (S.stored shelf.old) sounds.now)
        format.channels program.now.lines start).out)) }
    ensures clips { IsTrue (S.honest shelf.old) → IfOk result (λ copied. IfSome copied (λ clips. (start : BlockState)
        → IsClippingOf (bits_of format.depth) format.channels
        (block_sums (executed_all (reading_by (S.stored shelf.old) sounds.now) format.channels
        program.now.lines start).sums format.channels 0 frames) clips)) }
    ensures full { IsTrue (S.honest shelf.old) → IfOk result (λ copied. IfSome copied
        (λ _. All (PlaysFull (reading_by (S.stored shelf.old) sounds.now)) program.now.lines)) }
    ensures source { IfErr result IsSource }
    ensures only_reads { OnlyReads S.Shelf shelf.old shelf.new result (λ fault. IsSource fault)
        (λ fault failed. FailsAt sounds.now fault failed) }
{
    let instructions = program.as_slice();
    let lines = &instructions[1..instructions.len() - 1];
    let Some((stretch, shape)) = fills_alone(lines, frames, format, sounds) else {
        return Ok(None);
    };
    if shape != Shape::Flat {
        return Ok(None);
    }
    read_stored(&stretch, sounds, shelf, bytes)?;
    Ok(Some(Clips::none()))
}
