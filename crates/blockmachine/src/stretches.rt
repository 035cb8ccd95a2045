// Reading and adding stretches of files.
ghost use Rattle.std.specs.Prelude.{◌≡◌, ◌+◌, ◌*◌, ◌/◌, ◌^◌, ◌<◌, ◌≤◌, ℕ, ℤ, IsTrue, IfErr, OnOk, Some, slice_get, length};
ghost use Rattle.sound_terms.specs.Depth.{bits_of};
ghost use Rattle.sound_terms.specs.Sounds.{SoundFacts, reading_by};
ghost use Rattle.sound_terms.specs.Blocks.{IsFull, sums_with};
ghost use Rattle.devices.specs.Frame.{OnlyReads};
ghost use Rattle.blockmachine.specs.Fault.{FailsAt, IsSource};
ghost use Rattle.pcm.specs.Samples.{samples_in};
ghost use Rattle.blockmachine.specs.Holding.{Holds, held_of};
ghost use Rattle.blockmachine.specs.Reads.{HasRoom, IsPart, IsRead, IsReady};
ghost use Rattle.blockmachine.specs.Playing.{Plays};
ghost use Rattle.blockmachine.specs.Sums.{AreSums};

use crate::MachineFault;
use crate::buffer::{Buffer, Held, SAMPLES};
use crate::frames::Stored;
use crate::sums::Sums;
use devices::Shelf;
use sound_terms::{Shape, Stretch};
use wavread::Sound;

/// Reads the samples of a stretch as stored, with all channels of the file. Returns
/// `MachineFault::Source` if that fails.
pub fn read_stored<S: Shelf>(
    part: &Stretch,
    sounds: &[Sound],
    shelf: &mut S,
    bytes: &mut [u8],
) -> Result<(), MachineFault>
    requires { IsRead sounds.now part.now (length bytes.old) }
    ensures plays { IsTrue (S.honest shelf.old)
        → OnOk result ((facts : SoundFacts) → slice_get sounds.now part.now.file ≡ Some facts
        → Plays (reading_by (S.stored shelf.old) sounds.now) part.now facts.channels (bits_of facts.depth)
        (samples_in (bits_of facts.depth) (part.now.length * facts.channels) bytes.new)) }
    ensures full { IsTrue (S.honest shelf.old)
        → OnOk result (IsFull (reading_by (S.stored shelf.old) sounds.now) part.now) }
    ensures source { IfErr result IsSource }
    ensures only_reads { OnlyReads S.Shelf shelf.old shelf.new result (λ fault. IsSource fault)
        (λ fault failed. FailsAt sounds.now fault failed) }
{
    let sound = &sounds[part.file as usize];
    match sound.read_bytes(shelf, part.frame, bytes) {
        Ok(()) => Ok(()),
        Err(_) => Err(MachineFault::Source { file: part.file }),
    }
}

/// Reads the samples of a stretch, with all channels of the file, to the start of `bytes`.
fn read_part<S: Shelf>(
    part: &Stretch,
    sounds: &[Sound],
    shelf: &mut S,
    bytes: &mut [u8],
) -> Result<(), MachineFault>
    requires { HasRoom sounds.now part.now bytes.old }
    ensures held { OnOk result (Holds (S.honest shelf.old) (S.stored shelf.old) sounds.now
        (Some (held_of part.now)) bytes.new) }
    ensures source { IfErr result IsSource }
    ensures only_reads { OnlyReads S.Shelf shelf.old shelf.new result (λ fault. IsSource fault)
        (λ fault failed. FailsAt sounds.now fault failed) }
{
    let sound = &sounds[part.file as usize];
    let frame = usize::from(sound.channels()) * usize::from(sound.depth().bits() / 8);
    let count = part.length as usize * frame;
    match sound.read_bytes(shelf, part.frame, &mut bytes[..count]) {
        Ok(()) => Ok(()),
        Err(_) => Err(MachineFault::Source { file: part.file }),
    }
}

/// Makes `bytes` begin with the samples of a stretch, with all channels of the file; reads nothing
/// if it already does.
fn hold<S: Shelf>(
    part: &Stretch,
    sounds: &[Sound],
    shelf: &mut S,
    bytes: &mut [u8],
    held: &mut Option<Held>,
) -> Result<(), MachineFault>
    requires room { HasRoom sounds.now part.now bytes.old }
    requires held { Holds (S.honest shelf.old) (S.stored shelf.old) sounds.now held.old bytes.old }
    ensures this { OnOk result (held.new ≡ Some (held_of part.now)) }
    ensures held { OnOk result (Holds (S.honest shelf.old) (S.stored shelf.old) sounds.now held.new bytes.new) }
    ensures source { IfErr result IsSource }
    ensures only_reads { OnlyReads S.Shelf shelf.old shelf.new result (λ fault. IsSource fault)
        (λ fault failed. FailsAt sounds.now fault failed) }
{
    let wanted = Held {
        file: part.file,
        frame: part.frame,
        length: part.length,
    };
    if *held == Some(wanted) {
        return Ok(());
    }
    *held = None;
    read_part(part, sounds, shelf, bytes)?;
    *held = Some(wanted);
    Ok(())
}

/// Adds the samples of a stretch that fits in one read.
fn add_part<S: Shelf>(
    part: &Stretch,
    shape: Shape,
    sounds: &[Sound],
    shelf: &mut S,
    bytes: &mut [u8],
    samples: &mut [i32],
    held: &mut Option<Held>,
    sums: &mut Sums,
) -> Result<(), MachineFault>
    requires { IsPart (S.honest shelf.old) (S.stored shelf.old) sounds.now sums.old.extent part.now shape held.old
        bytes.old (length samples.old) }
    ensures held { OnOk result (Holds (S.honest shelf.new) (S.stored shelf.new) sounds.now held.new bytes.new) }
    ensures added { IsTrue (S.honest shelf.old) → OnOk result ((before : ℕ → ℕ → ℤ) → AreSums sums.old before
        → AreSums sums.new (sums_with (reading_by (S.stored shelf.old) sounds.now) part.now shape before)) }
    ensures full { IsTrue (S.honest shelf.old)
        → OnOk result (IsFull (reading_by (S.stored shelf.old) sounds.now) part.now) }
    ensures same_extent { sums.new.extent ≡ sums.old.extent }
    ensures source { IfErr result IsSource }
    ensures only_reads { OnlyReads S.Shelf shelf.old shelf.new result (λ fault. IsSource fault)
        (λ fault failed. FailsAt sounds.now fault failed) }
{
    let sound = &sounds[part.file as usize];
    let channels = sound.channels() as usize;
    let depth = sound.depth();
    let count = part.length as usize * channels * usize::from(depth.bits() / 8);
    hold(part, sounds, shelf, bytes, held)?;
    let stored = Stored {
        stretch: *part,
        shape,
        bytes: &bytes[..count],
        channels,
        depth,
    };
    sums.add(&stored, samples);
    Ok(())
}

/// Adds a stretch of an open sound under a shape. Reads each sample frame once, for all channels of
/// the file. Returns `MachineFault::Source` if a read fails.
pub fn add_stretch<S: Shelf>(
    stretch: &Stretch,
    shape: Shape,
    sounds: &[Sound],
    shelf: &mut S,
    buffer: &mut Buffer,
    sums: &mut Sums,
) -> Result<(), MachineFault>
    requires { IsReady (S.honest shelf.old) (S.stored shelf.old) sounds.now sums.old.extent stretch.now shape
        buffer.old.held buffer.old.bytes.items }
    ensures held { OnOk result (Holds (S.honest shelf.new) (S.stored shelf.new) sounds.now buffer.new.held
        buffer.new.bytes.items) }
    ensures added { IsTrue (S.honest shelf.old) → OnOk result ((before : ℕ → ℕ → ℤ) → AreSums sums.old before
        → AreSums sums.new (sums_with (reading_by (S.stored shelf.old) sounds.now) stretch.now shape before)) }
    ensures full { IsTrue (S.honest shelf.old)
        → OnOk result (IsFull (reading_by (S.stored shelf.old) sounds.now) stretch.now) }
    ensures same_extent { sums.new.extent ≡ sums.old.extent }
    ensures source { IfErr result IsSource }
    ensures only_reads { OnlyReads S.Shelf shelf.old shelf.new result (λ fault. IsSource fault)
        (λ fault failed. FailsAt sounds.now fault failed) }
{
    let _lanes = sums.lanes();
    let most = SAMPLES as u32 / sounds[stretch.file as usize].channels() as u32;
    let mut done = 0;
    while done < stretch.length {
        let count = most.min(stretch.length - done);
        let part = Stretch {
            at: stretch.at + done,
            length: count,
            frame: stretch.frame + done as u64,
            ..*stretch
        };
        let shape = shape.after(done as u64);
        let bytes = buffer.bytes.as_mut_slice();
        let samples = buffer.samples.as_mut_slice();
        let held = &mut buffer.held;
        add_part(&part, shape, sounds, shelf, bytes, samples, held, sums)?;
        done += count;
    }
    Ok(())
}
