// Fast comparison of two blocks by their stored samples; if the result is true, `first_difference`
// of their sums is `None`.
ghost use Rattle.std.specs.Prelude.{◌≡◌, ◌+◌, ◌*◌, ◌/◌, ◌≤◌, ℕ, IfErr, IfOk, IfSome, IsTrue, OnOk, Some, length, slice_get};
ghost use Rattle.std.specs.List.{All};
ghost use Rattle.sound_terms.specs.Blocks.{LiesInFiles, addition_of};
ghost use Rattle.sound_terms.specs.Depth.{bits_of};
ghost use Rattle.sound_terms.specs.Media.{LiesInFile};
ghost use Rattle.sound_terms.specs.Mix.{Reading};
ghost use Rattle.sound_terms.specs.Sounds.{SoundFacts, reading_by};
ghost use Rattle.devices.specs.Frame.{OnlyReads};
ghost use Rattle.comparison.specs.Fault.{FailsAt, IsSource};
ghost use Rattle.comparison.specs.Matched.{AreMatches, AreSameFrames, LieInBoth, ReadBoth};
ghost use Rattle.comparison.specs.Stored.{AddAlike, AreFrames, HoldFrames, IsMatchOf, PlayAlike, SoundSame, SumAlike};

use crate::counterparts::Counterparts;
use crate::depths::are_same_at;
use crate::matches::{Match, Matches};
use crate::{CompareFault, SideFault};
use devices::Shelf;
use sound_terms::{Depth, Instruction, Shape, Stretch};
use wavread::Sound;

/// The open files of both sides.
#[derive(Clone, Copy)]
pub struct Files<'a, 'b> {
    pub sounds: &'a [Sound],
    pub others: &'b [Sound],
}

/// Buffers for stored samples of both sides, and the cache of equal ranges.
#[derive(Drop)]
pub struct Stored {
    pub bytes: Vec<u8>,
    pub other_bytes: Vec<u8>,
    pub matches: Matches,
}

/// Returns whether the bytes are equal. The loop has no early exit, so that it is vectorised.
#[inline(always)]
fn are_same(bytes: &[u8], others: &[u8]) -> bool
    ensures { IsTrue result → bytes.now ≡ others.now }
{
    if bytes.len() != others.len() {
        return false;
    }
    let mut same = true;
    for k in 0..bytes.len() {
        same &= bytes[k] == others[k];
    }
    same
}

/// Reads stored samples of an open file from sample `from` on, with all channels, filling `bytes`.
fn read_frames<S: Shelf>(
    sounds: &[Sound],
    file: u32,
    from: u64,
    shelf: &mut S,
    bytes: &mut [u8],
) -> Result<(), SideFault>
    requires { AreFrames sounds.now file from bytes.old }
    ensures held { IsTrue (S.honest shelf.old) → OnOk result ((facts : SoundFacts) (n : ℕ)
        → slice_get sounds.now file ≡ Some facts
        → length bytes.new ≡ n * facts.channels * (bits_of facts.depth / 8) → from + n ≤ facts.frames
        → HoldFrames (reading_by (S.stored shelf.old) sounds.now) facts.channels (bits_of facts.depth) file from n
        bytes.new) }
    ensures source { IfErr result IsSource }
    ensures only_reads { OnlyReads S.Shelf shelf.old shelf.new result (λ fault. IsSource fault)
        (λ fault failed. FailsAt sounds.now fault failed) }
{
    let sound = &sounds[file as usize];
    match sound.read_bytes(shelf, from, bytes) {
        Ok(()) => Ok(()),
        Err(_) => Err(SideFault::Source { file }),
    }
}

fn width_of(depth: Depth) -> usize
    ensures { result ≡ bits_of depth / 8 }
{
    usize::from(depth.bits() / 8)
}

/// Returns whether all samples of a pair are equal at full scale.
fn are_counterparts(pair: &Counterparts) -> bool
    ensures { IsTrue result → SoundSame pair.now }
{
    if pair.depth == pair.other {
        are_same(pair.bytes, pair.others)
    } else {
        are_same_at(pair)
    }
}

/// Reads a range of both files and compares the stored samples. False if the range doesn't fit in
/// the buffers.
fn read_match<S: Shelf, T: Shelf>(
    wanted: &Match,
    files: &Files,
    first_shelf: &mut S,
    second_shelf: &mut T,
    stored: &mut Stored,
) -> Result<bool, CompareFault>
    requires lies { LieInBoth files.now.sounds.now files.now.others.now wanted.now }
    requires matched { AreMatches S.Shelf T.Shelf first_shelf.old second_shelf.old files.now.sounds.now
        files.now.others.now stored.old.matches }
    ensures same { IsTrue (S.honest first_shelf.old) → IsTrue (T.honest second_shelf.old)
        → IfOk result (λ same. IsTrue same → AreSameFrames
        (reading_by (S.stored first_shelf.old) files.now.sounds.now)
        (reading_by (T.stored second_shelf.old) files.now.others.now) wanted.now) }
    ensures read { ReadBoth S.Shelf T.Shelf first_shelf.old first_shelf.new second_shelf.old second_shelf.new
        files.now.sounds.now files.now.others.now stored.new.matches result }
{
    let sound = &files.sounds[wanted.file as usize];
    let other = &files.others[wanted.other_file as usize];
    let samples = (wanted.end - wanted.frame) as usize * usize::from(wanted.channels);
    let count = samples * width_of(sound.depth());
    let other_count = samples * width_of(other.depth());
    if count > stored.bytes.len() || other_count > stored.other_bytes.len() {
        return Ok(false);
    }
    let bytes = &mut stored.bytes.as_mut_slice()[..count];
    let other_bytes = &mut stored.other_bytes.as_mut_slice()[..other_count];
    match read_frames(files.sounds, wanted.file, wanted.frame, first_shelf, bytes) {
        Ok(()) => {}
        Err(fault) => return Err(CompareFault::First(fault)),
    }
    match read_frames(
        files.others,
        wanted.other_file,
        wanted.other_frame,
        second_shelf,
        other_bytes,
    ) {
        Ok(()) => {}
        Err(fault) => return Err(CompareFault::Second(fault)),
    }
    Ok(are_counterparts(&Counterparts {
        depth: sound.depth(),
        bytes: &*bytes,
        other: other.depth(),
        others: &*other_bytes,
        count: samples,
    }))
}

/// Returns whether two stretches cover the same samples and channels of a block and read the same
/// channels of their files.
fn are_laid_alike(stretch: &Stretch, part: &Stretch) -> bool
    ensures laid { IsTrue result → part.now
        ≡ record stretch.now { file = part.now.file; frame = part.now.frame } }
    ensures first { IsTrue result → 1 ≤ stretch.now.first }
{
    let moved = Stretch {
        file: part.file,
        frame: part.frame,
        ..*stretch
    };
    stretch.first >= 1 && *part == moved
}

/// Returns the range of both files that two such stretches read, if the files have the same number
/// of channels.
fn match_of(stretch: &Stretch, part: &Stretch, files: &Files) -> Option<Match>
    requires lies { LiesInFile files.now.sounds.now stretch.now.file stretch.now.first stretch.now.width
        stretch.now.frame stretch.now.length }
    requires others_lie { LiesInFile files.now.others.now part.now.file part.now.first part.now.width part.now.frame
        part.now.length }
    ensures { IfSome result (IsMatchOf files.now.sounds.now files.now.others.now stretch.now part.now) }
{
    let sound = &files.sounds[stretch.file as usize];
    let other = &files.others[part.file as usize];
    if !are_laid_alike(stretch, part) {
        return None;
    }
    if sound.channels() != other.channels() {
        return None;
    }
    let _frames = sound.frames();
    Some(Match {
        file: stretch.file,
        frame: stretch.frame,
        end: stretch.frame + u64::from(stretch.length),
        other_file: part.file,
        other_frame: part.frame,
        channels: sound.channels(),
    })
}

/// Returns whether two stretches add the same samples, by their stored form. Ranges in the cache
/// aren't read again.
fn play_alike<S: Shelf, T: Shelf>(
    stretch: &Stretch,
    part: &Stretch,
    files: &Files,
    first_shelf: &mut S,
    second_shelf: &mut T,
    stored: &mut Stored,
) -> Result<bool, CompareFault>
    requires lies { LiesInFile files.now.sounds.now stretch.now.file stretch.now.first stretch.now.width
        stretch.now.frame stretch.now.length }
    requires others_lie { LiesInFile files.now.others.now part.now.file part.now.first part.now.width part.now.frame
        part.now.length }
    requires matched { AreMatches S.Shelf T.Shelf first_shelf.old second_shelf.old files.now.sounds.now
        files.now.others.now stored.old.matches }
    ensures alike { IsTrue (S.honest first_shelf.old) → IsTrue (T.honest second_shelf.old)
        → IfOk result (λ same. IsTrue same → PlayAlike (reading_by (S.stored first_shelf.old) files.now.sounds.now)
        (reading_by (T.stored second_shelf.old) files.now.others.now) stretch.now part.now) }
    ensures read { ReadBoth S.Shelf T.Shelf first_shelf.old first_shelf.new second_shelf.old second_shelf.new
        files.now.sounds.now files.now.others.now stored.new.matches result }
{
    let Some(wanted) = match_of(stretch, part, files) else {
        return Ok(false);
    };
    if stored.matches.cover(&wanted) {
        return Ok(true);
    }
    let same = read_match(&wanted, files, first_shelf, second_shelf, stored)?;
    if !same {
        return Ok(false);
    }
    stored.matches.add(wanted);
    Ok(true)
}

/// Returns the stretch that an instruction adds, and its shape.
fn addition(line: &Instruction) -> Option<(Stretch, Shape)>
    ensures { result ≡ addition_of line.now }
{
    match *line {
        Instruction::Flat { stretch } => Some((stretch, Shape::Flat)),
        Instruction::Rise {
            stretch,
            offset,
            den,
        } => Some((stretch, Shape::Rise { offset, den })),
        Instruction::Fall {
            stretch,
            offset,
            den,
        } => Some((stretch, Shape::Fall { offset, den })),
        Instruction::Start { .. } | Instruction::Emit { .. } => None,
    }
}

/// Returns whether both instructions start a block, or both end one.
fn are_ends(line: &Instruction, counterpart: &Instruction) -> bool
    ensures { IsTrue result → (reading other : Reading) → AddAlike reading other line.now counterpart.now }
{
    match (*line, *counterpart) {
        (Instruction::Start { .. }, Instruction::Start { .. }) => true,
        (Instruction::Emit { .. }, Instruction::Emit { .. }) => true,
        _ => false,
    }
}

/// Returns whether two instructions have the same effect on sums: they add the same samples under
/// the same shape.
fn add_alike<S: Shelf, T: Shelf>(
    line: &Instruction,
    counterpart: &Instruction,
    files: &Files,
    first_shelf: &mut S,
    second_shelf: &mut T,
    stored: &mut Stored,
) -> Result<bool, CompareFault>
    requires lies { LiesInFiles files.now.sounds.now line.now }
    requires others_lie { LiesInFiles files.now.others.now counterpart.now }
    requires matched { AreMatches S.Shelf T.Shelf first_shelf.old second_shelf.old files.now.sounds.now
        files.now.others.now stored.old.matches }
    ensures alike { IsTrue (S.honest first_shelf.old) → IsTrue (T.honest second_shelf.old)
        → IfOk result (λ same. IsTrue same → AddAlike (reading_by (S.stored first_shelf.old) files.now.sounds.now)
        (reading_by (T.stored second_shelf.old) files.now.others.now) line.now counterpart.now) }
    ensures read { ReadBoth S.Shelf T.Shelf first_shelf.old first_shelf.new second_shelf.old second_shelf.new
        files.now.sounds.now files.now.others.now stored.new.matches result }
{
    let Some((stretch, shape)) = addition(line) else {
        return Ok(are_ends(line, counterpart));
    };
    let Some((part, other_shape)) = addition(counterpart) else {
        return Ok(false);
    };
    if shape != other_shape {
        return Ok(false);
    }
    play_alike(&stretch, &part, files, first_shelf, second_shelf, stored)
}

/// Returns whether two programs have equal sums because they add the same samples, instruction by
/// instruction. Sums nothing. Programs may still have equal sums if the result is false. Returns
/// `CompareFault::First` or `Second` if a file of that side can't be read.
pub fn sum_alike<S: Shelf, T: Shelf>(
    lines: &[Instruction],
    counterparts: &[Instruction],
    files: &Files,
    first_shelf: &mut S,
    second_shelf: &mut T,
    stored: &mut Stored,
) -> Result<bool, CompareFault>
    requires lie { All (LiesInFiles files.now.sounds.now) lines.now }
    requires others_lie { All (LiesInFiles files.now.others.now) counterparts.now }
    requires matched { AreMatches S.Shelf T.Shelf first_shelf.old second_shelf.old files.now.sounds.now
        files.now.others.now stored.old.matches }
    ensures alike { IsTrue (S.honest first_shelf.old) → IsTrue (T.honest second_shelf.old)
        → IfOk result (λ same. IsTrue same → SumAlike (reading_by (S.stored first_shelf.old) files.now.sounds.now)
        (reading_by (T.stored second_shelf.old) files.now.others.now) lines.now counterparts.now) }
    ensures read { ReadBoth S.Shelf T.Shelf first_shelf.old first_shelf.new second_shelf.old second_shelf.new
        files.now.sounds.now files.now.others.now stored.new.matches result }
{
    if lines.len() != counterparts.len() {
        return Ok(false);
    }
    for k in 0..lines.len() {
        let (line, counterpart) = (&lines[k], &counterparts[k]);
        let alike = add_alike(line, counterpart, files, first_shelf, second_shelf, stored)?;
        if !alike {
            return Ok(false);
        }
    }
    Ok(true)
}
