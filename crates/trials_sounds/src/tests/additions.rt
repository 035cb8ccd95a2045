// Stretches added to sums, compared with the plain definition: all lengths and offsets, on one
// channel and on both.
ghost use Rattle.std.specs.Prelude.{◌≡◌, ◌+◌, ◌≤◌, ◌∷◌, []};
ghost use Rattle.sound_terms.specs.declared.block.Instruction.TheVariants.{Start, Flat, Emit};
ghost use Rattle.sound_terms.specs.Blocks.{FitsBlock};
ghost use Rattle.sound_terms.specs.Media.{LiesInFile};

use crate::tests::kernels::{LONGEST, OFFSETS, sample_at};
use blockmachine::Machine;
use renderplan::{Depth, Instruction, Program, Stretch};
use shelf::MemoryShelf;
use soundlaw::{finish, widen};
use std::alloc::Global;
use std::process::Abort;
use std::test::Fail;
use wavread::{Sound, open};

/// Number of sample frames in a block with room for the longest stretch at each offset.
const FRAMES: usize = LONGEST + OFFSETS;

/// Returns a stereo file of the length of the longest stretch, with `width` bytes per sample; all
/// samples are near zero or at an end of the range.
fn stereo(alloc: Global, depth: Depth, width: u8) -> Result<MemoryShelf, Fail>
    requires { width ≤ 4 }
{
    let size = LONGEST as u32 * 2 * u32::from(width);
    let mut file = b"RIFF".to_vec(alloc)?;
    file.extend_from_slice(&(36 + size).to_le_bytes())?;
    file.extend_from_slice(b"WAVEfmt \x10\0\0\0\x01\0\x02\0\x80\xbb\0\0")?;
    file.extend_from_slice(&(96_000 * u32::from(width)).to_le_bytes())?;
    file.extend_from_slice(&(2 * u16::from(width)).to_le_bytes())?;
    file.extend_from_slice(&u16::from(depth.bits()).to_le_bytes())?;
    file.extend_from_slice(b"data")?;
    file.extend_from_slice(&size.to_le_bytes())?;
    for place in 0..2 * LONGEST {
        let bytes = sample_at(depth, place).to_le_bytes();
        file.extend_from_slice(&bytes[..usize::from(width)])?;
    }
    Ok(MemoryShelf::new(alloc).with_file("A.wav", &file)?)
}

/// Returns the expected sample of a block after a stretch is added twice.
fn expected(depth: Depth, shown: Depth, stretch: Stretch, frame: usize, channel: u8) -> i32
    requires { FitsBlock 83 2 stretch }
{
    let at = stretch.at as usize;
    if frame < at || frame - at >= stretch.length as usize {
        return 0;
    }
    if channel < stretch.dest || channel - stretch.dest >= stretch.width {
        return 0;
    }
    let from = usize::from(stretch.first - 1 + (channel - stretch.dest));
    let sample = sample_at(depth, 2 * (frame - at) + from);
    finish(2 * widen(sample, depth), shown)
}

/// Overwrites a program with one that adds a stretch twice.
fn add_twice(program: &mut Program, stretch: Stretch, shown: Depth)
    requires { 4 ≤ program.old.room }
    ensures { program.new ≡ record program.old {
      lines = Start 83 ∷ Flat stretch ∷ Flat stretch ∷ Emit shown ∷ [];
    } }
{
    program.clear();
    program.push(Instruction::Start { frames: 83 });
    program.push(Instruction::Flat { stretch });
    program.push(Instruction::Flat { stretch });
    program.push(Instruction::Emit { depth: shown });
}

/// Checks the machine's output for a stretch that is added twice.
fn adds(
    rt: &impl Abort,
    machine: &mut Machine,
    program: &mut Program,
    sounds: &[Sound],
    shelf: &mut MemoryShelf,
    depth: Depth,
    shown: Depth,
    stretch: Stretch,
) -> Result<(), Fail>
    requires machine { machine.old ≡ record { frames = 83; channels = 2 } }
    requires room { 4 ≤ program.old.room }
    requires fits { FitsBlock 83 2 stretch }
    requires inside { LiesInFile sounds.now stretch.file stretch.first stretch.width stretch.frame stretch.length }
    ensures machine { machine.new ≡ machine.old }
    ensures room { 4 ≤ program.new.room }
{
    add_twice(program, stretch, shown);
    let mut out = [0; 2 * FRAMES];
    machine.run_over(program, sounds, shelf, &mut out)?;
    for (k, sample) in out.iter().enumerate() {
        let channel = if k % 2 == 0 { 1 } else { 2 };
        assert_eq!(rt; *sample, expected(depth, shown, stretch, k / 2, channel));
    }
    Ok(())
}

/// Checks all lengths and offsets on the given channels.
fn adds_at_each_place(
    rt: &impl Abort,
    machine: &mut Machine,
    program: &mut Program,
    sounds: &[Sound],
    shelf: &mut MemoryShelf,
    depth: Depth,
    shown: Depth,
    channels: (u8, u8, u8),
) -> Result<(), Fail>
    requires machine { machine.old ≡ record { frames = 83; channels = 2 } }
    requires file { LiesInFile sounds.now 0 channels.0 channels.2 0 67 }
    requires first { 1 ≤ channels.0 }
    requires dest { 1 ≤ channels.1 }
    requires width { 1 ≤ channels.2 }
    requires last { channels.1 + channels.2 ≤ 3 }
    requires source { channels.0 + channels.2 ≤ 3 }
    requires room { 4 ≤ program.old.room }
    ensures machine { machine.new ≡ machine.old }
    ensures room { 4 ≤ program.new.room }
{
    let (first, dest, width) = channels;
    for at in 0..16 {
        for length in 1..68 {
            let stretch = Stretch {
                at,
                length,
                frame: 0,
                file: 0,
                first,
                dest,
                width,
            };
            adds(rt, machine, program, sounds, shelf, depth, shown, stretch)?;
        }
    }
    Ok(())
}

/// Returns the first source channel, the first destination channel, and their number: both
/// channels, or one to the other.
fn channels_of(way: usize) -> (u8, u8, u8)
    ensures first { 1 ≤ result.0 }
    ensures dest { 1 ≤ result.1 }
    ensures width { 1 ≤ result.2 }
    ensures last { result.1 + result.2 ≤ 3 }
    ensures source { result.0 + result.2 ≤ 3 }
{
    match way {
        0 => (1, 1, 2),
        1 => (1, 2, 1),
        _ => (2, 1, 1),
    }
}

/// Checks one channel and both, in a block of the given depth.
fn adds_on_all(
    rt: &impl Abort,
    alloc: Global,
    depth: Depth,
    width: u8,
    shown: Depth,
) -> Result<(), Fail>
    requires { width ≤ 4 }
{
    let mut shelf = stereo(alloc, depth, width)?;
    let sounds = [open(alloc, &mut shelf, "A.wav")?];
    if sounds[0].channels() != 2 || sounds[0].frames() != 67 {
        return Err("another file".into());
    }
    let mut machine = Machine::new(alloc, FRAMES as u32, 2)?;
    let mut program = Program::with_room(alloc, 4)?;
    for way in 0..3 {
        adds_at_each_place(
            rt,
            &mut machine,
            &mut program,
            &sounds,
            &mut shelf,
            depth,
            shown,
            channels_of(way),
        )?;
    }
    Ok(())
}

/// Checks blocks of each depth.
fn adds_at_all_depths(rt: &impl Abort, alloc: Global, depth: Depth, width: u8) -> Result<(), Fail>
    requires { width ≤ 4 }
{
    for shown in [Depth::Sixteen, Depth::TwentyFour, Depth::ThirtyTwo] {
        adds_on_all(rt, alloc, depth, width, shown)?;
    }
    Ok(())
}

#[test]
fn adds_sixteen_bits(rt: HostRuntime) -> Result<(), Fail> {
    adds_at_all_depths(&rt, rt.alloc(), Depth::Sixteen, 2)
}

#[test]
fn adds_twenty_four_bits(rt: HostRuntime) -> Result<(), Fail> {
    adds_at_all_depths(&rt, rt.alloc(), Depth::TwentyFour, 3)
}

#[test]
fn adds_thirty_two_bits(rt: HostRuntime) -> Result<(), Fail> {
    adds_on_all(&rt, rt.alloc(), Depth::ThirtyTwo, 4, Depth::ThirtyTwo)
}
