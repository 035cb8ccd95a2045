// Kernels compared with their plain definitions: at all lengths, so that every remainder after
// whole chunks occurs, and at all offsets of the source.
ghost use Rattle.std.specs.Prelude.{◌≡◌, ◌*◌, ◌/◌, ◌<◌, ◌≤◌, length};
ghost use Rattle.sound_terms.specs.Depth.{bits_of};
ghost use Rattle.pcm.specs.Samples.{FitsDepth};

use pcm::{add_unpacked, all_zero, pack, unpack};
use sound_terms::Depth;
use std::process::Abort;

/// Length of the longest run: many chunks and a remainder.
pub const LONGEST: usize = 67;

/// Number of source offsets, one for each byte of a chunk.
pub const OFFSETS: usize = 16;

const ROOM: usize = 4 * LONGEST + OFFSETS;

/// Returns a sample near zero or at an end of the range, in turn.
pub fn sample_at(depth: Depth, place: usize) -> i32
    ensures { FitsDepth (bits_of depth) result }
{
    let (least, most) = match depth {
        Depth::Sixteen => (-32_768, 32_767),
        Depth::TwentyFour => (-8_388_608, 8_388_607),
        Depth::ThirtyTwo => (i32::MIN, i32::MAX),
    };
    match place % 7 {
        0 => least,
        1 => most,
        2 => -1,
        3 => 0,
        4 => 1,
        5 => least / 2,
        _ => most / 2,
    }
}

/// Returns byte `i` of these samples, little-endian.
fn byte_at(depth: Depth, width: usize, i: usize) -> u8
    requires some { 0 < width }
    requires few { width ≤ 4 }
{
    let bytes = sample_at(depth, i / width).to_le_bytes();
    bytes[i % width]
}

/// Returns the bytes of these samples, from an offset on.
fn source_of(depth: Depth, width: usize, offset: usize) -> [u8; ROOM]
    requires some { 0 < width }
    requires few { width ≤ 4 }
    requires near { offset < 16 }
{
    let mut bytes = [0x55; ROOM];
    for i in 0..4 * LONGEST {
        bytes[offset + i] = byte_at(depth, width, i);
    }
    bytes
}

/// Checks that unpacking yields the samples and packing the bytes.
fn reads_and_writes(
    rt: &impl Abort,
    depth: Depth,
    bytes: &[u8],
    samples: &mut [i32],
    again: &mut [u8],
)
    requires whole { length bytes.now ≡ length samples.old * (bits_of depth / 8) }
    requires room { length again.old ≡ length bytes.now }
{
    unpack(depth, bytes, samples);
    pack(depth, samples, again);
    for (place, sample) in samples.iter().enumerate() {
        assert_eq!(rt; *sample, sample_at(depth, place));
    }
    for (byte, same) in bytes.iter().zip(again.iter()) {
        assert_eq!(rt; *byte, *same);
    }
}

/// Checks the sums after the samples are added to zero.
fn adds_to_zero(rt: &impl Abort, depth: Depth, bytes: &[u8], sums: &mut [i32])
    requires { length bytes.now ≡ length sums.old * (bits_of depth / 8) }
{
    assert!(rt; all_zero(sums));
    add_unpacked(depth, bytes, sums);
    for (place, sum) in sums.iter().enumerate() {
        assert_eq!(rt; *sum, sample_at(depth, place));
    }
}

fn size_of(depth: Depth, count: usize) -> usize
    requires { count ≤ 67 }
    ensures whole { result ≡ count * (bits_of depth / 8) }
    ensures few { result ≤ 268 }
{
    match depth {
        Depth::Sixteen => count * 2,
        Depth::TwentyFour => count * 3,
        Depth::ThirtyTwo => count * 4,
    }
}

/// Checks samples of a depth at every length.
fn at_every_length(rt: &impl Abort, depth: Depth, width: usize)
    requires some { 0 < width }
    requires few { width ≤ 4 }
{
    for offset in 0..OFFSETS {
        let source = source_of(depth, width, offset);
        for count in 0..LONGEST + 1 {
            let size = size_of(depth, count);
            let bytes = &source[offset..offset + size];
            reads_and_writes(
                rt,
                depth,
                bytes,
                &mut [0; LONGEST][..count],
                &mut [0; ROOM][..size],
            );
            adds_to_zero(rt, depth, bytes, &mut [0; LONGEST][..count]);
        }
    }
}

#[test]
fn sixteen_bits_at_every_length(rt: HostRuntime) {
    at_every_length(&rt, Depth::Sixteen, 2);
}

#[test]
fn twenty_four_bits_at_every_length(rt: HostRuntime) {
    at_every_length(&rt, Depth::TwentyFour, 3);
}

#[test]
fn thirty_two_bits_at_every_length(rt: HostRuntime) {
    at_every_length(&rt, Depth::ThirtyTwo, 4);
}

/// Checks that zeros are silent and that a single other sample makes them audible.
fn silent_unless_one_sounds(rt: &impl Abort, samples: &mut [i32]) {
    assert!(rt; all_zero(samples));
    for place in 0..samples.len() {
        samples[place] = sample_at(Depth::ThirtyTwo, place % 2);
        assert!(rt; !all_zero(samples));
        samples[place] = 0;
    }
}

#[test]
fn silence_at_every_length(rt: HostRuntime) {
    for offset in 0..OFFSETS {
        for count in 0..LONGEST + 1 {
            let mut samples = [0; LONGEST + OFFSETS];
            silent_unless_one_sounds(&rt, &mut samples[offset..offset + count]);
        }
    }
}
