// Fast comparison of stored samples at two bit depths; equal to `unpack` of both and a comparison
// at full scale.
ghost use Rattle.std.specs.Prelude.{◌≡◌, ◌+◌, ◌*◌, ◌/◌, ◌≤◌, IsTrue, drop, length};
ghost use Rattle.sound_terms.specs.Depth.{bits_of};
ghost use Rattle.sound_terms.specs.Mix.{full_scale};
ghost use Rattle.sound_terms.specs.Waves.{sample_of};
ghost use Rattle.comparison.specs.Stored.{SoundSame, full_samples};

use crate::counterparts::Counterparts;
use pcm::unpack;
use sound_terms::Depth;
use std::simd::prelude::*;

/// Byte positions that spread four 16-bit samples over four 32-bit lanes: into the upper bytes,
/// above zeros (128).
const SIXTEEN: [u8; 16] = [
    128, 128, 0, 1, 128, 128, 2, 3, 128, 128, 4, 5, 128, 128, 6, 7,
];

/// Byte positions that spread four 24-bit samples over four 32-bit lanes.
const TWENTY_FOUR: [u8; 16] = [128, 0, 1, 2, 128, 3, 4, 5, 128, 6, 7, 8, 128, 9, 10, 11];

/// Widens the first four 16-bit samples of a vector to 32 bits.
#[inline(always)]
fn four_sixteen(bytes: u8x16) -> u8x16
    ensures { full_samples 32 4 result ≡ full_samples 16 4 bytes }
{
    bytes.swizzle_dyn(u8x16::from_array(SIXTEEN))
}

/// Widens the first four 24-bit samples of a vector to 32 bits.
#[inline(always)]
fn four_twenty_four(bytes: u8x16) -> u8x16
    ensures { full_samples 32 4 result ≡ full_samples 24 4 bytes }
{
    bytes.swizzle_dyn(u8x16::from_array(TWENTY_FOUR))
}

/// Widens the first four samples of any depth to 32 bits.
#[inline(always)]
fn four_samples(depth: Depth, bytes: u8x16) -> u8x16
    ensures { full_samples 32 4 result ≡ full_samples (bits_of depth) 4 bytes }
{
    match depth {
        Depth::Sixteen => four_sixteen(bytes),
        Depth::TwentyFour => four_twenty_four(bytes),
        Depth::ThirtyTwo => bytes,
    }
}

#[inline(always)]
fn are_equal(bytes: u8x16, others: u8x16) -> bool
    ensures { IsTrue result → bytes ≡ others }
{
    bytes.simd_ne(others).to_bitmask() == 0
}

/// Returns the number of leading samples known to be equal at full scale. Compares four at a time
/// while eight remain.
#[inline(always)]
fn same_lanes(pair: &Counterparts) -> usize
    ensures some { result ≤ pair.now.count }
    ensures same { full_samples (bits_of pair.now.depth) result pair.now.bytes.now
        ≡ full_samples (bits_of pair.now.other) result pair.now.others.now }
{
    let (bytes, others) = (pair.bytes, pair.others);
    let width = usize::from(pair.depth.bits() / 8);
    let other_width = usize::from(pair.other.bits() / 8);
    let mut done = 0;
    while pair.count - done >= 8 {
        let four = four_samples(pair.depth, u8x16::from_slice(&bytes[done * width..]));
        let counterpart = four_samples(
            pair.other,
            u8x16::from_slice(&others[done * other_width..]),
        );
        if !are_equal(four, counterpart) {
            break;
        }
        done += 4;
    }
    done
}

/// Returns sample `i`, unpacked and scaled to 32 bits.
fn sample_at(depth: Depth, bytes: &[u8], i: usize) -> i32
    requires { (i + 1) * (bits_of depth / 8) ≤ length bytes.now }
    ensures { full_scale 32 result
        ≡ full_scale (bits_of depth) (sample_of (bits_of depth) (drop (i * (bits_of depth / 8)) bytes.now)) }
{
    let width = usize::from(depth.bits() / 8);
    let mut sample = [0; 1];
    unpack(depth, &bytes[i * width..(i + 1) * width], &mut sample);
    match depth {
        Depth::Sixteen => sample[0] * 65_536,
        Depth::TwentyFour => sample[0] * 256,
        Depth::ThirtyTwo => sample[0],
    }
}

/// Returns whether all samples are equal at full scale: compares four at a time, then one by one.
#[inline(always)]
fn are_same_in(pair: &Counterparts) -> bool
    ensures { IsTrue result → SoundSame pair.now }
{
    let done = same_lanes(pair);
    for i in done..pair.count {
        if sample_at(pair.depth, pair.bytes, i) != sample_at(pair.other, pair.others, i) {
            return false;
        }
    }
    true
}

/// Specialised for the given depths; otherwise like `are_same_in`.
#[inline(always)]
fn are_same_of(pair: &Counterparts, depth: Depth, other: Depth) -> bool
    ensures { IsTrue result → SoundSame pair.now }
{
    if pair.depth == depth && pair.other == other {
        are_same_in(&Counterparts {
            depth,
            bytes: pair.bytes,
            other,
            others: pair.others,
            count: pair.count,
        })
    } else {
        are_same_in(pair)
    }
}

/// Specialised for each pair of a depth and a greater one; otherwise like `are_same_in`.
fn are_same_deeper(pair: &Counterparts) -> bool
    ensures { IsTrue result → SoundSame pair.now }
{
    match (pair.depth, pair.other) {
        (Depth::Sixteen, Depth::TwentyFour) => {
            are_same_of(pair, Depth::Sixteen, Depth::TwentyFour)
        }
        (Depth::Sixteen, Depth::ThirtyTwo) => are_same_of(pair, Depth::Sixteen, Depth::ThirtyTwo),
        (Depth::TwentyFour, Depth::ThirtyTwo) => {
            are_same_of(pair, Depth::TwentyFour, Depth::ThirtyTwo)
        }
        _ => are_same_in(pair),
    }
}

/// Returns whether all samples are equal at full scale. Unpacks nothing: the bytes of the lower
/// depth are compared with the upper bytes of the greater depth, and its lower bytes with zero.
pub fn are_same_at(pair: &Counterparts) -> bool
    ensures { IsTrue result → SoundSame pair.now }
{
    if pair.depth.bits() <= pair.other.bits() {
        return are_same_deeper(pair);
    }
    are_same_deeper(&Counterparts {
        depth: pair.other,
        bytes: pair.others,
        other: pair.depth,
        others: pair.bytes,
        count: pair.count,
    })
}
