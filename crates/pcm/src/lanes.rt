// Fast twin of `word`, four samples at a time: equal to `word::sample_at`, `word::write_twenty_four` and a comparison
// with zero for each sample.
ghost use Rattle.std.specs.Prelude.{◌≡◌, ◌*◌, ◌/◌, ◌≤◌, ◌∷◌, [], ◌↔◌, pos, length, take, IsTrue};
ghost use Rattle.std.specs.List.{All, flat_map};
ghost use Rattle.sound_terms.specs.Depth.{bits_of};
ghost use Rattle.sound_terms.specs.Waves.{sample_bytes};
ghost use Rattle.pcm.specs.Samples.{FitsDepth, samples_in, summed};

use sound_terms::Depth;
use std::simd::prelude::*;

/// Shuffle mask that moves four 16-bit samples to the upper halves of 32-bit lanes; index 128 yields zero.
const SIXTEEN: [u8; 16] = [
    128, 128, 0, 1, 128, 128, 2, 3, 128, 128, 4, 5, 128, 128, 6, 7,
];

/// Shuffle mask that moves four 24-bit samples to the upper three bytes of 32-bit lanes; index 128 yields zero.
const TWENTY_FOUR: [u8; 16] = [128, 0, 1, 2, 128, 3, 4, 5, 128, 6, 7, 8, 128, 9, 10, 11];

/// Shuffle mask that packs the lower three bytes of four 32-bit lanes; index 128 yields zero.
const PACKED: [u8; 16] = [0, 1, 2, 4, 5, 6, 8, 9, 10, 12, 13, 14, 128, 128, 128, 128];

#[inline(always)]
fn four_sixteen(bytes: u8x16) -> [i32; 4]
    ensures { result ≡ samples_in 16 4 bytes }
{
    let lanes = i32x4::from_le_bytes(bytes.swizzle_dyn(u8x16::from_array(SIXTEEN)));
    (lanes >> i32x4::splat(16)).to_array()
}

#[inline(always)]
fn four_twenty_four(bytes: u8x16) -> [i32; 4]
    ensures { result ≡ samples_in 24 4 bytes }
{
    let lanes = i32x4::from_le_bytes(bytes.swizzle_dyn(u8x16::from_array(TWENTY_FOUR)));
    (lanes >> i32x4::splat(8)).to_array()
}

#[inline(always)]
fn four_thirty_two(bytes: u8x16) -> [i32; 4]
    ensures { result ≡ samples_in 32 4 bytes }
{
    i32x4::from_le_bytes(bytes).to_array()
}

/// Reads the first four samples of sixteen bytes.
#[inline(always)]
fn four_samples(depth: Depth, bytes: u8x16) -> [i32; 4]
    ensures { result ≡ samples_in (bits_of depth) 4 bytes }
{
    match depth {
        Depth::Sixteen => four_sixteen(bytes),
        Depth::TwentyFour => four_twenty_four(bytes),
        Depth::ThirtyTwo => four_thirty_two(bytes),
    }
}

/// Overwrites four samples with one store; `copy_from_slice` would first check for overlap.
#[inline(always)]
fn put_four(a: i32, b: i32, c: i32, d: i32, samples: &mut [i32])
    requires { length samples.old ≡ 4 }
    ensures { samples.new ≡ a ∷ b ∷ c ∷ d ∷ [] }
{
    samples[0] = a;
    samples[1] = b;
    samples[2] = c;
    samples[3] = d;
}

/// Reads samples four at a time while at least sixteen bytes are left, and returns the number of samples read.
#[inline(always)]
pub fn unpack_lanes(depth: Depth, bytes: &[u8], samples: &mut [i32]) -> usize
    requires { length bytes.now ≡ length samples.old * (bits_of depth / 8) }
    ensures some { result ≤ length samples.old }
    ensures read { take result samples.new ≡ samples_in (bits_of depth) result bytes.now }
{
    let width = usize::from(depth.bits() / 8);
    let mut done = 0;
    while bytes.len() - done * width >= 16 {
        let four = four_samples(depth, u8x16::from_slice(&bytes[done * width..]));
        let [a, b, c, d] = four;
        put_four(a, b, c, d, &mut samples[done..done + 4]);
        done += 4;
    }
    done
}

/// Adds four samples to four sums.
#[inline(always)]
fn add_four(a: i32, b: i32, c: i32, d: i32, sums: &mut [i32])
    requires four { length sums.old ≡ 4 }
    requires room { All (FitsDepth 32) (summed sums.old (a ∷ b ∷ c ∷ d ∷ [])) }
    ensures { sums.new ≡ summed sums.old (a ∷ b ∷ c ∷ d ∷ []) }
{
    put_four(sums[0] + a, sums[1] + b, sums[2] + c, sums[3] + d, sums);
}

/// Adds samples to sums four at a time while at least sixteen bytes are left, and returns the number of samples added.
#[inline(always)]
pub fn add_lanes(depth: Depth, bytes: &[u8], sums: &mut [i32]) -> usize
    requires each { length bytes.now ≡ length sums.old * (bits_of depth / 8) }
    requires room { All (FitsDepth 32) (summed sums.old (samples_in (bits_of depth) (length sums.old) bytes.now)) }
    ensures some { result ≤ length sums.old }
    ensures added { sums.new ≡ summed sums.old (samples_in (bits_of depth) result bytes.now) }
{
    let width = usize::from(depth.bits() / 8);
    let mut done = 0;
    while bytes.len() - done * width >= 16 {
        let four = four_samples(depth, u8x16::from_slice(&bytes[done * width..]));
        let [a, b, c, d] = four;
        add_four(a, b, c, d, &mut sums[done..done + 4]);
        done += 4;
    }
    done
}

/// Writes four 24-bit samples to the first twelve bytes with one store, which also overwrites the next four bytes.
#[inline(always)]
fn write_four(samples: &[i32], bytes: &mut [u8])
    requires four { 4 ≤ length samples.now }
    requires room { 16 ≤ length bytes.old }
    ensures { take 12 bytes.new ≡ flat_map (sample_bytes 24) (take 4 samples.now) }
{
    let lanes = i32x4::from_array([samples[0], samples[1], samples[2], samples[3]]);
    let packed = lanes.to_le_bytes().swizzle_dyn(u8x16::from_array(PACKED));
    packed.copy_to_slice(bytes);
}

/// Writes 24-bit samples four at a time while at least sixteen bytes are left, and returns the number of samples
/// written.
#[inline(always)]
pub fn pack_lanes(samples: &[i32], bytes: &mut [u8]) -> usize
    requires { length bytes.old ≡ length samples.now * 3 }
    ensures some { result ≤ length samples.now }
    ensures written { take (result * 3) bytes.new ≡ flat_map (sample_bytes 24) (take result samples.now) }
{
    let mut done = 0;
    while bytes.len() - done * 3 >= 16 {
        write_four(&samples[done..], &mut bytes[done * 3..]);
        done += 4;
    }
    done
}

/// Returns true if all four samples are zero.
#[inline(always)]
fn are_zero(a: i32, b: i32, c: i32, d: i32) -> bool
    ensures { IsTrue result ↔ All (λ sample. sample ≡ pos 0) (a ∷ b ∷ c ∷ d ∷ []) }
{
    let lanes = i32x4::from_array([a, b, c, d]);
    lanes.simd_ne(i32x4::splat(0)).to_bitmask() == 0
}

/// Counts zero samples from the start, four at a time, and returns a multiple of four.
#[inline(always)]
pub fn zero_lanes(samples: &[i32]) -> usize
    ensures some { result ≤ length samples.now }
    ensures zero { All (λ sample. sample ≡ pos 0) (take result samples.now) }
{
    let mut done = 0;
    while samples.len() - done >= 4 {
        if !are_zero(
            samples[done],
            samples[done + 1],
            samples[done + 2],
            samples[done + 3],
        ) {
            break;
        }
        done += 4;
    }
    done
}
