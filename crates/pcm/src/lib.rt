//! Conversion between samples and bytes of RIFF WAVE PCM: two's complement, little endian.
#![tactic(auto)]

mod lanes;
mod word;

ghost use Rattle.std.specs.Prelude.{◌≡◌, ◌*◌, ◌/◌, ◌↔◌, pos, length, IsTrue};
ghost use Rattle.std.specs.List.{All, flat_map};
ghost use Rattle.sound_terms.specs.Depth.{bits_of};
ghost use Rattle.sound_terms.specs.Waves.{sample_bytes};
ghost use Rattle.pcm.specs.Samples.{FitsDepth, samples_in, summed};

use lanes::{add_lanes, pack_lanes, unpack_lanes, zero_lanes};
pub use sound_terms::Depth;
use word::{sample_at, write_sixteen, write_thirty_two, write_twenty_four};

/// Reads `samples` from `bytes`, which must hold exactly these samples: 2, 3 or 4 bytes per sample at 16, 24 or 32
/// bits, with the channels interleaved.
pub fn unpack(depth: Depth, bytes: &[u8], samples: &mut [i32])
    requires { length bytes.now ≡ length samples.old * (bits_of depth / 8) }
    ensures numbers { samples.new ≡ samples_in (bits_of depth) (length samples.old) bytes.now }
    ensures fit { All (FitsDepth (bits_of depth)) samples.new }
    ensures again { flat_map (sample_bytes (bits_of depth)) samples.new ≡ bytes.now }
{
    match depth {
        Depth::Sixteen => unpack_at(Depth::Sixteen, bytes, samples),
        Depth::TwentyFour => unpack_at(Depth::TwentyFour, bytes, samples),
        Depth::ThirtyTwo => unpack_at(Depth::ThirtyTwo, bytes, samples),
    }
}

/// Adds the samples in `bytes`, in the format read by [`unpack`], to the sums. No sum may exceed 32 bits.
pub fn add_unpacked(depth: Depth, bytes: &[u8], sums: &mut [i32])
    requires each { length bytes.now ≡ length sums.old * (bits_of depth / 8) }
    requires room { All (FitsDepth 32) (summed sums.old (samples_in (bits_of depth) (length sums.old) bytes.now)) }
    ensures { sums.new ≡ summed sums.old (samples_in (bits_of depth) (length sums.old) bytes.now) }
{
    match depth {
        Depth::Sixteen => add_at(Depth::Sixteen, bytes, sums),
        Depth::TwentyFour => add_at(Depth::TwentyFour, bytes, sums),
        Depth::ThirtyTwo => add_at(Depth::ThirtyTwo, bytes, sums),
    }
}

/// Writes `samples` to `bytes`, which must have exactly the required length: the lowest 2, 3 or 4 bytes of each sample
/// at 16, 24 or 32 bits. Samples within the range of the depth are read back unchanged by [`unpack`].
pub fn pack(depth: Depth, samples: &[i32], bytes: &mut [u8])
    requires { length bytes.old ≡ length samples.now * (bits_of depth / 8) }
    ensures bytes { bytes.new ≡ flat_map (sample_bytes (bits_of depth)) samples.now }
    ensures again { All (FitsDepth (bits_of depth)) samples.now
        → samples_in (bits_of depth) (length samples.now) bytes.new ≡ samples.now }
{
    match depth {
        Depth::Sixteen => pack_sixteen(samples, bytes),
        Depth::TwentyFour => pack_twenty_four(samples, bytes),
        Depth::ThirtyTwo => pack_thirty_two(samples, bytes),
    }
}

/// Returns true if all samples are zero or there are no samples.
pub fn all_zero(samples: &[i32]) -> bool
    ensures { IsTrue result ↔ All (λ sample. sample ≡ pos 0) samples.now }
{
    let done = zero_lanes(samples);
    all_zero_plain(&samples[done..])
}

fn all_zero_plain(samples: &[i32]) -> bool
    ensures { IsTrue result ↔ All (λ sample. sample ≡ pos 0) samples.now }
{
    samples.iter().all(|sample| *sample == 0)
}

/// Reads samples four at a time, then the rest one by one.
#[inline(always)]
fn unpack_at(depth: Depth, bytes: &[u8], samples: &mut [i32])
    requires { length bytes.now ≡ length samples.old * (bits_of depth / 8) }
    ensures numbers { samples.new ≡ samples_in (bits_of depth) (length samples.old) bytes.now }
    ensures fit { All (FitsDepth (bits_of depth)) samples.new }
    ensures again { flat_map (sample_bytes (bits_of depth)) samples.new ≡ bytes.now }
{
    let done = unpack_lanes(depth, bytes, samples);
    for i in done..samples.len() {
        samples[i] = sample_at(depth, bytes, i);
    }
}

/// Adds samples four at a time, then the rest one by one.
#[inline(always)]
fn add_at(depth: Depth, bytes: &[u8], sums: &mut [i32])
    requires each { length bytes.now ≡ length sums.old * (bits_of depth / 8) }
    requires room { All (FitsDepth 32) (summed sums.old (samples_in (bits_of depth) (length sums.old) bytes.now)) }
    ensures { sums.new ≡ summed sums.old (samples_in (bits_of depth) (length sums.old) bytes.now) }
{
    let done = add_lanes(depth, bytes, sums);
    for i in done..sums.len() {
        sums[i] += sample_at(depth, bytes, i);
    }
}

fn pack_sixteen(samples: &[i32], bytes: &mut [u8])
    requires { length bytes.old ≡ length samples.now * 2 }
    ensures { bytes.new ≡ flat_map (sample_bytes 16) samples.now }
{
    for (i, sample) in samples.iter().enumerate() {
        write_sixteen(&mut bytes[i * 2..], *sample);
    }
}

fn pack_twenty_four(samples: &[i32], bytes: &mut [u8])
    requires { length bytes.old ≡ length samples.now * 3 }
    ensures { bytes.new ≡ flat_map (sample_bytes 24) samples.now }
{
    let done = pack_lanes(samples, bytes);
    for i in done..samples.len() {
        write_twenty_four(&mut bytes[i * 3..], samples[i]);
    }
}

fn pack_thirty_two(samples: &[i32], bytes: &mut [u8])
    requires { length bytes.old ≡ length samples.now * 4 }
    ensures { bytes.new ≡ flat_map (sample_bytes 32) samples.now }
{
    for (i, sample) in samples.iter().enumerate() {
        write_thirty_two(&mut bytes[i * 4..], *sample);
    }
}
