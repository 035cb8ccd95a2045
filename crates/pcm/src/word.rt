// Reading and writing of single samples at each depth.
ghost use Rattle.std.specs.Prelude.{◌≡◌, ◌+◌, ◌*◌, ◌/◌, ◌≤◌, ◌++◌, length, drop};
ghost use Rattle.sound_terms.specs.Depth.{bits_of};
ghost use Rattle.sound_terms.specs.Waves.{sample_bytes, sample_of};

use byteorder::{ByteOrder, LittleEndian};
use sound_terms::Depth;

#[inline(always)]
fn read_twenty_four(bytes: &[u8]) -> i32
    requires { 3 ≤ length bytes.now }
    ensures { result ≡ sample_of 24 bytes.now }
{
    LittleEndian::read_i24(bytes)
}

/// Reads the 24-bit sample after the first byte: reads four bytes at once and shifts the first one out.
#[inline(always)]
fn read_behind(bytes: &[u8]) -> i32
    requires { 4 ≤ length bytes.now }
    ensures { result ≡ sample_of 24 (drop 1 bytes.now) }
{
    LittleEndian::read_i32(bytes) >> 8
}

#[inline(always)]
fn twenty_four_at(bytes: &[u8], i: usize) -> i32
    requires { (i + 1) * 3 ≤ length bytes.now }
    ensures { result ≡ sample_of 24 (drop (i * 3) bytes.now) }
{
    if i == 0 {
        read_twenty_four(bytes)
    } else {
        read_behind(&bytes[i * 3 - 1..])
    }
}

/// Reads sample `i`.
#[inline(always)]
pub fn sample_at(depth: Depth, bytes: &[u8], i: usize) -> i32
    requires { (i + 1) * (bits_of depth / 8) ≤ length bytes.now }
    ensures { result ≡ sample_of (bits_of depth) (drop (i * (bits_of depth / 8)) bytes.now) }
{
    match depth {
        Depth::Sixteen => i32::from(LittleEndian::read_i16(&bytes[i * 2..])),
        Depth::TwentyFour => twenty_four_at(bytes, i),
        Depth::ThirtyTwo => LittleEndian::read_i32(&bytes[i * 4..]),
    }
}

/// Writes the lowest 16 bits of a sample to the first two bytes.
#[inline(always)]
pub fn write_sixteen(bytes: &mut [u8], sample: i32)
    requires { 2 ≤ length bytes.old }
    ensures { bytes.new ≡ sample_bytes 16 sample ++ drop 2 bytes.old }
{
    LittleEndian::write_u16(bytes, (sample.cast_unsigned() % 65_536) as u16);
}

/// Writes the lowest 24 bits of a sample to the first three bytes.
#[inline(always)]
pub fn write_twenty_four(bytes: &mut [u8], sample: i32)
    requires { 3 ≤ length bytes.old }
    ensures { bytes.new ≡ sample_bytes 24 sample ++ drop 3 bytes.old }
{
    LittleEndian::write_u24(bytes, sample.cast_unsigned() % 16_777_216);
}

/// Writes a 32-bit sample to the first four bytes.
#[inline(always)]
pub fn write_thirty_two(bytes: &mut [u8], sample: i32)
    requires { 4 ≤ length bytes.old }
    ensures { bytes.new ≡ sample_bytes 32 sample ++ drop 4 bytes.old }
{
    LittleEndian::write_i32(bytes, sample);
}
