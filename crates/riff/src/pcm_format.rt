// Contents of the `fmt ` chunk.
ghost use Rattle.std.specs.Prelude.{◌≡◌, ◌≤◌, ◌+◌, length, IfOk};
ghost use Rattle.sound_terms.specs.Chunks.{number_at, stands_at};
ghost use Rattle.sound_terms.specs.Formats.{depth_of, is_pcm, format_of};
ghost use Rattle.riff.specs.Channels.{HasFewChannels};
ghost use Rattle.riff.specs.Fault.{as_media};

use crate::MediaFault;
use byteorder::{ByteOrder, LittleEndian};
use sound_terms::{Depth, Format, SoundFault};

/// The format tag of linear PCM (RIFF WAVE, `WAVE_FORMAT_PCM`).
const PCM: u16 = 1;

/// The format tag that refers to a sub-format (`WAVE_FORMAT_EXTENSIBLE`).
const EXTENSIBLE: u16 = 0xfffe;

/// The length of an extension with a sub-format.
const EXTENSION_LENGTH: u16 = 22;

/// The sub-format of PCM (`KSDATAFORMAT_SUBTYPE_PCM`).
const PCM_SUB_FORMAT: [u8; 16] = [
    1, 0, 0, 0, 0, 0, 0x10, 0, 0x80, 0, 0, 0xaa, 0, 0x38, 0x9b, 0x71,
];

/// The only supported sample rate, in samples per second.
const SAMPLE_RATE: u32 = 48_000;

/// The maximum number of channels of a file.
const MOST_CHANNELS: u16 = 64;

fn u16_at(bytes: &[u8], at: usize) -> u16
    requires { at + 2 ≤ length bytes.now }
    ensures { result ≡ number_at 2 at bytes.now }
{
    LittleEndian::read_u16(&bytes[at..])
}

fn u32_at(bytes: &[u8], at: usize) -> u32
    requires { at + 4 ≤ length bytes.now }
    ensures { result ≡ number_at 4 at bytes.now }
{
    LittleEndian::read_u32(&bytes[at..])
}

/// Returns true if the sub-format is PCM.
fn has_sub_format(bytes: &[u8]) -> bool
    requires { 24 ≤ length bytes.now }
    ensures { result ≡ stands_at PCM_SUB_FORMAT 24 bytes.now }
{
    bytes[24..].starts_with(&PCM_SUB_FORMAT)
}

/// Returns true if the format is PCM by its tag or its sub-format.
fn is_pcm(bytes: &[u8]) -> bool
    requires { 16 ≤ length bytes.now }
    ensures { result ≡ is_pcm bytes.now }
{
    match u16_at(bytes, 0) {
        PCM => true,
        EXTENSIBLE => {
            bytes.len() >= 40 && u16_at(bytes, 16) == EXTENSION_LENGTH && has_sub_format(bytes)
        }
        _ => false,
    }
}

fn depth_of(bits: u16) -> Option<Depth>
    ensures { result ≡ depth_of bits }
{
    match bits {
        16 => Some(Depth::Sixteen),
        24 => Some(Depth::TwentyFour),
        32 => Some(Depth::ThirtyTwo),
        _ => None,
    }
}

/// Parses the contents of a `fmt ` chunk (RIFF WAVE): linear PCM by its tag or by the sub-format of
/// `WAVE_FORMAT_EXTENSIBLE`, with 1 to 64 channels of 16, 24 or 32 bits at 48,000 samples per second, and no padding in
/// the sample frames. Bytes after the format are ignored.
///
/// Returns `WrongRate` if only the sample rate differs, and `BadFormat` for any other format or fewer than 16 bytes.
pub fn read_fmt(bytes: &[u8]) -> Result<Format, MediaFault>
    ensures exact { result ≡ as_media (format_of bytes.now) }
    ensures channels { IfOk result HasFewChannels }
{
    Ok(format_in(bytes)?)
}

fn format_in(bytes: &[u8]) -> Result<Format, SoundFault>
    ensures exact { result ≡ format_of bytes.now }
    ensures channels { IfOk result HasFewChannels }
{
    if bytes.len() < 16 || !is_pcm(bytes) {
        return Err(SoundFault::BadFormat);
    }
    let depth = depth_of(u16_at(bytes, 14)).ok_or(SoundFault::BadFormat)?;
    let channels = u16_at(bytes, 2);
    if channels == 0 || channels > MOST_CHANNELS {
        return Err(SoundFault::BadFormat);
    }
    if u16_at(bytes, 12) != channels * u16::from(depth.bits() / 8) {
        return Err(SoundFault::BadFormat);
    }
    if u32_at(bytes, 4) != SAMPLE_RATE {
        return Err(SoundFault::WrongRate);
    }
    Ok(Format {
        channels: channels as u8,
        depth,
    })
}
