// Chunks before the samples.
ghost use Rattle.std.specs.Prelude.{◌≡◌, ◌≤◌, ◌+◌, ◌*◌, ◌/◌, ◌%◌, ◌++◌, codes, length, take};
ghost use Rattle.sound_terms.specs.Depth.{bits_of};
ghost use Rattle.sound_terms.specs.Waves.{u16_bytes, u32_bytes, chunk_head, form_head, frame_bytes, bext_size, bext_chunk, format_chunk, data_head};
ghost use Rattle.wavwrite.specs.Info.{Fits};

use crate::SoundInfoRef;
use crate::fields::{chunk_head, put, u16_bytes, u32_bytes};
use bext::bytes_of;
use rf64::ds64_bytes;

/// The length of a `bext` chunk without its CodingHistory.
const BEXT_LENGTH: u32 = 602;

/// The number of samples per second.
const SAMPLE_RATE: u32 = 48_000;

/// The length of a `ds64` chunk, which is also reserved by the JUNK chunk.
const DS64_LENGTH: u32 = 28;

/// The format tag of linear PCM.
const PCM: u16 = 1;

/// The size field that refers to `ds64`.
const IN_DS64: u32 = 0xffff_ffff;

/// Returns the header of a form and a first chunk of 28 bytes.
fn form_of(form: &[u8; 4], size: u32, chunk: &[u8; 4], contents: &[u8; 28]) -> [u8; 48]
    ensures { result ≡ chunk_head form.now size ++ (codes "WAVE" ++ (chunk_head chunk.now 28 ++ contents.now)) }
{
    let form = chunk_head(form, size);
    let first = chunk_head(chunk, DS64_LENGTH);
    let mut out = [0; 48];
    let at = put(&mut out, 0, &form);
    let at = put(&mut out, at, b"WAVE");
    let at = put(&mut out, at, &first);
    put(&mut out, at, contents);
    out
}

/// Returns the header of the form: RF64 with its `ds64` if the size exceeds RIFF, otherwise RIFF with a JUNK chunk of
/// the same size (EBU Tech 3306, 3.5).
pub fn form_head(info: &SoundInfoRef) -> [u8; 48]
    requires { Fits info.now }
    ensures { result ≡ form_head info.now }
{
    let size = info.form_size();
    if info.is_large() {
        let sizes = ds64_bytes(size, info.data_length(), info.frames());
        return form_of(b"RF64", IN_DS64, b"ds64", &sizes);
    }
    form_of(b"RIFF", size as u32, b"JUNK", &[0; 28])
}

/// Writes the `bext` chunk with its CodingHistory and a pad byte if its length is odd (EBU Tech 3285, 2.3). Returns the
/// end.
pub fn put_bext(out: &mut [u8], at: usize, info: &SoundInfoRef) -> usize
    requires { at + (8 + (bext_size info.now + bext_size info.now % 2)) ≤ length out.old }
    ensures put { take result out.new ≡ take at out.old ++ bext_chunk info.now }
    ensures end { result ≡ at + (8 + (bext_size info.now + bext_size info.now % 2)) }
{
    let history = info.history();
    let head = chunk_head(b"bext", BEXT_LENGTH + history.len() as u32);
    let at = put(out, at, &head);
    let at = put(out, at, &bytes_of(info.bext()));
    let at = put(out, at, history);
    let pad = &[0][..history.len() % 2];
    put(out, at, pad)
}

/// Returns the bytes per second, the bytes per sample frame and the bits per sample.
fn rates_of(info: &SoundInfoRef) -> [u8; 8]
    ensures { result ≡ u32_bytes (48000 * frame_bytes info.now) ++ (u16_bytes (frame_bytes info.now)
        ++ u16_bytes (bits_of info.now.depth)) }
{
    let bits = u16::from(info.depth().bits());
    let frame = u16::from(info.channels()) * (bits / 8);
    let second = u32_bytes(SAMPLE_RATE * u32::from(frame));
    let frame = u16_bytes(frame);
    let bits = u16_bytes(bits);
    let mut out = [0; 8];
    let at = put(&mut out, 0, &second);
    let at = put(&mut out, at, &frame);
    put(&mut out, at, &bits);
    out
}

/// Returns the `fmt ` chunk of PCM at 48,000 samples per second (RIFF WAVE).
pub fn format_chunk(info: &SoundInfoRef) -> [u8; 24]
    ensures { result ≡ format_chunk info.now }
{
    let head = chunk_head(b"fmt ", 16);
    let tag = u16_bytes(PCM);
    let channels = u16_bytes(u16::from(info.channels()));
    let rate = u32_bytes(SAMPLE_RATE);
    let rates = rates_of(info);
    let mut out = [0; 24];
    let at = put(&mut out, 0, &head);
    let at = put(&mut out, at, &tag);
    let at = put(&mut out, at, &channels);
    let at = put(&mut out, at, &rate);
    put(&mut out, at, &rates);
    out
}

/// Returns the header of the `data` chunk.
pub fn data_head(info: &SoundInfoRef) -> [u8; 8]
    requires { Fits info.now }
    ensures { result ≡ data_head info.now }
{
    let size = if info.is_large() {
        IN_DS64
    } else {
        info.data_length() as u32
    };
    chunk_head(b"data", size)
}
