// Complete headers.
ghost use Rattle.std.specs.Prelude.{◌≡◌, ◌<◌, ◌≤◌, ◌+◌, ◌-◌, ◌%◌, ◌^◌, ◌↔◌, ℕ, ℤ, IsTrue, SomeIff, IfOk, IsErrOf, List, length, take, drop};
ghost use Rattle.sound_terms.specs.Waves as waves;
ghost use Rattle.sound_terms.specs.Waves.{data_size, data_place, file_length, header_of, is_large};
ghost use Rattle.sound_terms.specs.Render.{Range, ReadsBack, render_info, rendering_of};
ghost use Rattle.wavwrite.specs.Info.{Fits, FitsRiff, IsReadBack, HoldsSamples};

use crate::chunks::{data_head, form_head, format_chunk, put_bext};
use crate::fields::put;
use crate::{Depth, HeaderFault, SoundInfo, SoundInfoRef};
use std::alloc::Global;

/// The length of all headers and fixed chunks before the samples, without the contents of `bext`.
const HEADS_LENGTH: u64 = 88;

/// The length of a `bext` chunk without its CodingHistory.
const BEXT_LENGTH: u64 = 602;

/// The maximum length of a RIFF file: a form size of 4,294,967,294 plus the first 8 bytes, which the size excludes.
const LONGEST_RIFF: u64 = 4_294_967_302;

/// The greatest even length that fits 64 bits.
const LONGEST: u64 = 18_446_744_073_709_551_614;

impl<'a> SoundInfoRef<'a> {
    /// Returns the number of bytes before the samples: at most 66,226, and even.
    pub fn header_length(&self) -> usize
        ensures length { result ≡ data_place self.now }
        ensures near { result ≤ 66226 }
        ensures even { result % 2 ≡ 0 }
        ensures head { length (header_of self.now) ≡ data_place self.now }
    {
        self.reads_back();
        let bext = BEXT_LENGTH as usize + self.history().len();
        HEADS_LENGTH as usize + bext + bext % 2
    }

    /// Returns the number of bytes of the samples, or `None` if it exceeds 64 bits.
    fn size(&self) -> Option<u64>
        ensures { SomeIff result (data_size self.now < 2 ^ 64) (data_size self.now) }
    {
        let frame = u64::from(self.channels()) * u64::from(self.depth().bits() / 8);
        self.frames().checked_mul(frame)
    }

    /// Returns true if the length of the file fits 64 bits.
    pub fn fits(&self) -> bool
        ensures { IsTrue result ↔ Fits self.now }
    {
        let offset = self.header_length() as u64;
        match self.size() {
            Some(size) => size <= LONGEST - offset,
            None => false,
        }
    }

    /// Returns true if the file must be RF64: its length, more than 4,294,967,302 bytes, exceeds the size field of
    /// RIFF.
    pub fn is_large(&self) -> bool
        ensures { result ≡ is_large self.now }
    {
        let offset = self.header_length() as u64;
        match self.size() {
            Some(size) => size > LONGEST_RIFF - offset,
            None => true,
        }
    }

    /// Returns the number of bytes of the samples. The length of the file must fit 64 bits.
    pub fn data_length(&self) -> u64
        requires { Fits self.now }
        ensures value { result ≡ data_size self.now }
        ensures ends { data_place self.now + (result + result % 2) < 2 ^ 64 }
    {
        self.size().unwrap_or(0)
    }

    /// Returns the size field of the form: the length of the file without its first 8 bytes.
    pub fn form_size(&self) -> u64
        requires { Fits self.now }
        ensures { result ≡ file_length self.now - 8 }
    {
        let size = self.data_length();
        self.header_length() as u64 - 8 + size + size % 2
    }

    /// Writes all bytes before the samples: the RIFF header with a JUNK chunk of 28 zero bytes, or the RF64 header with
    /// `ds64` if the file is large, then `bext`, `fmt ` and the header of `data` (EBU Tech 3285, EBU Tech 3306). The
    /// caller writes the samples after it, and a zero byte if their length is odd.
    pub fn put_header(&self, out: &mut [u8])
        requires fits { Fits self.now }
        requires length { length out.old ≡ data_place self.now }
        ensures { out.new ≡ header_of self.now }
    {
        let form = form_head(self);
        let format = format_chunk(self);
        let head = data_head(self);
        let at = put(out, 0, &form);
        let at = put_bext(out, at, self);
        let at = put(out, at, &format);
        put(out, at, &head);
    }

    /// Does nothing. Its contract says what reading the written file gives.
    pub fn reads_back(&self)
        ensures reads_back { IsReadBack self.now }
        ensures data_stands { HoldsSamples self.now }
        ensures rendered { (range : Range) (mix : ℕ → ℕ → ℤ) → Fits self.now → self.now ≡ render_info range
            → ReadsBack range mix (rendering_of range mix) }
        ensures head { length (header_of self.now) ≡ data_place self.now }
        ensures short { self.now.frames < 2 ^ 48 → Fits self.now }
    {
        let _ = self.channels();
        let _ = self.depth();
    }
}

/// Returns the offset of the samples in the file, at most 66,226.
pub fn place_of(info: &SoundInfo) -> u64
    ensures offset { result ≡ data_place info.now }
    ensures near { result ≤ 66226 }
    ensures reads_back { IsReadBack info.now }
    ensures data_stands { HoldsSamples info.now }
    ensures head { length (header_of info.now) ≡ data_place info.now }
{
    let info = info.lent();
    info.reads_back();
    info.header_length() as u64
}

/// Returns the number of bytes of the samples. The length of the file must fit 64 bits.
pub fn data_length(info: &SoundInfo) -> u64
    requires { Fits info.now }
    ensures value { result ≡ data_size info.now }
    ensures ends { data_place info.now + (result + result % 2) < 2 ^ 64 }
{
    info.lent().data_length()
}

/// Returns true if the length of the file fits 64 bits.
pub fn fits(info: &SoundInfo) -> bool
    ensures { IsTrue result ↔ Fits info.now }
{
    info.lent().fits()
}

/// Returns true if the file must be RF64: its length, more than 4,294,967,302 bytes, exceeds the size field of RIFF.
pub fn is_large(info: &SoundInfo) -> bool
    ensures { result ≡ is_large info.now }
{
    info.lent().is_large()
}

/// Returns true if a file with the given number of channels, depth, number of sample frames and length of CodingHistory
/// fits the size field of RIFF.
pub fn fits_riff_with(channels: u8, depth: Depth, frames: u64, history: usize) -> bool
    requires { history ≤ 65536 }
    ensures { (info : waves.SoundInfo) → info.channels ≡ channels → info.depth ≡ depth → info.frames ≡ frames
        → length info.history ≡ history
        → IsTrue result ↔ FitsRiff info }
{
    let bext = BEXT_LENGTH + history as u64;
    let offset = HEADS_LENGTH + bext + bext % 2;
    let frame = u64::from(channels) * u64::from(depth.bits() / 8);
    match frames.checked_mul(frame) {
        Some(size) => size <= LONGEST_RIFF - offset,
        None => false,
    }
}

/// Returns all bytes before the samples, as written by [`SoundInfoRef::put_header`].
///
/// Returns `TooLong` if the length of the file exceeds 64 bits, and `Memory` if out of memory.
pub fn header(alloc: Global, info: &SoundInfo) -> Result<Vec<u8>, HeaderFault>
    ensures bytes { IfOk result (λ bytes. bytes.items ≡ header_of info.now) }
    ensures too_long { IsErrOf result HeaderFault.TooLong ↔ (Fits info.now → ⊥) }
    ensures reads_back { IsReadBack info.now }
    ensures data_stands { HoldsSamples info.now }
    ensures rendered { (range : Range) (mix : ℕ → ℕ → ℤ) → Fits info.now → info.now ≡ render_info range
        → ReadsBack range mix (rendering_of range mix) }
{
    let info = info.lent();
    info.reads_back();
    if !info.fits() {
        return Err(HeaderFault::TooLong);
    }
    let mut out = Vec::new(alloc);
    out.resize(info.header_length(), 0)?;
    info.put_header(out.as_mut_slice());
    Ok(out)
}
