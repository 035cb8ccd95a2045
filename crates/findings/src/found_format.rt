// The unsupported format of a sound file, from its `fmt ` chunk (RIFF WAVE).
use devices::Shelf;
use riff::walk;
use std::fmt;
use std::fmt::Display;

/// Length in bytes of a `fmt ` chunk with `WAVE_FORMAT_EXTENSIBLE`, and the minimum length.
const LENGTH: usize = 40;

const LEAST: usize = 16;

/// Format tags of integer PCM, and of formats given by a sub-format (`WAVE_FORMAT_EXTENSIBLE`).
const PCM: u16 = 1;

const EXTENSIBLE: u16 = 0xfffe;

/// Offset of the sub-format of `WAVE_FORMAT_EXTENSIBLE`. Its first two bytes are a format tag.
const SUB_FORMAT_AT: usize = 24;

/// The most common format tags and their registered names.
static TAGS: [(u16, &'static str); 13] = [
    (0x0002, "Microsoft ADPCM"),
    (0x0003, "floating point"),
    (0x0006, "A-law"),
    (0x0007, "mu-law"),
    (0x0011, "IMA ADPCM"),
    (0x0031, "GSM 6.10"),
    (0x0050, "MPEG layer 1 or 2"),
    (0x0055, "MP3"),
    (0x00ff, "AAC"),
    (0x0161, "Windows Media Audio"),
    (0x2000, "AC-3"),
    (0x2001, "DTS"),
    (0xf1ac, "FLAC"),
];

/// The contents of a `fmt ` chunk.
///
/// `length` is at most 40 bytes, `tag` is the tag of the format or the sub-format, `rate` is in hertz, `frame` is the
/// size of a sample frame in bytes and `bits` the size of a sample.
#[derive(Clone, Copy)]
pub struct FoundFormat {
    length: usize,
    tag: u16,
    pub channels: u16,
    pub rate: u32,
    frame: u16,
    pub bits: u16,
}

impl FoundFormat {
    /// Reads the `fmt ` chunk of the file. Returns `None` if there is none or it can't be read.
    pub fn of<S: Shelf>(shelf: &mut S, name: &str) -> Option<FoundFormat> {
        let format = walk(shelf, name).ok()?.format;
        let length = format.length.min(LENGTH as u64) as usize;
        let mut bytes = [0; LENGTH];
        shelf.read_at(name, format.at, &mut bytes[..length]).ok()?;
        Some(FoundFormat::in_chunk(&bytes, length))
    }

    /// Decodes a chunk of `length` bytes, padded with zeros.
    fn in_chunk(bytes: &[u8; LENGTH], length: usize) -> FoundFormat {
        let tag = u16::from_le_bytes([bytes[0], bytes[1]]);
        let is_extended = tag == EXTENSIBLE && length >= SUB_FORMAT_AT + 2;
        FoundFormat {
            length,
            tag: if is_extended {
                u16::from_le_bytes([bytes[SUB_FORMAT_AT], bytes[SUB_FORMAT_AT + 1]])
            } else {
                tag
            },
            channels: u16::from_le_bytes([bytes[2], bytes[3]]),
            rate: u32::from_le_bytes([bytes[4], bytes[5], bytes[6], bytes[7]]),
            frame: u16::from_le_bytes([bytes[12], bytes[13]]),
            bits: u16::from_le_bytes([bytes[14], bytes[15]]),
        }
    }

    /// Returns the format tag, or `None` if the chunk is too short.
    pub fn tag(&self) -> Option<u16> {
        if self.length < LEAST {
            None
        } else {
            Some(self.tag)
        }
    }

    /// Returns the registered name of the format tag, if it is known.
    fn name(&self) -> Option<&'static str> {
        let (_, name) = TAGS.iter().find(|(tag, _)| *tag == self.tag)?;
        Some(name)
    }

    /// Returns whether integer PCM of this bit depth is supported.
    fn has_known_bits(&self) -> bool {
        matches!(self.bits, 16 | 24 | 32)
    }

    /// Returns whether the number of channels is supported.
    fn has_known_channels(&self) -> bool {
        1 <= self.channels && self.channels <= 64
    }

    /// Returns the remedy for integer PCM that is only unsupported for its number of channels.
    pub fn remedy(&self) -> Option<&'static str> {
        if self.tag() == Some(PCM) && self.has_known_bits() && !self.has_known_channels() {
            Some("only 1 to 64 channels are read: split the file, or take it out of the list")
        } else {
            None
        }
    }

    /// Writes why the integer PCM file isn't supported.
    fn fmt_pcm<W: fmt::Write>(&self, f: &mut fmt::Formatter<W>) -> fmt::Result {
        let FoundFormat {
            channels,
            frame,
            bits,
            ..
        } = *self;
        if !self.has_known_bits() {
            write!(f, "the file is {bits}-bit integer PCM")
        } else if !self.has_known_channels() {
            write!(f, "the file has {channels} channels")
        } else {
            write!(
                f,
                "the file has {channels} channels of {bits} bits, and {frame} bytes in a frame"
            )
        }
    }
}

/// Displays why the format isn't supported.
impl fmt::Display for FoundFormat {
    fn fmt<W: fmt::Write>(&self, f: &mut fmt::Formatter<W>) -> fmt::Result {
        let tag = self.tag;
        if self.length < LEAST {
            let length = self.length;
            return write!(f, "its 'fmt ' chunk has {length} bytes of {LEAST}");
        }
        match self.name() {
            Some(name) if tag == 3 => {
                write!(f, "the file is {}-bit {name} (format tag {tag})", self.bits)
            }
            Some(name) => write!(f, "the file is {name} (format tag {tag})"),
            None if tag == PCM => self.fmt_pcm(f),
            None => write!(f, "the file has format tag {tag}"),
        }
    }
}
