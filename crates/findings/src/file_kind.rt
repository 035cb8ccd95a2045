// Detection of the type of a file that isn't WAVE, from its first bytes.
use devices::Shelf;
use std::fmt;
use std::fmt::Display;

/// Number of bytes examined.
const HEAD: usize = 12;

/// Signatures of the types most often found in place of a WAVE file: offset, bytes and name. The first match counts.
static SIGNATURES: [(usize, &'static [u8], &'static str); 21] = [
    (0, b"fLaC", "FLAC"),
    (8, b"AIFF", "AIFF"),
    (8, b"AIFC", "AIFF-C"),
    (0, b"ID3", "MP3"),
    (0, b"\xff\xf1", "AAC"),
    (0, b"\xff\xf9", "AAC"),
    (0, b"\xff\xfb", "MP3"),
    (0, b"\xff\xfa", "MP3"),
    (0, b"\xff\xf3", "MP3"),
    (0, b"OggS", "Ogg"),
    (4, b"ftyp", "MP4 (m4a, mov)"),
    (0, b"caff", "Core Audio Format (caf)"),
    (0, b"riff", "Wave64 (w64)"),
    (0, b"BW64", "BW64"),
    (0, b"RIFX", "RIFX, WAVE with its bytes in the other order"),
    (8, b"AVI ", "AVI"),
    (0, b".snd", "AU"),
    (0, b"wvpk", "WavPack"),
    (0, b"\x1a\x45\xdf\xa3", "Matroska"),
    (0, b"PK\x03\x04", "ZIP"),
    (
        0,
        b"\x00\x05\x16\x07",
        "AppleDouble, which macOS keeps beside a file",
    ),
];

/// The first bytes of a file, at most `HEAD`.
#[derive(Clone, Copy)]
pub struct FileHead {
    bytes: [u8; HEAD],
    count: usize,
}

impl FileHead {
    /// Reads the first bytes of the file. Returns `None` if it can't be read.
    pub fn of<S: Shelf>(shelf: &mut S, name: &str) -> Option<FileHead> {
        let length = shelf.length(name).ok()?;
        let count = length.min(HEAD as u64) as usize;
        let mut bytes = [0; HEAD];
        shelf.read_at(name, 0, &mut bytes[..count]).ok()?;
        Some(FileHead { bytes, count })
    }

    fn as_slice(&self) -> &[u8] {
        self.bytes.get(..self.count).unwrap_or(&self.bytes)
    }

    /// Returns the type of the file, if it is known.
    fn kind(&self) -> Option<&'static str> {
        let head = self.as_slice();
        let (_, _, kind) = SIGNATURES.iter().find(|(at, bytes, _)| {
            head.get(*at..).is_some_and(|rest| rest.starts_with(bytes))
        })?;
        Some(kind)
    }

    /// Returns whether all of the bytes are zero, or the file is empty.
    fn is_silent(&self) -> bool {
        self.as_slice().iter().all(|byte| *byte == 0)
    }

    /// Returns the remedy for a file that was never written.
    pub fn remedy(&self) -> Option<&'static str> {
        if self.is_silent() {
            Some("copy the file again")
        } else {
            None
        }
    }
}

impl fmt::Display for FileHead {
    fn fmt<W: fmt::Write>(&self, f: &mut fmt::Formatter<W>) -> fmt::Result {
        if self.count == 0 {
            return f.write_str("the file is empty");
        }
        match self.kind() {
            Some(kind) => write!(f, "the file is {kind}"),
            None if self.is_silent() => {
                f.write_str("the file begins with zeros, as one whose copy was interrupted")
            }
            None => f.write_str("the file doesn't begin as RIFF or RF64 of form WAVE"),
        }
    }
}
