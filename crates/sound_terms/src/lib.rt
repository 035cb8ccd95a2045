//! Types and definitions for sound: events, depths, the mix a listener hears, and the bytes of sound files.
#![tactic(auto)]

ghost use Rattle.std.specs.Prelude.{◌≡◌};
ghost use Rattle.sound_terms.specs.Depth.{bits_of};
ghost use Rattle.sound_terms.specs.SoundFault.{number_of};

mod block;
mod homes;
mod piece;

pub use block::{Instruction, Program, Stretch};
pub use homes::Homes;
pub use piece::{Home, Piece, Placed, Run, Shape};
use sampletime::SampleTime;

/// The number of bits per sample.
#[derive(Clone, Copy, Debug, PartialEq, Eq)]
pub enum Depth {
    Sixteen,
    TwentyFour,
    ThirtyTwo,
}

impl Depth {
    /// Returns the number of bits per sample: 16, 24 or 32.
    pub fn bits(self) -> u8
        ensures { result ≡ bits_of self }
    {
        match self {
            Depth::Sixteen => 16,
            Depth::TwentyFour => 24,
            Depth::ThirtyTwo => 32,
        }
    }
}

/// The reason why a file can't be read as sound.
#[derive(Clone, Copy, Debug, PartialEq, Eq)]
pub enum SoundFault {
    /// The file doesn't start with a RIFF or RF64 header of the form WAVE.
    NotWave,
    /// The file has no `fmt ` chunk.
    NoFormat,
    /// The file has no `data` chunk.
    NoData,
    /// A `fmt `, `bext` or `data` chunk extends past the end of the file.
    Truncated,
    /// The samples aren't PCM of a supported depth and number of channels.
    BadFormat,
    /// The `ds64` chunk of RF64 is missing or malformed, or lacks a required size.
    BadDs64,
    /// The sample rate isn't 48,000 Hz.
    WrongRate,
}

impl SoundFault {
    /// Returns the number of the refusal, 23 to 29.
    pub fn number(self) -> u8
        ensures { result ≡ number_of self }
    {
        match self {
            SoundFault::NotWave => 23,
            SoundFault::NoFormat => 24,
            SoundFault::NoData => 25,
            SoundFault::Truncated => 26,
            SoundFault::BadFormat => 27,
            SoundFault::BadDs64 => 28,
            SoundFault::WrongRate => 29,
        }
    }
}

/// A range of channels, counted from 1; `last` is included.
#[derive(Clone, Copy, Debug, PartialEq, Eq)]
pub struct Channels {
    pub first: u8,
    pub last: u8,
}

/// A linear fade; a length of zero means no fade.
#[derive(Clone, Copy, Debug, PartialEq, Eq)]
pub struct Fade {
    pub length: SampleTime,
}

/// One entry of a list: part of a source that plays from `dest_in` up to but not including `dest_out`.
#[derive(Clone, Copy, Debug, PartialEq, Eq)]
pub struct Event {
    pub number: u32,
    pub index: u32,
    pub source: Channels,
    pub dest: Channels,
    pub source_in: SampleTime,
    pub dest_in: SampleTime,
    pub dest_out: SampleTime,
    pub rise: Fade,
    pub fall: Fade,
}

/// A source index that is bound to a file: its number, the number of the file among the opened files, the time of the
/// first sample of the file in samples since midnight, and the number of samples, from the first on, that can be
/// addressed before the day ends.
#[derive(Clone, Copy, Debug, PartialEq, Eq)]
pub struct BoundIndex {
    pub number: u32,
    pub file: u32,
    pub base: u64,
    pub addressable: u64,
}

/// A range of a file, in bytes.
#[derive(Clone, Copy, Debug, PartialEq, Eq)]
pub struct Span {
    pub at: u64,
    pub length: u64,
}

/// Positions of the first `fmt `, `data` and `bext` chunk in a sound file, without their headers (EBU Tech 3285, EBU
/// Tech 3306). `others` is true if the file has chunks that aren't copied.
#[derive(Clone, Copy, Debug, PartialEq, Eq)]
pub struct Chunks {
    pub format: Span,
    pub sound: Span,
    pub bext: Option<Span>,
    pub others: bool,
}

/// The fields of the `ds64` chunk of RF64 (EBU Tech 3306, 3.2): the sizes in bytes that exceed 32 bits, the number of
/// sample frames, and the number of entries in the table of further chunk sizes.
#[derive(Clone, Copy, Debug, PartialEq, Eq)]
pub struct Ds64 {
    pub riff_size: u64,
    pub data_size: u64,
    pub samples: u64,
    pub entries: u32,
}

/// The fields of the `bext` chunk of a Broadcast Wave file (EBU Tech 3285, 2.3), without its CodingHistory.
#[derive(Clone, Copy, Debug)]
pub struct Bext {
    /// Description (256 bytes), Originator (32), OriginatorReference (32), OriginationDate (10) and OriginationTime
    /// (8), each padded with zeros.
    pub text: [u8; 338],
    /// The time of the first sample, in samples since midnight.
    pub time_reference: u64,
}

/// Linear PCM at 48,000 samples per second: 1 to 64 channels, and the number of bits per sample.
#[derive(Clone, Copy, Debug, PartialEq, Eq)]
pub struct Format {
    pub channels: u8,
    pub depth: Depth,
}
