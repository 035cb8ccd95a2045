// Errors of reading sound files.
ghost use Rattle.std.specs.Prelude.{◌≡◌};
ghost use Rattle.riff.specs.Fault.{number_of, fault_of, media_fault};

use devices::ShelfFault;
use sound_terms::SoundFault;
use thiserror::Error;

/// The reason why a sound file is refused.
#[derive(Clone, Copy, Debug, PartialEq, Eq, Error)]
pub enum MediaFault {
    /// The file doesn't exist.
    #[error("there is no such file")]
    NotFound,
    /// A device failure, which the shelf has counted.
    #[error("the device failed")]
    Device,
    /// The file doesn't start with a RIFF or RF64 header of the form WAVE.
    #[error("it is no WAVE file")]
    NotWave,
    /// The file has no `fmt ` chunk.
    #[error("it has no `fmt ` chunk")]
    NoFormat,
    /// The file has no `data` chunk.
    #[error("it has no `data` chunk")]
    NoData,
    /// A `fmt `, `bext` or `data` chunk extends past the end of the file.
    #[error("it is cut short")]
    Truncated,
    /// The samples aren't PCM of a supported depth and number of channels.
    #[error("its format is not supported")]
    BadFormat,
    /// The `ds64` chunk of RF64 is missing or malformed, or lacks a required size.
    #[error("its `ds64` chunk is missing or broken")]
    BadDs64,
    /// The sample rate isn't 48,000 Hz.
    #[error("its sample rate is not 48000")]
    WrongRate,
    /// Out of memory.
    #[error("out of memory")]
    Memory,
}

impl MediaFault {
    /// Returns the number of the refusal: 21 to 29, or 31.
    pub fn number(&self) -> u8
        ensures { result ≡ number_of self.now }
    {
        match self {
            MediaFault::NotFound => 21,
            MediaFault::Device => 22,
            MediaFault::NotWave => 23,
            MediaFault::NoFormat => 24,
            MediaFault::NoData => 25,
            MediaFault::Truncated => 26,
            MediaFault::BadFormat => 27,
            MediaFault::BadDs64 => 28,
            MediaFault::WrongRate => 29,
            MediaFault::Memory => 31,
        }
    }
}

impl From<ShelfFault> for MediaFault {
    ghost from_gives = { λ fault media. media ≡ fault_of fault };

    fn from(fault: ShelfFault) -> MediaFault {
        match fault {
            ShelfFault::NotFound => MediaFault::NotFound,
            ShelfFault::Device => MediaFault::Device,
        }
    }
}

impl From<SoundFault> for MediaFault {
    ghost from_gives = { λ fault media. media ≡ media_fault fault };

    fn from(fault: SoundFault) -> MediaFault {
        match fault {
            SoundFault::NotWave => MediaFault::NotWave,
            SoundFault::NoFormat => MediaFault::NoFormat,
            SoundFault::NoData => MediaFault::NoData,
            SoundFault::Truncated => MediaFault::Truncated,
            SoundFault::BadFormat => MediaFault::BadFormat,
            SoundFault::BadDs64 => MediaFault::BadDs64,
            SoundFault::WrongRate => MediaFault::WrongRate,
        }
    }
}
