// Details of a sound file that was refused.
use crate::file_kind::FileHead;
use crate::found_format::FoundFormat;
use devices::Shelf;
use riff::MediaFault;
use std::fmt;
use std::fmt::Display;

/// The details of a refused file: its first bytes if it isn't WAVE, its format if that isn't supported, or its sample
/// rate.
#[derive(Clone, Copy)]
pub enum FoundSound {
    Head(FileHead),
    Format(FoundFormat),
    Rate(u32),
}

impl FoundSound {
    /// Reads the details of a file with this fault. Returns `None` if the number of the fault says it all, or if the
    /// file can't be read.
    pub fn of<S: Shelf>(shelf: &mut S, name: &str, fault: MediaFault) -> Option<FoundSound> {
        match fault {
            MediaFault::NotWave => Some(FoundSound::Head(FileHead::of(shelf, name)?)),
            MediaFault::BadFormat => Some(FoundSound::Format(FoundFormat::of(shelf, name)?)),
            MediaFault::WrongRate => {
                let format = FoundFormat::of(shelf, name)?;
                Some(FoundSound::Rate(format.rate))
            }
            _ => None,
        }
    }

    /// Returns a remedy that is more specific than the one of the refusal.
    pub fn remedy(&self) -> Option<&'static str> {
        match self {
            FoundSound::Head(head) => head.remedy(),
            FoundSound::Format(format) => format.remedy(),
            FoundSound::Rate(_) => None,
        }
    }

    /// Returns the unsupported format.
    pub fn format(&self) -> Option<FoundFormat> {
        match self {
            FoundSound::Format(format) => Some(*format),
            FoundSound::Head(_) | FoundSound::Rate(_) => None,
        }
    }

    /// Returns the sample rate of the file in hertz, if known.
    pub fn rate(&self) -> Option<u32> {
        match self {
            FoundSound::Rate(rate) => Some(*rate),
            FoundSound::Format(format) => Some(format.rate),
            FoundSound::Head(_) => None,
        }
    }
}

impl fmt::Display for FoundSound {
    fn fmt<W: fmt::Write>(&self, f: &mut fmt::Formatter<W>) -> fmt::Result {
        match self {
            FoundSound::Head(head) => head.fmt(f),
            FoundSound::Format(format) => format.fmt(f),
            FoundSound::Rate(rate) => write!(f, "the file has {rate} samples a second"),
        }
    }
}
