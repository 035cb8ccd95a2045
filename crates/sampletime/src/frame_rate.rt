// Frame rates of time code.
ghost use Rattle.std.specs.Prelude.{◌≡◌, ◌≤◌, ◌*◌, ◌/◌, ◌%◌, IsTrue};
ghost use Rattle.sampletime.specs.FrameRate.{frames_per_second, is_rate};
ghost use Rattle.sampletime.specs.TimeCode.{frame_samples};

/// A time-code frame rate: 24, 25 or 30 frames per second. At 48,000 samples per second a frame has 2000, 1920 or 1600
/// samples.
#[derive(Clone, Copy, Debug, PartialEq, Eq)]
pub enum Rate {
    Frames24,
    Frames25,
    Frames30,
}

impl Rate {
    /// Returns the number of frames per second: 24, 25 or 30.
    pub fn frames_per_second(self) -> u8
        ensures frames { result ≡ frames_per_second self }
        ensures known { IsTrue (is_rate result) }
        ensures few { result ≤ 30 }
    {
        match self {
            Rate::Frames24 => 24,
            Rate::Frames25 => 25,
            Rate::Frames30 => 30,
        }
    }

    /// Returns the number of samples per frame: 2000, 1920 or 1600.
    pub fn samples_per_frame(self) -> u16
        ensures samples { result ≡ frame_samples (frames_per_second self) }
        ensures few { result ≤ 2000 }
    {
        match self {
            Rate::Frames24 => 2000,
            Rate::Frames25 => 1920,
            Rate::Frames30 => 1600,
        }
    }

    /// Returns the number of samples in `frames` frames.
    pub(crate) fn samples_of_frames(self, frames: u8) -> u64
        ensures samples { result ≡ frames * frame_samples (frames_per_second self) }
        ensures few { result ≤ 510000 }
    {
        let frames = u64::from(frames);
        match self {
            Rate::Frames24 => frames * 2000,
            Rate::Frames25 => frames * 1920,
            Rate::Frames30 => frames * 1600,
        }
    }

    /// Returns the number of the frame within its second that contains the given sample.
    pub(crate) fn frame_in_second(self, samples: u64) -> u8
        ensures frame { result ≡ samples / frame_samples (frames_per_second self) % frames_per_second self }
        ensures few { result ≤ 29 }
    {
        match self {
            Rate::Frames24 => (samples / 2000 % 24) as u8,
            Rate::Frames25 => (samples / 1920 % 25) as u8,
            Rate::Frames30 => (samples / 1600 % 30) as u8,
        }
    }

    /// Returns the number of samples after the last whole frame.
    pub(crate) fn remainder_of(self, samples: u64) -> u16
        ensures remainder { result ≡ samples % frame_samples (frames_per_second self) }
        ensures few { result ≤ 1999 }
    {
        match self {
            Rate::Frames24 => (samples % 2000) as u16,
            Rate::Frames25 => (samples % 1920) as u16,
            Rate::Frames30 => (samples % 1600) as u16,
        }
    }
}
