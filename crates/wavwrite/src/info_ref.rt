// Properties of a file to write, with a borrowed CodingHistory.
ghost use Rattle.std.specs.Prelude.{◌≡◌, ◌≤◌, length, SomeIff};
ghost use Rattle.wavwrite.specs.Info.{info_of};

use crate::info::{HISTORY_LIMIT, MOST_CHANNELS};
use sound_terms::{Bext, Depth};
use std::marker::Model;

/// The properties of a sound file as in [`crate::SoundInfo`], with a borrowed CodingHistory. Creating it doesn't
/// allocate.
#[derive(Debug, Drop)]
pub struct SoundInfoRef<'a> {
    channels: u8,
    depth: Depth,
    frames: u64,
    bext: Bext,
    history: &'a [u8],
}

impl<'a> Model for SoundInfoRef<'a> {
    ghost use Rattle.sound_terms.specs.Waves as waves;
    ghost use Rattle.wavwrite.specs.Info.{info_of, IsWithin};

    ghost Value = { waves.SoundInfo };

    ghost view = { λ s. info_of s.channels s.depth s.frames s.bext s.history.now };

    ghost invariant = { λ s. IsWithin (info_of s.channels s.depth s.frames s.bext s.history.now) };
}

impl<'a> SoundInfoRef<'a> {
    ghost use Rattle.wavwrite.specs.Info.{IsWithin};

    /// Creates the properties of a file. Returns `None` if there are no channels or more than 64, or if the
    /// CodingHistory is longer than 65,536 bytes.
    pub fn new(
        channels: u8,
        depth: Depth,
        frames: u64,
        bext: Bext,
        history: &'a [u8],
    ) -> Option<Self>
        ensures { SomeIff result ((1 ≤ channels) × (channels ≤ 64) × (length history.now ≤ 65536))
            (info_of channels depth frames bext history.now) }
    {
        if channels == 0 || channels > MOST_CHANNELS || history.len() > HISTORY_LIMIT {
            return None;
        }
        Some(SoundInfoRef::over(channels, depth, frames, bext, history))
    }

    /// Creates the properties of a file with 1 to 64 channels and a CodingHistory of at most 65,536 bytes.
    pub fn over(channels: u8, depth: Depth, frames: u64, bext: Bext, history: &'a [u8]) -> Self
        requires channels { (1 ≤ channels) × (channels ≤ 64) }
        requires history { length history.now ≤ 65536 }
        ensures { result ≡ info_of channels depth frames bext history.now }
    {
        SoundInfoRef {
            channels,
            depth,
            frames,
            bext,
            history,
        }
    }

    /// Returns the number of channels, 1 to 64.
    pub fn channels(&self) -> u8
        ensures channels { result ≡ self.now.channels }
        ensures within { IsWithin self.now }
    {
        self.channels
    }

    /// Returns the number of bits per sample.
    pub fn depth(&self) -> Depth
        ensures { result ≡ self.now.depth }
    {
        self.depth
    }

    /// Returns the number of sample frames, each with one sample per channel.
    pub fn frames(&self) -> u64
        ensures { result ≡ self.now.frames }
    {
        self.frames
    }

    /// Returns the text fields and the time reference of the `bext` chunk.
    pub fn bext(&self) -> &Bext
        ensures text { result.now.text ≡ self.now.text }
        ensures time_reference { result.now.time_reference ≡ self.now.time_reference }
    {
        &self.bext
    }

    /// Returns the CodingHistory, at most 65,536 bytes (EBU Tech 3285, 2.3).
    pub fn history(&self) -> &'a [u8]
        ensures history { result.now ≡ self.now.history }
        ensures within { length result.now ≤ 65536 }
    {
        self.history
    }
}
