// Properties of a file to write.
ghost use Rattle.std.specs.Prelude.{◌≡◌, ◌≤◌, length, SomeIff};
ghost use Rattle.wavwrite.specs.Info.{info_of};

use crate::SoundInfoRef;
use sound_terms::{Bext, Depth};
use std::marker::Model;

/// The maximum length of a CodingHistory that is copied (EBU Tech 3285, 2.3).
pub const HISTORY_LIMIT: usize = 65_536;

/// The maximum number of channels of a file.
pub const MOST_CHANNELS: u8 = 64;

/// The properties of a sound file without its samples: 1 to 64 channels, the bits per sample, the number of sample
/// frames, and the `bext` fields with a CodingHistory of at most 65,536 bytes (EBU Tech 3285, 2.3).
#[derive(Debug, Drop)]
pub struct SoundInfo {
    channels: u8,
    depth: Depth,
    frames: u64,
    bext: Bext,
    history: Vec<u8>,
}

impl Model for SoundInfo {
    ghost use Rattle.sound_terms.specs.Waves as waves;
    ghost use Rattle.wavwrite.specs.Info.{info_of, IsWithin};

    ghost Value = { waves.SoundInfo };

    ghost view = { λ s. info_of s.channels s.depth s.frames s.bext s.history.items };

    ghost invariant = { λ s. IsWithin (info_of s.channels s.depth s.frames s.bext s.history.items) };
}

impl SoundInfo {
    ghost use Rattle.wavwrite.specs.Info.{IsWithin};

    /// Creates the properties of a file. Returns `None` if there are no channels or more than 64, or if the
    /// CodingHistory is longer than 65,536 bytes.
    pub fn new(
        channels: u8,
        depth: Depth,
        frames: u64,
        bext: Bext,
        history: Vec<u8>,
    ) -> Option<Self>
        ensures { SomeIff result ((1 ≤ channels) × (channels ≤ 64) × (length history.items ≤ 65536))
            (info_of channels depth frames bext history.items) }
    {
        if channels == 0 || channels > MOST_CHANNELS || history.len() > HISTORY_LIMIT {
            return None;
        }
        Some(SoundInfo {
            channels,
            depth,
            frames,
            bext,
            history,
        })
    }

    /// Returns the same properties with a borrowed CodingHistory.
    pub fn lent(&self) -> SoundInfoRef<'_>
        ensures { result ≡ self.now }
    {
        SoundInfoRef::over(
            self.channels,
            self.depth,
            self.frames,
            self.bext,
            self.history.as_slice(),
        )
    }

    /// Returns the number of channels, 1 to 64.
    pub fn channels(&self) -> u8
        ensures channels { result ≡ self.now.channels }
        ensures within { IsWithin self.now }
    {
        self.channels
    }

    /// Returns the number of bits per sample.
    pub fn depth(&self) -> Depth
        ensures { result ≡ self.now.depth }
    {
        self.depth
    }

    /// Returns the number of sample frames, each with one sample per channel.
    pub fn frames(&self) -> u64
        ensures { result ≡ self.now.frames }
    {
        self.frames
    }

    /// Returns the text fields and the time reference of the `bext` chunk.
    pub fn bext(&self) -> &Bext
        ensures text { result.now.text ≡ self.now.text }
        ensures time_reference { result.now.time_reference ≡ self.now.time_reference }
    {
        &self.bext
    }

    /// Returns the CodingHistory, at most 65,536 bytes (EBU Tech 3285, 2.3).
    pub fn history(&self) -> &[u8]
        ensures history { result.now ≡ self.now.history }
        ensures within { length result.now ≤ 65536 }
    {
        self.history.as_slice()
    }
}
