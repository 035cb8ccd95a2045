// Opened sound files.
ghost use Rattle.std.specs.Prelude.{◌≡◌, ◌≤◌, ◌<◌, ◌+◌, ◌-◌, ◌*◌, ◌/◌, ◌^◌, ℕ, List, Some, pos, get_or, length, option_map, string_bytes, IsTrue, IsSome, OnOk};
ghost use Rattle.std.specs.List.{All};
ghost use Rattle.sound_terms.specs.Depth.{bits_of};
ghost use Rattle.work_terms.specs.Disk.{IsRange};
ghost use Rattle.devices.specs.Fault.{IsThere};
ghost use Rattle.devices.specs.Frame.{OnlyReads};
ghost use Rattle.sound_terms.specs.Media.{frame_length};
ghost use Rattle.sound_terms.specs.Waves.{sample_at};
ghost use Rattle.wavread.specs.Facts.{facts_told, AreFrames};
ghost use Rattle.pcm.specs.Samples.{FitsDepth};

use crate::told::Told;
use devices::{Shelf, ShelfFault};
use pcm::unpack;
use riff::{Format, Span};
use sound_terms::{Bext, Depth};
use std::marker::Model;

/// The maximum number of samples per read, over all channels; at least 16 sample frames.
const BLOCK: usize = 1024;

/// The number of bytes of a block at 32 bits.
const BLOCK_BYTES: usize = 4 * BLOCK;

/// An opened sound file: its name, format, number of sample frames and `bext` fields. It has 1 to 64 channels and keeps
/// at most 65,536 bytes of CodingHistory.
#[derive(Drop)]
pub struct Sound {
    name: String,
    channels: u8,
    depth: Depth,
    frames: u64,
    offset: u64,
    bext: Option<Bext>,
    history: Vec<u8>,
    short_bext: bool,
    history_cut: bool,
    others: bool,
}

impl Model for Sound {
    ghost use Rattle.std.specs.Prelude.{string_bytes};
    ghost use Rattle.sound_terms.specs.Sounds.{SoundFacts};
    ghost use Rattle.wavread.specs.Facts.{facts_told, IsSound};

    ghost Value = { SoundFacts };

    ghost view = { λ s. facts_told (string_bytes s.name)
        s.channels s.depth s.frames s.offset s.bext s.history.items s.short_bext s.history_cut s.others };

    ghost invariant = { λ s. IsSound (facts_told (string_bytes s.name)
        s.channels s.depth s.frames s.offset s.bext s.history.items s.short_bext s.history_cut s.others) };
}

impl Sound {
    ghost use Rattle.wavread.specs.Facts.{IsSound};

    /// Creates the sound of a file from its parts. `sound` is the range of its `data` chunk.
    pub fn of(name: String, format: Format, sound: Span, texts: Told, others: bool) -> Self
        requires channels { (1 ≤ format.channels) × (format.channels ≤ 64) }
        requires ends { sound.at + sound.length < 2 ^ 64 }
        ensures { result ≡ facts_told (string_bytes name) format.channels format.depth
            (sound.length / (format.channels * (bits_of format.depth / 8)))
            sound.at texts.bext texts.history.items texts.short texts.cut others }
    {
        let frame = u64::from(format.channels) * u64::from(format.depth.bits() / 8);
        Sound {
            name,
            channels: format.channels,
            depth: format.depth,
            frames: sound.length / frame,
            offset: sound.at,
            bext: texts.bext,
            history: texts.history,
            short_bext: texts.short,
            history_cut: texts.cut,
            others,
        }
    }

    /// Returns the name of the file.
    pub fn name(&self) -> &str
        ensures { result.now ≡ self.now.name }
    {
        self.name.as_str()
    }

    /// Returns the name of the file and drops the rest.
    pub fn into_name(self) -> String
        ensures { string_bytes result ≡ self.name }
    {
        self.name
    }

    /// Returns the number of channels, 1 to 64.
    pub fn channels(&self) -> u8
        ensures channels { result ≡ self.now.channels }
        ensures within { IsSound self.now }
    {
        self.channels
    }

    /// Returns the number of bits per sample.
    pub fn depth(&self) -> Depth
        ensures { result ≡ self.now.depth }
    {
        self.depth
    }

    /// Returns the number of sample frames, each with one sample per channel.
    pub fn frames(&self) -> u64
        ensures { result ≡ self.now.frames }
    {
        self.frames
    }

    /// Returns the text fields and the time reference of the `bext` chunk, or `None` if the file has none or it is too
    /// short.
    pub fn bext(&self) -> &Option<Bext>
        ensures text { option_map (λ b. b.text) result.now ≡ self.now.text }
        ensures time_reference { option_map (λ b. b.time_reference) result.now ≡ self.now.time_reference }
    {
        &self.bext
    }

    /// Returns the CodingHistory, at most 65,536 bytes (EBU Tech 3285, 2.3).
    pub fn history(&self) -> &[u8]
        ensures history { result.now ≡ self.now.history }
        ensures within { length result.now ≤ 65536 }
    {
        self.history.as_slice()
    }

    /// Returns true if the `bext` chunk is too short for its fields.
    pub fn short_bext(&self) -> bool
        ensures { result ≡ self.now.short_bext }
    {
        self.short_bext
    }

    /// Returns true if the CodingHistory was longer than 65,536 bytes and has been truncated.
    pub fn history_cut(&self) -> bool
        ensures { result ≡ self.now.history_cut }
    {
        self.history_cut
    }

    /// Returns true if the file has chunks that aren't copied.
    pub fn others(&self) -> bool
        ensures { result ≡ self.now.others }
    {
        self.others
    }

    /// Returns the number of bytes per sample frame: 2 to 256.
    fn frame_length(&self) -> u64
        ensures { result ≡ frame_length self.now }
    {
        u64::from(self.channels) * u64::from(self.depth.bits() / 8)
    }

    /// Reads whole sample frames as bytes, interleaved as in the file, starting at sample frame `from` and filling
    /// `bytes`. Returns `Device` if the read fails; the contents of `bytes` are then unspecified.
    pub fn read_bytes<S: Shelf>(
        &self,
        shelf: &mut S,
        from: u64,
        bytes: &mut [u8],
    ) -> Result<(), ShelfFault>
        requires whole { (frames : ℕ) × (length bytes.old ≡ frames * frame_length self.now)
            × (from + frames ≤ self.now.frames) }
        ensures bytes { IsTrue (S.honest shelf.old)
            → OnOk result (IsRange (S.stored shelf.old self.now.name) (self.now.offset + from * frame_length self.now)
            bytes.new) }
        ensures not_missing { IsThere result }
        ensures only_reads { OnlyReads S.Shelf shelf.old shelf.new result (λ fault. fault ≡ ShelfFault.Device)
            (λ _ failed. failed self.now.name) }
    {
        let offset = self.offset + from * self.frame_length();
        shelf.read_at(self.name.as_str(), offset, bytes)
    }

    /// Reads samples of one channel, counted from 1, starting at sample frame `from` and filling `samples`. Returns
    /// `Device` if a read fails; the contents of `samples` are then unspecified.
    pub fn read<S: Shelf>(
        &self,
        shelf: &mut S,
        channel: u8,
        from: u64,
        samples: &mut [i32],
    ) -> Result<(), ShelfFault>
        requires channel { (1 ≤ channel) × (channel ≤ self.now.channels) }
        requires inside { from + length samples.old ≤ self.now.frames }
        ensures samples { IsTrue (S.honest shelf.old) → (file : List ℕ) → S.stored shelf.old self.now.name ≡ Some file
            → OnOk result ((i : ℕ) → i < length samples.new → get_or samples.new i (pos 0)
            ≡ sample_at file self.now.offset self.now.channels (bits_of self.now.depth) (from + i) channel) }
        ensures not_missing { IsThere result }
        ensures only_reads { OnlyReads S.Shelf shelf.old shelf.new result (λ fault. fault ≡ ShelfFault.Device)
            (λ _ failed. failed self.now.name) }
    {
        let channels = usize::from(self.channels());
        let most = BLOCK / channels;
        let mut block = [0i32; BLOCK];
        let mut buffer = [0u8; BLOCK_BYTES];
        let mut done = 0;
        while done < samples.len() {
            let count = most.min(samples.len() - done);
            let frames = &mut block[..count * channels];
            self.read_frames(shelf, from + done as u64, count, &mut buffer, frames)?;
            pick(
                frames,
                channels,
                usize::from(channel),
                &mut samples[done..done + count],
            );
            done += count;
        }
        Ok(())
    }

    /// Reads `count` interleaved sample frames into `frames`, starting at sample frame `from`. `buffer` must have room
    /// for their bytes. Returns `Device` if the read fails; the contents of `frames` are then unspecified.
    pub fn read_frames<S: Shelf>(
        &self,
        shelf: &mut S,
        from: u64,
        count: usize,
        buffer: &mut [u8],
        frames: &mut [i32],
    ) -> Result<(), ShelfFault>
        requires whole { length frames.old ≡ count * self.now.channels }
        requires room { length frames.old * (bits_of self.now.depth / 8) ≤ length buffer.old }
        requires inside { from + count ≤ self.now.frames }
        ensures frames { IsTrue (S.honest shelf.old) → (file : List ℕ) → S.stored shelf.old self.now.name ≡ Some file
            → OnOk result (AreFrames file (self.now.offset + from * frame_length self.now) (bits_of self.now.depth)
            frames.new) }
        ensures there { IsTrue (S.honest shelf.old) → OnOk result (IsSome (S.stored shelf.old self.now.name)) }
        ensures fit { OnOk result (All (FitsDepth (bits_of self.now.depth)) frames.new) }
        ensures not_missing { IsThere result }
        ensures only_reads { OnlyReads S.Shelf shelf.old shelf.new result (λ fault. fault ≡ ShelfFault.Device)
            (λ _ failed. failed self.now.name) }
    {
        let depth = self.depth();
        let bytes = &mut buffer[..frames.len() * usize::from(depth.bits() / 8)];
        self.read_bytes(shelf, from, bytes)?;
        unpack(depth, bytes, frames);
        Ok(())
    }
}

/// Extracts one channel, counted from 1, from interleaved sample frames.
fn pick(frames: &[i32], channels: usize, channel: usize, samples: &mut [i32])
    requires whole { length frames.now ≡ length samples.old * channels }
    requires channel { (1 ≤ channel) × (channel ≤ channels) }
    requires few { length frames.now ≤ 1024 }
    ensures { (i : ℕ) → i < length samples.new
        → get_or samples.new i (pos 0) ≡ get_or frames.now (i * channels + (channel - 1)) (pos 0) }
{
    for (i, sample) in samples.iter_mut().enumerate() {
        *sample = frames[i * channels + (channel - 1)];
    }
}
