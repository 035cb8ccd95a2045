// Window of sample frames read from a file.
ghost use Rattle.std.specs.Prelude.{◌≡◌, ◌+◌, ◌-◌, ◌*◌, ◌<◌, ◌≤◌, ℕ, ℤ, length, option_map, IfOk, IfSome, IsTrue, OnErr, OnOk};
ghost use Rattle.devices.specs.Fault.{IsThere};
ghost use Rattle.devices.specs.Frame.{OnlyReads};
ghost use Rattle.silence.specs.Holding.{AreOf, HasFrame, HasPart, Holds};
ghost use Rattle.silence.specs.Zero.{IsFirstSounding, IsZeroAt, sound_by};

use crate::part::Part;
use crate::zeros::first_in_frames;
use devices::{Shelf, ShelfFault};
use std::alloc::{AllocError, Global};
use std::marker::Model;
use wavread::Sound;

/// The maximum number of samples per read, over all channels of a file.
const SAMPLES: usize = 4096;

/// The number of bytes of a full window at 32 bits.
const BYTES: usize = 4 * SAMPLES;

/// The minimum number of samples per read, if the file has them: one read then serves many short pieces close together.
const AHEAD: usize = 1024;

/// A buffer of 4,096 samples that holds consecutive sample frames of a file. Contracts see these sample frames.
#[derive(Drop)]
pub struct Window {
    file: u32,
    channels: usize,
    from: u64,
    count: usize,
    bytes: Vec<u8>,
    samples: Vec<i32>,
}

impl Model for Window {
    ghost use Rattle.std.specs.Prelude.{◌≡◌, ◌+◌, ◌*◌, ◌^◌, ◌<◌, ◌≤◌, length};
    ghost use Rattle.silence.specs.Holding.{Held};

    ghost Value = { Held };

    ghost view = { λ window. record {
      file = window.file;
      channels = window.channels;
      from = window.from;
      count = window.count;
      samples = window.samples.items;
    } };

    ghost invariant = { λ window. (length window.bytes.items ≡ 16384) × (length window.samples.items ≡ 4096)
        × (1 ≤ window.channels) × (window.count * window.channels ≤ 4096) × (window.from + window.count < 2 ^ 64) };
}

/// Reads `count` sample frames from `from` on to the start of `samples`, whose contents are unspecified after an `Err`.
fn read_frames<S: Shelf>(
    sound: &Sound,
    from: u64,
    count: usize,
    shelf: &mut S,
    bytes: &mut [u8],
    samples: &mut [i32],
) -> Result<(), ShelfFault>
    requires inside { from + count ≤ sound.now.frames }
    requires few { count * sound.now.channels ≤ length samples.old }
    requires room { length samples.old * 4 ≤ length bytes.old }
    ensures so { IsTrue (S.honest shelf.old) → OnOk result
        (AreOf (sound_by (S.stored shelf.old) sound.now) sound.now.channels from count samples.new) }
    ensures not_missing { IsThere result }
    ensures only_reads { OnlyReads S.Shelf shelf.old shelf.new result (λ fault. fault ≡ ShelfFault.Device)
        (λ _ failed. failed sound.now.name) }
{
    let frames = &mut samples[..count * usize::from(sound.channels())];
    sound.read_frames(shelf, from, count, bytes, frames)?;
    Ok(())
}

impl Window {
    /// Creates an empty window. Returns an error if out of memory.
    pub fn new(alloc: Global) -> Result<Self, AllocError>
        ensures { IfOk result (λ window. window.count ≡ 0) }
    {
        let mut bytes = Vec::new(alloc);
        bytes.resize(BYTES, 0)?;
        let mut samples = Vec::new(alloc);
        samples.resize(SAMPLES, 0)?;
        Ok(Window {
            file: 0,
            channels: 1,
            from: 0,
            count: 0,
            bytes,
            samples,
        })
    }

    /// Returns true if the window holds this sample frame of a file with the given number of channels.
    fn has(&self, file: u32, channels: usize, frame: u64) -> bool
        ensures { IsTrue result → HasFrame self.now file channels frame }
    {
        let same = self.file == file && self.channels == channels;
        same && self.from <= frame && frame - self.from < self.count as u64
    }

    /// Returns the number of the sample frame after the last one in the window.
    pub fn end(&self) -> u64
        ensures { result ≡ self.now.from + self.now.count }
    {
        self.from + self.count as u64
    }

    /// Reads sample frames of file number `file` from `from` on: those before `to`, as far as there is room, and some
    /// more if these are few. The window is empty after an `Err`.
    fn fill<S: Shelf>(
        &mut self,
        file: u32,
        sound: &Sound,
        from: u64,
        to: u64,
        shelf: &mut S,
    ) -> Result<(), ShelfFault>
        requires some { from < to }
        requires inside { to ≤ sound.now.frames }
        ensures so { IsTrue (S.honest shelf.old) → OnOk result (Holds (sound_by (S.stored shelf.old) sound.now) self.new) }
        ensures there { OnOk result (HasFrame self.new file sound.now.channels from) }
        ensures lost { OnErr result (self.new.count ≡ 0) }
        ensures not_missing { IsThere result }
        ensures only_reads { OnlyReads S.Shelf shelf.old shelf.new result (λ fault. fault ≡ ShelfFault.Device)
            (λ _ failed. failed sound.now.name) }
    {
        let channels = usize::from(sound.channels());
        let least = (AHEAD / channels) as u64;
        let most = (SAMPLES / channels) as u64;
        let count = (to - from).max(least).min(most).min(sound.frames() - from) as usize;
        self.count = 0;
        let bytes = self.bytes.as_mut_slice();
        let samples = self.samples.as_mut_slice();
        read_frames(sound, from, count, shelf, bytes, samples)?;
        self.file = file;
        self.channels = channels;
        self.from = from;
        self.count = count;
        Ok(())
    }

    /// Ensures that the window contains sample frame `from` of file number `file`. If it doesn't yet, reads the sample
    /// frames before `to`, as far as there is room. The window is empty after an `Err`.
    pub fn reach<S: Shelf>(
        &mut self,
        file: u32,
        sound: &Sound,
        from: u64,
        to: u64,
        shelf: &mut S,
    ) -> Result<(), ShelfFault>
        requires some { from < to }
        requires inside { to ≤ sound.now.frames }
        ensures so { IsTrue (S.honest shelf.old)
            → (self.old.file ≡ file → Holds (sound_by (S.stored shelf.old) sound.now) self.old)
            → OnOk result (Holds (sound_by (S.stored shelf.old) sound.now) self.new) }
        ensures there { OnOk result (HasFrame self.new file sound.now.channels from) }
        ensures lost { OnErr result (self.new.count ≡ 0) }
        ensures not_missing { IsThere result }
        ensures only_reads { OnlyReads S.Shelf shelf.old shelf.new result (λ fault. fault ≡ ShelfFault.Device)
            (λ _ failed. failed sound.now.name) }
    {
        if self.has(file, usize::from(sound.channels()), from) {
            return Ok(());
        }
        self.fill(file, sound, from, to, shelf)
    }

    /// Returns the offset of the first sample frame of a part that isn't zero. The window must hold the whole part.
    pub fn first_in(&self, part: &Part) -> Option<usize>
        requires { HasPart self.now part.now }
        ensures found { (sound : ℕ → ℕ → ℤ) → Holds sound self.now
            → IsFirstSounding (IsZeroAt sound part.now.first part.now.width) part.now.from part.now.to
            (option_map (λ i. part.now.from + i) result) }
        ensures within { IfSome result (λ i. i < part.now.to - part.now.from) }
    {
        let from = (part.from - self.from) as usize;
        let to = (part.to - self.from) as usize;
        let frames = &self.samples[from * self.channels..to * self.channels];
        let (first, width) = (usize::from(part.first), usize::from(part.width));
        first_in_frames(frames, self.channels, first, width)
    }
}
