// Search for the first sample frame that isn't zero.
ghost use Rattle.std.specs.Prelude.{◌≡◌, ◌+◌, ◌/◌, ◌<◌, ◌≤◌, length, IfOk, IsTrue, OnErr, OnOk};
ghost use Rattle.devices.specs.Fault.{IsThere};
ghost use Rattle.devices.specs.Frame.{OnlyReads};
ghost use Rattle.silence.specs.Holding.{Holds};
ghost use Rattle.silence.specs.Zero.{IsFirstSounding, IsFrameZero, IsZeroAt, LiesIn, sound_by};

use crate::part::Part;
use crate::progress::Looking;
use crate::window::Window;
use devices::{Shelf, ShelfFault, Watch};
use pcm::all_zero;
use wavread::Sound;

/// Returns the first of the interleaved sample frames in which `width` channels from `first` on (counted from 1) aren't
/// all zero.
pub fn first_in_frames(frames: &[i32], channels: usize, first: usize, width: usize) -> Option<usize>
    requires some { 1 ≤ channels }
    requires first { 1 ≤ first }
    requires last { first + width ≤ channels + 1 }
    ensures { IsFirstSounding (IsFrameZero frames.now channels first width) 0 (length frames.now / channels) result }
{
    for i in 0..frames.len() / channels {
        let at = i * channels + (first - 1);
        if !all_zero(&frames[at..at + width]) {
            return Some(i);
        }
    }
    None
}

/// Returns the first sample frame of a part of a file that isn't zero.
///
/// Each sample frame is read once, for all its channels, unless the window already holds it. At most one window is read
/// past the sample frame found. The window is empty after an `Err`.
pub fn first_sounding<S: Shelf, W: Watch>(
    part: &Part,
    file: u32,
    sound: &Sound,
    shelf: &mut S,
    window: &mut Window,
    looking: &mut Looking<W>,
) -> Result<Option<u64>, ShelfFault>
    requires lies { LiesIn sound.now part.now }
    requires some { part.now.from < part.now.to }
    ensures found { IsTrue (S.honest shelf.old)
        → (window.old.file ≡ file → Holds (sound_by (S.stored shelf.old) sound.now) window.old)
        → IfOk result (IsFirstSounding (IsZeroAt (sound_by (S.stored shelf.old) sound.now) part.now.first part.now.width)
        part.now.from part.now.to) }
    ensures held { IsTrue (S.honest shelf.old)
        → (window.old.file ≡ file → Holds (sound_by (S.stored shelf.old) sound.now) window.old)
        → OnOk result (Holds (sound_by (S.stored shelf.old) sound.now) window.new) }
    ensures same_file { OnOk result (window.new.file ≡ file) }
    ensures lost { OnErr result (window.new.count ≡ 0) }
    ensures not_missing { IsThere result }
    ensures only_reads { OnlyReads S.Shelf shelf.old shelf.new result (λ fault. fault ≡ ShelfFault.Device)
        (λ _ failed. failed sound.now.name) }
{
    let mut at = part.from;
    while at < part.to {
        window.reach(file, sound, at, part.to, shelf)?;
        let block = Part {
            from: at,
            to: part.to.min(window.end()),
            ..*part
        };
        if let Some(i) = window.first_in(&block) {
            return Ok(Some(at + i as u64));
        }
        at = block.to;
        looking.at(at - part.from);
    }
    Ok(None)
}
