// Known silence of a file.
ghost use Rattle.std.specs.Prelude.{◌≡◌, ◌*◌, ◌≤◌, is_some, length, slice_get, unwrap_or, List, IfOk, IsTrue, Some};
ghost use Rattle.sound_terms.specs.Mix.{Reading};
ghost use Rattle.sound_terms.specs.Sounds.{SoundFacts, reading_by};
ghost use Rattle.devices.specs.Fault.{IsThere};
ghost use Rattle.devices.specs.Frame.{OnlyReads};
ghost use Rattle.silence.specs.Holding.{Holds};
ghost use Rattle.silence.specs.Known.{IsSo, Reaches, Tells};
ghost use Rattle.silence.specs.Zero.{LiesIn};

use crate::part::Part;
use crate::progress::Looking;
use crate::window::Window;
use crate::zeros::first_sounding;
use devices::{Shelf, ShelfFault, Watch};
use wavread::Sound;

/// A part of a file that is known to be zero. `sounds` is true if the sample frame after it is known not to be.
#[derive(Clone, Copy)]
pub struct Known {
    pub file: u32,
    pub part: Part,
    pub sounds: bool,
}

impl Known {
    /// No known silence.
    pub const NOTHING: Known = Known {
        file: 0,
        part: Part {
            first: 1,
            width: 0,
            from: 0,
            to: 0,
        },
        sounds: false,
    };

    /// Returns true if the known part starts at or before this part of the file and extends at least to its start.
    fn reaches(&self, file: u32, part: &Part) -> bool
        ensures { IsTrue result → Reaches self.now file part.now }
    {
        let same_channels = self.part.first == part.first && self.part.width == part.width;
        let near = self.part.from <= part.from && part.from <= self.part.to;
        self.file == file && same_channels && near
    }

    /// Returns the known silence that reaches this part of a file: `self`, or an empty part at its start.
    #[tactic(auto, using(crate::proofs::Knowing::nothing_before))]
    pub fn up_to(self, file: u32, part: &Part) -> Known
        ensures reaches { part.now.from ≤ part.now.to → Reaches result file part.now }
        ensures so { (reading : Reading) → IsSo reading self → IsSo reading result }
    {
        if self.reaches(file, part) {
            return self;
        }
        Known {
            file,
            part: Part {
                to: part.from,
                ..*part
            },
            sounds: false,
        }
    }

    /// Extends the known silence up to `found`, the first sample frame that isn't zero, or else up to `to`.
    fn until(self, found: Option<u64>, to: u64) -> Known
        ensures { result ≡ record {
          file = self.file;
          part = record self.part { to = unwrap_or found to };
          sounds = is_some found;
        } }
    {
        Known {
            file: self.file,
            part: Part {
                to: found.unwrap_or(to),
                ..self.part
            },
            sounds: found.is_some(),
        }
    }
}

/// Extends the known silence to a part of a file. Reads only sample frames that aren't known yet, up to the first one
/// that isn't zero. Returns `Device` if a read fails.
pub fn looked_at<S: Shelf, W: Watch>(
    known: Known,
    part: &Part,
    sound: &Sound,
    shelf: &mut S,
    window: &mut Window,
    looking: &mut Looking<W>,
) -> Result<Known, ShelfFault>
    requires inside { LiesIn sound.now part.now }
    requires reaches { Reaches known known.file part.now }
    ensures so { IsTrue (S.honest shelf.old) → (sounds : List SoundFacts) → slice_get sounds known.file ≡ Some sound.now
        → IsSo (reading_by (S.stored shelf.old) sounds) known
        → Holds (reading_by (S.stored shelf.old) sounds window.old.file) window.old
        → IfOk result (IsSo (reading_by (S.stored shelf.old) sounds)) }
    ensures tells { IsTrue (S.honest shelf.old) → (sounds : List SoundFacts) → slice_get sounds known.file ≡ Some sound.now
        → Holds (reading_by (S.stored shelf.old) sounds window.old.file) window.old
        → IfOk result (λ new. Tells new known.file part.now) }
    ensures held { IsTrue (S.honest shelf.old) → (sounds : List SoundFacts) → slice_get sounds known.file ≡ Some sound.now
        → Holds (reading_by (S.stored shelf.old) sounds window.old.file) window.old
        → Holds (reading_by (S.stored shelf.old) sounds window.new.file) window.new }
    ensures not_missing { IsThere result }
    ensures only_reads { OnlyReads S.Shelf shelf.old shelf.new result (λ fault. fault ≡ ShelfFault.Device)
        (λ _ failed. failed sound.now.name) }
{
    if known.sounds || part.to <= known.part.to {
        return Ok(known);
    }
    let rest = Part {
        from: known.part.to,
        ..*part
    };
    let found = first_sounding(&rest, known.file, sound, shelf, window, looking)?;
    Ok(known.until(found, part.to))
}
