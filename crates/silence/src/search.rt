// Search for silence in opened sound files.
ghost use Rattle.std.specs.Prelude.{◌≡◌, slice_get, IfOk, IsTrue, MatchOption, None, Some};
ghost use Rattle.sound_terms.specs.Groups.{IsPiece};
ghost use Rattle.sound_terms.specs.Mix.{Reading};
ghost use Rattle.sound_terms.specs.Sounds.{reading_by};
ghost use Rattle.passes.specs.Silent.{IsDevice, is_silent_in};
ghost use Rattle.devices.specs.Frame.{OnlyReads};
ghost use Rattle.silence.specs.Fault.{FailsAt};
ghost use Rattle.silence.specs.Holding.{IsSearched};

use crate::known::{Known, looked_at};
use crate::part::Part;
use crate::progress::Looking;
use crate::window::Window;
use devices::{Shelf, Watch};
use groups::Piece;
use passes::PassFault;
use std::alloc::{AllocError, Global};
use std::marker::Model;
use wavread::Sound;

fn sound_of(sounds: &[Sound], file: u32) -> Option<&Sound>
    ensures { MatchOption result (slice_get sounds.now file ≡ None)
        (λ sound. slice_get sounds.now file ≡ Some sound.now) }
{
    sounds.get(file as usize)
}

/// The state of a search: the silence known of the last file, and a window of sample frames of the last file read.
/// Contracts see both.
#[derive(Drop)]
pub struct Search {
    known: Known,
    window: Window,
}

impl Model for Search {
    ghost use Rattle.silence.specs.Holding.{Searched};

    ghost Value = { Searched };

    ghost view = { λ search. record { known = search.known; held = search.window } };
}

impl Search {
    /// Creates a search with no known silence. Returns an error if out of memory.
    pub fn new(alloc: Global) -> Result<Self, AllocError>
        ensures { (reading : Reading) → IfOk result (IsSearched reading) }
    {
        Ok(Search {
            known: Known::NOTHING,
            window: Window::new(alloc)?,
        })
    }

    /// Returns true if all samples that a piece plays are zero. Returns `Device` if a read fails.
    pub fn is_silent<S: Shelf, W: Watch>(
        &mut self,
        piece: &Piece,
        sounds: &[Sound],
        shelf: &mut S,
        looking: &mut Looking<W>,
    ) -> Result<bool, PassFault>
        requires { IsPiece piece.now }
        ensures answer { IsTrue (S.honest shelf.old) → IsSearched (reading_by (S.stored shelf.old) sounds.now) self.old
            → IfOk result (λ silent. silent ≡ is_silent_in (reading_by (S.stored shelf.old) sounds.now) piece.now) }
        ensures searched { IsTrue (S.honest shelf.old) → IsSearched (reading_by (S.stored shelf.old) sounds.now) self.old
            → IsSearched (reading_by (S.stored shelf.old) sounds.now) self.new }
        ensures only_reads { OnlyReads S.Shelf shelf.old shelf.new result IsDevice (FailsAt sounds.now) }
    {
        let Some(sound) = sound_of(sounds, piece.file) else {
            return Ok(true);
        };
        let part = Part::inside(piece, sound);
        let known = self.known.up_to(piece.file, &part);
        match looked_at(known, &part, sound, shelf, &mut self.window, looking) {
            Ok(known) => {
                self.known = known;
                Ok(part.to <= known.part.to)
            }
            Err(_) => Err(PassFault::Device { file: piece.file }),
        }
    }
}
