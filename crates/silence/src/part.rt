// Parts of sound files.
ghost use Rattle.std.specs.Prelude.{◌↔◌};
ghost use Rattle.sound_terms.specs.Groups.{IsPiece};
ghost use Rattle.work_terms.specs.Disk.{Files};
ghost use Rattle.silence.specs.Zero.{IsZero, LiesIn, part_of, sound_by};

use groups::Piece;
use wavread::Sound;

/// A part of a sound file: `width` channels from `first` on (counted from 1), and the sample frames from `from` up to
/// but not including `to`.
#[derive(Clone, Copy)]
pub struct Part {
    pub first: u8,
    pub width: u8,
    pub from: u64,
    pub to: u64,
}

impl Part {
    /// Returns the part of a piece that is inside its file. The rest of the piece is zero.
    pub fn inside(piece: &Piece, sound: &Sound) -> Part
        requires { IsPiece piece.now }
        ensures lies { LiesIn sound.now result }
        ensures rest { (files : Files) → IsZero (sound_by files sound.now) result
            ↔ IsZero (sound_by files sound.now) (part_of piece.now) }
    {
        let behind_channels = sound.channels() + 1;
        let first = piece.first.min(behind_channels);
        Part {
            first,
            width: (piece.first + piece.width).min(behind_channels) - first,
            from: piece.frame.min(sound.frames()),
            to: (piece.frame + piece.length).min(sound.frames()),
        }
    }
}
