// Packed form of a group: its pieces in one record.
ghost use Rattle.std.specs.Prelude.{◌≡◌, ◌≢◌, ◌<◌, ◌-◌, ◌^◌, ◌++◌, ◌∷◌, ◌↔◌, [], IfSome, IsSome, IsTrue, MatchOption, Some, length, slice_get};
ghost use Rattle.std.specs.List.{All};
ghost use Rattle.sound_terms.specs.Entries.{event_of};
ghost use Rattle.sound_terms.specs.Groups.{IsGroup, IsPiece, start_of};
ghost use Rattle.sound_terms.specs.Passes.{is_followed_by, lengthened};
ghost use Rattle.groups.specs.Packed.{fall_in, flat_in, piece_in, pieces_in, rise_in};

use crate::{Piece, Placed, Shape};

/// A fade of a group, in samples: `length` samples from sample `offset` of a fade that had `den`
/// samples before it was cut. `length` is 0 if the group has no such fade.
#[derive(Clone, Copy, Debug)]
pub struct Ramp {
    pub length: u32,
    pub offset: u32,
    pub den: u32,
}

const NO_RAMP: Ramp = Ramp {
    length: 0,
    offset: 0,
    den: 0,
};

/// A fade-in, a flat part of `middle` samples and a fade-out, contiguous; an absent part has length
/// 0. The samples of a day fit in 32 bits.
#[derive(Clone, Copy, Debug)]
pub struct Packed {
    pub start: u32,
    pub frame: u32,
    pub file: u32,
    pub rise: Ramp,
    pub middle: u32,
    pub fall: Ramp,
    pub first: u8,
    pub dest: u8,
    pub width: u8,
}

impl Packed {
    /// Packs one piece.
    pub fn alone(piece: &Piece) -> Self
        requires { IsPiece piece.now }
        ensures { pieces_in result ≡ piece.now ∷ [] }
    {
        let length = piece.length as u32;
        let bare = Packed {
            start: piece.start as u32,
            frame: piece.frame as u32,
            file: piece.file,
            rise: NO_RAMP,
            middle: 0,
            fall: NO_RAMP,
            first: piece.first,
            dest: piece.dest,
            width: piece.width,
        };
        match piece.shape {
            Shape::Flat => Packed {
                middle: length,
                ..bare
            },
            Shape::Rise { offset, den } => Packed {
                rise: Ramp {
                    length,
                    offset: offset as u32,
                    den: den as u32,
                },
                ..bare
            },
            Shape::Fall { offset, den } => Packed {
                fall: Ramp {
                    length,
                    offset: offset as u32,
                    den: den as u32,
                },
                ..bare
            },
        }
    }

    /// Returns these pieces followed by those of a group that continues them.
    pub fn followed_by(self, later: &Packed) -> Self
        requires { IsTrue (is_followed_by (pieces_in self) (pieces_in later.now)) }
        ensures { pieces_in result ≡ pieces_in self ++ pieces_in later.now }
    {
        Packed {
            middle: self.middle + later.middle,
            fall: later.fall,
            ..self
        }
    }

    /// Packs the pieces of a group, or returns `None` if there are none.
    pub fn of(pieces: &[Piece]) -> Option<Self>
        requires group { pieces.now ≢ [] → IsGroup pieces.now }
        requires sound { All IsPiece pieces.now }
        ensures pieces { MatchOption result (pieces.now ≡ []) (λ packed. pieces_in packed ≡ pieces.now) }
        ensures formed { IfSome result (λ packed. IsGroup (pieces_in packed) × All IsPiece (pieces_in packed)) }
    {
        match pieces {
            [] => None,
            [only] => Some(Packed::alone(only)),
            [first, second] => Some(Packed::alone(first).followed_by(&Packed::alone(second))),
            [first, second, third, ..] => Some(
                Packed::alone(first)
                    .followed_by(&Packed::alone(second))
                    .followed_by(&Packed::alone(third)),
            ),
        }
    }

    /// Returns whether there are no pieces.
    pub fn is_empty(&self) -> bool
        ensures { IsTrue result ↔ (pieces_in self.now ≡ []) }
    {
        self.rise.length == 0 && self.middle == 0 && self.fall.length == 0
    }

    /// Returns the number of pieces.
    pub fn len(&self) -> usize
        ensures { result ≡ length (pieces_in self.now) }
    {
        usize::from(self.rise.length > 0)
            + usize::from(self.middle > 0)
            + usize::from(self.fall.length > 0)
    }

    /// Returns the group with its only piece, a flat one, extended by the flat piece that continues
    /// it.
    pub fn lengthened(self, later: &Piece) -> Self
        requires joins { IsSome (lengthened later.now (pieces_in self)) }
        requires sound { IsPiece later.now }
        ensures { lengthened later.now (pieces_in self) ≡ Some (pieces_in result) }
    {
        Packed {
            middle: self.middle + later.length as u32,
            ..self
        }
    }

    /// Returns the piece of `length` samples and the given shape that starts at sample `at` of the
    /// group.
    #[inline(always)]
    fn part(&self, at: u64, length: u32, shape: Shape) -> Piece
        requires { at < 2 ^ 63 }
        ensures { result ≡ piece_in self.now at length shape }
    {
        Piece {
            start: u64::from(self.start) + at,
            length: u64::from(length),
            frame: u64::from(self.frame) + at,
            file: self.file,
            first: self.first,
            dest: self.dest,
            width: self.width,
            shape,
        }
    }

    /// Returns the fade-in, which may be empty.
    #[inline(always)]
    pub fn rising(&self) -> Piece
        ensures { result ≡ rise_in self.now }
    {
        let shape = Shape::Rise {
            offset: u64::from(self.rise.offset),
            den: u64::from(self.rise.den),
        };
        self.part(0, self.rise.length, shape)
    }

    /// Returns the flat part, which may be empty.
    #[inline(always)]
    pub fn flat(&self) -> Piece
        ensures { result ≡ flat_in self.now }
    {
        self.part(u64::from(self.rise.length), self.middle, Shape::Flat)
    }

    /// Returns the fade-out, which may be empty.
    #[inline(always)]
    pub fn falling(&self) -> Piece
        ensures { result ≡ fall_in self.now }
    {
        let shape = Shape::Fall {
            offset: u64::from(self.fall.offset),
            den: u64::from(self.fall.den),
        };
        let at = u64::from(self.rise.length) + u64::from(self.middle);
        self.part(at, self.fall.length, shape)
    }

    /// Returns the first piece.
    pub fn first(&self) -> Piece
        requires { pieces_in self.now ≢ [] }
        ensures { slice_get (pieces_in self.now) 0 ≡ Some result }
    {
        if self.rise.length > 0 {
            self.rising()
        } else if self.middle > 0 {
            self.flat()
        } else {
            self.falling()
        }
    }

    /// Returns the last piece.
    pub fn last(&self) -> Piece
        requires { pieces_in self.now ≢ [] }
        ensures { slice_get (pieces_in self.now) (length (pieces_in self.now) - 1) ≡ Some result }
    {
        if self.fall.length > 0 {
            self.falling()
        } else if self.middle > 0 {
            self.flat()
        } else {
            self.rising()
        }
    }

    /// Returns the event that the group describes.
    pub fn placed(&self) -> Placed
        requires { pieces_in self.now ≢ [] }
        ensures { event_of (pieces_in self.now) ≡ result ∷ [] }
    {
        let rise = u64::from(self.rise.length);
        let fall = u64::from(self.fall.length);
        Placed {
            start: u64::from(self.start),
            length: rise + u64::from(self.middle) + fall,
            frame: u64::from(self.frame),
            file: self.file,
            first: self.first,
            dest: self.dest,
            width: self.width,
            rise,
            fall,
        }
    }

    /// Returns the start time in samples.
    pub fn start(&self) -> u64
        requires { IsGroup (pieces_in self.now) }
        ensures { result ≡ start_of (pieces_in self.now) }
    {
        u64::from(self.start)
    }
}
