// Pieces of files on the timeline, and the samples of the files that are kept.
ghost use Rattle.std.specs.Prelude.{◌≡◌};
ghost use Rattle.sound_terms.specs.Groups.{IsRamp};
ghost use Rattle.sound_terms.specs.Passes.{shape_behind};

/// The fade shape of a piece: its gain at each sample i. A fade that was cut keeps its full length `den` and starts at
/// `offset`.
#[derive(Clone, Copy, Debug, Default, PartialEq, Eq)]
pub enum Shape {
    /// Gain 1 for all samples.
    #[default]
    Flat,
    /// Gain (offset + i) / den.
    Rise { offset: u64, den: u64 },
    /// Gain (den - offset - i) / den.
    Fall { offset: u64, den: u64 },
}

impl Shape {
    /// Returns the shape of the rest of a piece after its first `count` samples.
    pub fn after(self, count: u64) -> Self
        requires { IsRamp self count }
        ensures { result ≡ shape_behind count self }
    {
        match self {
            Shape::Flat => Shape::Flat,
            Shape::Rise { offset, den } => Shape::Rise {
                offset: offset + count,
                den,
            },
            Shape::Fall { offset, den } => Shape::Fall {
                offset: offset + count,
                den,
            },
        }
    }
}

/// Part of a file on the timeline: `length` samples, from time `start` and sample frame `frame` of the file on. It
/// plays `width` channels, the file's channels from `first` on, on channels from `dest` on; both are counted from 1.
#[derive(Clone, Copy, Debug, Default, PartialEq, Eq)]
pub struct Piece {
    pub start: u64,
    pub length: u64,
    pub frame: u64,
    pub file: u32,
    pub first: u8,
    pub dest: u8,
    pub width: u8,
    pub shape: Shape,
}

/// One event for a whole group of pieces: the joined piece and the lengths of its fades.
#[derive(Clone, Copy, Debug, PartialEq, Eq)]
pub struct Placed {
    pub start: u64,
    pub length: u64,
    pub frame: u64,
    pub file: u32,
    pub first: u8,
    pub dest: u8,
    pub width: u8,
    pub rise: u64,
    pub fall: u64,
}

/// A range of sample frames of a file that is kept: `length` of them, starting at `first`.
#[derive(Clone, Copy, Debug, PartialEq, Eq)]
pub struct Run {
    pub file: u32,
    pub first: u64,
    pub length: u64,
}

/// The home index of a file, its bound index with the lowest base: that base, the number of addressable samples from
/// the first on, and its position among the bound indexes, counted from 0.
#[derive(Clone, Copy, Debug, PartialEq, Eq)]
pub struct Home {
    pub base: u64,
    pub addressable: u64,
    pub position: u32,
}
