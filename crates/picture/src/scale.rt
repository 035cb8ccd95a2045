// Horizontal scale of the picture.
use std::fmt;

/// Width of the picture, and left edge and width of the drawing area, in pixels.
pub const WIDTH: u64 = 1200;

pub const LEFT: u64 = 120;

pub const DRAWN: u64 = 1030;

/// A number of tenths, printed with a decimal point.
#[derive(Clone, Copy, Debug, PartialEq, Eq)]
pub struct Tenths(pub u64);

impl fmt::Display for Tenths {
    fn fmt<W: fmt::Write>(&self, f: &mut fmt::Formatter<W>) -> fmt::Result {
        let whole = self.0 / 10;
        let tenth = self.0 % 10;
        write!(f, "{whole}.{tenth}")
    }
}

/// A span of samples, scaled to the width of the drawing area.
#[derive(Clone, Copy, Debug, PartialEq, Eq)]
pub struct Scale {
    from: u64,
    length: u64,
}

impl Scale {
    /// Creates the scale of a span of samples.
    pub fn new(from: u64, to: u64) -> Scale {
        Scale {
            from,
            length: to.saturating_sub(from),
        }
    }

    /// Returns the width of `samples` samples, in tenths of a pixel.
    pub fn width(self, samples: u64) -> Tenths {
        let scaled = samples.min(self.length).saturating_mul(DRAWN * 10);
        Tenths(scaled.checked_div(self.length).unwrap_or(0))
    }

    /// Returns the horizontal position of a sample, in tenths of a pixel.
    pub fn position(self, sample: u64) -> Tenths {
        let Tenths(width) = self.width(sample.saturating_sub(self.from));
        Tenths(width.saturating_add(LEFT * 10))
    }
}
