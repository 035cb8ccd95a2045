// The gain of a shape, one sample frame at a time.
ghost use Rattle.std.specs.Prelude.{◌≡◌, ◌+◌, ◌-◌};
ghost use Rattle.sound_terms.specs.Groups.{IsRamp};
ghost use Rattle.blockmachine.specs.Slopes.{HasFrame, IsAt, fraction_at};

use sound_terms::Shape;
use soundlaw::{Fraction, Gain, Rise};

/// A shape from one of its samples on: the fraction that rises, and whether the gain is that
/// fraction or one minus it.
#[derive(Clone, Copy)]
pub struct Slope {
    falls: bool,
    rise: Rise,
}

impl Slope {
    /// Starts a shape at its first sample.
    pub fn of(shape: Shape) -> Self
        requires { IsRamp shape 1 }
        ensures { IsAt shape 0 result.falls result.rise.fraction.num result.rise.fraction.den result.rise.by }
    {
        match shape {
            Shape::Flat => Slope {
                falls: false,
                rise: Rise::of(Fraction { num: 1, den: 1 }, 0),
            },
            Shape::Rise { offset, den } => Slope {
                falls: false,
                rise: Rise::of(Fraction { num: offset, den }, 1),
            },
            Shape::Fall { offset, den } => Slope {
                falls: true,
                rise: Rise::of(Fraction { num: offset, den }, 1),
            },
        }
    }

    /// Returns the gain of the current sample and advances to the next.
    #[inline(always)]
    pub fn step(&mut self) -> Gain
        requires { HasFrame self.old.falls self.old.rise.fraction.num self.old.rise.fraction.den
            self.old.rise.by }
        ensures gain { (result.fraction.num, result.fraction.den)
            ≡ fraction_at self.old.falls self.old.rise.fraction.num self.old.rise.fraction.den }
        ensures falls { self.new.falls ≡ self.old.falls }
        ensures num { self.new.rise.fraction.num ≡ self.old.rise.fraction.num + self.old.rise.by }
        ensures den { self.new.rise.fraction.den ≡ self.old.rise.fraction.den }
        ensures by { self.new.rise.by ≡ self.old.rise.by }
    {
        let rise = self.rise;
        self.rise = rise.next();
        if self.falls {
            rise.gain_left()
        } else {
            rise.gain()
        }
    }
}
