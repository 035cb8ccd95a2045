// Fractions that grow by a constant with each sample, computed without division.
ghost use Rattle.std.specs.Prelude.{◌≡◌, ◌+◌, ◌-◌, ◌*◌, ◌^◌, ◌<◌, ◌≤◌};

use crate::{Fraction, Gain};

/// A fraction that grows by `by` / `den` from sample to sample, with its 62-bit approximation (`parts`, remainder
/// `rest`) and the approximation of the growth (`step`, remainder `step_rest`). Only the start needs a division.
#[derive(Clone, Copy)]
pub struct Rise {
    pub fraction: Fraction,
    pub by: u64,
    parts: u64,
    rest: u64,
    step: u64,
    step_rest: u64,
    ghost are_parts: { parts * fraction.den + rest ≡ fraction.num * 2 ^ 62 },
    ghost rest_below: { rest < fraction.den },
    ghost most: { parts ≤ 2 ^ 62 },
    ghost are_step: { step * fraction.den + step_rest ≡ by * 2 ^ 62 },
    ghost step_below: { step_rest < fraction.den },
    ghost step_most: { step ≤ 2 ^ 62 },
}

impl Rise {
    /// Creates a fraction that grows by `by` / `den` with each sample.
    pub fn of(fraction: Fraction, by: u64) -> Self
        requires { by ≤ fraction.den }
        ensures fraction { result.fraction ≡ fraction }
        ensures by { result.by ≡ by }
    {
        let (parts, rest) = parts_of(fraction);
        let (step, step_rest) = parts_of(Fraction {
            num: by,
            den: fraction.den,
        });
        Rise {
            fraction,
            by,
            parts,
            rest,
            step,
            step_rest,
        }
    }

    /// Returns the fraction of the next sample.
    #[inline(always)]
    pub fn next(&self) -> Self
        requires { self.now.fraction.num + self.now.by ≤ self.now.fraction.den }
        ensures num { result.fraction.num ≡ self.now.fraction.num + self.now.by }
        ensures den { result.fraction.den ≡ self.now.fraction.den }
        ensures by { result.by ≡ self.now.by }
    {
        let fraction = Fraction {
            num: self.fraction.num + self.by,
            den: self.fraction.den,
        };
        let (parts, rest) = self.next_parts();
        Rise {
            fraction,
            by: self.by,
            parts,
            rest,
            step: self.step,
            step_rest: self.step_rest,
        }
    }

    /// Returns the approximation of the next sample and its remainder.
    #[inline(always)]
    fn next_parts(&self) -> (u64, u64)
        ensures parts { result.0 * self.now.fraction.den + result.1
            ≡ (self.now.fraction.num + self.now.by) * 2 ^ 62 }
        ensures below { result.1 < self.now.fraction.den }
    {
        let parts = self.parts + self.step;
        let rest = self.rest + self.step_rest;
        if rest < self.fraction.den {
            (parts, rest)
        } else {
            (parts + 1, rest - self.fraction.den)
        }
    }

    /// Returns the fraction as a gain.
    #[inline(always)]
    pub fn gain(&self) -> Gain
        ensures { result.fraction ≡ self.now.fraction }
    {
        Gain {
            fraction: self.fraction,
            parts: self.parts,
        }
    }

    /// Returns 1 minus the fraction as a gain.
    #[inline(always)]
    pub fn gain_left(&self) -> Gain
        requires { self.now.fraction.num < self.now.fraction.den }
        ensures num { result.fraction.num ≡ self.now.fraction.den - self.now.fraction.num }
        ensures den { result.fraction.den ≡ self.now.fraction.den }
    {
        let fraction = Fraction {
            num: self.fraction.den - self.fraction.num,
            den: self.fraction.den,
        };
        Gain {
            fraction,
            parts: (1 << 62) - 1 - self.parts,
        }
    }
}

/// Returns a fraction in units of 2^-62, rounded down, and the remainder.
fn parts_of(fraction: Fraction) -> (u64, u64)
    ensures parts { result.0 * fraction.den + result.1 ≡ fraction.num * 2 ^ 62 }
    ensures below { result.1 < fraction.den }
    ensures most { result.0 ≤ 2 ^ 62 }
{
    let whole = u128::from(fraction.num) << 62;
    let den = u128::from(fraction.den);
    ((whole / den) as u64, (whole % den) as u64)
}
