// Gains of fades as fractions.
ghost use Rattle.std.specs.Prelude.{◌<◌, ◌≤◌};
ghost use Rattle.sampletime.specs.TimeCode.{day};

/// A fraction `num` / `den` of at most 1. `den` is at most the number of samples in a day.
#[derive(Clone, Copy)]
pub struct Fraction {
    pub num: u64,
    pub den: u64,
    ghost at_most_one: { num ≤ den },
    ghost some: { 0 < den },
    ghost in_day: { den ≤ day },
}
