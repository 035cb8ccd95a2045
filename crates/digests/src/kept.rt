// Runs of open files that become media.
ghost use Rattle.std.specs.Prelude.{◌+◌, ◌≤◌};
ghost use Rattle.sampletime.specs.TimeCode.{day};

use sound_terms::Run;
use wavread::Sound;

/// A run of sample frames of an open file; the file's first sample is at time `base`.
#[derive(Clone, Copy)]
pub struct Kept<'a> {
    pub sound: &'a Sound,
    pub base: u64,
    pub run: Run,
    ghost inside: { run.first + run.length ≤ sound.now.frames },
    ghost in_day: { (base + run.first) + run.length ≤ day },
}
