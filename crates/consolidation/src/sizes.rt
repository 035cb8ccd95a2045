// How many bytes a consolidation had, kept and wrote.
ghost use Rattle.std.specs.Prelude.{◌≡◌, ◌*◌, ◌+◌, ◌≤◌, All, List};
ghost use Rattle.std.specs.List.{sum_by};
ghost use Rattle.sound_terms.specs.declared.piece.Home as home;
ghost use Rattle.sound_terms.specs.Media.{IsRunOf, frame_length};
ghost use Rattle.consolidation.specs.Sizes as spec;
ghost use Rattle.consolidation.specs.Sizes.{in_64_bits, medium_bytes, run_bytes, sound_bytes};

use crate::Sizes;
use sound_terms::Run;
use wavread::Sound;

/// The bytes of the header of a medium, without its CodingHistory.
const HEADER: u64 = 690;

/// The bytes of so many frames of a sound.
fn bytes_of(sound: &Sound, frames: u64) -> u64
    requires { frames ≤ sound.now.frames }
    ensures { result ≡ frames * frame_length sound.now }
{
    let frame = u64::from(sound.channels()) * u64::from(sound.depth().bits() / 8);
    frames * frame
}

/// The bytes of the samples of all sounds.
fn source_bytes(sounds: &[Sound]) -> u64
    ensures { result ≡ in_64_bits (sum_by sound_bytes sounds.now) }
{
    let mut sum: u64 = 0;
    for sound in sounds {
        sum = sum.saturating_add(bytes_of(sound, sound.frames()));
    }
    sum
}

/// The bytes of the samples of a run.
fn bytes_of_run(sounds: &[Sound], run: &Run) -> u64
    requires { IsRunOf sounds.now run.now }
    ensures { result ≡ run_bytes sounds.now run.now }
{
    bytes_of(&sounds[run.file as usize], run.length)
}

/// Those of all runs.
fn kept_bytes(sounds: &[Sound], runs: &[Run]) -> u64
    requires { All (IsRunOf sounds.now) runs.now }
    ensures { result ≡ in_64_bits (sum_by (run_bytes sounds.now) runs.now) }
{
    let mut sum: u64 = 0;
    for run in runs {
        sum = sum.saturating_add(bytes_of_run(sounds, run));
    }
    sum
}

/// The bytes of the medium of a run: a header, a CodingHistory and samples, padded to even lengths.
fn bytes_of_medium(sounds: &[Sound], run: &Run) -> u64
    requires { IsRunOf sounds.now run.now }
    ensures { (homes : List home.Home) → result ≡ in_64_bits (medium_bytes sounds.now homes run.now) }
{
    let history = sounds[run.file as usize].history().len() as u64;
    let samples = bytes_of_run(sounds, run);
    (HEADER + history + history % 2)
        .saturating_add(samples)
        .saturating_add(samples % 2)
}

/// Those of all media.
fn media_bytes(sounds: &[Sound], runs: &[Run]) -> u64
    requires { All (IsRunOf sounds.now) runs.now }
    ensures { (homes : List home.Home) → result ≡ in_64_bits (sum_by (medium_bytes sounds.now homes) runs.now) }
{
    let mut sum: u64 = 0;
    for run in runs {
        sum = sum.saturating_add(bytes_of_medium(sounds, run));
    }
    sum
}

/// The sizes for runs of sounds, and a list of so many bytes.
pub fn sizes_of(sounds: &[Sound], runs: &[Run], list: usize) -> Sizes
    requires { All (IsRunOf sounds.now) runs.now }
    ensures { (homes : List home.Home) → result ≡ spec.sizes_of sounds.now homes runs.now list }
{
    Sizes {
        sources: source_bytes(sounds),
        kept: kept_bytes(sounds, runs),
        written: media_bytes(sounds, runs).saturating_add(list as u64),
    }
}
