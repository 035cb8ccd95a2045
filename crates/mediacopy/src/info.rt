// The headers of media.
ghost use Rattle.std.specs.Prelude.{◌≡◌, ◌+◌, ◌^◌, ◌<◌, ◌≤◌, ◌↔◌, ℕ, List, IsTrue, length, unwrap_or, option_map};
ghost use Rattle.sound_terms.specs.Media.{medium_info};
ghost use Rattle.sound_terms.specs.Waves.{data_place, header_of, zeros};
ghost use Rattle.wavwrite.specs.Info.{Fits};
ghost use Rattle.mediacopy.specs.Copied.{HasFrames, IsMedium};

use sound_terms::{Bext, Run};
use wavread::Sound;
use wavwrite::SoundInfoRef;

/// Returns the `bext` of a source, or zeros if it has none, with another TimeReference.
#[tactic(auto, unfolding(sound_terms::specs::Waves::zeros))]
fn bext_at(bext: &Option<Bext>, time_reference: u64) -> Bext
    ensures text { result.text ≡ unwrap_or (option_map (λ b. b.text) bext.now) (zeros 338) }
    ensures time { result.time_reference ≡ time_reference }
{
    match bext {
        Some(bext) => Bext {
            text: bext.text,
            time_reference,
        },
        None => Bext {
            text: [0; 338],
            time_reference,
        },
    }
}

/// Returns the header data of a run's medium: the channels, depth, `bext` texts and CodingHistory of its source,
/// and as TimeReference (EBU Tech 3285) the time of the run's first sample. `base` is the time of the source's
/// first sample, in samples after midnight.
pub fn info_of<'a>(sound: &'a Sound, base: u64, run: &Run) -> SoundInfoRef<'a>
    requires { base + run.now.first < 2 ^ 64 }
    ensures { result ≡ medium_info sound.now base run.now }
{
    let channels = sound.channels();
    let bext = bext_at(sound.bext(), base + run.first);
    SoundInfoRef::over(channels, sound.depth(), run.length, bext, sound.history())
}

/// States what reading a run's medium yields. Its length fits in 64 bits; if the source is complete, the medium can
/// be read back and has the samples of the run. Calling it does nothing.
pub fn reads_back(sound: &Sound, base: u64, run: &Run)
    requires in_day { base + run.now.first < 2 ^ 64 }
    requires short { run.now.length < 2 ^ 48 }
    ensures fits { Fits (medium_info sound.now base run.now) }
    ensures medium { run.now.first + run.now.length ≤ sound.now.frames
        → (source : List ℕ) → HasFrames sound.now source → IsMedium sound.now source base run.now }
    ensures head { length (header_of (medium_info sound.now base run.now))
        ≡ data_place (medium_info sound.now base run.now) }
{
    let info = info_of(sound, base, run);
    info.reads_back();
}
