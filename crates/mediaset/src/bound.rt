// Runs for a bound project.
ghost use Rattle.std.specs.Prelude.{◌≡◌, ◌<◌, ℕ, List, true, length, IfOk, IsErrOf};
ghost use Rattle.std.specs.List.{All};
ghost use Rattle.list_terms.specs.BoundHomes.{homes_of};
ghost use Rattle.sound_terms.specs.Groups.{pieces_of, reads};
ghost use Rattle.sound_terms.specs.Homes.{IsInRun, LiesAtHome, kept_of, place_by};
ghost use Rattle.sound_terms.specs.Kept.{AreRuns};
ghost use Rattle.sound_terms.specs.declared.piece.Run as run;
ghost use Rattle.mediaset.specs.Runs.{AreIndexable, homed};

use crate::{RunFault, Runs};
use groups::Intervals;
use sound_terms::Run;
use sourceindex::Bound;
use std::alloc::Global;

/// Returns the runs of sample frames that the groups play or that are at most `handle` away, as far as the home
/// index of their file can address them. Equal to [`Runs::kept`] with the homes of the bound project.
///
/// Returns `TooManyRuns` if there are more than 32,767 runs, and `Memory` if out of memory.
pub fn runs(
    alloc: Global,
    intervals: &Intervals,
    bound: &Bound,
    handle: u64,
) -> Result<Vec<Run>, RunFault>
    ensures sound { IfOk result (λ runs. AreIndexable (homed (homes_of bound.now) runs.items)) }
    ensures kept { IfOk result (λ runs. AreRuns (kept_of intervals.now (homes_of bound.now) handle)
        (place_by (homes_of bound.now)) runs.items) }
    ensures covers { IfOk result (λ runs. All (LiesAtHome (homes_of bound.now)) (pieces_of intervals.now)
        → (file channel frame : ℕ) → reads intervals.now file channel frame ≡ true
        → IsInRun runs.items file frame) }
    ensures one { IfOk result (λ kept. (runs : List run.Run)
        → AreRuns (kept_of intervals.now (homes_of bound.now) handle) (place_by (homes_of bound.now)) runs
        → runs ≡ kept.items) }
    ensures too_many { IsErrOf result RunFault.TooManyRuns → (runs : List run.Run)
        → AreRuns (kept_of intervals.now (homes_of bound.now) handle) (place_by (homes_of bound.now)) runs
        → 32767 < length runs }
{
    let homes = bound.homes(alloc)?;
    let kept = Runs::kept(alloc, intervals, homes, handle)?;
    Ok(kept.into_vec())
}
