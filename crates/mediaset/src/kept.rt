// Runs of kept sample frames.
ghost use Rattle.std.specs.Prelude.{◌≡◌, ◌<◌, ℕ, List, true, length, IfOk, IsErrOf};
ghost use Rattle.std.specs.List.{All};
ghost use Rattle.sound_terms.specs.Groups.{pieces_of, reads};
ghost use Rattle.sound_terms.specs.Homes.{AreHomes, IsInRun, LiesAtHome, kept_of, place_by};
ghost use Rattle.sound_terms.specs.Kept.{AreRuns};
ghost use Rattle.sound_terms.specs.declared.piece.Run as run;
ghost use Rattle.mediaset.specs.Runs.{AreIndexable, homed};

use crate::RunFault;
use crate::merged_spans::merge;
use crate::spans::spans_of;
use groups::Intervals;
use sound_terms::{Homes, Run};
use std::alloc::{AllocError, Global};
use std::marker::Model;

/// The maximum number of runs, which is the maximum number of indexes in a list.
const MOST_RUNS: usize = 32_767;

/// Runs of kept sample frames and the homes of their files, ordered by the home indexes of the files and then by
/// position. There are at most 32,767; no two of them touch, and each ends before the end of the day.
#[derive(Drop)]
pub struct Runs {
    homes: Homes,
    runs: Vec<Run>,
}

impl Model for Runs {
    ghost use Rattle.mediaset.specs.Runs.{AreIndexable, HomedRuns};

    ghost Value = { HomedRuns };

    ghost view = { λ kept. record { homes = kept.homes; runs = kept.runs.items } };

    ghost invariant = { λ kept. AreIndexable (record { homes = kept.homes; runs = kept.runs.items }) };
}

/// Returns all runs, without a limit on their number.
fn all_runs(
    alloc: Global,
    intervals: &Intervals,
    homes: &Homes,
    handle: u64,
) -> Result<Vec<Run>, AllocError>
    ensures kept { IfOk result (λ runs. AreRuns (kept_of intervals.now homes.now handle) (place_by
        homes.now) runs.items) }
    ensures homes { AreHomes homes.now }
{
    // This call makes the invariant of the homes available.
    let _ = homes.as_slice();
    let mut spans = spans_of(alloc, intervals, homes, handle)?;
    spans.sort_by_key(|span| span.key)?;
    let runs = merge(alloc, spans.as_slice())?;
    Ok(runs)
}

impl Runs {
    /// Returns the runs of sample frames that the groups play or that are at most `handle` away, as far as the home
    /// index of their file can address them.
    ///
    /// Returns `TooManyRuns` if there are more than 32,767 runs, and `Memory` if out of memory.
    pub fn kept(
        alloc: Global,
        intervals: &Intervals,
        homes: Homes,
        handle: u64,
    ) -> Result<Self, RunFault>
        ensures sound { IfOk result AreIndexable }
        ensures homes { IfOk result (λ kept. kept.homes ≡ homes) }
        ensures kept { IfOk result (λ kept. AreRuns (kept_of intervals.now homes handle) (place_by homes) kept.runs) }
        ensures covers { IfOk result (λ kept. All (LiesAtHome homes) (pieces_of intervals.now)
            → (file channel frame : ℕ) → reads intervals.now file channel frame ≡ true
            → IsInRun kept.runs file frame) }
        ensures one { IfOk result (λ kept. (runs : List run.Run)
            → AreRuns (kept_of intervals.now homes handle) (place_by homes) runs → runs ≡ kept.runs) }
        ensures too_many { IsErrOf result RunFault.TooManyRuns → (runs : List run.Run)
            → AreRuns (kept_of intervals.now homes handle) (place_by homes) runs → 32767 < length runs }
    {
        let runs = all_runs(alloc, intervals, &homes, handle)?;
        if runs.len() > MOST_RUNS {
            return Err(RunFault::TooManyRuns);
        }
        Ok(Runs { homes, runs })
    }

    /// Combines runs with the homes of their files.
    pub fn with(homes: Homes, runs: Vec<Run>) -> Self
        requires { AreIndexable (homed homes runs.items) }
        ensures { result ≡ homed homes runs.items }
    {
        Runs { homes, runs }
    }

    /// Returns the number of runs.
    pub fn len(&self) -> usize
        ensures { result ≡ length self.now.runs }
    {
        self.runs.len()
    }

    /// Returns the runs.
    pub fn as_slice(&self) -> &[Run]
        ensures lent { result.now ≡ self.now.runs }
        ensures sound { AreIndexable self.now }
    {
        self.runs.as_slice()
    }

    /// Returns the homes of the files.
    pub fn homes(&self) -> &Homes
        ensures { result.now ≡ self.now.homes }
    {
        &self.homes
    }

    /// Returns the runs as a vector, without copying.
    pub fn into_vec(self) -> Vec<Run>
        ensures runs { result.items ≡ self.runs }
        ensures sound { AreIndexable self }
    {
        self.runs
    }
}
