// The consolidated list of a checked project.
ghost use Rattle.std.specs.Prelude.{◌≡◌, ◌↔◌, ◌<◌, ◌≤◌, ◌+◌, ℕ, IfOk, OnOk, IsTrue, length, true, None, IsErrOf};
ghost use Rattle.std.specs.List.{All};
ghost use Rattle.sound_terms.specs.Mix.{Reading, mix_at};
ghost use Rattle.sound_terms.specs.Groups.{are_whole, mix_of, pieces_of};
ghost use Rattle.sound_terms.specs.Homes.{LiesAtHome, kept_of, place_by};
ghost use Rattle.sound_terms.specs.Kept.{AreRuns};
ghost use Rattle.sound_terms.specs.Media.{CopiesRuns};
ghost use Rattle.list_terms.specs.Accepted.{event_fault};
ghost use Rattle.list_terms.specs.Binding.{Binding, is_used};
ghost use Rattle.list_terms.specs.BoundHomes.{homes_of};
ghost use Rattle.list_terms.specs.Renewed.{consolidated_project, run_indexes};
ghost use Rattle.mediaset.specs.Runs.{AreIndexable, homed};
ghost use Rattle.relink.specs.Linked.{HaveChannels};
ghost use Rattle.relink.specs.declared.fault.RelinkFault.TheVariants.{TooManyEntries};

use crate::links::MOST_ENTRIES;
use crate::{RelinkFault, relink_homed};
use adlmodel::Project;
use groups::Intervals;
use mediaset::{Run, Runs};
use projectcheck::Checked;
use std::alloc::Global;

/// Returns the consolidated list with the header of a checked project: one index for each run, one entry for each
/// group. The runs must be those that [`mediaset::runs`] returns for these groups.
///
/// Returns `TooManyEntries` if there are more than 32,767 groups, and `Memory` if out of memory.
pub fn relink(
    alloc: Global,
    intervals: Intervals,
    runs: &[Run],
    checked: &Checked,
) -> Result<Project, RelinkFault>
    requires whole { IsTrue (are_whole intervals) }
    requires sound { AreIndexable (homed (homes_of checked.now.bound) runs.now) }
    requires runs { (handle : ℕ) × AreRuns (kept_of intervals (homes_of checked.now.bound) handle)
        (place_by (homes_of checked.now.bound)) runs.now }
    requires at_home { All (LiesAtHome (homes_of checked.now.bound)) (pieces_of intervals) }
    ensures renewed { IfOk result (λ renewed. renewed
        ≡ consolidated_project checked.now.project (homes_of checked.now.bound) intervals runs.now) }
    ensures too_many { IsErrOf result TooManyEntries ↔ (32767 < length intervals) }
    ensures few { OnOk result (length intervals ≤ 32767) }
    ensures all_used { OnOk result ((k : ℕ) → k < length runs.now → is_used (consolidated_project checked.now.project
        (homes_of checked.now.bound) intervals runs.now).events (1 + k) ≡ true) }
    ensures same_mix { OnOk result ((given copied : Reading) → CopiesRuns given runs.now copied → (channel time : ℕ)
        → mix_at copied (run_indexes (homes_of checked.now.bound) runs.now)
        (consolidated_project checked.now.project (homes_of checked.now.bound) intervals runs.now).events channel time
        ≡ mix_of given intervals channel time) }
    ensures no_fault { OnOk result ((binding : Binding)
        → binding.indexes ≡ run_indexes (homes_of checked.now.bound) runs.now
        → HaveChannels (pieces_of intervals) runs.now binding.files → event_fault binding (consolidated_project
        checked.now.project (homes_of checked.now.bound) intervals runs.now).events ≡ None) }
{
    // Checked before anything is allocated, so that this error takes precedence.
    if intervals.groups().len() > MOST_ENTRIES {
        return Err(RelinkFault::TooManyEntries);
    }
    let homes = checked.bound().homes(alloc)?;
    let kept = Runs::with(homes, runs.to_vec(alloc)?);
    relink_homed(alloc, &intervals, &kept, checked.project())
}
