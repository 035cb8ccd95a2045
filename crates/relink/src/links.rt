// The consolidated list of a project.
ghost use Rattle.std.specs.Prelude.{◌≡◌, ◌↔◌, ◌<◌, ◌≤◌, ◌+◌, ℕ, IfErr, IfOk, OnOk, IsTrue, length, true, None, IsErrOf};
ghost use Rattle.std.specs.List.{All};
ghost use Rattle.sound_terms.specs.Mix.{Reading, mix_at};
ghost use Rattle.sound_terms.specs.Groups.{are_whole, mix_of, pieces_of};
ghost use Rattle.sound_terms.specs.Entries.{placed_of};
ghost use Rattle.sound_terms.specs.Homes.{LiesAtHome, kept_of, place_by};
ghost use Rattle.sound_terms.specs.Kept.{AreRuns};
ghost use Rattle.sound_terms.specs.Media.{CopiesRuns};
ghost use Rattle.list_terms.specs.Accepted.{event_fault};
ghost use Rattle.list_terms.specs.Binding.{Binding, is_used};
ghost use Rattle.list_terms.specs.Renewed.{consolidated_project, run_indexes};
ghost use Rattle.relink.specs.Linked.{HaveChannels, IsLinkable};
ghost use Rattle.relink.specs.declared.fault.RelinkFault.TheVariants.{Memory, TooManyEntries};

use crate::RelinkFault;
use crate::entries::entries_of;
use crate::indexes::indexes_of;
use adlmodel::Project;
use groups::Intervals;
use mediaset::Runs;
use std::alloc::Global;

/// The maximum number of entries of a list.
pub(crate) const MOST_ENTRIES: usize = 32_767;

/// Returns the consolidated list, if it has few enough entries.
fn linked(
    alloc: Global,
    intervals: &Intervals,
    runs: &Runs,
    project: &Project,
) -> Result<Project, RelinkFault>
    requires whole { IsTrue (are_whole intervals.now) }
    requires few_groups { length (placed_of intervals.now) ≤ 32767 }
    requires linkable { All (IsLinkable runs.now.homes runs.now.runs) (placed_of intervals.now) }
    ensures renewed { IfOk result (λ renewed. renewed
        ≡ consolidated_project project.now runs.now.homes intervals.now runs.now.runs) }
    ensures memory { IfErr result (λ fault. fault ≡ Memory) }
{
    let groups = intervals.to_events()?;
    let events = entries_of(alloc, runs, groups.as_slice())?;
    let sources = indexes_of(alloc, runs)?;
    let renewed = project.with(sources, events)?;
    Ok(renewed)
}

/// Returns the consolidated list of a project. Like [`crate::relink`], but borrows runs that already have their
/// homes.
///
/// Returns `TooManyEntries` if there are more than 32,767 groups, and `Memory` if out of memory.
pub fn relink_homed(
    alloc: Global,
    intervals: &Intervals,
    runs: &Runs,
    project: &Project,
) -> Result<Project, RelinkFault>
    requires whole { IsTrue (are_whole intervals.now) }
    requires runs { (handle : ℕ)
        × AreRuns (kept_of intervals.now runs.now.homes handle) (place_by runs.now.homes) runs.now.runs }
    requires at_home { All (LiesAtHome runs.now.homes) (pieces_of intervals.now) }
    ensures renewed { IfOk result (λ renewed. renewed
        ≡ consolidated_project project.now runs.now.homes intervals.now runs.now.runs) }
    ensures too_many { IsErrOf result TooManyEntries ↔ (32767 < length intervals.now) }
    ensures few { OnOk result (length intervals.now ≤ 32767) }
    ensures all_used { (k : ℕ) → k < length runs.now.runs
        → is_used (consolidated_project project.now runs.now.homes intervals.now runs.now.runs).events (1 + k) ≡ true }
    ensures same_mix { (given copied : Reading) → CopiesRuns given runs.now.runs copied → (channel time : ℕ)
        → mix_at copied (run_indexes runs.now.homes runs.now.runs)
        (consolidated_project project.now runs.now.homes intervals.now runs.now.runs).events channel time
        ≡ mix_of given intervals.now channel time }
    ensures no_fault { (binding : Binding) → binding.indexes ≡ run_indexes runs.now.homes runs.now.runs
        → HaveChannels (pieces_of intervals.now) runs.now.runs binding.files
        → event_fault binding (consolidated_project project.now runs.now.homes intervals.now runs.now.runs).events
        ≡ None }
{
    // This call makes the invariant of the runs available.
    let _ = runs.as_slice();
    if intervals.groups().len() > MOST_ENTRIES {
        return Err(RelinkFault::TooManyEntries);
    }
    linked(alloc, intervals, runs, project)
}
