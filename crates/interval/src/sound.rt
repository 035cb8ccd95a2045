// The groups of a checked project.
ghost use Rattle.std.specs.Prelude.{◌≡◌, ◌≤◌, ℕ, ◌++◌, length, IfOk, IsTrue, None, OnOk, true};
ghost use Rattle.std.specs.List.{All, list_all};
ghost use Rattle.sound_terms.specs.Entries.{IsPlayable, groups_of_entries, parts_by, parts_of};
ghost use Rattle.sound_terms.specs.Groups.{IsBounded, are_whole, is_whole, mix_of, pieces_of, sum_of};
ghost use Rattle.sound_terms.specs.Mix.{Reading, contribution_at, index_of, mix_at};
ghost use Rattle.sound_terms.specs.Passes.{as_group};
ghost use Rattle.list_terms.specs.Accepted.{entry_fault};
ghost use Rattle.list_terms.specs.BoundHomes.{homes_of};
ghost use Rattle.list_terms.specs.Heard.{sounds_of};
ghost use Rattle.list_terms.specs.WholeProject.{is_event};
ghost use Rattle.interval.specs.AtHome.{IsAtHome};
ghost use Rattle.interval.specs.EntrySound.{AreFormed, SoundAs, SoundsAs};

use groups::{Group, IntervalFault, Intervals, group_of};
use projectcheck::Checked;
use sound_terms::{BoundIndex, Event};
use sourceindex::Bound;
use std::alloc::{AllocError, Global};

/// Adds the group of an entry, unless the entry is empty.
fn push_group(
    alloc: Global,
    groups: &mut Vec<Group>,
    index: &BoundIndex,
    event: &Event,
) -> Result<(), AllocError>
    requires { IsPlayable index.now event.now }
    ensures pushed { OnOk result (groups.new.items ≡ groups.old.items ++ as_group (parts_of index.now event.now)) }
    ensures formed { AreFormed groups.old.items → OnOk result (AreFormed groups.new.items) }
    ensures mix { (reading : Reading) (channel time : ℕ)
        → sum_of reading (parts_of index.now event.now) channel time
        ≡ contribution_at reading (Some index.now) event.now channel time }
    ensures whole { IsTrue (list_all is_whole (parts_of index.now event.now)) }
{
    if let Some(group) = group_of(alloc, index, event) {
        groups.push(group)?;
    }
    Ok(())
}

/// Adds the group of an entry without a fault, unless the entry is empty.
fn push_entry(
    alloc: Global,
    groups: &mut Vec<Group>,
    bound: &Bound,
    event: &Event,
) -> Result<(), AllocError>
    requires whole { is_event event.now ≡ true }
    requires faultless { entry_fault bound.now event.now ≡ None }
    ensures pushed { OnOk result (groups.new.items
        ≡ groups.old.items ++ as_group (parts_by (index_of bound.now.indexes event.now.index) event.now)) }
    ensures formed { AreFormed groups.old.items → OnOk result (AreFormed groups.new.items) }
    ensures sound { SoundsAs bound.now event.now (parts_by (index_of bound.now.indexes event.now.index) event.now) }
{
    let Some(index) = bound.index(event.index) else {
        return Ok(());
    };
    push_group(alloc, groups, &index, event)
}

/// Returns the groups of the entries, in list order.
fn groups_of(alloc: Global, checked: &Checked) -> Result<Vec<Group>, AllocError>
    ensures sound { IfOk result (λ groups. SoundAs checked.now.bound checked.now.project.events groups.items) }
    ensures formed { IfOk result (λ groups. AreFormed groups.items) }
    ensures few { IfOk result (λ groups. length checked.now.project.events ≤ 32767) }
{
    let mut groups = Vec::with_capacity(alloc, checked.project().events().len())?;
    let bound = checked.bound();
    for event in checked.project().events() {
        push_entry(alloc, &mut groups, bound, event)?;
    }
    Ok(groups)
}

/// Returns the entries as groups of pieces, ordered by start time and then by list order. The pieces of an entry
/// are its fade-in, its middle and its fade-out; empty entries have no group.
///
/// Returns `IntervalFault::Memory` if out of memory.
pub fn from_checked(alloc: Global, checked: &Checked) -> Result<Intervals, IntervalFault>
    ensures parts { IfOk result (λ intervals. intervals
        ≡ groups_of_entries checked.now.bound.indexes checked.now.project.events) }
    ensures same_mix { (reading : Reading) (channel time : ℕ) → IfOk result (λ intervals.
        mix_of reading intervals channel time
        ≡ mix_at reading checked.now.bound.indexes checked.now.project.events channel time) }
    ensures at_home { IfOk result (λ intervals.
        All (IsAtHome (sounds_of checked.now.bound) (homes_of checked.now.bound)) (pieces_of intervals)) }
    ensures bounded { IfOk result (λ intervals. IsBounded 32767 (pieces_of intervals)) }
    ensures whole { IfOk result (λ intervals. IsTrue (are_whole intervals)) }
{
    let groups = groups_of(alloc, checked)?;
    let intervals = Intervals::ordered(groups)?;
    Ok(intervals)
}
