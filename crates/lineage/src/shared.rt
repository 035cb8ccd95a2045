// Groups of given entries that new entries share.
ghost use Rattle.std.specs.Prelude.{◌≡◌, ◌≤◌, ◌<◌, ◌+◌, ◌^◌, ◌++◌, ◌∷◌, [], ℕ, IfOk, IfSome, List, OnOk, map, option_copied};
ghost use Rattle.indexmap.specs.IndexSet.{insert_key};
ghost use Rattle.lineage.specs.Groups.{EndsWith, IsAgain, IsGrouped, group_of, grouped_in, is_same, number_of, position_in, seen, shown, shown_in};
ghost use Rattle.lineage.specs.declared.played.Played as played;

use crate::Played;
use crate::lines::Lined;
use indexmap::IndexSet;
use std::alloc::{AllocError, AllocFailed, Global};

/// The maximum number of entry numbers stored in a group.
const MOST_NAMED: usize = 1000;

/// The given entries that a new one plays together with: the first 1,000 numbers, and the number of further ones.
#[derive(Debug, Drop, PartialEq, Eq, Hash)]
pub struct Group {
    pub given: Vec<u32>,
    pub more: usize,
}

/// A new entry's number, and the position of its group, from 0.
#[derive(Clone, Copy, Debug, PartialEq, Eq)]
pub struct GroupedEntry {
    pub number: u32,
    pub group: usize,
}

/// Distinct groups, and the entries that refer to them.
#[derive(Drop)]
pub struct Grouped {
    pub groups: IndexSet<Group>,
    pub entries: Vec<GroupedEntry>,
}

impl Group {
    /// Adds a given entry, by its number or as a further one.
    fn add(&mut self, number: u32) -> Result<(), AllocFailed<u32>>
        requires { self.old.more + 1 < 2 ^ 64 }
        ensures added { (numbers : List ℕ) → seen self.old ≡ shown numbers
            → OnOk result (seen self.new ≡ shown (numbers ++ number ∷ [])) }
        ensures few { OnOk result (self.new.more ≤ self.old.more + 1) }
    {
        if self.given.len() < MOST_NAMED {
            self.given.push(number)?;
            return Ok(());
        }
        self.more += 1;
        Ok(())
    }

    /// Adds a given entry if it plays together with `entry`.
    fn add_playing(&mut self, entry: &Played, other: &Played) -> Result<(), AllocFailed<u32>>
        requires { self.old.more + 1 < 2 ^ 64 }
        ensures added { (numbers : List ℕ) → seen self.old ≡ shown numbers
            → OnOk result (seen self.new ≡ shown (numbers ++ number_of entry.now other.now)) }
        ensures few { OnOk result (self.new.more ≤ self.old.more + 1) }
    {
        if !entry.plays_with(other) {
            return Ok(());
        }
        self.add(other.number)?;
        Ok(())
    }
}

/// Returns the group of the entries that play together with `entry`.
fn group_among(alloc: Global, entries: &[Played], entry: &Played) -> Result<Group, AllocError>
    ensures { IfOk result (λ group. seen group ≡ group_of entries.now entry.now) }
{
    let mut group = Group {
        given: Vec::new(alloc),
        more: 0,
    };
    for other in entries {
        group.add_playing(entry, other)?;
    }
    Ok(group)
}

/// Returns the group of the given entries that play together with `entry`.
fn group_with(alloc: Global, given: &Lined, entry: &Played) -> Result<Group, AllocError>
    ensures { IfOk result (λ group. seen group ≡ group_of given.now entry.now) }
{
    group_among(alloc, given.beside(entry), entry)
}

impl Grouped {
    /// Returns the position of the last entry's group if that entry plays the same as the next one.
    fn group_again(&self, before: Option<&Played>, entry: &Played) -> Option<usize>
        ensures { (given : List played.Played) → EndsWith given (option_copied before.entry) self.now
            → IfSome result (λ position. IsAgain given self.now entry.now position) }
    {
        if !before?.plays_as(entry) {
            return None;
        }
        Some(self.entries.last()?.group)
    }
}

/// Adds a group unless it exists, and returns its position.
fn put_group(groups: &mut IndexSet<Group>, group: Group) -> Result<usize, AllocFailed<Group>>
    ensures groups { OnOk result
        (map seen groups.new.keys ≡ insert_key is_same (map seen groups.old.keys) (seen group)) }
    ensures position { IfOk result (λ position. position ≡ position_in (map seen groups.new.keys) (seen group)) }
{
    let (position, _) = groups.insert_full(group)?;
    Ok(position)
}

/// Adds an entry and its group. Reuses the group of the entry before if both play the same.
fn put_entry(
    alloc: Global,
    given: &Lined,
    before: Option<&Played>,
    entry: &Played,
    grouped: &mut Grouped,
) -> Result<(), AllocError>
    requires { EndsWith given.now (option_copied before) grouped.old }
    ensures groups { OnOk result
        (shown_in grouped.new ≡ insert_key is_same (shown_in grouped.old) (group_of given.now entry.now)) }
    ensures entries { OnOk result (grouped.new.entries.items ≡ grouped.old.entries.items
        ++ grouped_in (shown_in grouped.new) given.now entry.now ∷ []) }
{
    let number = entry.number;
    if let Some(group) = grouped.group_again(before, entry) {
        grouped.entries.push(GroupedEntry { number, group })?;
        return Ok(());
    }
    let group = group_with(alloc, given, entry)?;
    let group = put_group(&mut grouped.groups, group)?;
    grouped.entries.push(GroupedEntry { number, group })?;
    Ok(())
}

/// Returns the distinct groups of given entries that play together with each new entry, in order of first
/// occurrence, and the group of each new entry. Returns `AllocError` if out of memory.
pub fn group_entries(
    alloc: Global,
    given: &[Played],
    entries: &[Played],
) -> Result<Grouped, AllocError>
    ensures { IfOk result (IsGrouped given.now entries.now) }
{
    let lined = Lined::of(alloc, given)?;
    let mut grouped = Grouped {
        groups: IndexSet::new(alloc),
        entries: Vec::with_capacity(alloc, entries.len())?,
    };
    let mut before = None;
    for entry in entries {
        put_entry(alloc, &lined, before, entry, &mut grouped)?;
        before = Some(entry);
    }
    Ok(grouped)
}
