// Upper bound of the samples that a consolidation keeps of each file.
use sound_terms::{BoundIndex, Event, Homes};
use sourceindex::Bound;
use std::alloc::{AllocError, Global};

/// A range of samples of a file to keep, from `first` up to `end` (exclusive), and the number of entries that play it.
#[derive(Clone, Copy)]
pub struct Kept {
    pub file: u32,
    pub entries: u64,
    first: u64,
    end: u64,
}

impl Kept {
    /// Returns the samples that an entry plays and those at most `handle` samples away, as far as they are addressable.
    /// Returns `None` if there are none.
    fn of(index: BoundIndex, event: &Event, homes: &Homes, handle: u64) -> Option<Self> {
        let played = event.dest_out.get().saturating_sub(event.dest_in.get());
        let from = event.source_in.get().saturating_sub(index.base);
        let first = from.saturating_sub(handle);
        let end = from
            .saturating_add(played)
            .saturating_add(handle)
            .min(homes.get(index.file)?.addressable);
        if played == 0 || first >= end {
            return None;
        }
        Some(Kept {
            file: index.file,
            entries: 1,
            first,
            end,
        })
    }

    /// Returns the length of the range in samples.
    pub fn frames(&self) -> u64 {
        self.end.saturating_sub(self.first)
    }

    /// Returns whether `others` starts inside this range or at its end.
    fn goes_on(&self, others: &Kept) -> bool {
        self.file == others.file && self.first <= others.first && others.first <= self.end
    }
}

/// Extends the last range by the next one if they touch; otherwise appends it.
fn join(kept: &mut Vec<Kept>, next: Kept) -> Result<(), AllocError> {
    if let Some(last) = kept.last_mut() {
        if last.goes_on(&next) {
            last.end = last.end.max(next.end);
            last.entries = last.entries.saturating_add(next.entries);
            return Ok(());
        }
    }
    kept.push(next)?;
    Ok(())
}

/// The samples to keep for the entries of a list. `is_whole` is false if some are missing for lack of memory.
#[derive(Drop)]
pub struct KeptFrames<'a> {
    bound: &'a Bound,
    homes: Option<Homes>,
    handle: u64,
    kept: Vec<Kept>,
    is_whole: bool,
}

impl<'a> KeptFrames<'a> {
    /// Creates an empty set of kept samples, for the given handle in samples.
    pub fn new(alloc: Global, bound: &'a Bound, handle: u64) -> Self {
        KeptFrames {
            bound,
            homes: bound.homes(alloc).ok(),
            handle,
            kept: Vec::new(alloc),
            is_whole: true,
        }
    }

    /// Adds the samples of an entry.
    pub fn take_in(&mut self, event: &Event) {
        self.is_whole = self.is_whole && self.keep(event).is_some();
    }

    fn keep(&mut self, event: &Event) -> Option<()> {
        let index = self.bound.index(event.index)?;
        let homes = self.homes.as_ref()?;
        if let Some(kept) = Kept::of(index, event, homes, self.handle) {
            join(&mut self.kept, kept).ok()?;
        }
        Some(())
    }

    /// Returns the ranges ordered by file and position, joined so that no two touch. Returns `None` if out of memory.
    pub fn joined(&mut self, alloc: Global) -> Option<Vec<Kept>> {
        if !self.is_whole {
            return None;
        }
        self.kept.sort_by_key(|kept| (kept.file, kept.first)).ok()?;
        let mut joined = Vec::new(alloc);
        for next in self.kept.as_slice() {
            join(&mut joined, *next).ok()?;
        }
        Some(joined)
    }
}
