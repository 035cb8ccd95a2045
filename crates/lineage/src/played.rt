// The parts of files that entries play.
ghost use Rattle.std.specs.Prelude.{◌≡◌, IfOk, true};
ghost use Rattle.lineage.specs.Played as spec;

use mediaset::Runs;
use sound_terms::{Event, Run};
use sourceindex::Bound;
use std::alloc::{AllocError, Global};

/// The part of a file that an entry plays: from sample frame `frame` and channel `first` on, at times from `start`
/// up to `end` (exclusive), on channels `dest` to `last`. Channels count from 1; times are in samples after
/// midnight.
#[derive(Clone, Copy, Debug, PartialEq, Eq)]
pub struct Played {
    pub number: u32,
    pub file: u32,
    pub frame: u64,
    pub first: u8,
    pub start: u64,
    pub end: u64,
    pub dest: u8,
    pub last: u8,
}

/// Returns the part of a file that an event plays. `base` is the time of the file's first sample.
fn played_of(file: u32, base: u64, event: &Event) -> Played
    ensures { result ≡ spec.played_of file base event.now }
{
    Played {
        number: event.number,
        file,
        frame: event.source_in.get().saturating_sub(base),
        first: event.source.first,
        start: event.dest_in.get(),
        end: event.dest_out.get(),
        dest: event.dest.first,
        last: event.dest.last,
    }
}

impl Played {
    /// Returns whether both entries play the same sample of the same file at some time on some channel.
    pub fn plays_with(&self, other: &Played) -> bool
        ensures { result ≡ spec.play_together self.now other.now }
    {
        self.file == other.file
            && u128::from(self.frame) + u128::from(other.start)
                == u128::from(other.frame) + u128::from(self.start)
            && u16::from(self.first) + u16::from(other.dest)
                == u16::from(other.first) + u16::from(self.dest)
            && self.start.max(other.start) < self.end.min(other.end)
            && self.dest.max(other.dest) <= self.last.min(other.last)
    }
}

impl Played {
    /// Returns whether both entries play the same, apart from their numbers.
    pub fn plays_as(&self, other: &Played) -> bool
        ensures { result ≡ true → other.now ≡ spec.numbered other.now.number self.now }
    {
        self.file == other.file
            && self.frame == other.frame
            && self.first == other.first
            && self.start == other.start
            && self.end == other.end
            && self.dest == other.dest
            && self.last == other.last
    }
}

/// Returns the parts that the entries of a list play, in list order. Entries whose index isn't bound are skipped.
/// Returns `AllocError` if out of memory.
pub fn given_entries(
    alloc: Global,
    bound: &Bound,
    events: &[Event],
) -> Result<Vec<Played>, AllocError>
    ensures { IfOk result (λ given. given.items ≡ spec.given_entries bound.now.indexes events.now) }
{
    let mut given = Vec::with_capacity(alloc, events.len())?;
    for event in events {
        if let Some(index) = bound.index(event.index) {
            given.push(played_of(index.file, index.base, event))?;
        }
    }
    Ok(given)
}

fn file_of(runs: &[Run], index: u32) -> u32
    ensures { result ≡ spec.file_of runs.now index }
{
    match runs.get(index.saturating_sub(1) as usize) {
        Some(run) => run.file,
        None => 0,
    }
}

/// Returns the part of its original source that an entry of a consolidated list plays.
fn new_entry(runs: &Runs, event: &Event) -> Played
    ensures { result ≡ spec.new_entry runs.now.homes runs.now.runs event.now }
{
    let file = file_of(runs.as_slice(), event.index);
    played_of(file, runs.homes().base(file), event)
}

/// Returns the parts of the original sources that the entries of a consolidated list play. Returns `AllocError` if
/// out of memory.
pub fn new_entries(alloc: Global, runs: &Runs, events: &[Event]) -> Result<Vec<Played>, AllocError>
    ensures { IfOk result (λ entries. entries.items
        ≡ spec.new_entries runs.now.homes runs.now.runs events.now) }
{
    let mut entries = Vec::with_capacity(alloc, events.len())?;
    for event in events {
        entries.push(new_entry(runs, event))?;
    }
    Ok(entries)
}
