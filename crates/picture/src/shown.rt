// The entries to draw, and their faults.
use adlmodel::Project;
use projectcheck::fault_of;
use sound_terms::{BoundIndex, Event};
use sourceindex::Bound;
use std::collections::BTreeMap;

/// A project, its binding if all files are valid, and the refusal numbers of the indexes with
/// faulty files.
#[derive(Clone, Copy)]
pub struct Shown<'a> {
    pub project: &'a Project,
    pub bound: Option<&'a Bound>,
    pub bad_files: Option<&'a BTreeMap<u32, u8>>,
}

/// Number of samples that an entry plays before the start and after the end of its file.
#[derive(Clone, Copy)]
pub struct Missing {
    pub before: u64,
    pub after: u64,
}

impl Missing {
    /// Returns whether any sample is missing.
    pub fn is_some(self) -> bool {
        self.before > 0 || self.after > 0
    }
}

impl<'a> Shown<'a> {
    /// Returns the refusal number of an entry or of its file, or `None` if both are valid.
    pub fn refusal_of(self, event: &Event) -> Option<u8> {
        let of_file = self
            .bad_files
            .and_then(|files| files.get(&event.index).copied());
        if of_file.is_some() {
            return of_file;
        }
        match fault_of(self.bound?, event) {
            Some(fault) => Some(fault.number()),
            None => None,
        }
    }

    /// Returns the samples of an entry that its file lacks: all of them if the file is faulty.
    pub fn missing(self, event: &Event) -> Missing {
        let length = event.dest_out.get().saturating_sub(event.dest_in.get());
        let is_bad = match self.bad_files {
            Some(files) => files.contains_key(&event.index),
            None => false,
        };
        if is_bad {
            return Missing {
                before: length,
                after: 0,
            };
        }
        match self.bound.and_then(|bound| bound.index(event.index)) {
            Some(index) => missing_in(index, event.source_in.get(), length),
            None => Missing {
                before: 0,
                after: 0,
            },
        }
    }

    /// Returns the number of entries that are faulty or have a faulty file.
    pub fn refused(self) -> u64 {
        let mut count: u64 = 0;
        for event in self.project.events() {
            if self.refusal_of(event).is_some() {
                count = count.saturating_add(1);
            }
        }
        count
    }
}

/// Returns the samples before the first and after the last of an index, among `length` samples from
/// `from` on.
fn missing_in(index: BoundIndex, from: u64, length: u64) -> Missing {
    let before = index.base.saturating_sub(from).min(length);
    let first = from.saturating_sub(index.base);
    let end = first.saturating_add(length.saturating_sub(before));
    let after = end
        .saturating_sub(index.addressable)
        .min(length.saturating_sub(before));
    Missing { before, after }
}
