// Files with the calls that changed them.
ghost use Rattle.std.specs.Prelude.{◌≡◌, ℕ, None, List, [], IfOk, OnOk, OnErr, map};
ghost use Rattle.shelf.specs.Files.{files_of};
ghost use Rattle.shelf.specs.History.{History, crashed, history_by, note_of, noted, replayed};

use super::call::Call;
use super::files::NamedFiles;
use std::alloc::{AllocError, Global};
use std::collections::VecDeque;

/// Files with the calls that changed them.
#[derive(Drop)]
pub struct Record {
    pub alloc: Global,
    /// The files before the first call.
    pub start: NamedFiles,
    /// The files as they are read now.
    pub files: NamedFiles,
    /// The calls, newest first.
    pub calls: VecDeque<Call>,
    ghost same: { (name : List ℕ) → files_of files name ≡ replayed (files_of start) (map note_of calls.items) name },
}

impl Record {
    /// Creates a record without files and calls.
    pub fn new(alloc: Global) -> Self
        ensures empty { (name : List ℕ) → files_of result.start name ≡ None }
        ensures none { result.calls.items ≡ [] }
    {
        Record {
            alloc,
            start: NamedFiles::new(alloc),
            files: NamedFiles::new(alloc),
            calls: VecDeque::new(alloc),
        }
    }

    /// Performs a call and records it. Changes nothing if out of memory.
    pub fn note(&mut self, call: Call) -> Result<(), AllocError>
        ensures noted { OnOk result (history_by (files_of self.new.start) self.new.calls.items
            ≡ noted (note_of call) (history_by (files_of self.old.start) self.old.calls.items)) }
        ensures unchanged { OnErr result (history_by (files_of self.new.start) self.new.calls.items
            ≡ history_by (files_of self.old.start) self.old.calls.items) }
    {
        self.calls.reserve(1)?;
        self.files.apply(&call)?;
        self.calls.push_front_reserved(call);
        Ok(())
    }

    /// Returns the files that a crash leaves, with no calls.
    pub fn after_crash(self, kept: u64, fill: u8) -> Result<Self, AllocError>
        ensures left { IfOk result (λ after. (name : List ℕ) → files_of after.start name
            ≡ crashed kept fill (files_of self.start) (map note_of self.calls.items) name) }
        ensures none { IfOk result (λ after. after.calls.items ≡ []) }
    {
        let Record {
            alloc,
            start,
            mut calls,
            ..
        } = self;
        let mut read = start.copied()?;
        let mut left = start;
        while let Some(call) = calls.pop_back() {
            left.lose(&read, &call, kept, fill)?;
            read.apply(&call)?;
        }
        let files = left.copied()?;
        Ok(Record {
            alloc,
            start: left,
            files,
            calls: VecDeque::new(alloc),
        })
    }
}
