// The files that a command was given and must not change, and the check of an output against them.
ghost use Rattle.std.specs.Prelude.{◌≡◌, false, IfOk};
ghost use Rattle.shelf.specs.Given.{is_given};

use super::identity::Identity;
use std::alloc::{AllocError, Global};
use std::collections::BTreeSet;
use std::fs::OpenFile;
use std::io;
use std::io::{Error, ErrorKind};
use std::os::unix::fs::MetadataExt;

/// The list and the sources of a command: files that must not be written to, by identity.
#[derive(Drop)]
pub struct GivenFiles {
    known: BTreeSet<Identity>,
    /// Set if the list came from an input that can't be identified, so that any existing file may be the list.
    has_unknown: bool,
}

/// An output that is open for writing, and what its open handle said about it.
#[derive(Drop)]
pub struct OwnFile<F: Drop> {
    pub file: F,
    pub identity: Identity,
    pub links: u64,
    pub length: u64,
}

impl GivenFiles {
    /// Creates an empty table.
    pub fn new(alloc: Global) -> Self {
        GivenFiles {
            known: BTreeSet::new(alloc),
            has_unknown: false,
        }
    }

    /// Adds a file.
    pub fn add(&mut self, file: Identity) -> Result<(), AllocError> {
        self.known.insert(file)?;
        Ok(())
    }

    /// Records that one of the given files can't be identified.
    pub fn add_unknown(&mut self) {
        self.has_unknown = true;
    }

    /// Returns whether an existing file may be a given one although it isn't in the table.
    pub fn has_unknown(&self) -> bool {
        self.has_unknown
    }

    /// Takes a file that was opened for writing as an output. Returns an error if its open handle says that it is a
    /// given file, has another name, or is no plain file. Nothing is written to it before.
    pub fn own<F: OpenFile + Drop>(&self, file: F) -> io::Result<OwnFile<F>>
        ensures not_given { IfOk result (λ own. is_given self.now own.identity ≡ false) }
        ensures one_name { IfOk result (λ own. own.links ≡ 1) }
    {
        let found = file.metadata()?;
        let own = OwnFile {
            file,
            identity: Identity::of(&found),
            links: found.nlink(),
            length: found.len(),
        };
        if !found.is_file() {
            return Err(Error::from(ErrorKind::InvalidInput));
        }
        if self.known.contains(&own.identity) {
            return Err(is_given());
        }
        if own.links != 1 {
            return Err(has_other_names());
        }
        Ok(own)
    }
}

/// Returns the failure at an output that is the list or a source.
fn is_given() -> Error {
    Error::new(ErrorKind::InvalidData, "it is the list or a source")
}

/// Returns the failure at an output that is linked from elsewhere.
fn has_other_names() -> Error {
    Error::new(
        ErrorKind::InvalidData,
        "it has another name: it is linked from elsewhere",
    )
}

/// Returns the failure at a file that isn't the one that was found under its name before.
pub fn was_exchanged() -> Error {
    Error::new(ErrorKind::InvalidData, "it was changed meanwhile")
}

/// Returns the failure at a folder whose path leads to another folder now.
pub fn folder_was_exchanged() -> Error {
    Error::new(
        ErrorKind::InvalidData,
        "the path of the output folder leads to another folder now",
    )
}
