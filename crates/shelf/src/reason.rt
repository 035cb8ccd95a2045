// The reasons of failures, as the system gave them.
use crate::{MemoryBench, MemoryShelf, ZeroShelf};
use std::alloc::{AllocError, Global};
use std::io;

/// The reason why a device failed.
#[derive(Clone, Copy)]
pub struct Reason {
    /// The system's error.
    pub error: io::Error,
    /// Whether the file existed by then: false if an output wasn't created.
    pub has_file: bool,
}

/// A store that can say why its device failed, which of its files were changed by others, and where it couldn't look. This
/// is for messages to the user: no clause mentions it.
pub trait Reasons {
    /// Returns the reason of the last failure, or `None` if there was none or it has no reason.
    fn reason(&self) -> Option<Reason> {
        None
    }

    /// Returns the name of the file at which the last failure occurred, or `None` if there was none or it is unknown for
    /// lack of memory.
    fn failed_file(&self) -> Option<&str> {
        None
    }

    /// Returns the names of the sources that were exchanged, changed or removed since they were first opened. Each of them
    /// is examined.
    fn changed(&self, alloc: Global) -> Result<Vec<&str>, AllocError> {
        Ok(Vec::new(alloc))
    }

    /// Returns which folders couldn't be searched for sources, and why, or `None` if there are none.
    fn unsearched(&self, _alloc: Global) -> Option<String> {
        None
    }
}

impl Reasons for MemoryShelf {}

impl Reasons for MemoryBench {}

impl Reasons for ZeroShelf {}
