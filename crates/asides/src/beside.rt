// Additional information printed on standard error with a refusal.
use findings::Near;
use shelf::{MemoryShelf, Shelf};
use std::alloc::Global;

/// The source of additional information on a refusal.
pub trait Asides: Drop {
    /// The sources, opened again for a second look.
    type Sources: Shelf + Drop;

    /// Returns the maximum number of further faults to print.
    fn most(&self) -> usize;

    /// Returns where a missing source of this name may be.
    fn near(&self, alloc: Global, name: &str) -> Option<Near>;

    /// Returns why the media folder can't be listed, if it can't.
    fn media_error(&self, alloc: Global) -> Option<String>;

    /// Opens the sources again. Returns `None` if out of memory.
    fn sources(&self, alloc: Global) -> Option<Self::Sources>;
}

/// Number of further faults printed unless all are requested.
pub const FEW_FAULTS: usize = 20;

/// Maximum number of further faults printed if all are requested.
pub const MOST_FAULTS: usize = 10_000;

/// The additional information for two lists.
#[derive(Drop)]
pub struct AsidesOfTwo<A: Asides, B: Asides> {
    pub first: A,
    pub second: B,
}

/// No additional information except further faults, a few or all.
#[derive(Clone, Copy, Debug, PartialEq, Eq)]
pub struct NoAsides {
    pub tells_all: bool,
}

impl Asides for NoAsides {
    type Sources = MemoryShelf;

    fn most(&self) -> usize {
        if self.tells_all {
            usize::MAX
        } else {
            FEW_FAULTS
        }
    }

    fn near(&self, _alloc: Global, _name: &str) -> Option<Near> {
        None
    }

    fn media_error(&self, _alloc: Global) -> Option<String> {
        None
    }

    fn sources(&self, _alloc: Global) -> Option<MemoryShelf> {
        None
    }
}
