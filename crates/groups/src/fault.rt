// Errors of the operations on intervals.
ghost use Rattle.std.specs.Prelude.{◌≡◌};
ghost use Rattle.groups.specs.Fault.{number_of};

use std::alloc::AllocError;
use thiserror::Error;

/// Error of an operation on intervals.
#[derive(Clone, Copy, Debug, PartialEq, Eq, Error)]
pub enum IntervalFault {
    /// Out of memory (refusal 47).
    #[error("out of memory")]
    Memory,
}

impl IntervalFault {
    /// Returns the refusal number.
    pub fn number(&self) -> u8
        ensures { result ≡ number_of self.now }
    {
        match self {
            IntervalFault::Memory => 47,
        }
    }
}

impl From<AllocError> for IntervalFault {
    fn from(_: AllocError) -> Self {
        IntervalFault::Memory
    }
}
