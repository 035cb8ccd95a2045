// Errors of preallocating and copying.
ghost use Rattle.std.specs.Prelude.{◌≡◌};
ghost use Rattle.mediacopy.specs.Fault.{layout_number, number_of};
ghost use Rattle.mediacopy.specs.declared.fault.LayoutFault.TheVariants as layout;

use std::alloc::AllocError;
use thiserror::Error;

/// The reason why a piece can't be copied: a device failed.
#[derive(Clone, Copy, Debug, PartialEq, Eq, Error)]
pub enum CopyFault {
    /// 22: the source can't be read.
    #[error("the source can't be read")]
    Source,
    /// 62: the medium can't be written. It may have been written in part.
    #[error("the medium can't be written")]
    Output,
}

impl CopyFault {
    /// Returns the refusal number, 22 or 62.
    pub fn number(&self) -> u8
        ensures { result ≡ number_of self.now }
    {
        match self {
            CopyFault::Source => 22,
            CopyFault::Output => 62,
        }
    }
}

/// Why the file of a medium isn't preallocated.
#[derive(Clone, Copy, Debug, PartialEq, Eq, Error)]
pub enum LayoutFault {
    /// 62: the file is unfinished.
    #[error("the medium can't be written")]
    Output,
    /// 63: nothing is written.
    #[error("out of memory")]
    Memory,
}

impl LayoutFault {
    /// Returns the number of the refusal.
    pub fn number(&self) -> u8
        ensures { result ≡ layout_number self.now }
    {
        match self {
            LayoutFault::Output => 62,
            LayoutFault::Memory => 63,
        }
    }
}

impl From<AllocError> for LayoutFault {
    ghost from_gives = { λ _ fault. fault ≡ layout.Memory };

    fn from(_: AllocError) -> Self {
        LayoutFault::Memory
    }
}
