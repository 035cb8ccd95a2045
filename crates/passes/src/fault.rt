// Errors of passes.
ghost use Rattle.std.specs.Prelude.{◌≡◌};
ghost use Rattle.passes.specs.Fault.{number_of};
ghost use Rattle.passes.specs.declared.fault.PassFault.TheVariants.{Memory};

use std::alloc::AllocError;
use thiserror::Error;

/// Error of a pass.
#[derive(Clone, Copy, Debug, PartialEq, Eq, Error)]
pub enum PassFault {
    /// Out of memory (refusal 51).
    #[error("out of memory")]
    Memory,
    /// The samples of file number `file` can't be read (refusal 52).
    #[error("file {file} can't be read")]
    Device { file: u32 },
}

impl PassFault {
    /// Returns the refusal number.
    pub fn number(&self) -> u8
        ensures { result ≡ number_of self.now }
    {
        match self {
            PassFault::Memory => 51,
            PassFault::Device { .. } => 52,
        }
    }
}

impl From<AllocError> for PassFault {
    ghost from_gives = { λ _ fault. fault ≡ Memory };

    fn from(_: AllocError) -> Self {
        PassFault::Memory
    }
}
