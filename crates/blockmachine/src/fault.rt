// Errors of a machine.
ghost use Rattle.std.specs.Prelude.{◌≡◌};
ghost use Rattle.blockmachine.specs.Fault.{number_of};

use std::alloc::AllocError;
use thiserror::Error;

/// Error of creating a machine or of running a block.
#[derive(Clone, Copy, Debug, PartialEq, Eq, Error)]
pub enum MachineFault {
    /// Out of memory (refusal 57).
    #[error("out of memory")]
    Memory,
    /// The open sound at index `file` can't be read (refusal 22).
    #[error("sound {file} can't be read")]
    Source { file: u32 },
}

impl MachineFault {
    /// Returns the refusal number.
    pub fn number(&self) -> u8
        ensures { result ≡ number_of self.now }
    {
        match self {
            MachineFault::Memory => 57,
            MachineFault::Source { .. } => 22,
        }
    }
}

impl From<AllocError> for MachineFault {
    ghost use Rattle.std.specs.Prelude.{◌≡◌};
    ghost use Rattle.blockmachine.specs.declared.fault.MachineFault.TheVariants.{Memory};

    ghost from_gives = { λ _ fault. fault ≡ Memory };

    fn from(_: AllocError) -> Self {
        MachineFault::Memory
    }
}
