// Errors of making a header.
ghost use Rattle.std.specs.Prelude.{◌≡◌};
ghost use Rattle.wavwrite.specs.Fault.{number_of};
ghost use Rattle.wavwrite.specs.declared.fault.HeaderFault.TheVariants.{Memory};

use std::alloc::AllocError;
use thiserror::Error;

/// The reason why no header was made.
#[derive(Clone, Copy, Debug, PartialEq, Eq, Error)]
pub enum HeaderFault {
    /// The file would be longer than a 64-bit size can represent.
    #[error("the file is too long")]
    TooLong,
    /// Out of memory.
    #[error("out of memory")]
    Memory,
}

impl HeaderFault {
    /// Returns the number of the refusal: 61 or 63.
    pub fn number(&self) -> u8
        ensures { result ≡ number_of self.now }
    {
        match self {
            HeaderFault::TooLong => 61,
            HeaderFault::Memory => 63,
        }
    }
}

impl From<AllocError> for HeaderFault {
    ghost from_gives = { λ _ fault. fault ≡ Memory };

    fn from(_: AllocError) -> HeaderFault {
        HeaderFault::Memory
    }
}
