// Errors of finding runs.
ghost use Rattle.std.specs.Prelude.{◌≡◌};
ghost use Rattle.mediaset.specs.Fault.{number_of};
ghost use Rattle.mediaset.specs.declared.fault.RunFault.TheVariants.{Memory};

use std::alloc::AllocError;
use thiserror::Error;

/// The reason why there are no runs.
#[derive(Clone, Copy, Debug, PartialEq, Eq, Error)]
pub enum RunFault {
    /// 53: there would be more than 32,767 runs.
    #[error("too many media")]
    TooManyRuns,
    /// 54: out of memory.
    #[error("out of memory")]
    Memory,
}

impl RunFault {
    /// Returns the refusal number, 53 or 54.
    pub fn number(&self) -> u8
        ensures { result ≡ number_of self.now }
    {
        match self {
            RunFault::TooManyRuns => 53,
            RunFault::Memory => 54,
        }
    }
}

impl From<AllocError> for RunFault {
    ghost from_gives = { λ _ fault. fault ≡ Memory };

    fn from(_: AllocError) -> Self {
        RunFault::Memory
    }
}
