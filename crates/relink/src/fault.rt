// Errors of making the list.
ghost use Rattle.std.specs.Prelude.{◌≡◌};
ghost use Rattle.relink.specs.Fault.{number_of};
ghost use Rattle.relink.specs.declared.fault.RelinkFault.TheVariants.{Memory};

use groups::IntervalFault;
use std::alloc::AllocError;
use thiserror::Error;

/// The reason why the consolidated list can't be made.
#[derive(Clone, Copy, Debug, PartialEq, Eq, Error)]
pub enum RelinkFault {
    /// 55: more than 32,767 groups, the maximum number of entries.
    #[error("too many entries")]
    TooManyEntries,
    /// 56: out of memory.
    #[error("out of memory")]
    Memory,
}

impl RelinkFault {
    /// Returns the refusal number, 55 or 56.
    pub fn number(&self) -> u8
        ensures { result ≡ number_of self.now }
    {
        match self {
            RelinkFault::TooManyEntries => 55,
            RelinkFault::Memory => 56,
        }
    }
}

impl From<AllocError> for RelinkFault {
    ghost from_gives = { λ _ fault. fault ≡ Memory };

    fn from(_: AllocError) -> Self {
        RelinkFault::Memory
    }
}

impl From<IntervalFault> for RelinkFault {
    ghost from_gives = { λ _ fault. fault ≡ Memory };

    fn from(fault: IntervalFault) -> Self {
        match fault {
            IntervalFault::Memory => RelinkFault::Memory,
        }
    }
}
