// Errors of planning a rendering.
ghost use Rattle.std.specs.Prelude.{◌≡◌};
ghost use Rattle.renderplan.specs.Fault.{number_of};
ghost use Rattle.renderplan.specs.declared.fault.PlanFault.TheVariants.{Memory};

use std::alloc::AllocError;
use thiserror::Error;

/// Error of creating a plan or the program of a block.
#[derive(Clone, Copy, Debug, PartialEq, Eq, Error)]
pub enum PlanFault {
    /// Out of memory (refusal 57).
    #[error("out of memory")]
    Memory,
    /// The range is empty or ends before it begins (refusal 58).
    #[error("the range is empty")]
    EmptyRange,
}

impl PlanFault {
    /// Returns the refusal number.
    pub fn number(&self) -> u8
        ensures { result ≡ number_of self.now }
    {
        match self {
            PlanFault::Memory => 57,
            PlanFault::EmptyRange => 58,
        }
    }
}

impl From<AllocError> for PlanFault {
    ghost from_gives = { λ _ fault. fault ≡ Memory };

    fn from(_: AllocError) -> Self {
        PlanFault::Memory
    }
}
