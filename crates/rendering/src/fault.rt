// Why a project isn't rendered.
ghost use Rattle.std.specs.Prelude.{◌≡◌};
ghost use Rattle.rendering.specs.Fault.{fault_of_plan, number_of};
ghost use Rattle.rendering.specs.declared.fault.RenderFault.TheVariants.{Intervals, Memory};

use groups::IntervalFault;
use renderplan::PlanFault;
use std::alloc::AllocError;
use thiserror::Error;

/// Why a project isn't rendered. Each comes before anything is written.
#[derive(Clone, Copy, Debug, PartialEq, Eq, Error)]
pub enum RenderFault {
    /// 47: no memory was left for the pieces of the entries.
    #[error("out of memory")]
    Intervals,
    /// 58: the range ends where it begins, or before.
    #[error("the range is empty")]
    EmptyRange,
    /// 57: no memory was left for the plan, its blocks, or the header.
    #[error("out of memory")]
    Memory,
    /// 69: no memory was left for the marks that are made with the plan.
    #[error("out of memory")]
    MarksMemory,
}

impl RenderFault {
    /// The number of the refusal.
    pub fn number(&self) -> u8
        ensures { result ≡ number_of self.now }
    {
        match self {
            RenderFault::Intervals => 47,
            RenderFault::EmptyRange => 58,
            RenderFault::Memory => 57,
            RenderFault::MarksMemory => 69,
        }
    }
}

impl From<IntervalFault> for RenderFault {
    ghost from_gives = { λ _ fault. fault ≡ Intervals };

    fn from(fault: IntervalFault) -> Self {
        match fault {
            IntervalFault::Memory => RenderFault::Intervals,
        }
    }
}

impl From<PlanFault> for RenderFault {
    ghost from_gives = { λ plan fault. fault ≡ fault_of_plan plan };

    fn from(fault: PlanFault) -> Self {
        match fault {
            PlanFault::Memory => RenderFault::Memory,
            PlanFault::EmptyRange => RenderFault::EmptyRange,
        }
    }
}

impl From<AllocError> for RenderFault {
    ghost from_gives = { λ _ fault. fault ≡ Memory };

    fn from(_: AllocError) -> Self {
        RenderFault::Memory
    }
}
