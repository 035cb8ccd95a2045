// Why a project isn't consolidated.
ghost use Rattle.std.specs.Prelude.{◌≡◌};
ghost use Rattle.consolidation.specs.Fault.{number_of};
ghost use Rattle.consolidation.specs.declared.fault.ConsolidationFault.TheVariants.{Intervals, Pass, Runs, Relink};

use groups::IntervalFault;
use mediaset::RunFault;
use passes::PassFault;
use relink::RelinkFault;
use thiserror::Error;

/// Why a project isn't consolidated: each comes before anything is written.
#[derive(Clone, Copy, Debug, PartialEq, Eq, Error)]
pub enum ConsolidationFault {
    /// 47: no memory was left for the pieces of the entries.
    #[error("out of memory")]
    Intervals,
    /// 51 and 52: a pass over the pieces failed; 52 too where a source failed as it was read for the report.
    #[error("{0}")]
    Pass(PassFault),
    /// 53 and 54: there are too many runs, or no memory was left for them and for where the jobs of each end.
    #[error("{0}")]
    Runs(RunFault),
    /// 55 and 56: the list would have too many entries, or no memory was left for it or for the report.
    #[error("{0}")]
    Relink(RelinkFault),
}

impl ConsolidationFault {
    /// The number of the refusal.
    pub fn number(&self) -> u8
        ensures { result ≡ number_of self.now }
    {
        match self {
            ConsolidationFault::Intervals => 47,
            ConsolidationFault::Pass(fault) => fault.number(),
            ConsolidationFault::Runs(fault) => fault.number(),
            ConsolidationFault::Relink(fault) => fault.number(),
        }
    }
}

impl From<IntervalFault> for ConsolidationFault {
    ghost from_gives = { λ _ fault. fault ≡ Intervals };

    fn from(fault: IntervalFault) -> Self {
        match fault {
            IntervalFault::Memory => ConsolidationFault::Intervals,
        }
    }
}

impl From<PassFault> for ConsolidationFault {
    ghost from_gives = { λ pass fault. fault ≡ Pass pass };

    fn from(fault: PassFault) -> Self {
        ConsolidationFault::Pass(fault)
    }
}

impl From<RunFault> for ConsolidationFault {
    ghost from_gives = { λ runs fault. fault ≡ Runs runs };

    fn from(fault: RunFault) -> Self {
        ConsolidationFault::Runs(fault)
    }
}

impl From<RelinkFault> for ConsolidationFault {
    ghost from_gives = { λ relink fault. fault ≡ Relink relink };

    fn from(fault: RelinkFault) -> Self {
        ConsolidationFault::Relink(fault)
    }
}
