// Errors of comparing two projects.
ghost use Rattle.std.specs.Prelude.{◌≡◌};
ghost use Rattle.comparison.specs.Fault.{number_of};

use thiserror::Error;

/// Error of summing one project.
#[derive(Clone, Copy, Debug, PartialEq, Eq, Error)]
pub enum SideFault {
    /// Out of memory for the pieces of the entries (refusal 47).
    #[error("out of memory")]
    Intervals,
    /// Out of memory for the plan or its sums (refusal 57).
    #[error("out of memory")]
    Memory,
    /// The open sound at index `file` can't be read (refusal 22).
    #[error("sound {file} can't be read")]
    Source { file: u32 },
}

/// Error of comparing two projects.
#[derive(Clone, Copy, Debug, PartialEq, Eq, Error)]
pub enum CompareFault {
    /// The range is empty or ends before it begins (refusal 58).
    #[error("the range is empty")]
    EmptyRange,
    /// Error of the first project.
    #[error("first: {0}")]
    First(SideFault),
    /// Error of the second project.
    #[error("second: {0}")]
    Second(SideFault),
}

impl SideFault {
    /// Returns the refusal number.
    pub fn number(&self) -> u8
        ensures { result ≡ number_of self.now }
    {
        match self {
            SideFault::Intervals => 47,
            SideFault::Memory => 57,
            SideFault::Source { .. } => 22,
        }
    }
}
