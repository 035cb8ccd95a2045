// Errors of comparing two lists.
ghost use Rattle.std.specs.Prelude.{◌≡◌, ◌↔◌, ◌≤◌, ℕ, List, None, Err, IsErrOf};
ghost use Rattle.work_terms.specs.Disk.{Files};
ghost use Rattle.work_terms.specs.Refusals.{IsDue};
ghost use Rattle.list_terms.specs.Heard.{sounds_of};
ghost use Rattle.comparison.specs.Fault as sums;
ghost use Rattle.comparison.specs.Range.{Extent};
ghost use Rattle.comparison.specs.declared.projects.Comparison.{Comparison};
ghost use Rattle.comparison.specs.declared.fault.CompareFault.TheVariants as of_sums;
ghost use Rattle.comparing.specs.Comparing.{AnswersFirst, AnswersRange, AnswersSecond};
ghost use Rattle.comparing.specs.CompareFault.{ForFirst, ForSecond, IsDevice, IsFirst, IsOfSums, IsOpened, IsOpenedOfTwo, IsOwn, IsReportedAs, IsReportedOfTwo, OfFirst, OfSecond, refusal_of};
ghost use Rattle.comparing.specs.declared.compare_call.Compared.{Compared};

use comparison::{CompareFault as SumsFault, SideFault};
use projectcheck::Checked;
use thiserror::Error;

/// Error of one of the two lists.
#[derive(Debug, Drop, Error)]
pub enum ListFault {
    /// Error in the list, in a file that it names, or in an entry (refusals 1 to 18, 21 to 31 and
    /// 41 to 46).
    #[error("{0}")]
    Project(opening::Fault),
    /// Out of memory for the pieces of the entries (refusal 47).
    #[error("out of memory")]
    Intervals,
    /// Out of memory for the sums (refusal 57).
    #[error("out of memory")]
    Memory,
    /// The device of a source failed while samples were read (refusal 22).
    #[error("file {name} can't be read")]
    Source { name: String },
}

/// Error of comparing two lists, in order of precedence, except for out of memory and failures of a
/// device.
#[derive(Debug, Drop, Error)]
pub enum CompareFault {
    /// Error of the first list.
    #[error("first list: {0}")]
    First(ListFault),
    /// Error of the second list.
    #[error("second list: {0}")]
    Second(ListFault),
    /// The range to be compared has no samples (refusal 58).
    #[error("there is nothing to compare")]
    EmptyRange,
}

impl ListFault {
    /// Returns the refusal number.
    pub fn number(&self) -> u8
        ensures { result ≡ (refusal_of self.now).number }
    {
        match self {
            ListFault::Project(fault) => fault.number(),
            ListFault::Intervals => 47,
            ListFault::Memory => 57,
            ListFault::Source { .. } => 22,
        }
    }

    /// Converts an error of a list's sums.
    fn of_sums(checked: Checked, fault: SideFault) -> ListFault
        requires { IsOpened (sounds_of checked.bound) fault }
        ensures sums { IsOfSums result }
        ensures due { IsDue (refusal_of result) None }
        ensures own { (text : List ℕ) → IsOwn text result }
        ensures first { (text : List ℕ) (files : Files) → IsFirst text files result }
        ensures device { sums.IsSource fault ↔ IsDevice result }
        ensures reported { IsReportedAs (sounds_of checked.bound) fault result }
    {
        match fault {
            SideFault::Intervals => ListFault::Intervals,
            SideFault::Memory => ListFault::Memory,
            SideFault::Source { file } => ListFault::Source {
                name: checked.into_name(file),
            },
        }
    }
}

impl CompareFault {
    /// Converts an error of summing two open lists.
    pub(crate) fn of_sums(first: Checked, second: Checked, fault: SumsFault) -> CompareFault
        requires { IsOpenedOfTwo (sounds_of first.bound) (sounds_of second.bound) fault }
        ensures first_due { AnswersFirst {X = Compared} None (Err result) }
        ensures second_due { AnswersSecond {X = Compared} None (Err result) }
        ensures range { (extent : Extent) → IsErrOf {T = Comparison} (Err fault) of_sums.EmptyRange
            ↔ (extent.to ≤ extent.from) → AnswersRange {X = Compared} extent (Err result) }
        ensures own { (text : List ℕ) → ForFirst (IsOwn text) result × ForSecond (IsOwn text) result }
        ensures in_turn { (text : List ℕ) (files : Files)
            → ForFirst (IsFirst text files) result × ForSecond (IsFirst text files) result }
        ensures first_device { sums.OfFirst sums.IsSource fault ↔ OfFirst IsDevice result }
        ensures second_device { sums.OfSecond sums.IsSource fault ↔ OfSecond IsDevice result }
        ensures reported { IsReportedOfTwo (sounds_of first.bound) (sounds_of second.bound) fault result }
    {
        match fault {
            SumsFault::EmptyRange => CompareFault::EmptyRange,
            SumsFault::First(fault) => CompareFault::First(ListFault::of_sums(first, fault)),
            SumsFault::Second(fault) => CompareFault::Second(ListFault::of_sums(second, fault)),
        }
    }
}
