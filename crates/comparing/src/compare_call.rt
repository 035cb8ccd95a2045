// The comparison of two lists.
ghost use Rattle.std.specs.Prelude.{◌≡◌};
ghost use Rattle.comparison.specs.Range.{HasChannels};
ghost use Rattle.comparing.specs.Comparing.{IsComparing};

use crate::compare_fault::{CompareFault, ListFault};
use comparison::{Comparison, Selection, compare_projects};
use devices::{Shelf, Watch};
use list_terms::Notice;
use opening::open_list;
use sampletime::{Rate, Separators};
use std::alloc::Global;

/// Result of comparing two lists, with the time format of the first list and the notices of each.
#[derive(Debug, Drop)]
pub struct Compared {
    pub comparison: Comparison,
    /// Frame rate of the times of the first list.
    pub rate: Rate,
    /// Separators of the times of the first list.
    pub separators: Separators,
    pub first_notices: Vec<Notice>,
    pub second_notices: Vec<Notice>,
}

/// Compares two lists, each with its sources on a shelf of its own: whether their exact sums,
/// before any rounding, are equal on every selected channel at every selected time, and otherwise
/// their first difference. After the last entry of one list the other must be silent. A selected
/// number of channels must be 1 to 64. Writes nothing.
///
/// Errors of the first list take precedence, then errors of the second, each in the order of
/// `check_project`, then an empty range, which is the default range of two lists without samples.
/// Out of memory for the sums is returned only after all of these. A device that fails while
/// samples are read ends the call at once (refusal 22). Reports to `watch` the number of samples
/// compared and the total.
pub fn compare<S: Shelf, T: Shelf, W: Watch>(
    alloc: Global,
    first_list: &[u8],
    second_list: &[u8],
    selection: &Selection,
    first_shelf: &mut S,
    second_shelf: &mut T,
    watch: &mut W,
) -> Result<Compared, CompareFault>
    requires { HasChannels selection.now }
    ensures { IsComparing S.Shelf T.Shelf first_list.now second_list.now selection.now first_shelf.old first_shelf.new
        second_shelf.old second_shelf.new result }
{
    let first = match open_list(alloc, first_list, first_shelf) {
        Ok(opened) => opened,
        Err(fault) => return Err(CompareFault::First(ListFault::Project(fault))),
    };
    let second = match open_list(alloc, second_list, second_shelf) {
        Ok(opened) => opened,
        Err(fault) => return Err(CompareFault::Second(ListFault::Project(fault))),
    };
    match compare_projects(
        alloc,
        &first.checked,
        &second.checked,
        selection,
        first_shelf,
        second_shelf,
        watch,
    ) {
        Ok(comparison) => Ok(Compared {
            comparison,
            rate: first.checked.project().rate(),
            separators: first.checked.project().separators(),
            first_notices: first.notices,
            second_notices: second.notices,
        }),
        Err(fault) => Err(CompareFault::of_sums(first.checked, second.checked, fault)),
    }
}
