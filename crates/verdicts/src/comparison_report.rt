// The report of a comparison, for a script.
ghost use Rattle.comparison.specs.Range.{HasChannels};
ghost use Rattle.asides.specs.Terminals.{GivesBack};

use crate::counts::{count_from, counts_of};
use crate::difference::{BothLists, events_of, first_in};
use adlread::read;
use asides::{Asides, AsidesOfTwo, Meter, Terminal};
use comparing::Compared;
use comparison::{Comparison, Selection};
use console::Console;
use remarks::ComparisonReport;
use std::alloc::Global;

/// Prints what a comparison found as a line of JSON, by the form of `docs/REPORT.md`. Where the lists differ they are
/// read once more for it, and the samples that differ are counted as `report_counts` does; what no memory is there for
/// is null, or an empty array.
pub fn put_comparison_report<O: Console, E, M: Meter, A: Asides, B: Asides>(
    alloc: Global,
    lists: BothLists<'_>,
    selection: &Selection,
    compared: &Compared,
    terminal: &mut Terminal<O, E, M, AsidesOfTwo<A, B>>,
)
    requires { HasChannels selection.now }
    ensures { GivesBack terminal.old terminal.new }
{
    let Comparison::Differs { at, .. } = compared.comparison else {
        terminal.out.print_line(report_of(compared));
        return;
    };
    let counted = count_from(
        alloc,
        lists,
        selection,
        at,
        &mut terminal.meter,
        &terminal.asides,
    );
    let one = read(alloc, lists.first).ok();
    let other = read(alloc, lists.second).ok();
    let (events, other_events) = (events_of(&one), events_of(&other));
    let is_part = match &counted {
        Some(counted) => counted.is_part,
        None => false,
    };
    terminal.out.print_line(ComparisonReport {
        events,
        other_events,
        from: selection.from.or(first_in(events, other_events)),
        counts: counts_of(&counted),
        is_part,
        ..report_of(compared)
    });
}

/// What a comparison found, without what is found of a difference.
fn report_of(compared: &Compared) -> ComparisonReport<'_> {
    ComparisonReport {
        comparison: compared.comparison,
        rate: compared.rate,
        separators: compared.separators,
        first_notices: compared.first_notices.as_slice(),
        second_notices: compared.second_notices.as_slice(),
        events: &[],
        other_events: &[],
        from: None,
        counts: &[],
        is_part: false,
    }
}
