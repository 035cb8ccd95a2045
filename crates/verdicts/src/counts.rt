// What is reported on standard error of how many samples of two lists differ.
ghost use Rattle.comparison.specs.Range.{HasChannels};
ghost use Rattle.asides.specs.Terminals.{KeepsOutput};

use crate::difference::BothLists;
use adlmodel::Project;
use asides::{Asides, AsidesOfTwo, Meter, Terminal};
use comparison::{DifferingCounts, Selection, differing_in};
use console::Console;
use opening::open_project;
use remarks::DifferingSamples;
use sampletime::SampleTime;
use shelf::Shelf;
use std::alloc::Global;

/// So many samples from the first difference on are looked at, at most: an hour.
const MOST_SAMPLES: u64 = 172_800_000;

/// At how many samples of each channel two lists differ from a time on, and whether there is more than was looked at.
#[derive(Drop)]
pub struct CountsFrom {
    counts: DifferingCounts,
    pub is_part: bool,
}

/// The counts of each channel; none where they couldn't be found.
pub fn counts_of(counted: &Option<CountsFrom>) -> &[u32] {
    match counted {
        Some(counted) => counted.counts.as_slice(),
        None => &[],
    }
}

impl CountsFrom {
    /// The counts as they are reported.
    pub fn samples(&self) -> DifferingSamples<'_> {
        DifferingSamples {
            counts: self.counts.as_slice(),
            is_part: self.is_part,
        }
    }
}

/// Prints at how many samples of each channel two lists differ, which they do first at this time, in the hour from then
/// on. Both lists are opened once more for it, over their sources, which are opened once more too.
pub fn report_counts<O, E: Console, M: Meter, A: Asides, B: Asides>(
    alloc: Global,
    lists: BothLists<'_>,
    selection: &Selection,
    at: SampleTime,
    terminal: &mut Terminal<O, E, M, AsidesOfTwo<A, B>>,
)
    requires { HasChannels selection.now }
    ensures { KeepsOutput terminal.old terminal.new }
{
    let counted = count_from(
        alloc,
        lists,
        selection,
        at,
        &mut terminal.meter,
        &terminal.asides,
    );
    match counted {
        Some(counted) => terminal.err.print_line(counted.samples()),
        None => terminal
            .err
            .print_line("how many samples differ can't be found"),
    }
}

/// Counts the samples of each channel at which two lists differ, in the hour from a time on; nothing where a list can't be
/// opened once more, a source can't be read or no memory is there.
pub fn count_from<M: Meter, A: Asides, B: Asides>(
    alloc: Global,
    lists: BothLists<'_>,
    selection: &Selection,
    at: SampleTime,
    meter: &mut M,
    asides: &AsidesOfTwo<A, B>,
) -> Option<CountsFrom>
    requires { HasChannels selection.now }
{
    let mut sources = asides.first.sources(alloc)?;
    let mut other_sources = asides.second.sources(alloc)?;
    count_over(
        alloc,
        lists,
        selection,
        at,
        &mut sources,
        &mut other_sources,
        meter,
    )
}

/// Counts them over these sources of both lists.
fn count_over<S: Shelf, T: Shelf, M: Meter>(
    alloc: Global,
    lists: BothLists<'_>,
    selection: &Selection,
    at: SampleTime,
    sources: &mut S,
    other_sources: &mut T,
    meter: &mut M,
) -> Option<CountsFrom>
    requires { HasChannels selection.now }
{
    let one = open_project(alloc, lists.first, sources).ok()?;
    let other = open_project(alloc, lists.second, other_sources).ok()?;
    let counts = differing_in(
        alloc,
        &one,
        &other,
        selection,
        at,
        MOST_SAMPLES,
        sources,
        other_sources,
        meter,
    );
    meter.clear();
    let end = end_of(selection, one.project(), other.project());
    Some(CountsFrom {
        counts: counts.ok()?,
        is_part: end.get() > at.get().saturating_add(MOST_SAMPLES),
    })
}

/// The time up to which two lists are compared: the one that is chosen, or where the last entry of both ends.
fn end_of(selection: &Selection, one: &Project, other: &Project) -> SampleTime {
    match selection.to {
        Some(end) => end,
        None => one.last_out().max(other.last_out()),
    }
}
