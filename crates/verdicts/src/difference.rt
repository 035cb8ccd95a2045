// What is reported on standard error of the first difference of two lists.
use adlmodel::Project;
use adlread::read;
use comparing::Compared;
use comparison::{Comparison, Selection};
use console::{Console, ListOfTwo};
use remarks::{Agreement, ExactSample, NamedList, SoundingEntries};
use sampletime::SampleTime;
use sound_terms::Event;
use std::alloc::Global;

/// The texts of two lists that are compared.
#[derive(Clone, Copy)]
pub struct BothLists<'a> {
    pub first: &'a [u8],
    pub second: &'a [u8],
}

impl<'a> BothLists<'a> {
    /// The first one.
    pub fn first(self) -> ListText<'a> {
        ListText {
            list: ListOfTwo::First,
            text: self.first,
        }
    }

    /// The second one.
    pub fn second(self) -> ListText<'a> {
        ListText {
            list: ListOfTwo::Second,
            text: self.second,
        }
    }
}

/// One of two lists, and its text.
#[derive(Clone, Copy)]
pub struct ListText<'a> {
    pub list: ListOfTwo,
    pub text: &'a [u8],
}

/// A sample of one of two lists: its time, its channel and its exact sum.
#[derive(Clone, Copy)]
struct SampleOfList {
    list: ListOfTwo,
    at: SampleTime,
    channel: u8,
    sum: i64,
}

/// Prints the sums of both lists where they differ first, which entries sound then, and how long the lists are the same
/// before; nothing where they don't differ. The lists are read once more for it: where no memory remains for that, the
/// sums are printed alone.
pub fn report_difference<E: Console>(
    alloc: Global,
    lists: BothLists<'_>,
    selection: &Selection,
    compared: &Compared,
    err: &mut E,
) {
    if let Comparison::Differs { .. } = compared.comparison {
        let one = read(alloc, lists.first).ok();
        let other = read(alloc, lists.second).ok();
        report_sums(selection, compared, events_of(&one), events_of(&other), err);
    }
}

/// Prints them where these are the entries of both lists.
fn report_sums<E: Console>(
    selection: &Selection,
    compared: &Compared,
    one: &[Event],
    other: &[Event],
    err: &mut E,
) {
    let Comparison::Differs {
        at,
        channel,
        first,
        second,
    } = compared.comparison
    else {
        return;
    };
    for (list, sum, events) in [
        (ListOfTwo::First, first, one),
        (ListOfTwo::Second, second, other),
    ] {
        let sample = SampleOfList {
            list,
            at,
            channel,
            sum,
        };
        report_sample(sample, events, err);
    }
    if let Some(from) = selection.from.or(first_in(one, other)) {
        err.print_line(Agreement {
            from,
            to: at,
            rate: compared.rate,
            separators: compared.separators,
        });
    }
}

/// The entries of a project that could be read.
pub fn events_of(project: &Option<Project>) -> &[Event] {
    match project {
        Some(project) => project.events(),
        None => &[],
    }
}

/// Prints the sum of a sample of a list, and the entries that sound then.
fn report_sample<E: Console>(sample: SampleOfList, events: &[Event], err: &mut E) {
    let (list, sum) = (NamedList(sample.list), ExactSample(sample.sum));
    let entries = SoundingEntries {
        events,
        at: sample.at,
        channel: sample.channel,
    };
    err.print_line(format_args!("{list} has {sum} at 24 bits: {entries}"));
}

/// The time at which the first of these entries begins.
pub fn first_in(events: &[Event], others: &[Event]) -> Option<SampleTime> {
    let mut least = None;
    for event in events.iter().chain(others.iter()) {
        least = match least {
            Some(time) if time <= event.dest_in => Some(time),
            _ => Some(event.dest_in),
        };
    }
    least
}
