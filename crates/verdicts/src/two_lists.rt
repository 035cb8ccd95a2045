// The answer to a comparison of two lists.
ghost use Rattle.std.specs.Prelude.{◌≡◌, ◌≢◌, ◌≤◌, Err, false};
ghost use Rattle.clap.specs.Walk.{Text};
ghost use Rattle.comparison.specs.Range.{HasChannels};
ghost use Rattle.comparing.specs.Comparing.{IsComparing};
ghost use Rattle.sampletime.specs.FrameRate.{frames_per_second};
ghost use Rattle.commandline.specs.Request.{selected_of};
ghost use Rattle.console.specs.Printing.{Prints};
ghost use Rattle.list_terms.specs.Text.{rate_of as rate_at};
ghost use Rattle.verdicts.specs.Verdicts.{ComparesBy, IsComparedAs, NamesBadTime, compared_lines, comparison_refusal_line, comparison_text, list_refusal_line, status_of_comparison};
ghost use Rattle.asides.specs.Terminals.{GivesBack, KeepsOutput};
ghost use Rattle.comparing.specs.CompareFault as comparing;
ghost use Rattle.verdicts.specs.Times.{bad_time_line, selection_of};

use crate::comparison_report::put_comparison_report;
use crate::counts::report_counts;
use crate::difference::{BothLists, ListText, report_difference};
use crate::list_refusal::{look_at_list, put_list_fault};
use crate::status::{DONE, REFUSED};
use crate::times::{refuse_time, selection_of};
use adlread::rate_of;
use asides::{Asides, AsidesOfTwo, Meter, Terminal, tell_changed, tell_meanings_of_two};
use commandline::Selected;
use comparing::{CompareFault, Compared, ListFault, compare};
use comparison::{Comparison, Selection};
use console::{
    Console, Counts, ListOfTwo, Place, Refusal, put_counts, put_difference, put_in_list,
    put_notices_of_list, put_refusal,
};
use explanations::Explanation;
use remarks::NamedList;
use sampletime::{Rate, Separators, text_of};
use shelf::{Reason, Reasons, Shelf};
use std::alloc::Global;

/// Compares two lists, each over the sources of a shelf of its own, at what the words choose, and prints the notices of
/// both and one line. The status is 0 where they sound the same, 1 where they differ or one is refused, and 2 where a
/// time can't be read at the first list's rate, which is reported on standard error. A difference and a refusal are
/// explained there; of a difference it says too at how many samples of each channel the lists differ, in the hour from
/// it on, for which the sources are opened once more.
pub fn answer_compare<
    S: Shelf + Reasons,
    T: Shelf + Reasons,
    O: Console,
    E: Console,
    M: Meter,
    A: Asides,
    B: Asides,
>(
    alloc: Global,
    selected: Selected<'_>,
    lists: BothLists<'_>,
    first_shelf: &mut S,
    second_shelf: &mut T,
    terminal: &mut Terminal<O, E, M, AsidesOfTwo<A, B>>,
) -> u8
    ensures consoles { GivesBack terminal.old terminal.new }
    // Both lists were compared, and the answer is printed; of the text of a report nothing is claimed.
    ensures compared { result ≢ 2
        → IsComparedAs selected.entry.report
        (ComparesBy S.Shelf T.Shelf (selected_of selected.entry) lists.entry.first.now lists.entry.second.now
        first_shelf.old first_shelf.new second_shelf.old second_shelf.new)
        O.Console terminal.old.out.now terminal.new.out.now result }
    // A time can't be read.
    ensures bad_time { (option : Text)
        → selection_of (rate_at lists.entry.first.now) (selected_of selected.entry) ≡ Err option
        → (result ≡ 2)
        × Prints E.contents E.failures terminal.old.err.now terminal.new.err.now (bad_time_line option) }
    ensures statuses { result ≤ 2 }
    ensures mistake { result ≡ 2 → NamesBadTime E.Console terminal.old.err.now terminal.new.err.now
        (selection_of (rate_at lists.entry.first.now) (selected_of selected.entry)) }
    ensures two { result ≡ 2
        → (first_shelf.new ≡ first_shelf.old) × (second_shelf.new ≡ second_shelf.old)
        × (terminal.new.out.now ≡ terminal.old.out.now) }
{
    match selection_of(selected, rate_of(lists.first)) {
        Ok(selection) => {
            let choice = ComparisonChoice {
                selection,
                is_report: selected.report,
            };
            answer_selection(alloc, lists, &choice, first_shelf, second_shelf, terminal)
        }
        Err(bad) => refuse_time(bad, terminal.err),
    }
}

/// What two lists are compared at, and whether a report of it is asked for.
#[derive(Drop)]
struct ComparisonChoice {
    selection: Selection,
    is_report: bool,
}

/// Compares two lists at what was chosen, and prints what came of it, as a report where that is asked for.
fn answer_selection<
    S: Shelf + Reasons,
    T: Shelf + Reasons,
    O: Console,
    E: Console,
    M: Meter,
    A: Asides,
    B: Asides,
>(
    alloc: Global,
    lists: BothLists<'_>,
    choice: &ComparisonChoice,
    first_shelf: &mut S,
    second_shelf: &mut T,
    terminal: &mut Terminal<O, E, M, AsidesOfTwo<A, B>>,
) -> u8
    requires { HasChannels choice.now.selection }
    ensures consoles { GivesBack terminal.old terminal.new }
    ensures compared { IsComparedAs choice.now.is_report
        (IsComparing S.Shelf T.Shelf lists.entry.first.now lists.entry.second.now choice.now.selection
        first_shelf.old first_shelf.new second_shelf.old second_shelf.new)
        O.Console terminal.old.out.now terminal.new.out.now result }
    ensures statuses { result ≤ 1 }
{
    let outcome = compare(
        alloc,
        lists.first,
        lists.second,
        &choice.selection,
        first_shelf,
        second_shelf,
        &mut terminal.meter,
    );
    terminal.meter.clear();
    tell_changed(alloc, first_shelf, terminal.err);
    tell_changed(alloc, second_shelf, terminal.err);
    match outcome {
        Ok(compared) => put_done(alloc, lists, choice, &compared, terminal),
        Err(fault) => refuse_two(alloc, lists, &fault, first_shelf, second_shelf, terminal),
    }
}

/// Prints why two lists aren't compared, explains it by what their stores know of a reason, and answers 1.
pub fn refuse_two<S: Reasons, T: Reasons, O: Console, E: Console, M: Meter, A: Asides, B: Asides>(
    alloc: Global,
    lists: BothLists<'_>,
    fault: &CompareFault,
    first_shelf: &S,
    second_shelf: &T,
    terminal: &mut Terminal<O, E, M, AsidesOfTwo<A, B>>,
) -> u8
    ensures consoles { GivesBack terminal.old terminal.new }
    ensures printed { Prints O.contents O.failures terminal.old.out.now terminal.new.out.now
        (comparison_refusal_line fault.now) }
    ensures status { result ≡ 1 }
{
    let reasons = (first_shelf.reason(), second_shelf.reason());
    put_refusal_of_two(fault, terminal.out);
    explain_refusal(alloc, lists, fault, reasons, &terminal.asides, terminal.err);
    REFUSED
}

/// Prints what came of a comparison, and answers the status: a report, where that is asked for, or its lines, and what is
/// found of a difference.
fn put_done<O: Console, E: Console, M: Meter, A: Asides, B: Asides>(
    alloc: Global,
    lists: BothLists<'_>,
    choice: &ComparisonChoice,
    compared: &Compared,
    terminal: &mut Terminal<O, E, M, AsidesOfTwo<A, B>>,
) -> u8
    requires { HasChannels choice.now.selection }
    ensures consoles { GivesBack terminal.old terminal.new }
    ensures status { result ≡ status_of_comparison compared.now.comparison }
    ensures few { result ≤ 1 }
    ensures printed { choice.now.is_report ≡ false
        → Prints O.contents O.failures terminal.old.out.now terminal.new.out.now (compared_lines compared.now) }
{
    let selection = &choice.selection;
    if choice.is_report {
        put_comparison_report(alloc, lists, selection, compared, terminal);
        return status_of(compared.comparison);
    }
    put_compared(compared, terminal.out);
    report_compared(alloc, lists, selection, compared, terminal);
    status_of(compared.comparison)
}

/// Prints on standard error what is found of a difference, and what the notices of both lists mean.
pub fn report_compared<O, E: Console, M: Meter, A: Asides, B: Asides>(
    alloc: Global,
    lists: BothLists<'_>,
    selection: &Selection,
    compared: &Compared,
    terminal: &mut Terminal<O, E, M, AsidesOfTwo<A, B>>,
)
    requires { HasChannels selection.now }
    ensures { KeepsOutput terminal.old terminal.new }
{
    report_difference(alloc, lists, selection, compared, terminal.err);
    if let Comparison::Differs { at, .. } = compared.comparison {
        report_counts(alloc, lists, selection, at, terminal);
    }
    tell_meanings_of_two(
        compared.first_notices.as_slice(),
        compared.second_notices.as_slice(),
        lists.first,
        lists.second,
        terminal.err,
    );
}

/// The status of a comparison: 0 where two lists sound the same, and 1 where they differ.
pub fn status_of(comparison: Comparison) -> u8
    ensures status { result ≡ status_of_comparison comparison }
    ensures few { result ≤ 1 }
{
    match comparison {
        Comparison::Same { .. } => DONE,
        Comparison::Differs { .. } => REFUSED,
    }
}

/// Prints the notices of two lists, and how they compare, in a line.
fn put_compared<O: Console>(compared: &Compared, out: &mut O)
    ensures { Prints O.contents O.failures out.old out.new (compared_lines compared.now) }
{
    put_notices_of_list(out, ListOfTwo::First, compared.first_notices.as_slice());
    put_notices_of_list(out, ListOfTwo::Second, compared.second_notices.as_slice());
    put_comparison(compared.comparison, compared.rate, compared.separators, out);
    out.end_line();
}

/// Prints how two lists compare, by times of this form, without the line's end.
pub fn put_comparison<O: Console>(
    comparison: Comparison,
    rate: Rate,
    separators: Separators,
    out: &mut O,
)
    ensures { Prints O.contents O.failures out.old out.new
        (comparison_text (frames_per_second rate) separators comparison) }
{
    match comparison {
        Comparison::Same { frames, channels } => {
            let words = Counts {
                before: "same ",
                between: " frames ",
                after: " channels",
            };
            put_counts(out, words, frames, u64::from(channels));
        }
        Comparison::Differs { at, channel, .. } => {
            let time = text_of(at, separators, rate);
            put_difference(out, &time, channel);
        }
    }
}

/// Prints the line of the refusal of a comparison.
fn put_refusal_of_two<O: Console>(fault: &CompareFault, out: &mut O)
    ensures { Prints O.contents O.failures out.old out.new (comparison_refusal_line fault.now) }
{
    match fault {
        CompareFault::First(fault) => put_refusal_in(ListOfTwo::First, fault, out),
        CompareFault::Second(fault) => put_refusal_in(ListOfTwo::Second, fault, out),
        CompareFault::EmptyRange => {
            let location = Place::Nowhere;
            put_refusal(
                out,
                Refusal {
                    number: 58,
                    location,
                },
            );
            out.end_line();
        }
    }
}

/// Prints the line of the refusal of one of two lists.
fn put_refusal_in<O: Console>(list: ListOfTwo, fault: &ListFault, out: &mut O)
    ensures { Prints O.contents O.failures out.old out.new
        (list_refusal_line list (comparing.refusal_of fault.now)) }
{
    put_list_fault(fault, out);
    put_in_list(out, list);
    out.end_line();
}

/// Prints the explanation of a refusal of two lists, by what either store has of a reason.
fn explain_refusal<E: Console, A: Asides, B: Asides>(
    alloc: Global,
    lists: BothLists<'_>,
    fault: &CompareFault,
    reasons: (Option<Reason>, Option<Reason>),
    asides: &AsidesOfTwo<A, B>,
    err: &mut E,
) {
    let (reason, other) = reasons;
    match fault {
        CompareFault::First(fault) => {
            explain_list(alloc, lists.first(), fault, reason, &asides.first, err)
        }
        CompareFault::Second(fault) => {
            explain_list(alloc, lists.second(), fault, other, &asides.second, err)
        }
        CompareFault::EmptyRange => err.print_line(Explanation::by(58, None, None)),
    }
}

/// Prints the explanation of a refusal of one of two lists, with what a second look at its media finds.
fn explain_list<'a, E: Console, A: Asides>(
    alloc: Global,
    list: ListText<'a>,
    fault: &'a ListFault,
    reason: Option<Reason>,
    asides: &A,
    err: &mut E,
) {
    let look = look_at_list(alloc, list.text, fault, asides);
    let explanation = Explanation::of_list(fault, list.text, reason).with_look(&look);
    let name = NamedList(list.list);
    err.print_line(format_args!("{name}: {explanation}"));
}
