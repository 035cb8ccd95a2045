// The answer to a consolidation that is compared with what it was made from.
ghost use Rattle.std.specs.Prelude.{◌≡◌, ◌≤◌};
ghost use Rattle.comparing.specs.Comparing.{IsComparing};
ghost use Rattle.verdicts.specs.Verdicts.{IsVerified, all_of_both, verdict_lines};
ghost use Rattle.asides.specs.Terminals.{GivesBack, KeepsOutput};
ghost use Rattle.console.specs.Printing.{Prints};

use crate::difference::BothLists;
use crate::status::DONE;
use crate::two_lists::{put_comparison, refuse_two, report_compared, status_of};
use asides::{Asides, AsidesOfTwo, Meter, Terminal, tell_changed};
use comparing::{CompareFault, Compared, compare};
use comparison::{Comparison, Selection};
use console::Console;
use shelf::{Reasons, Shelf};
use std::alloc::Global;

/// Compares a list with the one that was written for it, each over a shelf of its own, and prints the lines of the
/// consolidation where both sound the same, or neither has a sample: the status is 0. Else it prints where they differ
/// first, or why they can't be compared and which list that is of, and the status is 1; standard error has the rest, as
/// of any comparison.
pub fn answer_verified<
    S: Shelf + Reasons,
    T: Shelf + Reasons,
    O: Console,
    E: Console,
    M: Meter,
    A: Asides,
    B: Asides,
>(
    alloc: Global,
    lists: BothLists<'_>,
    lines: &[u8],
    shelf: &mut S,
    written_shelf: &mut T,
    terminal: &mut Terminal<O, E, M, AsidesOfTwo<A, B>>,
) -> u8
    ensures consoles { GivesBack terminal.old terminal.new }
    ensures verified { IsVerified lines.now
        (IsComparing S.Shelf T.Shelf lists.entry.first.now lists.entry.second.now all_of_both
        shelf.old shelf.new written_shelf.old written_shelf.new)
        O.Console terminal.old.out.now terminal.new.out.now result }
    ensures statuses { result ≤ 1 }
{
    let selection = all_of_both();
    let outcome = compare(
        alloc,
        lists.first,
        lists.second,
        &selection,
        shelf,
        written_shelf,
        &mut terminal.meter,
    );
    terminal.meter.clear();
    tell_changed(alloc, shelf, terminal.err);
    tell_changed(alloc, written_shelf, terminal.err);
    match outcome {
        Ok(compared) => {
            put_verdict(&compared, lines, terminal.out);
            report_verdict(alloc, lists, &compared, terminal);
            status_of(compared.comparison)
        }
        Err(CompareFault::EmptyRange) => {
            put_lines(lines, terminal.out);
            DONE
        }
        Err(fault) => refuse_two(alloc, lists, &fault, shelf, written_shelf, terminal),
    }
}

/// Reports where a list and the one that was written for it differ, if they do.
fn report_verdict<O, E: Console, M: Meter, A: Asides, B: Asides>(
    alloc: Global,
    lists: BothLists<'_>,
    compared: &Compared,
    terminal: &mut Terminal<O, E, M, AsidesOfTwo<A, B>>,
)
    ensures { KeepsOutput terminal.old terminal.new }
{
    let Comparison::Differs { .. } = compared.comparison else {
        return;
    };
    let selection = all_of_both();
    report_compared(alloc, lists, &selection, compared, terminal);
}

/// All of both lists.
fn all_of_both() -> Selection
    ensures { result ≡ all_of_both }
{
    Selection::default()
}

/// Prints lines, and sends them where the last one has an end.
pub fn put_lines<O: Console>(lines: &[u8], out: &mut O)
    ensures { Prints O.contents O.failures out.old out.new lines.now }
{
    match lines.split_last() {
        Some((b'\n', text)) => {
            out.put(text);
            out.end_line();
        }
        _ => out.put(lines),
    }
}

/// Prints the lines of a consolidation that is the same as what it was made from, or where both differ first.
fn put_verdict<O: Console>(compared: &Compared, lines: &[u8], out: &mut O)
    ensures { Prints O.contents O.failures out.old out.new (verdict_lines lines.now compared.now) }
{
    match compared.comparison {
        Comparison::Same { .. } => put_lines(lines, out),
        Comparison::Differs { .. } => {
            put_comparison(compared.comparison, compared.rate, compared.separators, out);
            out.end_line();
        }
    }
}
