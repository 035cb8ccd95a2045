// The answer to a check whose report is asked for.
ghost use Rattle.std.specs.Prelude.{◌≤◌, IsTrue};
ghost use Rattle.checkreport.specs.Reported.{IsReported};
ghost use Rattle.answers.specs.Answers.{IsReportPrinted};
ghost use Rattle.asides.specs.Terminals.{GivesBack};

use crate::explained::explanation_of;
use crate::refusal::tell_explanation;
use asides::{Asides, Explainer, Meter, Terminal, tell_changed};
use checkreport::{put_accepted, put_refused};
use console::Console;
use consolidate::Fault;
use opening::open_project;
use shelf::{Reason, Reasons, Shelf};
use std::alloc::Global;

/// Checks the list, and prints all that came of it as JSON on standard output, by the form of `docs/REPORT.md`; where
/// no memory was left for the first fault of a list that is refused, that alone. A refusal of the list is explained on
/// standard error. The status is 0 where the list is accepted and told, and else 1.
pub fn answer_report<S: Shelf + Reasons, O: Console, E: Console, M: Meter, A: Asides>(
    alloc: Global,
    list: &[u8],
    shelf: &mut S,
    terminal: &mut Terminal<O, E, M, A>,
) -> u8
    ensures consoles { GivesBack terminal.old terminal.new }
    ensures reported { IsTrue (S.honest shelf.old) → IsReported list.now (S.stored shelf.old)
        O.Console terminal.old.out.now terminal.new.out.now result }
    // Whatever the sources are, some report was printed.
    ensures printed { IsReportPrinted (S.honest shelf.old) list.now (S.stored shelf.old)
        O.Console terminal.old.out.now terminal.new.out.now result }
    ensures statuses { result ≤ 1 }
{
    let outcome = open_project(alloc, list, shelf);
    tell_changed(alloc, shelf, terminal.err);
    let unsearched = shelf.unsearched(alloc);
    match outcome {
        Ok(checked) => {
            let mut explainer = Explainer::new(alloc, list, &terminal.asides, unsearched);
            put_accepted(alloc, &checked, &mut explainer, terminal.out)
        }
        Err(fault) => {
            let mut explainer = Explainer::new(alloc, list, &terminal.asides, unsearched);
            let status = put_refused(alloc, list, shelf, &fault, &mut explainer, terminal.out);
            let (asides, reason) = (&terminal.asides, shelf.reason());
            explain_refused(alloc, list, fault, reason, asides, terminal.err);
            status
        }
    }
}

/// Explains why the list is refused.
fn explain_refused<E: Console, A: Asides>(
    alloc: Global,
    list: &[u8],
    fault: opening::Fault,
    reason: Option<Reason>,
    asides: &A,
    err: &mut E,
) {
    let fault = Fault::Project(fault);
    let explanation = explanation_of(&fault, list, reason, None);
    tell_explanation(alloc, list, &fault, explanation, asides, err);
}
