// Printing of whole reports.
ghost use Rattle.std.specs.Prelude.{◌≡◌, ◌≤◌, ◌++◌, ◌∷◌, [], ℕ, IsTrue, List, OnErr, OnOk, false, string_bytes};
ghost use Rattle.serde_json.specs.Data.{Data};
ghost use Rattle.checkreport.specs.Printed.{printed_text};
ghost use Rattle.work_terms.specs.Disk.{Files};
ghost use Rattle.work_terms.specs.Refusals.{File, IsDue, Nowhere};
ghost use Rattle.list_terms.specs.Heard.{IsAccepted, project_fault};
ghost use Rattle.opening.specs.Faults.{refusal_of};
ghost use Rattle.opening.specs.Further.{IsCounted};
ghost use Rattle.console.specs.Printing.{Prints};
ghost use Rattle.checkreport.specs.Parts.{after_commas, fault_text};
ghost use Rattle.checkreport.specs.Report.{Beside, ExplainedFault, accepted_data, faults_of, unread_data};
ghost use Rattle.checkreport.specs.Reported.{AreFound, AreOfList, AreOfSources, AreOfText, IsReported, PrintsRefused, PrintsRefusedLine, PrintsUnread, no_memory};

use crate::accepted::put_report;
use crate::explained::{Explains, Member};
use crate::refused::{ReportedFault, put_all, put_end, put_first, put_of_text};
use adlread::{AdlFault, Faults};
use console::Console;
use devices::Shelf;
use opening::{Fault, further_faults};
use projectcheck::Checked;
use std::alloc::{AllocError, Global};

/// Prints the report of a list without faults as one line of JSON, and returns the exit status, 0.
///
/// Printed part by part. Needs memory only for the supplements, and for one line of the list at a time.
pub fn put_accepted<X: Explains, O: Console>(
    alloc: Global,
    checked: &Checked,
    explains: &mut X,
    out: &mut O,
) -> u8
    ensures printed { (beside : Beside) × Prints O.contents O.failures out.old out.new
        (printed_text (accepted_data checked.now.project checked.now.bound beside) ++ 10 ∷ []) }
    ensures reported { (list : List ℕ) (files : Files) → IsAccepted list files checked.now.project checked.now.bound
        → IsReported list files O.Console out.old out.new result }
    ensures status { result ≡ 0 }
{
    put_report(alloc, checked, explains, out);
    out.end_line();
    0
}

/// Prints the report of a list that was refused with the fault `first` as one line of JSON, and returns the exit
/// status, 1.
///
/// Finds and explains further faults of the list and of the sources on the shelf.
///
/// If out of memory before the first byte, the report only has the refusal 18. If out of memory later, the report ends
/// with the faults so far and says that it isn't complete.
pub fn put_refused<S: Shelf, X: Explains, O: Console>(
    alloc: Global,
    list: &[u8],
    shelf: &mut S,
    first: &Fault,
    explains: &mut X,
    out: &mut O,
) -> u8
    ensures printed { PrintsRefusedLine O.Console out.old out.new first.now
        (AreOfList (S.honest shelf.old) list.now (S.stored shelf.old) first.now) }
    ensures found { PrintsRefusedLine O.Console out.old out.new first.now
        (AreFound S.Shelf shelf.old shelf.new list.now first.now) }
    ensures reported { IsTrue (S.honest shelf.old)
        → IsDue (refusal_of first.now) (project_fault list.now (S.stored shelf.old))
        → IsReported list.now (S.stored shelf.old) O.Console out.old out.new result }
    ensures status { result ≡ 1 }
{
    match put_faults(alloc, list, shelf, first, explains, out) {
        Ok(()) => {
            out.end_line();
            1
        }
        Err(_) => put_no_memory(out),
    }
}

/// Prints the report of a list that can't be read, with the refusal `number`, its path and its explanation. Returns the
/// exit status, 1.
pub fn put_unread<O: Console>(
    number: u8,
    path: String,
    explained: Option<Vec<Member>>,
    out: &mut O,
) -> u8
    ensures status { result ≡ 1 }
    ensures unread { PrintsUnread O.Console out.old out.new number (File (string_bytes path)) }
{
    let fault = ReportedFault::of_list(number, path, explained);
    fault.put_alone(out);
    1
}

/// Prints the out-of-memory report, and returns the exit status, 1.
pub fn put_no_memory<O: Console>(out: &mut O) -> u8
    ensures status { result ≡ 1 }
    ensures printed { Prints O.contents O.failures out.old out.new (printed_text no_memory ++ 10 ∷ []) }
    ensures unread { PrintsUnread O.Console out.old out.new 18 Nowhere }
{
    let fault = ReportedFault::of_memory();
    fault.put_alone(out);
    1
}

/// Prints the report of a refused list without a line end. Prints nothing if out of memory before the first byte.
fn put_faults<S: Shelf, X: Explains, O: Console>(
    alloc: Global,
    list: &[u8],
    shelf: &mut S,
    first: &Fault,
    explains: &mut X,
    out: &mut O,
) -> Result<(), AllocError>
    ensures printed { OnOk result (PrintsRefused O.Console out.old out.new first.now
        (AreFound S.Shelf shelf.old shelf.new list.now first.now)) }
    ensures unprinted { OnErr result (out.new ≡ out.old) }
{
    match first {
        Fault::List(fault) => put_lines(alloc, list, first, *fault, explains, out),
        _ => put_sources(alloc, list, shelf, first, explains, out),
    }
}

/// Prints the report of an invalid text, with the further invalid lines.
fn put_lines<X: Explains, O: Console>(
    alloc: Global,
    list: &[u8],
    first: &Fault,
    fault: AdlFault,
    explains: &mut X,
    out: &mut O,
) -> Result<(), AllocError>
    ensures printed { OnOk result (PrintsRefused O.Console out.old out.new first.now (AreOfText list.now fault)) }
    ensures unprinted { OnErr result (out.new ≡ out.old) }
{
    let mut faults = Faults::after(alloc, list, fault)?;
    put_first(alloc, first, explains, out)?;
    let are_all = put_of_text(alloc, &mut faults, explains, out);
    let media_error = explains.media_error(alloc);
    put_end(&media_error, are_all, out);
    Ok(())
}

/// Prints the report of an invalid file or entry, with further ones.
fn put_sources<S: Shelf, X: Explains, O: Console>(
    alloc: Global,
    list: &[u8],
    shelf: &mut S,
    first: &Fault,
    explains: &mut X,
    out: &mut O,
) -> Result<(), AllocError>
    ensures printed { OnOk result (PrintsRefused O.Console out.old out.new first.now
        (λ listed are_all. (IsTrue (S.honest shelf.old)
        → AreOfSources list.now (S.stored shelf.old) first.now listed are_all)
        × IsCounted S.Shelf shelf.old shelf.new listed)) }
    ensures unprinted { OnErr result (out.new ≡ out.old) }
{
    put_first(alloc, first, explains, out)?;
    let are_all = put_further(alloc, list, shelf, first, explains, out);
    let media_error = explains.media_error(alloc);
    put_end(&media_error, are_all, out);
    Ok(())
}

/// Prints the further faults of files or entries. Returns whether they are all.
fn put_further<S: Shelf, X: Explains, O: Console>(
    alloc: Global,
    list: &[u8],
    shelf: &mut S,
    first: &Fault,
    explains: &mut X,
    out: &mut O,
) -> bool
    ensures { (printed : List ExplainedFault)
        × (IsTrue (S.honest shelf.old)
        → AreOfSources list.now (S.stored shelf.old) first.now (faults_of printed) result)
        × IsCounted S.Shelf shelf.old shelf.new (faults_of printed)
        × Prints O.contents O.failures out.old out.new (after_commas fault_text printed) }
{
    let Ok(further) = further_faults(alloc, list, shelf, first, usize::MAX) else {
        return false;
    };
    let are_printed = put_all(alloc, &further.faults, explains, out);
    if further.more > 0 {
        return false;
    }
    are_printed
}
