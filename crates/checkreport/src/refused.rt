// Reports of refused lists.
ghost use Rattle.std.specs.Prelude.{◌≡◌, ◌∷◌, [], Bool, IfOk, None, OnErr, OnOk, List, map, option_map, string_bytes, ◌++◌, false, true};
ghost use Rattle.serde_json.specs.Data.{Data, null, string};
ghost use Rattle.checkreport.specs.Printed.{printed_text};
ghost use Rattle.work_terms.specs.Refusals.{Refusal};
ghost use Rattle.adlread.specs.Further.{IsLeft};
ghost use Rattle.opening.specs.Faults.{refusal_of};
ghost use Rattle.console.specs.Printing.{Prints};
ghost use Rattle.checkreport.specs.Report as spec;
ghost use Rattle.checkreport.specs.Report.{ExplainedFault, entry_in, fault_data, fault_of, faults_of, file_in, index_in, line_in, refused_of, text_in};
ghost use Rattle.checkreport.specs.Explained.{explained_data};
ghost use Rattle.checkreport.specs.Parts.{after_commas, fault_text, ready_data, refused_end, refused_front};
ghost use Rattle.checkreport.specs.Reported.{AreListed};

use crate::explained::{Explains, Member, put_explained};
use crate::values::{FORM, put_flag, put_found, put_text};
use adlread::{AdlFault, Faults};
use console::{Console, put_counted};
use list_terms::Location;
use opening::Fault;
use std::alloc::{AllocError, Global};

/// A fault ready to be printed: its number, its location and its explanation.
#[derive(Drop)]
pub struct ReportedFault {
    number: u8,
    entry: Option<u64>,
    explained: Option<Vec<Member>>,
    file: Option<String>,
    index: Option<u64>,
    line: Option<u64>,
}

impl ReportedFault {
    /// Prepares a fault, with its explanation. Returns an error if out of memory.
    pub fn of<X: Explains>(
        alloc: Global,
        fault: &Fault,
        explains: &mut X,
    ) -> Result<Self, AllocError>
        ensures { IfOk result (λ ready. ready_data ready
            ≡ fault_data (refusal_of fault.now) (explained_data ready.explained)) }
    {
        let file = file_of(alloc, fault)?;
        let explained = explains.explain(alloc, fault);
        Ok(ReportedFault {
            number: fault.number(),
            entry: entry_of(fault),
            explained,
            file,
            index: index_of(fault),
            line: line_of(fault),
        })
    }

    /// Creates the fault of a list that can't be read.
    pub fn of_list(number: u8, path: String, explained: Option<Vec<Member>>) -> Self
        ensures { ready_data result ≡ fault_of None (explained_data explained) (string (string_bytes path)) None None
            number }
    {
        ReportedFault {
            number,
            entry: None,
            explained,
            file: Some(path),
            index: None,
            line: None,
        }
    }

    /// Creates the out-of-memory fault.
    pub fn of_memory() -> Self
        ensures { ready_data result ≡ fault_of None null null None None 18 }
    {
        ReportedFault {
            number: 18,
            entry: None,
            explained: None,
            file: None,
            index: None,
            line: None,
        }
    }

    /// Prints the report of a list that can't be read, as one line.
    pub fn put_alone<O: Console>(&self, out: &mut O)
        ensures { Prints O.contents O.failures out.old out.new
            (printed_text (refused_of (ready_data self.now ∷ []) null false) ++ 10 ∷ []) }
    {
        out.put(b"{\"accepted\":false,\"faults\":[");
        self.put(out);
        put_end(&None, false, out);
        out.end_line();
    }

    /// Prints the fault as a JSON object.
    pub fn put<O: Console>(&self, out: &mut O)
        ensures { Prints O.contents O.failures out.old out.new (printed_text (ready_data self.now)) }
    {
        put_found(out, "{\"entry\":", self.entry);
        out.put(b",\"explained\":");
        put_explained(out, &self.explained);
        out.put(b",\"file\":");
        put_text(out, &self.file);
        put_found(out, ",\"index\":", self.index);
        put_found(out, ",\"line\":", self.line);
        put_counted(out, ",\"refused\":", u64::from(self.number));
        out.put(b"}");
    }
}

/// Prints the report of a refused list up to its first fault.
#[tactic(auto, unfolding(crate::specs::Parts::refused_front, crate::specs::Parts::fault_text))]
pub fn put_first<X: Explains, O: Console>(
    alloc: Global,
    first: &Fault,
    explains: &mut X,
    out: &mut O,
) -> Result<(), AllocError>
    ensures printed { OnOk result ((explained : Data) × Prints O.contents O.failures out.old out.new
        (refused_front (record { fault = first.now; explained = explained }) [])) }
    ensures unprinted { OnErr result (out.new ≡ out.old) }
{
    let ready = ReportedFault::of(alloc, first, explains)?;
    out.put(b"{\"accepted\":false,\"faults\":[");
    ready.put(out);
    Ok(())
}

/// Prints a further fault, after a comma.
#[tactic(auto, unfolding(crate::specs::Parts::fault_text))]
fn put_next<X: Explains, O: Console>(
    alloc: Global,
    fault: &Fault,
    explains: &mut X,
    out: &mut O,
) -> Result<(), AllocError>
    ensures printed { OnOk result ((explained : Data) × Prints O.contents O.failures out.old out.new
        (44 ∷ fault_text (record { fault = fault.now; explained = explained }))) }
    ensures unprinted { OnErr result (out.new ≡ out.old) }
{
    let ready = ReportedFault::of(alloc, fault, explains)?;
    out.put(b",");
    ready.put(out);
    Ok(())
}

/// Prints further faults until out of memory. Returns whether all are printed.
pub fn put_all<X: Explains, O: Console>(
    alloc: Global,
    faults: &[Fault],
    explains: &mut X,
    out: &mut O,
) -> bool
    ensures { (printed : List ExplainedFault) × AreListed faults.now true (faults_of printed) result
        × Prints O.contents O.failures out.old out.new (after_commas fault_text printed) }
{
    for fault in faults {
        let Ok(()) = put_next(alloc, fault, explains, out) else {
            return false;
        };
    }
    true
}

/// Prints the further faults of a text, one at a time. Returns whether all are printed.
pub fn put_of_text<X: Explains, O: Console>(
    alloc: Global,
    faults: &mut Faults<'_>,
    explains: &mut X,
    out: &mut O,
) -> bool
    ensures { (printed : List ExplainedFault)
        × ((all : List Refusal) (complete : Bool) → IsLeft faults.old all complete
        → AreListed all complete (map refusal_of (faults_of printed)) result)
        × Prints O.contents O.failures out.old out.new (after_commas fault_text printed) }
{
    'faults: for _ in 0..usize::MAX {
        let Some(fault) = faults.next_fault(alloc) else {
            return !faults.is_cut_short();
        };
        let fault = Fault::List(fault);
        let Ok(()) = put_next(alloc, &fault, explains, out) else {
            return false;
        };
    }
    false
}

/// Prints the end of the report of a refused list; `media_error` is the reason why the media folder can't be listed.
#[tactic(auto, unfolding(crate::specs::Parts::refused_end))]
pub fn put_end<O: Console>(media_error: &Option<String>, are_all: bool, out: &mut O)
    ensures { Prints O.contents O.failures out.old out.new
        (refused_end (option_map string_bytes media_error.now) are_all) }
{
    put_counted(out, "],\"form\":", FORM);
    out.put(b",\"media_error\":");
    put_text(out, media_error);
    out.put(b",\"complete\":");
    put_flag(out, are_all);
    out.put(b"}");
}

/// Returns the line of a fault.
fn line_of(fault: &Fault) -> Option<u64>
    ensures { result ≡ line_in (refusal_of fault.now).location }
{
    match fault {
        Fault::List(AdlFault::Text { location, .. }) => match *location {
            Location::Line { line } => Some(line),
            Location::Entry { line, .. } => Some(line),
            Location::Index { line, .. } => Some(line),
        },
        _ => None,
    }
}

/// Returns the entry of a fault.
fn entry_of(fault: &Fault) -> Option<u64>
    ensures { result ≡ entry_in (refusal_of fault.now).location }
{
    match fault {
        Fault::List(AdlFault::Text { location, .. }) => match *location {
            Location::Entry { entry, .. } => Some(u64::from(entry)),
            _ => None,
        },
        Fault::Entry(fault) => Some(u64::from(fault.entry)),
        _ => None,
    }
}

/// Returns the index of a fault.
fn index_of(fault: &Fault) -> Option<u64>
    ensures { result ≡ index_in (refusal_of fault.now).location }
{
    match fault {
        Fault::List(AdlFault::Text { location, .. }) => match *location {
            Location::Index { index, .. } => Some(u64::from(index)),
            _ => None,
        },
        Fault::SameName { index } => Some(u64::from(*index)),
        Fault::Media { index, .. } => Some(u64::from(*index)),
        _ => None,
    }
}

/// Returns the name of the file of a fault.
fn file_of(alloc: Global, fault: &Fault) -> Result<Option<String>, AllocError>
    ensures { IfOk result (λ name. text_in (option_map string_bytes name) ≡ file_in (refusal_of fault.now).location) }
{
    match fault {
        Fault::Media {
            name: Some(name),
            ..
        } => Ok(Some(String::from_str(alloc, name.as_str())?)),
        _ => Ok(None),
    }
}
