// What is found of a fault of a command, by which it is explained.
use consolidate::{Fault, LIST, MARKS, MarkFault, OutputFile, RENDER_REPORT, REPORT, SOUND, SUMS};
use explanations::{Explanation, FoundFault, Unfinished};
use findings::{LineAtFault, ListLines, Spot, project_spot};
use shelf::Reason;
use std::io::ErrorKind;

/// The explanation of a fault of a command over this list, by what the system said of the source or the output that failed.
pub fn explanation_of<'a>(
    fault: &'a Fault,
    list: &'a [u8],
    source: Option<Reason>,
    output: Option<Reason>,
) -> Explanation<'a> {
    Explanation::of(FoundFault {
        number: fault.number(),
        spot: spot_of(fault),
        line: line_at_fault(fault, list),
        file: match fault {
            Fault::Silence { name } => Some(name.as_str()),
            _ => None,
        },
        reason: reason_of(fault, source, output).map(|reason| reason.error),
        unfinished: unfinished_after(fault, output),
    })
}

/// What a fault names.
fn spot_of(fault: &Fault) -> Spot {
    match fault {
        Fault::Project(fault) => project_spot(fault),
        Fault::Output(_) | Fault::Marks(MarkFault::Device { .. }) => Spot::File,
        Fault::GivenUp { .. } => Spot::Job,
        _ => Spot::Nowhere,
    }
}

/// What the system said of the source or the output at which a call failed.
fn reason_of(fault: &Fault, source: Option<Reason>, output: Option<Reason>) -> Option<Reason> {
    match fault {
        Fault::Project(opening::Fault::Media { .. }) | Fault::Silence { .. } => source,
        Fault::GivenUp { .. } => source.or(output),
        Fault::Output(_) | Fault::Marks(_) => output,
        _ => None,
    }
}

/// The line at which the fault stands.
fn line_at_fault<'a>(fault: &Fault, list: &'a [u8]) -> Option<LineAtFault<'a>> {
    match fault {
        Fault::Project(fault) => ListLines::new(list).at(fault),
        _ => None,
    }
}

/// What the fault leaves unfinished. An output that wasn't made, or is gone, isn't there.
fn unfinished_after(fault: &Fault, output: Option<Reason>) -> Option<Unfinished> {
    match fault {
        Fault::GivenUp { .. }
        | Fault::BlockMemory
        | Fault::WorkerMemory
        | Fault::Marks(MarkFault::Device { .. }) => Some(Unfinished::Whole),
        Fault::Output(file) => unfinished_at(*file, output),
        _ => None,
    }
}

/// What is unfinished where the device failed at this file. Marks are made behind their rendering.
fn unfinished_at(file: OutputFile, output: Option<Reason>) -> Option<Unfinished> {
    let is_there = output.is_none_or(is_left);
    match file {
        OutputFile::RenderReport => Some(Unfinished::Report),
        OutputFile::Marks if is_there => Some(Unfinished::Rendering),
        OutputFile::Marks => Some(Unfinished::File(SOUND)),
        _ if is_there => Some(unfinished_file(file)),
        _ => None,
    }
}

/// This file, as one that is unfinished.
fn unfinished_file(file: OutputFile) -> Unfinished {
    match file {
        OutputFile::Rendering => Unfinished::File(SOUND),
        OutputFile::Marks => Unfinished::File(MARKS),
        OutputFile::RenderReport => Unfinished::File(RENDER_REPORT),
        OutputFile::Medium(number) => Unfinished::Medium(number),
        OutputFile::Sums => Unfinished::File(SUMS),
        OutputFile::Report => Unfinished::File(REPORT),
        OutputFile::List => Unfinished::File(LIST),
    }
}

/// Whether an output is there after it failed for this reason.
fn is_left(reason: Reason) -> bool {
    reason.has_file && reason.error.kind() != ErrorKind::NotFound
}
