// The line of a refusal by a fault.
ghost use Rattle.std.specs.Prelude.{◌≡◌};
ghost use Rattle.work_terms.specs.Refusals.{File};
ghost use Rattle.opening.specs.Faults as project;
ghost use Rattle.opening.specs.Further.{WasRead};
ghost use Rattle.consolidate.specs.Fault.{name_of_output, place_of_marks, refusal_of};
ghost use Rattle.console.specs.Lines.{refusal_text};
ghost use Rattle.console.specs.Places.{where_of};
ghost use Rattle.console.specs.Printing.{Prints};
ghost use Rattle.answers.specs.Answers.{refusal_line};
ghost use Rattle.asides.specs.Terminals.{GivesBack};

use asides::{Asides, Meter, Terminal, look_at, project_place, tell_further};
use console::{Console, Place, Refusal, put_refusal};
use consolidate::{
    Fault, LIST, MARKS, MarkFault, MarkedFile, OutputFile, RENDER_REPORT, REPORT, SOUND, SUMS,
};
use explanations::Explanation;
use findings::Look;
use shelf::{Reasons, Shelf};
use std::alloc::Global;

/// Prints the line of a refusal of this list on standard output and its explanation on standard error, with what a
/// second look at the media finds.
pub fn refuse<O: Console, E: Console, M: Meter, A: Asides>(
    alloc: Global,
    list: &[u8],
    fault: &Fault,
    explanation: Explanation<'_>,
    terminal: &mut Terminal<O, E, M, A>,
)
    ensures consoles { GivesBack terminal.old terminal.new }
    ensures printed { Prints O.contents O.failures terminal.old.out.now terminal.new.out.now
        (refusal_line (refusal_of fault.now)) }
{
    put_line(fault, terminal.out);
    tell_explanation(
        alloc,
        list,
        fault,
        explanation,
        &terminal.asides,
        terminal.err,
    );
}

/// Prints both on `err`.
pub fn refuse_on<E: Console, A: Asides>(
    alloc: Global,
    list: &[u8],
    fault: &Fault,
    explanation: Explanation<'_>,
    asides: &A,
    err: &mut E,
) {
    put_line(fault, err);
    tell_explanation(alloc, list, fault, explanation, asides, err);
}

/// Prints the line of a refusal.
fn put_line<O: Console>(fault: &Fault, out: &mut O)
    ensures { Prints O.contents O.failures out.old out.new (refusal_line (refusal_of fault.now)) }
{
    put_fault(fault, out);
    out.end_line();
}

/// Prints the explanation of a refusal, with what a second look at the media finds.
pub fn tell_explanation<E: Console, A: Asides>(
    alloc: Global,
    list: &[u8],
    fault: &Fault,
    explanation: Explanation<'_>,
    asides: &A,
    err: &mut E,
) {
    let look = look_at_fault(alloc, list, fault, asides);
    err.print_line(explanation.with_look(&look));
}

/// The file at which a store failed last, where a job was given up after failures; nothing where no memory is left for its
/// name.
pub fn given_up_at<S: Reasons>(alloc: Global, fault: &Fault, store: &S) -> Option<String> {
    match fault {
        Fault::GivenUp { .. } => String::from_str(alloc, store.failed_file()?).ok(),
        _ => None,
    }
}

/// What a second look at the media finds about a fault of a command over this list.
fn look_at_fault<A: Asides>(alloc: Global, list: &[u8], fault: &Fault, asides: &A) -> Look {
    match fault {
        Fault::Project(fault) => look_at(alloc, list, fault, asides),
        _ => Look::nothing(),
    }
}

/// Prints the further faults of a list that is refused by this first one, where that is one of the list, of a file that it
/// names or of an entry.
pub fn tell_others<S: Shelf, E: Console, A: Asides>(
    alloc: Global,
    list: &[u8],
    shelf: &mut S,
    first: &Fault,
    asides: &A,
    err: &mut E,
)
    ensures { WasRead S.Shelf shelf.old shelf.new }
{
    if let Fault::Project(first) = first {
        tell_further(alloc, list, shelf, first, asides, err);
    }
}

/// Prints the refusal of a list by a command, without its line's end.
pub fn put_fault<C: Console>(fault: &Fault, console: &mut C)
    ensures { Prints C.contents C.failures console.old console.new
        (refusal_text (refusal_of fault.now).number (refusal_of fault.now).location) }
{
    let number = fault.number();
    let location = fault_place(fault);
    put_refusal(console, Refusal { number, location });
}

/// The place of a fault of a command.
fn fault_place(fault: &Fault) -> Place<'_>
    ensures { where_of result ≡ (refusal_of fault.now).location }
{
    match fault {
        Fault::Project(fault) => project_place(fault),
        Fault::GivenUp { job } => Place::Job(*job),
        Fault::Output(file) => output_place(*file),
        Fault::Marks(fault) => marks_place(*fault),
        Fault::Intervals
        | Fault::PassMemory
        | Fault::Silence { .. }
        | Fault::Runs(_)
        | Fault::Relink(_)
        | Fault::RenderMemory
        | Fault::BlockMemory
        | Fault::EmptyRange
        | Fault::BoardMemory
        | Fault::WorkerMemory => Place::Nowhere,
    }
}

/// An output as a place.
fn output_place(file: OutputFile) -> Place<'static>
    ensures { where_of result ≡ File (name_of_output file) }
{
    match file {
        OutputFile::Rendering => Place::File(SOUND),
        OutputFile::Marks => Place::File(MARKS),
        OutputFile::RenderReport => Place::File(RENDER_REPORT),
        OutputFile::Medium(number) => Place::Medium(number),
        OutputFile::Sums => Place::File(SUMS),
        OutputFile::Report => Place::File(REPORT),
        OutputFile::List => Place::File(LIST),
    }
}

/// Where marks that can't be gone on with stand: the file at which the device failed, if it did.
fn marks_place(fault: MarkFault) -> Place<'static>
    ensures { where_of result ≡ place_of_marks fault }
{
    match fault {
        MarkFault::Device {
            file: MarkedFile::Sound,
        } => Place::File(SOUND),
        MarkFault::Device {
            file: MarkedFile::Marks,
        } => Place::File(MARKS),
        MarkFault::OtherRun | MarkFault::BadMarks | MarkFault::Memory => Place::Nowhere,
    }
}
