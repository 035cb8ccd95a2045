// Locations of the faults of a project.
ghost use Rattle.std.specs.Prelude.{◌≡◌};
ghost use Rattle.adlread.specs.Fault as text;
ghost use Rattle.sourceindex.specs.Fault.{file_at};
ghost use Rattle.opening.specs.Faults as project;
ghost use Rattle.console.specs.Places.{where_of};

use adlread::AdlFault;
use console::Place;
use list_terms::Location;
use opening::Fault;

/// Returns the location of a fault of the list, of one of its files, or of an entry.
pub fn project_place(fault: &Fault) -> Place<'_>
    ensures { where_of result ≡ (project.refusal_of fault.now).location }
{
    match fault {
        Fault::List(fault) => text_place(fault),
        Fault::SameName { index } => Place::Index(*index),
        Fault::Media { index, name, .. } => file_place(*index, name),
        Fault::Entry(fault) => Place::Entry(fault.entry),
    }
}

/// Returns the location of a file: its index, and its name if there was memory for it.
fn file_place(index: u32, name: &Option<String>) -> Place<'_>
    ensures { where_of result ≡ file_at index name.now }
{
    match name {
        Some(name) => {
            let name = name.as_str();
            Place::IndexFile { index, name }
        }
        None => Place::Index(index),
    }
}

/// Returns the location of a fault of the text.
fn text_place(fault: &AdlFault) -> Place<'static>
    ensures { where_of result ≡ (text.refusal fault.now).location }
{
    match fault {
        AdlFault::Text { location, .. } => match *location {
            Location::Line { line } => Place::Line(line),
            Location::Entry { line, entry } => Place::LineEntry { line, entry },
            Location::Index { line, index } => Place::LineIndex { line, index },
        },
        AdlFault::Memory => Place::Nowhere,
    }
}
