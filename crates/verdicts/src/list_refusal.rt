// The refusal of one of two lists.
ghost use Rattle.std.specs.Prelude.{◌≡◌};
ghost use Rattle.opening.specs.Faults as project;
ghost use Rattle.comparing.specs.CompareFault as comparing;
ghost use Rattle.console.specs.Lines.{refusal_text};
ghost use Rattle.console.specs.Places.{where_of};
ghost use Rattle.console.specs.Printing.{Prints};

use asides::{Asides, look_at, project_place};
use comparing::ListFault;
use console::{Console, Place, Refusal, put_refusal};
use findings::Look;
use std::alloc::Global;

/// What a second look at the media finds about a fault of one of two lists.
pub fn look_at_list<A: Asides>(alloc: Global, list: &[u8], fault: &ListFault, asides: &A) -> Look {
    match fault {
        ListFault::Project(fault) => look_at(alloc, list, fault, asides),
        _ => Look::nothing(),
    }
}

/// Prints the refusal of one of two lists, without its line's end.
pub fn put_list_fault<C: Console>(fault: &ListFault, console: &mut C)
    ensures { Prints C.contents C.failures console.old console.new
        (refusal_text (comparing.refusal_of fault.now).number (comparing.refusal_of fault.now).location) }
{
    let number = fault.number();
    let location = list_place(fault);
    put_refusal(console, Refusal { number, location });
}

/// The place of a fault of one of two lists.
fn list_place(fault: &ListFault) -> Place<'_>
    ensures { where_of result ≡ (comparing.refusal_of fault.now).location }
{
    match fault {
        ListFault::Project(fault) => project_place(fault),
        ListFault::Intervals | ListFault::Memory => Place::Nowhere,
        ListFault::Source { name } => Place::File(name.as_str()),
    }
}
