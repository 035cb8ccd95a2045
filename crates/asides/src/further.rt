// Further faults of a refused list, printed one per line.
ghost use Rattle.opening.specs.Further.{WasRead};

use crate::beside::{Asides, MOST_FAULTS};
use crate::place::project_place;
use crate::second_look::SecondLook;
use adlread::{AdlFault, Faults};
use console::{Console, put_counted, put_place};
use devices::Shelf;
use findings::{FurtherExplanation, ListLines, Look};
use opening::{Fault, further_faults};
use std::alloc::Global;

/// Prints the further faults of a list that was refused with the fault `first`, up to the maximum of `asides`, and
/// at most [`MOST_FAULTS`].
///
/// Then prints the number of the others, or for faults of the text only that there are more. Prints nothing if the
/// faults can't be determined.
pub fn tell_further<S: Shelf, E: Console, A: Asides>(
    alloc: Global,
    list: &[u8],
    shelf: &mut S,
    first: &Fault,
    asides: &A,
    err: &mut E,
)
    ensures { WasRead S.Shelf shelf.old shelf.new }
{
    let most = asides.most().min(MOST_FAULTS);
    if let Fault::List(first) = first {
        tell_further_lines(alloc, list, *first, most, err);
        return;
    }
    let Ok(further) = further_faults(alloc, list, shelf, first, most) else {
        return;
    };
    tell_each(alloc, list, &further.faults, asides, err);
    if further.more > 0 {
        err.print_line(format_args!("and {} more", further.more));
    }
}

/// Prints faults of files or entries, each with the result of a second look.
fn tell_each<E: Console, A: Asides>(
    alloc: Global,
    list: &[u8],
    faults: &[Fault],
    asides: &A,
    err: &mut E,
) {
    let mut second_look = SecondLook::new(asides.sources(alloc));
    let mut lines = ListLines::new(list);
    for fault in faults {
        let look = second_look.at(alloc, list, fault, asides);
        tell_also(fault, &mut lines, &look, err);
    }
}

/// Prints up to `most` invalid lines after the first one, and whether there are more.
fn tell_further_lines<E: Console>(
    alloc: Global,
    list: &[u8],
    first: AdlFault,
    most: usize,
    err: &mut E,
) {
    let Ok(mut faults) = Faults::after(alloc, list, first) else {
        return;
    };
    let mut lines = ListLines::new(list);
    let look = Look::nothing();
    for _ in 0..most {
        let Some(fault) = faults.next_fault(alloc) else {
            return;
        };
        tell_also(&Fault::List(fault), &mut lines, &look, err);
    }
    tell_more_lines(alloc, &mut faults, most, err);
}

/// Prints how many more faults there are after `most` of them; whether there are any if those were few, since to count
/// them the rest of the list is read.
fn tell_more_lines<E: Console>(alloc: Global, faults: &mut Faults<'_>, most: usize, err: &mut E) {
    if faults.next_fault(alloc).is_none() {
        return;
    }
    if most < MOST_FAULTS {
        err.print_line("and more");
        return;
    }
    for more in 1..u64::MAX {
        if faults.next_fault(alloc).is_none() {
            err.print_line(format_args!("and {more} more"));
            return;
        }
    }
}

/// Prints a further fault: its number, location, meaning and details.
fn tell_also<E: Console>(fault: &Fault, lines: &mut ListLines<'_>, look: &Look, err: &mut E) {
    let number = fault.number();
    let words = if number < 10 { "also 0" } else { "also " };
    put_counted(err, words, u64::from(number));
    put_place(err, project_place(fault));
    err.print_line(FurtherExplanation::of(fault, lines.at(fault), look));
}
