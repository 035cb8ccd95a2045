// Lines of output.
ghost use Rattle.std.specs.Prelude.{◌++◌, ◌∷◌, []};
ghost use Rattle.console.specs.Lines.{counts_text, differ_text, in_list, notice_text, notices_of_list, notices_text, refusal_text, refused, two_digits};
ghost use Rattle.console.specs.Places.{where_of};
ghost use Rattle.console.specs.Printing.{Prints};

use crate::console::Console;
use crate::place::{Refusal, put_counted, put_number, put_place};
use list_terms::Notice;

/// Prints a refusal without a line feed.
pub fn put_refusal<C: Console>(console: &mut C, refusal: Refusal<'_>)
    ensures { Prints C.contents C.failures console.old console.new
        (refusal_text refusal.entry.number (where_of refusal.entry.location)) }
{
    put_refused(console, refusal.number);
    put_place(console, refusal.location);
}

/// Prints the refusal number, without the location.
pub fn put_refused<C: Console>(console: &mut C, number: u8)
    ensures { Prints C.contents C.failures console.old console.new (refused number) }
{
    console.put(b"refused ");
    put_two_digits(console, number);
}

/// Prints a number with at least two digits.
fn put_two_digits<C: Console>(console: &mut C, number: u8)
    ensures { Prints C.contents C.failures console.old console.new (two_digits number) }
{
    if number < 10 {
        put_counted(console, "0", u64::from(number));
    } else {
        put_number(console, u64::from(number));
    }
}

/// Prints notices, one per line.
pub fn put_notices<C: Console>(console: &mut C, notices: &[Notice])
    ensures { Prints C.contents C.failures console.old console.new (notices_text notices.now) }
{
    for notice in notices {
        put_notice(console, *notice);
    }
}

/// Prints a notice and a line feed.
fn put_notice<C: Console>(console: &mut C, notice: Notice)
    ensures { Prints C.contents C.failures console.old console.new (notice_text notice ++ 10 ∷ []) }
{
    put_notice_text(console, notice);
    console.put(b"\n");
}

/// One of the two lists of a comparison.
#[derive(Clone, Copy, Debug, PartialEq, Eq)]
pub enum ListOfTwo {
    First,
    Second,
}

/// Prints the notices of one of two lists, one per line, each with the list that it is about.
pub fn put_notices_of_list<C: Console>(console: &mut C, list: ListOfTwo, notices: &[Notice])
    ensures { Prints C.contents C.failures console.old console.new (notices_of_list list notices.now) }
{
    for notice in notices {
        put_notice_of_list(console, list, *notice);
    }
}

/// Prints a notice of one of two lists and a line feed.
fn put_notice_of_list<C: Console>(console: &mut C, list: ListOfTwo, notice: Notice)
    ensures { Prints C.contents C.failures console.old console.new
        ((notice_text notice ++ in_list list) ++ 10 ∷ []) }
{
    put_notice_text(console, notice);
    put_in_list(console, list);
    console.put(b"\n");
}

/// Prints the list that a line is about, at the end of the line.
pub fn put_in_list<C: Console>(console: &mut C, list: ListOfTwo)
    ensures { Prints C.contents C.failures console.old console.new (in_list list) }
{
    console.put(match list {
        ListOfTwo::First => b" in list 1",
        ListOfTwo::Second => b" in list 2",
    });
}

/// Prints the time (as text) and the channel of the first difference, without a line feed.
pub fn put_difference<C: Console>(console: &mut C, time: &[u8], channel: u8)
    ensures { Prints C.contents C.failures console.old console.new (differ_text time.now channel) }
{
    console.put(b"differ at ");
    console.put(time);
    put_counted(console, " channel ", u64::from(channel));
}

/// Prints a notice with its line in the list, or with the index of its file.
fn put_notice_text<C: Console>(console: &mut C, notice: Notice)
    ensures { Prints C.contents C.failures console.old console.new (notice_text notice) }
{
    put_counted(console, "notice ", u64::from(notice.kind));
    let words = if notice.kind <= 2 {
        " at line "
    } else {
        " at index "
    };
    put_counted(console, words, notice.at);
}

/// The text around two counts.
#[derive(Clone, Copy)]
pub struct Counts<'a> {
    pub before: &'a str,
    pub between: &'a str,
    pub after: &'a str,
}

/// Prints two counts and the text around them, without a line feed.
pub fn put_counts<C: Console>(console: &mut C, words: Counts<'_>, first: u64, second: u64)
    ensures { Prints C.contents C.failures console.old console.new
        (counts_text words.entry.before.now words.entry.between.now words.entry.after.now first second) }
{
    put_counted(console, words.before, first);
    put_counted(console, words.between, second);
    console.put(words.after.as_bytes());
}
