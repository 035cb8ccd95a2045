// Refusals and their locations.
ghost use Rattle.std.specs.Prelude.{◌≡◌, ◌-◌, ◌++◌, codes, decimal, length, replicate};
ghost use Rattle.list_terms.specs.Renewed.{media_name};
ghost use Rattle.console.specs.Lines.{counted, named, place_text};
ghost use Rattle.console.specs.Places.{where_of};
ghost use Rattle.console.specs.Printing.{Prints};
ghost use Rattle.console.specs.declared.place.Place.TheVariants as place;

use crate::console::Console;
use crate::names::put_name;
use itoa::Buffer;

/// The location that a refusal names. Lines are counted from 1; entries, indexes and jobs have
/// their own numbers.
#[derive(Clone, Copy, Debug, PartialEq, Eq)]
pub enum Place<'a> {
    Nowhere,
    Line(u64),
    LineEntry { line: u64, entry: u32 },
    LineIndex { line: u64, index: u32 },
    IndexFile { index: u32, name: &'a str },
    Index(u32),
    Entry(u32),
    File(&'a str),
    /// The medium with this number in the output of a consolidation: `M00001.wav` and so on.
    Medium(u32),
    Job(u32),
}

/// A refusal: its number, printed with at least two digits, and its location.
#[derive(Clone, Copy, Debug, PartialEq, Eq)]
pub struct Refusal<'a> {
    pub number: u8,
    pub location: Place<'a>,
}

impl<'a> Refusal<'a> {
    /// The refusal for running out of memory before there is a list.
    pub const MEMORY: Refusal<'static> = Refusal {
        number: 18,
        location: Place::Nowhere,
    };

    /// Creates a refusal that names a file or a folder.
    pub fn of_file(number: u8, name: &'a str) -> Refusal<'a>
        ensures { result ≡ record { number = number; location = place.File name.entry } }
    {
        Refusal {
            number,
            location: Place::File(name),
        }
    }
}

/// Prints a number in decimal.
pub fn put_number<C: Console>(console: &mut C, number: u64)
    ensures { Prints C.contents C.failures console.old console.new (decimal number) }
{
    let mut buffer = Buffer::new();
    let digits: &str = buffer.format(number);
    console.put(digits.as_bytes());
}

/// Prints a text, followed by a number.
pub fn put_counted<C: Console>(console: &mut C, words: &str, number: u64)
    ensures { Prints C.contents C.failures console.old console.new (counted words.now number) }
{
    console.put(words.as_bytes());
    put_number(console, number);
}

/// Prints a text, followed by a name.
fn put_named<C: Console>(console: &mut C, words: &str, name: &str)
    ensures { Prints C.contents C.failures console.old console.new (named words.now name.now) }
{
    console.put(words.as_bytes());
    put_name(console, name);
}

/// Prints two texts, each followed by a number.
fn put_both<C: Console>(console: &mut C, words: &str, number: u64, others: &str, other: u64)
    ensures { Prints C.contents C.failures console.old console.new
        (counted words.now number ++ counted others.now other) }
{
    put_counted(console, words, number);
    put_counted(console, others, other);
}

/// Prints a medium as a location.
fn put_medium<C: Console>(console: &mut C, number: u64)
    ensures { Prints C.contents C.failures console.old console.new (named (codes " at file ") (media_name number)) }
{
    console.put(b" at file M");
    put_digits(console, number);
}

/// Prints the number in the name of a medium with at least five digits, and the extension.
fn put_digits<C: Console>(console: &mut C, number: u64)
    ensures { Prints C.contents C.failures console.old console.new
        (replicate (5 - length (decimal number)) 48 ++ (decimal number ++ codes ".wav")) }
{
    let mut buffer = Buffer::new();
    let digits: &str = buffer.format(number);
    console.put(zeros_before(digits.len()));
    console.put(digits.as_bytes());
    console.put(b".wav");
}

/// Returns the leading zeros that make up five digits.
fn zeros_before(digits: usize) -> &'static [u8]
    ensures { result.now ≡ replicate (5 - digits) 48 }
{
    match digits {
        0 => b"00000",
        1 => b"0000",
        2 => b"000",
        3 => b"00",
        4 => b"0",
        _ => b"",
    }
}

/// Prints the location of a refusal.
pub fn put_place<C: Console>(console: &mut C, location: Place<'_>)
    ensures { Prints C.contents C.failures console.old console.new (place_text (where_of location.entry)) }
{
    match location {
        Place::Nowhere => {}
        Place::Line(line) => put_counted(console, " at line ", line),
        Place::LineEntry { line, entry } => {
            put_both(console, " at line ", line, " entry ", u64::from(entry))
        }
        Place::LineIndex { line, index } => {
            put_both(console, " at line ", line, " index ", u64::from(index))
        }
        Place::IndexFile { index, name } => {
            put_counted(console, " at index ", u64::from(index));
            put_named(console, " file ", name);
        }
        Place::Index(index) => put_counted(console, " at index ", u64::from(index)),
        Place::Entry(entry) => put_counted(console, " at entry ", u64::from(entry)),
        Place::File(name) => put_named(console, " at file ", name),
        Place::Medium(number) => put_medium(console, u64::from(number)),
        Place::Job(job) => put_counted(console, " at job ", u64::from(job)),
    }
}
