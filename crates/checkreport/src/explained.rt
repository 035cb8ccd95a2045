// Explanations and other supplements to faults and projects.
ghost use Rattle.std.specs.Prelude.{◌++◌, ◌∷◌, List, false, map};
ghost use Rattle.serde_json.specs.View.{items_of};
ghost use Rattle.checkreport.specs.Printed.{printed_items, printed_members, printed_text};
ghost use Rattle.console.specs.Printing.{Prints};
ghost use Rattle.checkreport.specs.Explained.{explained_data, members_of, value_data};
ghost use Rattle.checkreport.specs.Report.{passed_data};
ghost use Rattle.checkreport.specs.Parts.{after_commas, member_text, passed_text, room_text};

use crate::values::{put_found, put_quoted, put_string, put_text};
use console::{Console, put_counted};
use opening::Fault;
use projectcheck::Checked;
use std::alloc::Global;

/// A member value: a count, a text or null.
#[derive(Drop)]
pub enum Value {
    Nothing,
    Count(u64),
    Text(String),
}

/// A value with its name.
#[derive(Drop)]
pub struct Member {
    pub name: &'static str,
    pub value: Value,
}

/// A line of the list that isn't fully honoured, and the ignored words; `None` if there was no memory for them.
#[derive(Drop)]
pub struct PassedLine {
    pub line: u64,
    pub words: Option<String>,
}

/// Upper bounds in bytes for the files of a consolidation with default handles and for a full rendering. `None` if
/// unknown.
#[derive(Clone, Copy, Debug, PartialEq, Eq)]
pub struct Room {
    pub media: Option<u64>,
    pub rendering: Option<u64>,
}

/// The source of explanations for faults, and of other supplements to the report of a list. The contracts don't specify
/// its texts.
pub trait Explains {
    /// Returns the explanation of a fault, sorted by name. Returns `None` if out of memory, or if the limit of
    /// explained faults is reached.
    fn explain(&mut self, alloc: Global, fault: &Fault) -> Option<Vec<Member>>;

    /// Returns the next line of the list that isn't fully honoured.
    fn next_passed(&mut self, alloc: Global) -> Option<PassedLine>;

    /// Returns why the media folder can't be listed, if it can't.
    fn media_error(&mut self, alloc: Global) -> Option<String>;

    /// Returns the maximum size of the outputs of an accepted list.
    fn room(&mut self, alloc: Global, checked: &Checked) -> Room;
}

/// Prints an explanation as a JSON object, or null.
pub fn put_explained<O: Console>(out: &mut O, explained: &Option<Vec<Member>>)
    ensures { Prints O.contents O.failures out.old out.new (printed_text (explained_data explained.now)) }
{
    match explained {
        Some(members) => {
            out.put(b"{");
            put_members(out, members);
        }
        None => out.put(b"null"),
    }
}

/// Prints the members and the end of the object.
fn put_members<O: Console>(out: &mut O, members: &[Member])
    ensures { Prints O.contents O.failures out.old out.new (printed_members false (members_of members.now)) }
{
    match members.split_first() {
        Some((first, rest)) => {
            put_member(out, first);
            put_further_members(out, rest);
            out.put(b"}");
        }
        None => out.put(b"}"),
    }
}

/// Prints the members, each after a comma.
fn put_further_members<O: Console>(out: &mut O, members: &[Member])
    ensures { Prints O.contents O.failures out.old out.new (after_commas member_text members.now) }
{
    for member in members {
        out.put(b",");
        put_member(out, member);
    }
}

/// Prints the name and the value of a member.
#[tactic(auto, unfolding(crate::specs::Parts::member_text))]
fn put_member<O: Console>(out: &mut O, member: &Member)
    ensures { Prints O.contents O.failures out.old out.new (member_text member.now) }
{
    put_quoted(out, member.name);
    out.put(b":");
    put_value(out, &member.value);
}

fn put_value<O: Console>(out: &mut O, value: &Value)
    ensures { Prints O.contents O.failures out.old out.new (printed_text (value_data value.now)) }
{
    match value {
        Value::Nothing => out.put(b"null"),
        Value::Count(number) => put_counted(out, "", *number),
        Value::Text(text) => put_string(out, text.as_str()),
    }
}

/// Prints the lines that aren't fully honoured, and the end of the array.
pub fn put_all_passed<X: Explains, O: Console>(alloc: Global, explains: &mut X, out: &mut O)
    ensures { (passed : List PassedLine) × Prints O.contents O.failures out.old out.new
        (printed_items false (items_of (map passed_data passed))) }
{
    match explains.next_passed(alloc) {
        Some(first) => {
            put_passed(out, &first);
            put_further_passed(alloc, explains, out);
            out.put(b"]");
        }
        None => out.put(b"]"),
    }
}

/// Prints the remaining lines, each after a comma.
fn put_further_passed<X: Explains, O: Console>(alloc: Global, explains: &mut X, out: &mut O)
    ensures { (passed : List PassedLine) × Prints O.contents O.failures out.old out.new (after_commas passed_text passed) }
{
    'lines: for _ in 0..usize::MAX {
        let Some(passed) = explains.next_passed(alloc) else {
            return;
        };
        put_next_passed(out, &passed);
    }
}

/// Prints one more line, after a comma.
fn put_next_passed<O: Console>(out: &mut O, passed: &PassedLine)
    ensures { Prints O.contents O.failures out.old out.new (44 ∷ passed_text passed.now) }
{
    out.put(b",");
    put_passed(out, passed);
}

/// Prints a line that isn't fully honoured.
#[tactic(auto, unfolding(crate::specs::Parts::passed_text, json::specs::Print::escape_byte))]
fn put_passed<O: Console>(out: &mut O, passed: &PassedLine)
    ensures { Prints O.contents O.failures out.old out.new (passed_text passed.now) }
{
    put_counted(out, "{\"line\":", passed.line);
    out.put(b",\"words\":");
    put_text(out, &passed.words);
    out.put(b"}");
}

/// Prints the maximum size of the outputs.
pub fn put_room<O: Console>(out: &mut O, room: Room)
    ensures { Prints O.contents O.failures out.old out.new (room_text room) }
{
    put_found(out, "{\"media\":", room.media);
    put_found(out, ",\"rendering\":", room.rendering);
    out.put(b"}");
}
