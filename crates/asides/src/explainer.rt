// What a report says of each fault beside its number and its place, and of the list.
use crate::beside::Asides;
use crate::room::{DEFAULT_HANDLE, room_of};
use crate::second_look::SecondLook;
use checkreport::{Explains, Member, PassedLine, Room, Value};
use findings::{
    FoundFormat, FurtherExplanation, LineAtFault, ListLines, Look, Outside, PassedLines,
    PlayedFile, Shown,
};
use opening::Fault;
use projectcheck::Checked;
use std::alloc::Global;
use std::fmt::Display;
use std::str;

/// How many faults of a list are explained in its report.
const MOST: usize = 1000;

/// How many bytes of a text that isn't UTF-8 are shown.
const SHOWN_BYTES: usize = 160;

/// What explains the first 1,000 faults of a list over these media, and what else is reported of it.
#[derive(Drop)]
pub struct Explainer<'a, A: Asides> {
    list: &'a [u8],
    asides: &'a A,
    lines: ListLines<'a>,
    passed: PassedLines<'a>,
    second_look: SecondLook<A::Sources>,
    /// The folders that couldn't be searched for sources, and why.
    unsearched: Option<String>,
    count: usize,
}

impl<'a, A: Asides> Explainer<'a, A> {
    /// Makes the explainer of this list. `unsearched` says which folders couldn't be searched for sources, and why.
    pub fn new(alloc: Global, list: &'a [u8], asides: &'a A, unsearched: Option<String>) -> Self {
        Explainer {
            list,
            asides,
            lines: ListLines::new(list),
            passed: PassedLines::new(list),
            second_look: SecondLook::new(asides.sources(alloc)),
            unsearched,
            count: 0,
        }
    }
}

impl<A: Asides> Explains for Explainer<'_, A> {
    fn explain(&mut self, alloc: Global, fault: &Fault) -> Option<Vec<Member>> {
        if self.count >= MOST {
            return None;
        }
        self.count = self.count.saturating_add(1);
        let look = self.second_look.at(alloc, self.list, fault, self.asides);
        let line = self.lines.at(fault);
        explained(alloc, fault, line, &look)
    }

    fn next_passed(&mut self, alloc: Global) -> Option<PassedLine> {
        let passed = self.passed.next_line()?;
        Some(PassedLine {
            line: passed.line,
            words: text_of(alloc, passed.words),
        })
    }

    fn media_error(&mut self, alloc: Global) -> Option<String> {
        match self.asides.media_error(alloc) {
            Some(error) => Some(error),
            None => self.unsearched.take(),
        }
    }

    fn room(&mut self, alloc: Global, checked: &Checked) -> Room {
        room_of(alloc, checked, DEFAULT_HANDLE)
    }
}

/// What explains a fault, in the order of the names.
fn explained(
    alloc: Global,
    fault: &Fault,
    line: Option<LineAtFault<'_>>,
    look: &Look,
) -> Option<Vec<Member>> {
    let further = FurtherExplanation::of(fault, line, look);
    let format = look.sound.as_ref().and_then(|sound| sound.format());
    let played = look.played.as_ref();
    let file = played.and_then(|played| played.file.as_ref());
    let outside = played.and_then(|played| played.outside());
    let members = vec![in alloc;
        count("after", after(outside)),
        count("before", before(outside)),
        count("bits", format.map(|format| u64::from(format.bits))),
        text(alloc, "cause", Some(further.cause())),
        count("channels", channels_of(format, file)),
        count("column", line.map(|line| line.stood.column as u64)),
        text(alloc, "file", file.map(|file| file.name.as_str())),
        count("frames", file.map(|file| file.frames)),
        count("index", played.map(|played| u64::from(played.index()))),
        text(alloc, "meaning", further.meaning()),
        text(alloc, "near", look.near.as_ref()),
        count(
            "rate",
            look.sound
                .as_ref()
                .and_then(|sound| sound.rate())
                .map(u64::from)
        ),
        text(alloc, "remedy", further.remedy()),
        count("tag", format.and_then(|format| format.tag()).map(u64::from)),
        bytes(alloc, "text", line.map(|line| line.line)),
        bytes(alloc, "word", line.map(|line| line.stood.text)),
    ];
    members.ok()
}

/// What explains that a list isn't read, in the same order.
pub fn explained_unread(
    alloc: Global,
    cause: &str,
    meaning: Option<&str>,
    remedy: Option<&str>,
) -> Option<Vec<Member>> {
    let members = vec![in alloc;
        count("after", None),
        count("before", None),
        count("bits", None),
        text(alloc, "cause", Some(cause)),
        count("channels", None),
        count("column", None),
        count("file", None),
        count("frames", None),
        count("index", None),
        text(alloc, "meaning", meaning),
        count("near", None),
        count("rate", None),
        text(alloc, "remedy", remedy),
        count("tag", None),
        count("text", None),
        count("word", None),
    ];
    members.ok()
}

/// How many frames an entry goes on after the last one of its file, and how many it begins before the first one.
fn after(outside: Option<Outside>) -> Option<u64> {
    match outside? {
        Outside::After(after) => Some(after),
        Outside::Before(_) | Outside::BehindDay => None,
    }
}

fn before(outside: Option<Outside>) -> Option<u64> {
    match outside? {
        Outside::Before(before) => Some(before),
        Outside::After(_) | Outside::BehindDay => None,
    }
}

/// How many channels the file has.
fn channels_of(format: Option<FoundFormat>, file: Option<&PlayedFile>) -> Option<u64> {
    match (format, file) {
        (Some(format), _) => Some(u64::from(format.channels)),
        (None, Some(file)) => Some(u64::from(file.channels)),
        (None, None) => None,
    }
}

/// A count, where there is one.
fn count(name: &'static str, found: Option<u64>) -> Member {
    let value = match found {
        Some(found) => Value::Count(found),
        None => Value::Nothing,
    };
    Member { name, value }
}

/// A text, where there is one and memory for it.
fn text<T: Display + Drop>(alloc: Global, name: &'static str, found: Option<T>) -> Member {
    let Some(found) = found else {
        return count(name, None);
    };
    let value = match format!(in alloc; "{found}") {
        Ok(text) => Value::Text(text),
        Err(_) => Value::Nothing,
    };
    Member { name, value }
}

/// Bytes of a list, where there are some and memory for them.
fn bytes(alloc: Global, name: &'static str, found: Option<&[u8]>) -> Member {
    let value = match found.and_then(|found| text_of(alloc, found)) {
        Some(text) => Value::Text(text),
        None => Value::Nothing,
    };
    Member { name, value }
}

/// Bytes of a list as a text: as they are where they are UTF-8, or else as a line shows them.
fn text_of(alloc: Global, found: &[u8]) -> Option<String> {
    match str::from_utf8(found) {
        Ok(words) => String::from_str(alloc, words).ok(),
        Err(_) => format!(in alloc; "{}", Shown(found, SHOWN_BYTES)).ok(),
    }
}
