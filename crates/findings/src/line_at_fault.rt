// Lines of a list with faults.
use crate::column::{Stood, stood_at};
use crate::hints::hint_at;
use crate::shown::Shown;
use adlread::{AdlFault, rate_of};
use list_terms::{Location, TextFault};
use sampletime::Rate;
use std::fmt;
use std::fmt::Display;

/// Maximum number of bytes displayed of a line, and of the text at the fault.
const SHOWN_BYTES: usize = 160;

const STOOD_BYTES: usize = 60;

/// The number of bytes of a list whose line feeds are counted together.
const BLOCK_BYTES: usize = 4096;

/// The number of lines from which on they are counted by blocks.
const MANY_LINES: usize = 64;

/// The lines of a list by their numbers, found fastest if the numbers rise. `rest` is the list after `ends` line feeds.
/// `numbers` has a bit for each number of a fault that a line was requested for.
#[derive(Clone, Copy)]
pub struct ListLines<'a> {
    list: &'a [u8],
    rest: &'a [u8],
    ends: usize,
    rate: Option<Rate>,
    numbers: u64,
}

impl<'a> ListLines<'a> {
    /// Creates a lookup for the list.
    pub fn new(list: &'a [u8]) -> Self {
        ListLines {
            list,
            rest: without_mark(list),
            ends: 0,
            rate: None,
            numbers: 0,
        }
    }

    /// Returns the line of a fault, or `None` if the fault isn't in a line.
    pub fn at(&mut self, fault: &opening::Fault) -> Option<LineAtFault<'a>> {
        match fault {
            opening::Fault::List(text) => {
                let line = self.at_fault(*text)?;
                let is_first = self.is_first(fault.number());
                Some(LineAtFault { is_first, ..line })
            }
            _ => None,
        }
    }

    /// Returns whether this is the first lookup for a fault of this number.
    fn is_first(&mut self, number: u8) -> bool {
        let mark = 1u64.checked_shl(u32::from(number)).unwrap_or(0);
        let is_first = self.numbers & mark == 0;
        self.numbers |= mark;
        is_first
    }

    /// Returns the line of a fault of the text.
    fn at_fault(&mut self, fault: AdlFault) -> Option<LineAtFault<'a>> {
        let AdlFault::Text {
            fault,
            location,
            stood,
        } = fault
        else {
            return None;
        };
        let line = self.line(line_in(location))?;
        let stood = stood_at(line, stood);
        let passed = if fault == TextFault::BadTime {
            self.passed_rate(stood.text)
        } else {
            None
        };
        let hint = hint_at(fault, stood.text, line, self.list);
        Some(LineAtFault {
            line,
            stood,
            passed,
            hint,
            is_first: true,
        })
    }

    /// Returns the line of this number, counted from 1, without its end. A byte order mark at the start of the list is no
    /// part of it. The next search starts at this line.
    fn line(&mut self, number: u64) -> Option<&'a [u8]> {
        let position = usize::try_from(number.checked_sub(1)?).ok()?;
        if position < self.ends {
            self.rest = without_mark(self.list);
            self.ends = 0;
        }
        self.rest = after_lines(self.rest, position.saturating_sub(self.ends))?;
        self.ends = position;
        let line = self.rest.split(|byte| *byte == b'\n').next()?;
        Some(line.strip_suffix(b"\r").unwrap_or(line))
    }

    /// Returns the frame rate of the list if `time` has the shape of a time and its frame number is too high for that
    /// rate.
    fn passed_rate(&mut self, time: &[u8]) -> Option<Rate> {
        let rate = self.rate.unwrap_or_else(|| rate_of(self.list));
        self.rate = Some(rate);
        if passes(time, rate) { Some(rate) } else { None }
    }
}

/// Returns the list without a byte order mark.
fn without_mark(list: &[u8]) -> &[u8] {
    list.strip_prefix(b"\xEF\xBB\xBF").unwrap_or(list)
}

/// Returns the number of the line of a location.
fn line_in(location: Location) -> u64 {
    match location {
        Location::Line { line } | Location::Entry { line, .. } | Location::Index { line, .. } =>
            line,
    }
}

/// Returns whether `time` has the shape of a time and its frame number is too high for the rate.
fn passes(time: &[u8], rate: Rate) -> bool {
    match time {
        [_, _, _, _, _, _, _, _, _, tens, ones, _, _, _, _, _]
            if tens.is_ascii_digit() && ones.is_ascii_digit() => {
            (*tens - b'0') * 10 + (*ones - b'0') >= rate.frames_per_second()
        }
        _ => false,
    }
}

/// Returns the text after this number of line feeds, or `None` if it has fewer. If there are many, those of a block of the
/// text are counted together, which is faster than to search for each.
fn after_lines(text: &[u8], count: usize) -> Option<&[u8]> {
    let (mut rest, left) = if count < MANY_LINES {
        (text, count)
    } else {
        after_blocks(text, count)
    };
    for _ in 0..left {
        let end = rest.iter().position(|byte| *byte == b'\n')?;
        rest = rest.get(end.saturating_add(1)..)?;
    }
    Some(rest)
}

/// Returns the text after the blocks with fewer than this number of line feeds, and how many of them aren't in those
/// blocks.
fn after_blocks(text: &[u8], count: usize) -> (&[u8], usize) {
    let mut at: usize = 0;
    let mut left = count;
    for block in text.chunks(BLOCK_BYTES) {
        let ended = line_feeds_in(block);
        if ended >= left {
            break;
        }
        left -= ended;
        at = at.saturating_add(block.len());
    }
    (text.get(at..).unwrap_or(b""), left)
}

/// Returns the number of line feeds in a block.
fn line_feeds_in(block: &[u8]) -> usize {
    let mut count: usize = 0;
    for byte in block {
        count = count.wrapping_add(usize::from(*byte == b'\n'));
    }
    count
}

/// A line of a list with a fault.
///
/// `passed` is the frame rate of the list if a time exceeds it. `is_first` is set for the first line with this fault
/// number.
#[derive(Clone, Copy)]
pub struct LineAtFault<'a> {
    pub line: &'a [u8],
    pub stood: Stood<'a>,
    passed: Option<Rate>,
    pub hint: Option<&'static str>,
    pub is_first: bool,
}

impl LineAtFault<'_> {
    /// Writes the text at the fault, and why it isn't a time if it looks like one.
    fn fmt_stood<W: fmt::Write>(&self, f: &mut fmt::Formatter<W>) -> fmt::Result {
        let column = self.stood.column;
        if self.stood.text.is_empty() {
            write!(f, "; the line ends at column {column}")?;
        } else {
            let text = Shown(self.stood.text, STOOD_BYTES);
            write!(f, "; at column {column} stands: {text}")?;
        }
        match self.passed {
            Some(rate) => {
                f.write_str("; ")?;
                fmt_rate(rate, f)
            }
            None => Ok(()),
        }
    }

    /// Returns whether a specific cause of the fault is known.
    pub fn has_cause(&self) -> bool {
        self.passed.is_some() || self.hint.is_some()
    }

    /// Writes the specific cause, if it is known.
    pub fn fmt_cause<W: fmt::Write>(&self, f: &mut fmt::Formatter<W>) -> fmt::Result {
        match (self.passed, self.hint) {
            (Some(rate), _) => fmt_rate(rate, f),
            (None, Some(hint)) => f.write_str(hint),
            (None, None) => Ok(()),
        }
    }

    /// Writes the hint.
    fn fmt_hint<W: fmt::Write>(&self, f: &mut fmt::Formatter<W>) -> fmt::Result {
        match self.hint {
            Some(hint) => write!(f, "; {hint}"),
            None => Ok(()),
        }
    }

    /// Writes the details without the line itself.
    pub fn fmt_brief<W: fmt::Write>(&self, f: &mut fmt::Formatter<W>) -> fmt::Result {
        self.fmt_stood(f)?;
        self.fmt_hint(f)
    }
}

/// Writes the frame rate of the list.
fn fmt_rate<W: fmt::Write>(rate: Rate, f: &mut fmt::Formatter<W>) -> fmt::Result {
    let frames = rate.frames_per_second();
    write!(f, "the list has {frames} frames a second")
}

impl fmt::Display for LineAtFault<'_> {
    fn fmt<W: fmt::Write>(&self, f: &mut fmt::Formatter<W>) -> fmt::Result {
        self.fmt_stood(f)?;
        let line = Shown(self.line, SHOWN_BYTES);
        write!(f, "; the line is: {line}")?;
        self.fmt_hint(f)
    }
}
