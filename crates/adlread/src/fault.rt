// Errors of reading a list.
ghost use Rattle.std.specs.Prelude.{◌≡◌, ◌≤◌, ◌+◌, Ok, Err, MatchResult, length};
ghost use Rattle.list_terms.specs.declared.Location.TheVariants as location;
ghost use Rattle.adltoken.specs.Spans.{first_span};
ghost use Rattle.adlread.specs.Fault.{entry_of, index_of, line_of, refusal};
ghost use Rattle.adlread.specs.Fault as spec;
ghost use Rattle.adlread.specs.FaultSpans.{first_of_line};
ghost use Rattle.adlread.specs.declared.fault.AdlFault.TheVariants.{Text, Memory};
ghost use Rattle.adlread.specs.declared.fault.LineFault.TheVariants as line;

use adltoken::{Span, Tokens};
use list_terms::{Location, TextFault};
use std::alloc::{AllocError, AllocFailed};
use thiserror::Error;

/// The reason why a text isn't a project.
#[derive(Clone, Copy, Debug, PartialEq, Eq, Error)]
pub enum AdlFault {
    /// 1 to 17: a fault of the text, its location, and its byte range in the line.
    ///
    /// The range is the faulty token, or the first token if the whole line is faulty. If no token can be cut, it
    /// extends to the end of the line; if a token is missing, it is empty and at the end of the line. A byte order
    /// mark before the list doesn't count as part of the first line.
    #[error("the text of the list is at fault")]
    Text {
        fault: TextFault,
        location: Location,
        stood: Span,
    },
    /// 18: out of memory.
    #[error("out of memory")]
    Memory,
}

impl AdlFault {
    /// Returns the refusal number, 1 to 18.
    pub fn number(&self) -> u8
        ensures { result ≡ (refusal self.now).number }
    {
        match self {
            AdlFault::Text { fault, .. } => fault.number(),
            AdlFault::Memory => 18,
        }
    }

    /// Returns the faulty line, counted from 1, or 0 if out of memory.
    pub fn line(&self) -> u64
        ensures { result ≡ line_of self.now }
    {
        match self {
            AdlFault::Text { location, .. } => line_of_location(*location),
            AdlFault::Memory => 0,
        }
    }

    /// Returns the number of the entry that the faulty line belongs to, if any.
    pub fn entry(&self) -> Option<u32>
        ensures { result ≡ entry_of self.now }
    {
        match self {
            AdlFault::Text {
                location: Location::Entry { entry, .. },
                ..
            } => Some(*entry),
            _ => None,
        }
    }

    /// Returns the number of the index that the faulty line defines, if known.
    pub fn index(&self) -> Option<u32>
        ensures { result ≡ index_of self.now }
    {
        match self {
            AdlFault::Text {
                location: Location::Index { index, .. },
                ..
            } => Some(*index),
            _ => None,
        }
    }
}

fn line_of_location(location: Location) -> u64
    ensures { result ≡ spec.line_of_location location }
{
    match location {
        Location::Line { line } | Location::Entry { line, .. } | Location::Index { line, .. } =>
            line,
    }
}

/// A fault of a line, before its location is attached.
#[derive(Clone, Copy, Debug)]
pub enum LineFault {
    Text(TextFault),
    Memory,
}

impl LineFault {
    /// Attaches the location and the byte range.
    pub fn at(self, location: Location, stood: Span) -> AdlFault
        ensures { result ≡ spec.located location stood self }
    {
        match self {
            LineFault::Text(fault) => AdlFault::Text {
                fault,
                location,
                stood,
            },
            LineFault::Memory => AdlFault::Memory,
        }
    }
}

/// Attaches a location and a byte range to a fault.
pub fn located<T>(
    said: Result<T, TextFault>,
    location: Location,
    stood: Span,
) -> Result<T, AdlFault>
    ensures { MatchResult said (λ x. result ≡ Ok x) (λ fault. result ≡ Err (Text fault location stood)) }
{
    match said {
        Ok(value) => Ok(value),
        Err(fault) => Err(AdlFault::Text {
            fault,
            location,
            stood,
        }),
    }
}

/// Returns a fault in the line with this number.
pub fn at_line(fault: TextFault, number: u64, stood: Span) -> AdlFault
    ensures { result ≡ Text fault (location.Line number) stood }
{
    AdlFault::Text {
        fault,
        location: Location::Line { line: number },
        stood,
    }
}

/// Returns the byte range of a line's first token.
#[tactic(auto, using(crate::proofs::SpanLaws::span_of_line))]
pub fn first_in(line: &[u8]) -> Span
    ensures first { result ≡ first_span 0 line.now }
    ensures line { result ≡ first_of_line line.now }
    ensures inside { result.at + result.length ≤ length line.now }
{
    Tokens::new(line).stood()
}

impl From<TextFault> for LineFault {
    ghost from_gives = { λ fault line_fault. line_fault ≡ line.Text fault };

    fn from(fault: TextFault) -> Self {
        LineFault::Text(fault)
    }
}

impl From<AllocError> for LineFault {
    ghost from_gives = { λ _ fault. fault ≡ line.Memory };

    fn from(_: AllocError) -> Self {
        LineFault::Memory
    }
}

impl<T: Drop> From<AllocFailed<T>> for LineFault {
    ghost from_gives = { λ _ fault. fault ≡ line.Memory };

    fn from(_: AllocFailed<T>) -> Self {
        LineFault::Memory
    }
}

impl From<AllocError> for AdlFault {
    ghost from_gives = { λ _ fault. fault ≡ Memory };

    fn from(_: AllocError) -> Self {
        AdlFault::Memory
    }
}

impl<T: Drop> From<AllocFailed<T>> for AdlFault {
    ghost from_gives = { λ _ fault. fault ≡ Memory };

    fn from(_: AllocFailed<T>) -> Self {
        AdlFault::Memory
    }
}
