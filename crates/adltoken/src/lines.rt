// Iteration over the lines of a text.
ghost use Rattle.std.specs.Prelude.{◌≡◌, ◌≤◌, ◌<◌, ◌+◌, ◌==◌, [], ◌∷◌, MatchOption, None, length};
ghost use Rattle.std.specs.List.{list_any, position_or_len};
ghost use Rattle.list_terms.specs.Lines.{lines_in, lines_of, byte_order_mark};
ghost use Rattle.list_terms.specs.Lines as spec;

use crate::Tokens;
use crate::names::length_before;
use std::marker::Model;

/// A reader of lines: the unread text, and the number of the last line read (0 before the first).
#[derive(Drop)]
pub struct Lines<'a> {
    rest: &'a [u8],
    number: u64,
}

impl<'a> Model for Lines<'a> {
    ghost use Rattle.std.specs.Prelude.{◌+◌, ◌^◌, ◌<◌, length};
    ghost use Rattle.list_terms.specs.Lines.{lines_in, LinesLeft};

    ghost Value = { LinesLeft };

    ghost view = { λ l. record { number = l.number; lines = lines_in l.rest.now } };

    ghost invariant = { λ l. l.number + length l.rest.now < 2 ^ 64 };
}

impl<'a> Lines<'a> {
    /// Starts at the first line of a text, after a byte order mark if there is one.
    #[tactic(auto, unfolding(list_terms::specs::Lines::lines_of))]
    pub fn new(text: &'a [u8]) -> Self
        ensures { result ≡ record { number = 0; lines = lines_of text.now } }
    {
        Lines {
            rest: without_mark(text),
            number: 0,
        }
    }

    /// Returns the next line without its line end, or `None` at the end of the text.
    pub fn next_line(&mut self) -> Option<&'a [u8]>
        ensures line { MatchOption result ((self.old.lines ≡ []) × (self.new ≡ self.old))
            (λ line. (self.old.lines ≡ line.now ∷ self.new.lines) × (self.new.number ≡ self.old.number + 1)) }
    {
        if self.rest.is_empty() {
            return None;
        }
        let (line, rest) = first_line(self.rest);
        self.rest = rest;
        self.number += 1;
        Some(line)
    }

    /// Returns the tokens of a line that `next_line` returned last. Their faults name its number.
    pub fn tokens(&self, line: &'a [u8]) -> Tokens<'a>
        ensures number { result.number ≡ self.now.number }
        ensures rest { result.rest.now ≡ line.now }
        ensures at { result.at ≡ 0 }
        ensures last { result.last ≡ None }
    {
        Tokens::numbered(line, self.number)
    }

    /// Returns the number of the last line read, counted from 1, or 0 before the first line.
    pub fn number(&self) -> u64
        ensures { result ≡ self.now.number }
    {
        self.number
    }
}

/// Strips a leading UTF-8 byte order mark.
fn without_mark(text: &[u8]) -> &[u8]
    ensures mark { result.now ≡ spec.without_mark text.now }
    ensures shorter { length result.now ≤ length text.now }
{
    text.strip_prefix(b"\xEF\xBB\xBF").unwrap_or(text)
}

/// Splits a text after its first line. The line comes without its end.
fn first_line(text: &[u8]) -> (&[u8], &[u8])
    requires { 0 < length text.now }
    ensures line { lines_in text.now ≡ result.0.now ∷ lines_in result.1.now }
    ensures shorter { length result.1.now < length text.now }
{
    let (line, rest) = text.split_at(line_length(text));
    match rest {
        [_, rest @ ..] => (without_cr(line), rest),
        [] => (without_cr(line), rest),
    }
}

/// Returns the length of the first line, excluding its LF. Equal to `length_before(b'
/// ', text)`, but tests eight bytes at a time.
fn line_length(text: &[u8]) -> usize
    ensures position { result ≡ position_or_len (λ byte. byte == 10) text.now }
    ensures inside { result ≤ length text.now }
{
    let mut rest = text;
    let mut before = 0;
    while let [a, b, c, d, e, f, g, h, after @ ..] = rest {
        if has_line_feed([*a, *b, *c, *d, *e, *f, *g, *h]) {
            break;
        }
        rest = after;
        before += 8;
    }
    before + length_before(b'\n', rest)
}

#[inline(always)]
fn has_line_feed(bytes: [u8; 8]) -> bool
    ensures { result ≡ list_any (λ byte. byte == 10) bytes }
{
    let [a, b, c, d, e, f, g, h] = bytes;
    let first = (a == b'\n') | (b == b'\n') | (c == b'\n') | (d == b'\n');
    let second = (e == b'\n') | (f == b'\n') | (g == b'\n') | (h == b'\n');
    first | second
}

fn without_cr(text: &[u8]) -> &[u8]
    ensures { result.now ≡ spec.without_cr text.now }
{
    text.strip_suffix(b"\r").unwrap_or(text)
}
