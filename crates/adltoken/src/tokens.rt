// Iteration over the tokens of a line.
ghost use Rattle.std.specs.Prelude.{◌≡◌, ◌≤◌, ◌<◌, ◌+◌, ◌^◌, ◌++◌, ℕ, List, IfErr, IfOk, IfSome, None, Ok, OnErr, Some, length, option_map};
ghost use Rattle.std.specs.List.{prefix_len};
ghost use Rattle.std.proofs.Props.{props};
ghost use Rattle.list_terms.specs.Steps.{err_map, ok_map};
ghost use Rattle.list_terms.specs.Tokens as spec;
ghost use Rattle.list_terms.specs.Tokens.{token_text};
ghost use Rattle.adltoken.specs.Fault.{IsTokenFault, line_of, text_fault};
ghost use Rattle.adltoken.specs.Spans.{first_span};
ghost use Rattle.adltoken.specs.Views.{cut_view, token_view};

use crate::TokenFault;
use crate::blanks::{is_blank, skip_blanks};
use list_terms::{TextFault, TokenKind};

/// A token of a line: its kind, the content without quotes or parentheses, the full text, and its offset in the
/// line in bytes.
#[derive(Clone, Copy, Debug)]
pub struct Token<'a> {
    pub kind: TokenKind,
    pub content: &'a [u8],
    pub text: &'a [u8],
    pub at: usize,
}

/// A byte range of a line: its offset from the start of the line, and its length.
#[derive(Clone, Copy, Debug, PartialEq, Eq)]
pub struct Span {
    pub at: usize,
    pub length: usize,
}

impl<'a> Token<'a> {
    /// Returns the byte range of this token.
    pub fn span(&self) -> Span
        ensures { result ≡ record { at = self.now.at; length = length self.now.text.now } }
    {
        Span {
            at: self.at,
            length: self.text.len(),
        }
    }
}

/// A reader of tokens: the line's number, the unread rest of the line, its offset in bytes, and the byte range of
/// the last token requested, if any.
#[derive(Drop)]
pub struct Tokens<'a> {
    pub number: u64,
    pub rest: &'a [u8],
    pub at: usize,
    pub last: Option<Span>,
    ghost fits: { at + length rest.now < 2 ^ 64 },
    ghost inside: { IfSome last (λ span. span.at + span.length ≤ at + length rest.now) } by { Prim.hlevel props },
}

impl<'a> Tokens<'a> {
    /// Starts at the first byte of a line whose number doesn't matter. Faults name line 0.
    pub fn new(line: &'a [u8]) -> Self
        ensures rest { result.rest.now ≡ line.now }
        ensures at { result.at ≡ 0 }
        ensures last { result.last ≡ None }
    {
        Tokens::numbered(line, 0)
    }

    /// Starts at the first byte of the line with the given number, which faults report.
    pub fn numbered(line: &'a [u8], number: u64) -> Self
        ensures number { result.number ≡ number }
        ensures rest { result.rest.now ≡ line.now }
        ensures at { result.at ≡ 0 }
        ensures last { result.last ≡ None }
    {
        Tokens {
            number,
            rest: line,
            at: 0,
            last: None,
        }
    }

    /// Returns the byte range to blame for a fault: the last token requested, or the first token if none was
    /// requested yet. If no token can be cut there, the range is the rest of the line without leading blanks; at
    /// the end of the line it is empty.
    pub fn stood(&self) -> Span
        ensures last { IfSome self.now.last (λ span. result ≡ span) }
        ensures first { self.now.last ≡ None → result ≡ first_span self.now.at self.now.rest.now }
        ensures inside { result.at + result.length ≤ self.now.at + length self.now.rest.now }
    {
        match self.last {
            Some(span) => span,
            None => span_of_first(self.rest, self.at),
        }
    }

    /// Returns the next token, or `None` if only spaces and tabs are left.
    ///
    /// Returns a `TokenFault` with this line's number if the text there isn't a token. After a fault or `None` the
    /// reader stays in place.
    pub fn next_token(&mut self) -> Result<Option<Token<'a>>, TokenFault>
        ensures exact { err_map text_fault (ok_map (λ next. option_map (λ token. (token_view token, self.new.rest.now)) next)
            result) ≡ spec.token_at self.old.rest.now }
        ensures number { IfErr result (λ fault. line_of fault ≡ self.old.number) }
        ensures shorter { IfOk result (λ next. IfSome next (λ token.
            length self.new.rest.now < length self.old.rest.now)) }
        ensures whole { IfOk result (λ next. IfSome next (λ token. token.text.now ≡ token_text (token_view token))) }
        ensures position { IfOk result (λ next. IfSome next (λ token.
            (token.at + length token.text.now ≡ self.new.at)
            × (self.new.last ≡ Some (record { at = token.at; length = length token.text.now })))) }
        ensures line { self.new.at + length self.new.rest.now ≡ self.old.at + length self.old.rest.now }
        ensures stood { self.new.last ≡ Some (first_span self.old.at self.old.rest.now) }
        ensures same_number { self.new.number ≡ self.old.number }
        ensures none { result ≡ Ok None → (self.new.rest.now ≡ self.old.rest.now) × (self.new.at ≡ self.old.at) }
        ensures unchanged { OnErr result ((self.new.rest.now ≡ self.old.rest.now) × (self.new.at ≡ self.old.at)) }
    {
        match self.cut_next() {
            Ok(next) => Ok(next),
            Err(fault) => Err(TokenFault::in_line(fault, self.number)),
        }
    }

    /// Returns the next token like `next_token`, but with a fault that names no line.
    #[tactic(auto, unfolding(list_terms::specs::Tokens::token_at))]
    pub fn cut_next(&mut self) -> Result<Option<Token<'a>>, TextFault>
        ensures exact { ok_map (λ next. option_map (λ token. (token_view token, self.new.rest.now)) next) result
            ≡ spec.token_at self.old.rest.now }
        ensures shorter { IfOk result (λ next. IfSome next (λ token.
            length self.new.rest.now < length self.old.rest.now)) }
        ensures whole { IfOk result (λ next. IfSome next (λ token. token.text.now ≡ token_text (token_view token))) }
        ensures position { IfOk result (λ next. IfSome next (λ token.
            (token.at + length token.text.now ≡ self.new.at)
            × (self.new.last ≡ Some (record { at = token.at; length = length token.text.now })))) }
        ensures line { self.new.at + length self.new.rest.now ≡ self.old.at + length self.old.rest.now }
        ensures stood { self.new.last ≡ Some (first_span self.old.at self.old.rest.now) }
        ensures fault { IfErr result IsTokenFault }
        ensures same_number { self.new.number ≡ self.old.number }
        ensures none { result ≡ Ok None → (self.new.rest.now ≡ self.old.rest.now) × (self.new.at ≡ self.old.at) }
        ensures unchanged { OnErr result ((self.new.rest.now ≡ self.old.rest.now) × (self.new.at ≡ self.old.at)) }
    {
        let line = skip_blanks(self.rest);
        let at = self.at + (self.rest.len() - line.len());
        self.last = Some(Span {
            at,
            length: line.len(),
        });
        let Some(cut) = first_token(line)? else {
            return Ok(None);
        };
        let text = without_end(line, cut.rest);
        self.rest = cut.rest;
        self.at = at + text.len();
        self.last = Some(Span {
            at,
            length: text.len(),
        });
        Ok(Some(Token {
            kind: cut.kind,
            content: cut.content,
            text,
            at,
        }))
    }
}

/// Returns the byte range of the first token in the rest of a line, which starts at offset `before`.
#[tactic(auto, unfolding(list_terms::specs::Tokens::token_at))]
fn span_of_first(rest: &[u8], before: usize) -> Span
    requires { before + length rest.now < 2 ^ 64 }
    ensures first { result ≡ first_span before rest.now }
    ensures inside { result.at + result.length ≤ before + length rest.now }
{
    let line = skip_blanks(rest);
    let at = before + (rest.len() - line.len());
    let length = match first_token(line) {
        Ok(Some(cut)) => line.len() - cut.rest.len(),
        Ok(None) | Err(_) => line.len(),
    };
    Span { at, length }
}

/// Removes `rest` from the end of a line.
fn without_end<'a>(line: &'a [u8], rest: &[u8]) -> &'a [u8]
    requires { length rest.now ≤ length line.now }
    ensures front { (front : List ℕ) → line.now ≡ front ++ rest.now → result.now ≡ front }
    ensures length { length result.now + length rest.now ≡ length line.now }
{
    let length = line.len() - rest.len();
    line.split_at(length).0
}

/// A token cut off the front of a line, and the rest of the line.
#[derive(Clone, Copy)]
pub struct Cut<'a> {
    kind: TokenKind,
    content: &'a [u8],
    rest: &'a [u8],
}

/// Cuts the first token off a line without leading blanks. Returns `None` if the line is empty.
#[inline(always)]
fn first_token(line: &[u8]) -> Result<Option<Cut<'_>>, TextFault>
    ensures fault { IfErr result IsTokenFault }
    ensures exact { ok_map (λ next. option_map cut_view next) result ≡ spec.token_from line.now }
    ensures whole { IfOk result (λ next. IfSome next (λ cut. line.now ≡ token_text (cut_view cut).0 ++ cut.rest.now)) }
    ensures shorter { IfOk result (λ next. IfSome next (λ cut. length cut.rest.now < length line.now)) }
{
    match line {
        [] => Ok(None),
        [b'"', rest @ ..] => {
            let cut = quoted(rest)?;
            Ok(Some(cut))
        }
        [b'(', rest @ ..] => {
            let cut = keyword(rest)?;
            Ok(Some(cut))
        }
        [byte, ..] => {
            if is_word_byte(*byte) {
                Ok(Some(word(line)))
            } else {
                Err(byte_fault(*byte))
            }
        }
    }
}

/// Cuts quoted text off a line, starting after the opening quotation mark.
fn quoted(line: &[u8]) -> Result<Cut<'_>, TextFault>
    ensures fault { IfErr result IsTokenFault }
    ensures exact { ok_map (λ cut. Some (cut_view cut)) result ≡ spec.quoted line.now }
    ensures inside { IfOk result (λ cut. length cut.rest.now ≤ length line.now) }
{
    let (content, rest) = line.split_at(quoted_length(line));
    closed(TokenKind::Quoted, b'"', content, rest)
}

/// Cuts a keyword off a line, starting after the opening parenthesis.
fn keyword(line: &[u8]) -> Result<Cut<'_>, TextFault>
    ensures fault { IfErr result IsTokenFault }
    ensures exact { ok_map (λ cut. Some (cut_view cut)) result ≡ spec.keyword line.now }
    ensures inside { IfOk result (λ cut. length cut.rest.now ≤ length line.now) }
{
    let (content, rest) = line.split_at(word_length(line));
    if content.is_empty() {
        return Err(fault_at(rest));
    }
    closed(TokenKind::Keyword, b')', content, rest)
}

/// Cuts off a word.
fn word(line: &[u8]) -> Cut<'_>
    ensures exact { cut_view result ≡ spec.word line.now }
{
    let (content, rest) = line.split_at(word_length(line));
    Cut {
        kind: TokenKind::Word,
        content,
        rest,
    }
}

/// Completes a token if the rest starts with its closing byte.
fn closed<'a>(
    kind: TokenKind,
    close: u8,
    content: &'a [u8],
    rest: &'a [u8],
) -> Result<Cut<'a>, TextFault>
    ensures fault { IfErr result IsTokenFault }
    ensures exact { ok_map (λ cut. Some (cut_view cut)) result ≡ spec.closed kind close content.now rest.now }
    ensures inside { IfOk result (λ cut. length cut.rest.now ≤ length rest.now) }
{
    match rest {
        [byte, rest @ ..] if *byte == close => Ok(Cut {
            kind,
            content,
            rest,
        }),
        _ => Err(fault_at(rest)),
    }
}

fn quoted_length(line: &[u8]) -> usize
    ensures count { result ≡ prefix_len spec.is_quoted_byte line.now }
    ensures inside { result ≤ length line.now }
{
    line.iter()
        .take_while(|byte| is_quoted_byte(**byte))
        .count()
}

fn word_length(line: &[u8]) -> usize
    ensures count { result ≡ prefix_len spec.is_word_byte line.now }
    ensures inside { result ≤ length line.now }
{
    line.iter().take_while(|byte| is_word_byte(**byte)).count()
}

/// Returns whether a byte may occur in a word or keyword. Most such bytes are above `)`, so that test comes first.
fn is_word_byte(byte: u8) -> bool
    ensures { result ≡ spec.is_word_byte byte }
{
    (byte > b')' && byte < 127) || matches!(byte, b'!' | b'#'..=b'\'')
}

fn is_quoted_byte(byte: u8) -> bool
    ensures { result ≡ spec.is_quoted_byte byte }
{
    !matches!(byte, b'"' | b'\r')
}

/// Returns the fault of an unfinished token: an invalid byte, or the end of the line.
fn fault_at(rest: &[u8]) -> TextFault
    ensures fault { IsTokenFault result }
    ensures exact { result ≡ spec.open_fault rest.now }
{
    match rest {
        [] => TextFault::BadLine,
        [byte, ..] => byte_fault(*byte),
    }
}

fn byte_fault(byte: u8) -> TextFault
    ensures fault { IsTokenFault result }
    ensures exact { result ≡ spec.byte_fault byte }
{
    if is_blank(byte) || (byte >= b' ' && byte < 127) {
        TextFault::BadLine
    } else {
        TextFault::BadByte
    }
}
