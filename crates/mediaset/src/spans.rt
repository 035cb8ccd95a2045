// Spans of kept sample frames around single pieces.
ghost use Rattle.std.specs.Prelude.{◌≡◌, ◌++◌, IfOk, OnOk, option_to_list};
ghost use Rattle.std.specs.List.{All, flat_map, fold};
ghost use Rattle.sound_terms.specs.Groups.{IsPiece, pieces_of};
ghost use Rattle.mediaset.specs.Spans as spec;
ghost use Rattle.mediaset.specs.Spans.{gathered, put_span};

use groups::{Intervals, Piece, group_pieces};
use sound_terms::Homes;
use std::alloc::{AllocError, Global};

/// The sample frames of a file from `first` up to `end`, exclusive. The key combines the position of the file's
/// home index with `first`.
#[derive(Clone, Copy, Debug, PartialEq, Eq)]
pub struct Span {
    pub key: u64,
    pub file: u32,
    pub first: u64,
    pub end: u64,
}

/// An upper bound on the sample frames of a day, a power of two.
const DAY_ROOM: u64 = 4_294_967_296;

/// Returns the span of a piece, extended by `handle` on both sides and cut to the sample frames in reach.
fn span_of(piece: &Piece, homes: &Homes, handle: u64) -> Option<Span>
    requires { IsPiece piece.now }
    ensures { option_to_list result ≡ spec.span_of homes.now handle piece.now }
{
    let home = homes.get(piece.file)?;
    let first = piece.frame.saturating_sub(handle);
    let end = (piece.frame + piece.length)
        .saturating_add(handle)
        .min(home.addressable);
    if first >= end {
        return None;
    }
    Some(Span {
        key: u64::from(home.position) * DAY_ROOM + first,
        file: piece.file,
        first,
        end,
    })
}

/// Returns whether a span begins within the last one or at its end, so that both can be joined.
fn goes_on(last: &Span, span: &Span) -> bool
    ensures { result ≡ spec.goes_on last.now span.now }
{
    last.file == span.file && last.first <= span.first && span.first <= last.end
}

/// Joins a span to the last one if possible (the usual case), or else appends it.
fn push_span(spans: &mut Vec<Span>, span: Span) -> Result<(), AllocError>
    ensures { OnOk result (spans.new.items ≡ put_span spans.old.items span) }
{
    let Some(last) = spans.pop() else {
        spans.push(span)?;
        return Ok(());
    };
    if goes_on(&last, &span) {
        spans.push(Span {
            end: last.end.max(span.end),
            ..last
        })?;
        return Ok(());
    }
    spans.push(last)?;
    spans.push(span)?;
    Ok(())
}

/// Adds the spans of pieces.
fn push_spans(
    pieces: &[Piece],
    homes: &Homes,
    handle: u64,
    spans: &mut Vec<Span>,
) -> Result<(), AllocError>
    requires { All IsPiece pieces.now }
    ensures { OnOk result (spans.new.items
        ≡ fold put_span spans.old.items (flat_map (spec.span_of homes.now handle) pieces.now)) }
{
    for piece in pieces {
        if let Some(span) = span_of(piece, homes, handle) {
            push_span(spans, span)?;
        }
    }
    Ok(())
}

/// Returns the spans of all pieces of the groups, each joined to the one before if possible.
pub fn spans_of(
    alloc: Global,
    intervals: &Intervals,
    homes: &Homes,
    handle: u64,
) -> Result<Vec<Span>, AllocError>
    ensures { IfOk result (λ spans. spans.items
        ≡ gathered (flat_map (spec.span_of homes.now handle) (pieces_of intervals.now))) }
{
    let mut spans = Vec::with_capacity(alloc, intervals.piece_count())?;
    for group in intervals.groups() {
        push_spans(group_pieces(group).as_slice(), homes, handle, &mut spans)?;
    }
    Ok(spans)
}
