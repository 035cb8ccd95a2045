// The text at a fault in a line.
ghost use Rattle.std.specs.Prelude.{◌≤◌, ◌+◌, length};

use adlread::Span;

/// The text at a fault in a line, empty at the end of the line, and its column. Columns count bytes from 1.
#[derive(Clone, Copy)]
pub struct Stood<'a> {
    pub column: usize,
    pub text: &'a [u8],
}

/// Returns the text of a span, clipped to the line.
pub fn stood_at<'a>(line: &'a [u8], span: Span) -> Stood<'a>
    ensures column { (1 ≤ result.column) × (result.column ≤ length line.now + 1) }
    ensures inside { result.column + length result.text.now ≤ length line.now + 1 }
{
    let (front, rest) = line.split_at(span.at.min(line.len()));
    let (text, _) = rest.split_at(span.length.min(rest.len()));
    Stood {
        column: front.len().saturating_add(1),
        text,
    }
}
