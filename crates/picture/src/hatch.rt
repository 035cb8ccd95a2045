// Hatching of samples that entries play but their files lack.
use crate::scale::Scale;
use crate::shown::Missing;
use sound_terms::Event;
use std::fmt;

/// Writes the definition of the hatching pattern.
pub fn put_pattern<W: fmt::Write>(f: &mut fmt::Formatter<W>) -> fmt::Result {
    write!(
        f,
        "<defs><pattern id='missing' width='6' height='6' patternUnits='userSpaceOnUse'"
    )?;
    write!(f, " patternTransform='rotate(45)'>")?;
    writeln!(
        f,
        "<path d='M0 0V6' stroke='#000' stroke-width='3'/></pattern></defs>"
    )
}

/// Hatches the missing samples of an entry within `span`, in a lane with the given top and height
/// in pixels.
pub fn put_missing<W: fmt::Write>(
    f: &mut fmt::Formatter<W>,
    span: (u64, u64),
    event: &Event,
    missing: Missing,
    top: u64,
    high: u64,
) -> fmt::Result {
    let (start, end) = (event.dest_in.get(), event.dest_out.get());
    put_stretch(f, span, start, missing.before, top, high)?;
    let from = end.saturating_sub(missing.after);
    put_stretch(f, span, from, missing.after, top, high)
}

/// Hatches `samples` samples from `start` on, clipped to `span`.
fn put_stretch<W: fmt::Write>(
    f: &mut fmt::Formatter<W>,
    span: (u64, u64),
    start: u64,
    samples: u64,
    top: u64,
    high: u64,
) -> fmt::Result {
    let from = start.max(span.0);
    let to = start.saturating_add(samples).min(span.1);
    if to <= from {
        return Ok(());
    }
    let scale = Scale::new(span.0, span.1);
    let left = scale.position(from);
    let width = scale.width(to - from);
    writeln!(
        f,
        "<rect x='{left}' y='{top}' width='{width}' height='{high}' fill='url(#missing)'/>"
    )
}
