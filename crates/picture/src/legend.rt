// Legend boxes.
use std::fmt;

/// Writes a legend box at a position in pixels, with the given SVG attributes.
pub fn put_box<W: fmt::Write>(
    f: &mut fmt::Formatter<W>,
    left: u64,
    top: u64,
    attributes: &str,
) -> fmt::Result {
    writeln!(
        f,
        "<rect x='{left}' y='{top}' width='24' height='12'{attributes}/>"
    )
}
