// Escaping of names in XML.
use std::fmt;

/// A text escaped for XML 1.0. Characters that XML doesn't allow become the replacement character.
#[derive(Clone, Copy)]
pub struct Escaped<'a>(pub &'a str);

impl fmt::Display for Escaped<'_> {
    fn fmt<W: fmt::Write>(&self, f: &mut fmt::Formatter<W>) -> fmt::Result {
        for character in self.0.chars() {
            put_character(f, character)?;
        }
        Ok(())
    }
}

/// Writes an escaped character.
fn put_character<W: fmt::Write>(f: &mut fmt::Formatter<W>, character: char) -> fmt::Result {
    match character {
        '&' => f.write_str("&amp;"),
        '<' => f.write_str("&lt;"),
        '>' => f.write_str("&gt;"),
        '"' => f.write_str("&quot;"),
        '\'' => f.write_str("&apos;"),
        '\u{fffe}' | '\u{ffff}' => f.write_char('\u{fffd}'),
        other if other.is_control() => f.write_char('\u{fffd}'),
        other => f.write_char(other),
    }
}
