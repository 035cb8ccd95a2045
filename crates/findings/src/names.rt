// Safe display of file names and other arguments.
use console::is_unseen;
use percent_encoding::percent_encode_byte;
use std::fmt;
use std::fmt::Display;

/// A name for display: characters that are invisible in a line ([`console::is_unseen`]) are percent-encoded as UTF-8.
#[derive(Clone, Copy)]
pub struct PrintedName<'a>(pub &'a str);

impl fmt::Display for PrintedName<'_> {
    fn fmt<W: fmt::Write>(&self, f: &mut fmt::Formatter<W>) -> fmt::Result {
        for character in self.0.chars() {
            write_character(character, f)?;
        }
        Ok(())
    }
}

/// A text of several lines for display, which may quote arguments: like [`PrintedName`], but line feeds are kept.
#[derive(Clone, Copy)]
pub struct PrintedLines<'a>(pub &'a str);

impl fmt::Display for PrintedLines<'_> {
    fn fmt<W: fmt::Write>(&self, f: &mut fmt::Formatter<W>) -> fmt::Result {
        for character in self.0.chars() {
            if character == '\n' {
                f.write_str("\n")?;
            } else {
                write_character(character, f)?;
            }
        }
        Ok(())
    }
}

/// Writes a character, percent-encoded if it is invisible in a line.
fn write_character<W: fmt::Write>(character: char, f: &mut fmt::Formatter<W>) -> fmt::Result {
    if !is_unseen(character) {
        return write!(f, "{character}");
    }
    let mut buffer = [0; 4];
    let text: &str = character.encode_utf8(&mut buffer);
    for byte in text.as_bytes() {
        f.write_str(percent_encode_byte(*byte))?;
    }
    Ok(())
}
