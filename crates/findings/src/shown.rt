// Display of bytes of a list.
use percent_encoding::percent_encode_byte;
use std::fmt;
use std::fmt::Display;

/// The first bytes of a text for display, up to the given number: printable ASCII unchanged, tabs as blanks, other
/// bytes percent-encoded.
#[derive(Clone, Copy)]
pub struct Shown<'a>(pub &'a [u8], pub usize);

impl fmt::Display for Shown<'_> {
    fn fmt<W: fmt::Write>(&self, f: &mut fmt::Formatter<W>) -> fmt::Result {
        for byte in self.0.iter().take(self.1) {
            match *byte {
                b' '..=b'~' => write!(f, "{}", char::from(*byte))?,
                b'\t' => f.write_str(" ")?,
                other => f.write_str(percent_encode_byte(other))?,
            }
        }
        if self.0.len() > self.1 {
            f.write_str(" ..")?;
        }
        Ok(())
    }
}
