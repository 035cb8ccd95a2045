// Sources that changed while a command read them.
use findings::PrintedName;
use std::fmt;
use std::fmt::Display;

/// Maximum number of sources displayed.
const MOST: usize = 20;

/// The names of sources that were changed or removed while a command ran, displayed one per line: at most 20, and the
/// number of the others.
#[derive(Clone, Copy)]
pub struct ChangedSources<'a>(pub &'a [&'a str]);

impl fmt::Display for ChangedSources<'_> {
    fn fmt<W: fmt::Write>(&self, f: &mut fmt::Formatter<W>) -> fmt::Result {
        for name in self.0.iter().take(MOST) {
            let name = PrintedName(name);
            writeln!(
                f,
                "the source {name} changed while the command ran: run it again"
            )?;
        }
        match self.0.len().checked_sub(MOST) {
            None | Some(0) => Ok(()),
            Some(more) => writeln!(f, "and {more} more sources"),
        }
    }
}
