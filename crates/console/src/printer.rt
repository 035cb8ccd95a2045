// An output on a writer, with one write per line.
ghost use Rattle.std.specs.Prelude.{◌≡◌, IfOk, IsOk, IsErr, nat_lt};
ghost use Rattle.std.specs.Io.Buffered.{writer_contents, writer_inner};
ghost use Rattle.work_terms.specs.Disk.{HasCause};

use crate::console::Console;
use std::alloc::Global;
use std::fmt::Display;
use std::io;
use std::io::{BufWriter, Write};

/// An output that passes up to 8192 bytes to its writer in one write, and counts failed writes.
#[derive(Drop)]
pub struct Printer<W: Write + Drop> {
    writer: BufWriter<W>,
    failures: u64,
}

impl<W: Write + Drop> Printer<W> {
    /// Creates an output without failures. Returns an error if out of memory.
    pub fn new(alloc: Global, writer: W) -> io::Result<Self>
        ensures fresh { IfOk result (λ printer. printer.failures ≡ 0) }
        ensures writer { IfOk result (λ printer. writer_inner printer.writer ≡ writer) }
    {
        Ok(Printer {
            writer: BufWriter::new(alloc, writer)?,
            failures: 0,
        })
    }

    /// Returns whether a print has failed.
    pub fn has_failed(&self) -> bool
        ensures { result ≡ nat_lt 0 self.now.failures }
    {
        self.failures > 0
    }

    /// Counts a failed write. The count stays at its maximum.
    fn count(&mut self, outcome: io::Result<()>)
        ensures writer { self.new.writer ≡ self.old.writer }
        ensures cause { HasCause self.old.failures self.new.failures (IsOk outcome) (IsErr outcome) }
    {
        if outcome.is_err() {
            self.failures = self.failures.saturating_add(1);
        }
    }
}

impl<W: Write + Drop> Console for Printer<W> {
    ghost contents = { λ printer. writer_contents W.contents printer.writer };

    ghost failures = { λ printer. printer.failures };

    fn put(&mut self, text: &[u8]) {
        let outcome = self.writer.write_all(text);
        self.count(outcome);
    }

    fn end_line(&mut self) {
        let ended = self.writer.write_all(b"\n");
        self.count(ended);
        let sent = self.writer.flush();
        self.count(sent);
    }

    fn print<D: Display + Drop>(&mut self, text: D) {
        let outcome = self.writer.write_fmt(text);
        self.count(outcome);
        let sent = self.writer.flush();
        self.count(sent);
    }

    fn print_line<D: Display + Drop>(&mut self, text: D) {
        let outcome = self.writer.writeln(text);
        self.count(outcome);
        let sent = self.writer.flush();
        self.count(sent);
    }
}
