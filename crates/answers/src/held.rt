// Lines that are held in memory until it is known whether they are printed.
ghost use Rattle.std.specs.Prelude.{◌≡◌, [], Some, IfSome};

use console::Console;
use std::alloc::Global;
use std::fmt::Display;

/// A console in memory: what was printed on it, and how often no memory was found for a text, which is then a failure.
#[derive(Drop)]
pub struct HeldLines {
    alloc: Global,
    pub bytes: Vec<u8>,
    pub failures: u64,
}

impl HeldLines {
    /// No lines.
    pub fn new(alloc: Global) -> Self
        ensures bytes { result.bytes.items ≡ [] }
        ensures failures { result.failures ≡ 0 }
    {
        HeldLines {
            alloc,
            bytes: Vec::new(alloc),
            failures: 0,
        }
    }

    /// The lines, unless no memory was found for a part of them.
    pub fn text(&self) -> Option<&[u8]>
        ensures { IfSome result (λ text. (text.now ≡ self.now.bytes.items) × (self.now.failures ≡ 0)) }
    {
        if self.failures > 0 {
            return None;
        }
        Some(self.bytes.as_slice())
    }
}

impl Console for HeldLines {
    ghost contents = { λ held. Some held.bytes.items };

    ghost failures = { λ held. held.failures };

    fn put(&mut self, text: &[u8]) {
        if self.bytes.extend_from_slice(text).is_err() {
            self.failures = self.failures.saturating_add(1);
        }
    }

    fn end_line(&mut self) {
        self.put(b"\n");
    }

    fn print<D: Display + Drop>(&mut self, text: D) {
        match format!(in self.alloc; "{text}") {
            Ok(text) => self.put(text.as_bytes()),
            Err(_) => self.failures = self.failures.saturating_add(1),
        }
    }

    fn print_line<D: Display + Drop>(&mut self, text: D) {
        self.print(text);
        self.end_line();
    }
}
