// The output of the program.
ghost use Rattle.std.specs.Prelude.{ℕ, Option, List, [], ◌∷◌};
ghost use Rattle.console.specs.Printing.{Prints};

use std::fmt::Display;

/// An output for text. A print can fail only because of the underlying writer, and failures are
/// counted.
pub trait Console {
    /// The text printed so far, if known.
    ghost contents: { Self → Option (List ℕ) };

    /// Number of failed prints, in 64 bits: at the maximum a failure isn't counted any more.
    ghost failures: { Self → ℕ };

    /// Appends bytes to the current line.
    fn put(&mut self, text: &[u8])
        ensures { Prints contents failures self.old self.new text.now };

    /// Ends the current line and flushes the output.
    fn end_line(&mut self)
        ensures { Prints contents failures self.old self.new (10 ∷ []) };

    /// Prints a text outside of any contract and flushes the output.
    fn print<D: Display + Drop>(&mut self, text: D);

    /// Prints a text outside of any contract, followed by a line feed, in one write.
    fn print_line<D: Display + Drop>(&mut self, text: D);
}
