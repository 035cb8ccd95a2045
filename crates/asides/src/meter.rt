// Progress display of a command.
use devices::{Unwatched, Watch};

/// A progress display that can be cleared.
pub trait Meter: Watch + Drop {
    /// Clears the display.
    fn clear(&mut self);
}

impl Meter for Unwatched {
    fn clear(&mut self) {}
}
