// Errors of checking entries.
ghost use Rattle.std.specs.Prelude.{◌≡◌};
ghost use Rattle.projectcheck.specs.Fault.{number_of, refusal_of};

use thiserror::Error;

/// A fault of an entry, in the order of precedence.
#[derive(Clone, Copy, Debug, PartialEq, Eq, Error)]
pub enum EntryFault {
    /// 41: no source has the number of its index.
    #[error("no source has the index's number")]
    UnknownIndex,
    /// 42: it ends before it starts.
    #[error("it ends before it starts")]
    EndBeforeStart,
    /// 43: its fades are longer than the entry.
    #[error("its fades are longer than it is")]
    FadesTooLong,
    /// 44: its file has no such channel.
    #[error("its file has no such channel")]
    SourceChannel,
    /// 46: its index can't address all samples that it plays.
    #[error("its file doesn't have all the frames that it plays")]
    SpanOutside,
}

impl EntryFault {
    /// Returns the refusal number: 41 to 44, or 46.
    pub fn number(&self) -> u8
        ensures { result ≡ number_of self.now }
    {
        match self {
            EntryFault::UnknownIndex => 41,
            EntryFault::EndBeforeStart => 42,
            EntryFault::FadesTooLong => 43,
            EntryFault::SourceChannel => 44,
            EntryFault::SpanOutside => 46,
        }
    }
}

/// The first faulty entry, by its number, and its fault.
#[derive(Clone, Copy, Debug, PartialEq, Eq, Error)]
#[error("entry {entry}: {fault}")]
pub struct EventFault {
    pub entry: u32,
    pub fault: EntryFault,
}

impl EventFault {
    /// Returns the refusal number: 41 to 44, or 46.
    pub fn number(&self) -> u8
        ensures { result ≡ (refusal_of self.now).number }
    {
        self.fault.number()
    }
}
