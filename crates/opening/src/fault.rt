// Reasons to refuse a list.
ghost use Rattle.std.specs.Prelude.{◌≡◌};
ghost use Rattle.opening.specs.Faults.{refusal_of};

use adlread::AdlFault;
use projectcheck::EventFault;
use thiserror::Error;
use wavread::MediaFault;

/// The reason why a list isn't accepted with these files, in the order in which they are checked.
#[derive(Debug, Drop, Error)]
pub enum Fault {
    /// An invalid list text: 1 to 18.
    #[error("{0}")]
    List(AdlFault),
    /// 30: a source with an earlier index names this file by another path.
    #[error("index {index}: another path names its file")]
    SameName {
        index: u32,
    },
    /// An unusable source file: 21 to 29, or 31 if out of memory while binding the index.
    ///
    /// `name` is the file name; it is `None` only if there was no memory for it.
    #[error("index {index}: {fault}")]
    Media {
        index: u32,
        name: Option<String>,
        fault: MediaFault,
    },
    /// An invalid entry: 41 to 44, or 46.
    #[error("{0}")]
    Entry(EventFault),
}

impl Fault {
    /// Returns the number of the refusal.
    pub fn number(&self) -> u8
        ensures { result ≡ (refusal_of self.now).number }
    {
        match self {
            Fault::List(fault) => fault.number(),
            Fault::SameName { .. } => 30,
            Fault::Media { fault, .. } => fault.number(),
            Fault::Entry(fault) => fault.number(),
        }
    }
}
