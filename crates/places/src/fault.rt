// Why a command didn't come to its stores.
ghost use Rattle.std.specs.Prelude.{◌≡◌};
ghost use Rattle.console.specs.Places.{where_of};
ghost use Rattle.places.specs.Opening.{refusal_of_opening};

use crate::list_file::ReadFault;
use console::{Place, Refusal};
use std::alloc::AllocError;
use std::io;

/// Why a command didn't come to its stores.
#[derive(Clone, Copy, Debug)]
pub enum OpenFault {
    /// The list wasn't read.
    List(ReadFault),
    /// The folder of the output can't be listed, for this reason.
    Unlisted(io::Error),
    /// Something is in the folder of the output.
    NotEmpty,
    /// Another command is at work in the folder of the output.
    Busy,
    /// Files would be replaced in the folder of the media.
    Media,
    /// A file of the output that would be written to is the list or a source, or has another name.
    Shared,
    /// Out of memory for the stores.
    Memory,
    /// Out of memory for the passes.
    Passes,
}

impl OpenFault {
    /// The refusal of a command over this list that writes to this folder.
    pub fn refusal<'a>(self, list: &'a str, out: &'a str) -> Refusal<'a>
        ensures number { result.number ≡ (refusal_of_opening self list.entry.now out.entry.now).number }
        ensures location { where_of result.location ≡ (refusal_of_opening self list.entry.now out.entry.now).location }
    {
        match self {
            OpenFault::List(fault) => fault.refusal(list),
            OpenFault::Unlisted(_)
            | OpenFault::NotEmpty
            | OpenFault::Busy
            | OpenFault::Media
            | OpenFault::Shared => Refusal::of_file(20, out),
            OpenFault::Memory => Refusal::MEMORY,
            OpenFault::Passes => Refusal {
                number: 51,
                location: Place::Nowhere,
            },
        }
    }

    /// What the system said of it.
    pub fn reason(self) -> Option<io::Error> {
        match self {
            OpenFault::List(fault) => fault.reason(),
            OpenFault::Unlisted(error) => Some(error),
            OpenFault::NotEmpty
            | OpenFault::Busy
            | OpenFault::Media
            | OpenFault::Shared
            | OpenFault::Memory
            | OpenFault::Passes => None,
        }
    }
}

impl From<ReadFault> for OpenFault {
    fn from(fault: ReadFault) -> Self {
        OpenFault::List(fault)
    }
}

impl From<AllocError> for OpenFault {
    fn from(_: AllocError) -> Self {
        OpenFault::Memory
    }
}
