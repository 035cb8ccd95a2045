// Errors of binding.
ghost use Rattle.std.specs.Prelude.{◌≡◌, ◌≤◌, None, Some, option_map, string_bytes};
ghost use Rattle.riff.specs.declared.fault.MediaFault.TheVariants as media;
ghost use Rattle.sourceindex.specs.declared.fault.SourceFault.TheVariants as of_source;
ghost use Rattle.sourceindex.specs.Fault.{at_index, refusal_of};

use adlmodel::Place;
use std::alloc::AllocError;
use thiserror::Error;
use wavread::MediaFault;

/// The reason why an index can't be bound.
#[derive(Clone, Copy, Debug, PartialEq, Eq, Error)]
pub enum SourceFault {
    /// An earlier index names the file by another path.
    #[error("another path names its file")]
    SameName,
    /// The file isn't accepted, the device failed, or out of memory.
    #[error("{0}")]
    Media(MediaFault),
}

impl From<MediaFault> for SourceFault {
    ghost from_gives = { λ fault own. own ≡ of_source.Media fault };

    fn from(fault: MediaFault) -> SourceFault {
        SourceFault::Media(fault)
    }
}

impl From<AllocError> for SourceFault {
    ghost from_gives = { λ fault own. own ≡ of_source.Media media.Memory };

    fn from(_: AllocError) -> SourceFault {
        SourceFault::Media(MediaFault::Memory)
    }
}

impl SourceFault {
    /// Attaches the name of the file at this location.
    pub fn at(self, location: Place) -> NamedFault
        ensures fault { result.fault ≡ self }
        ensures name { option_map string_bytes result.name ≡ Some location.name }
    {
        NamedFault {
            fault: self,
            name: Some(location.into_name()),
        }
    }
}

/// The reason why an index can't be bound, and the name of its file (`None` if out of memory).
#[derive(Debug, Drop)]
pub struct NamedFault {
    pub fault: SourceFault,
    pub name: Option<String>,
}

impl From<AllocError> for NamedFault {
    ghost from_gives = { λ fault own. own ≡ record { fault = of_source.Media media.Memory; name = None } };

    fn from(_: AllocError) -> NamedFault {
        NamedFault {
            fault: SourceFault::Media(MediaFault::Memory),
            name: None,
        }
    }
}

impl NamedFault {
    /// Attaches the number of the index.
    pub fn of_index(self, index: u32) -> BindFault
        ensures { result ≡ at_index index self }
    {
        let NamedFault { fault, name } = self;
        match fault {
            SourceFault::SameName => BindFault::SameName { index },
            SourceFault::Media(fault) => BindFault::Media { index, name, fault },
        }
    }
}

/// The reason why a project can't be bound: the first faulty index.
#[derive(Debug, Drop, Error)]
pub enum BindFault {
    /// 30: an earlier index names the file by another path.
    #[error("index {index}: another path names its file")]
    SameName {
        index: u32,
    },
    /// 21 to 29: the file of the index isn't accepted; 22 if its device failed; 31 if out of memory. The name is
    /// `None` only if there was no memory for it.
    #[error("index {index}: {fault}")]
    Media {
        index: u32,
        name: Option<String>,
        fault: MediaFault,
    },
}

impl BindFault {
    /// Returns the refusal number, 21 to 31.
    pub fn number(&self) -> u8
        ensures number { result ≡ (refusal_of self.now).number }
        ensures within { (21 ≤ result) × (result ≤ 31) }
    {
        match self {
            BindFault::SameName { .. } => 30,
            BindFault::Media { fault, .. } => fault.number(),
        }
    }
}
