// The header sections, whose lines are kept verbatim.
ghost use Rattle.std.specs.Prelude.{◌≡◌, ◌++◌, ◌∷◌, [], IfOk, OnErr, OnOk};
ghost use Rattle.adlmodel.specs.Header.{header_view};

use crate::bytes::Bytes;
use std::alloc::{AllocError, Global};
use std::marker::Model;

/// The lines of a section, without their line ends.
#[derive(Debug, Drop)]
pub struct KeptLines {
    lines: Vec<Bytes>,
}

impl Model for KeptLines {
    ghost use Rattle.std.specs.Prelude.{List, ℕ};

    ghost Value = { List (List ℕ) };

    ghost view = { λ k. k.lines.items };
}

impl KeptLines {
    /// Returns a section without lines.
    pub fn new(alloc: Global) -> Self
        ensures { result ≡ [] }
    {
        KeptLines {
            lines: Vec::new(alloc),
        }
    }

    /// Appends a line. Returns `AllocError` if out of memory, and then leaves the lines unchanged.
    pub fn push(&mut self, alloc: Global, line: &[u8]) -> Result<(), AllocError>
        ensures pushed { OnOk result (self.new ≡ self.old ++ line.now ∷ []) }
        ensures unchanged { OnErr result (self.new ≡ self.old) }
    {
        let line = Bytes::from_slice(alloc, line)?;
        self.lines.push(line)?;
        Ok(())
    }

    /// Copies the lines. Returns `AllocError` if out of memory.
    pub fn try_copy(&self) -> Result<Self, AllocError>
        ensures { IfOk result (λ copy. copy ≡ self.now) }
    {
        let mut lines = Vec::new(*self.lines.allocator());
        for line in self.lines.as_slice() {
            let copy = line.try_copy()?;
            lines.push(copy)?;
        }
        Ok(KeptLines { lines })
    }

    /// Returns the lines.
    pub fn as_slice(&self) -> &[Bytes]
        ensures { result.now ≡ self.now }
    {
        self.lines.as_slice()
    }
}

/// The lines of VERSION, PROJECT, SYSTEM, SEQUENCE and TRACKLIST; `None` for a section that the list doesn't have.
#[derive(Debug)]
pub struct Header {
    pub version: Option<KeptLines>,
    pub project: Option<KeptLines>,
    pub system: Option<KeptLines>,
    pub sequence: Option<KeptLines>,
    pub track_list: Option<KeptLines>,
}

// Written by hand so that callers drop a header with a single call.
impl Drop for Header {
    fn drop(self) {
        let Header {
            version,
            project,
            system,
            sequence,
            track_list,
        } = self;
        drop(version);
        drop(project);
        drop(system);
        drop(sequence);
        drop(track_list);
    }
}

impl Header {
    /// Copies the header. Returns `AllocError` if out of memory.
    pub fn try_copy(&self) -> Result<Self, AllocError>
        ensures { IfOk result (λ copy. header_view copy ≡ header_view self.now) }
    {
        let version = copied(&self.version)?;
        let project = copied(&self.project)?;
        let system = copied(&self.system)?;
        let sequence = copied(&self.sequence)?;
        let track_list = copied(&self.track_list)?;
        Ok(Header {
            version,
            project,
            system,
            sequence,
            track_list,
        })
    }
}

fn copied(lines: &Option<KeptLines>) -> Result<Option<KeptLines>, AllocError>
    ensures { IfOk result (λ copy. copy ≡ lines.now) }
{
    match lines {
        Some(lines) => {
            let copy = lines.try_copy()?;
            Ok(Some(copy))
        }
        None => Ok(None),
    }
}
