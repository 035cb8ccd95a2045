// What a file is, whatever its names are.
use std::fs::Metadata;
use std::os::unix::fs::MetadataExt;

/// The device that a file is on, and its inode number there.
#[derive(Clone, Copy, Debug, PartialEq, Eq, PartialOrd, Ord)]
pub struct Identity {
    device: u64,
    number: u64,
}

impl Identity {
    /// Returns the identity of the file with this metadata.
    pub fn of(found: &Metadata) -> Self {
        Identity {
            device: found.dev(),
            number: found.ino(),
        }
    }
}
