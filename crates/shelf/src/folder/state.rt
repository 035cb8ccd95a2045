// The state of a file by which a later change is recognised.
use super::identity::Identity;
use std::fs::Metadata;
use std::os::unix::fs::MetadataExt;

/// Which file it is, its length in bytes, and when it was last written to: seconds since 1970 and nanoseconds.
#[derive(Clone, Copy, PartialEq, Eq)]
pub struct State {
    pub identity: Identity,
    length: u64,
    seconds: i64,
    nanoseconds: i64,
}

impl State {
    /// Returns the state of the file with this metadata.
    pub fn of(found: &Metadata) -> Self {
        State {
            identity: Identity::of(found),
            length: found.len(),
            seconds: found.mtime(),
            nanoseconds: found.mtime_nsec(),
        }
    }
}
