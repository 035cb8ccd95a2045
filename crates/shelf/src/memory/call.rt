// A recorded call that changes files.
ghost use Rattle.std.specs.Prelude.{◌≡◌, IfOk, string_bytes, take};

use std::alloc::{AllocError, Global};

/// The kind of a call.
#[derive(Clone, Copy, PartialEq, Eq)]
pub enum Kind {
    /// Creates an empty file, or truncates an existing one.
    Create,
    /// Appends bytes.
    Append,
    /// Overwrites bytes.
    Write,
    /// Makes all earlier changes of the file survive a crash.
    Sync,
}

/// A call with its arguments and the part of it that was performed.
#[derive(Drop)]
pub struct Call {
    /// Name of the file.
    pub name: String,
    pub kind: Kind,
    /// Offset of the first byte.
    pub at: u64,
    /// The bytes to write.
    pub bytes: Vec<u8>,
    /// Number of bytes written. For a create, 0 if it didn't create the file.
    pub part: u64,
}

impl Call {
    /// Creates a call with copies of the name and the bytes.
    pub fn new(
        alloc: Global,
        name: &str,
        kind: Kind,
        at: u64,
        bytes: &[u8],
        part: u64,
    ) -> Result<Self, AllocError>
        ensures name { IfOk result (λ call. string_bytes call.name ≡ name.now) }
        ensures kind { IfOk result (λ call. call.kind ≡ kind) }
        ensures at { IfOk result (λ call. call.at ≡ at) }
        ensures bytes { IfOk result (λ call. call.bytes.items ≡ bytes.now) }
        ensures part { IfOk result (λ call. call.part ≡ part) }
    {
        let name = String::from_str(alloc, name)?;
        let bytes = bytes.to_vec(alloc)?;
        Ok(Call {
            name,
            kind,
            at,
            bytes,
            part,
        })
    }

    /// Returns the bytes that were written.
    pub fn written(&self) -> &[u8]
        ensures { result.now ≡ take self.now.part self.now.bytes.items }
    {
        match self.bytes.get(..self.part as usize) {
            Some(written) => written,
            None => self.bytes.as_slice(),
        }
    }
}
