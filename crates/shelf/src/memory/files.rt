// Files by name, with their contents.
ghost use Rattle.std.specs.Prelude.{◌≡◌, ◌+◌, ◌<◌, ℕ, false, IsTrue, None, List, length, IfOk, OnOk, OnErr, IfSome, IfNone, IsSomeAnd, ◌≤◌, option_copied, option_map, string_bytes};
ghost use Rattle.work_terms.specs.Disk.{Changes, IsRange};
ghost use Rattle.shelf.specs.Files.{IsMade, IsOutside, IsPut, KeepsFiles, files_of};
ghost use Rattle.shelf.specs.History.{done, has_place, left_of, note_of, or_else, placed, spoilt_by, with_bytes};

use super::call::{Call, Kind};
use devices::DeviceFault;
use std::alloc::{AllocError, Global};
use std::collections::BTreeMap;

/// Files by name, with their contents.
#[derive(Drop)]
pub struct NamedFiles {
    alloc: Global,
    files: BTreeMap<String, Vec<u8>>,
}

impl NamedFiles {
    /// Creates an empty set of files.
    pub fn new(alloc: Global) -> Self
        ensures { (name : List ℕ) → files_of result name ≡ None }
    {
        NamedFiles {
            alloc,
            files: BTreeMap::new(alloc),
        }
    }

    /// Returns the contents of the file, or `None` if it doesn't exist.
    pub fn get(&self, name: &str) -> Option<&[u8]>
        ensures { option_copied result ≡ files_of self.now name.now }
    {
        self.files.get(name).map(|bytes| bytes.as_slice())
    }

    /// Returns the length of the file in bytes, or `None` if it doesn't exist.
    pub fn length(&self, name: &str) -> Option<u64>
        ensures { result ≡ option_map (λ bytes. length bytes) (files_of self.now name.now) }
    {
        self.get(name).map(|bytes| bytes.len() as u64)
    }

    /// Creates the file with these contents, or replaces its contents.
    pub fn put(&mut self, name: &str, bytes: &[u8]) -> Result<(), AllocError>
        ensures put { OnOk result (Changes (IsPut bytes.now) name.now (files_of self.old) (files_of self.new)) }
        ensures unchanged { KeepsFiles self.old self.new result }
    {
        let name = String::from_str(self.alloc, name)?;
        self.files.insert(name, bytes.to_vec(self.alloc)?)?;
        Ok(())
    }

    /// Returns whether the file exists and contains the `count` bytes from offset `at` on.
    pub fn has_range(&self, name: &str, at: u64, count: usize) -> bool
        ensures { IsTrue result → IsSomeAnd (files_of self.now name.now) (λ file. at + count ≤ length file) }
    {
        match self.get(name) {
            None => false,
            Some(file) => place_of(at, count, file.len()).is_some(),
        }
    }

    /// Writes the bytes at offset `at` if the file exists and has room for `count` bytes there.
    pub fn write(
        &mut self,
        name: &str,
        kind: Kind,
        at: u64,
        count: usize,
        bytes: &[u8],
    ) -> Result<(), AllocError>
        ensures placed { OnOk result (Changes (IsMade (option_map (with_bytes kind at count bytes.now))) name.now
            (files_of self.old) (files_of self.new)) }
        ensures unchanged { KeepsFiles self.old self.new result }
    {
        let Some(file) = self.files.get_mut(name) else {
            return Ok(());
        };
        match place_in(file, kind, at, count, bytes) {
            Ok(()) => return Ok(()),
            Err(fault) => return Err(fault),
        }
    }

    /// Repeats the effect of a recorded call.
    pub fn apply(&mut self, call: &Call) -> Result<(), AllocError>
        ensures done { OnOk result (Changes (IsMade (done (note_of call.now))) (string_bytes call.now.name)
            (files_of self.old) (files_of self.new)) }
        ensures unchanged { KeepsFiles self.old self.new result }
    {
        let name = call.name.as_str();
        match call.kind {
            Kind::Create => if call.part == 0 {
                Ok(())
            } else {
                self.put(name, &[])
            },
            Kind::Append => self.write(
                name,
                Kind::Append,
                call.at,
                call.bytes.len(),
                call.written(),
            ),
            Kind::Write => self.write(name, Kind::Write, call.at, call.bytes.len(), call.written()),
            Kind::Sync => Ok(()),
        }
    }

    /// Applies the effect that a call has after a crash; `read` are the files as they were read before the call.
    pub fn lose(
        &mut self,
        read: &NamedFiles,
        call: &Call,
        kept: u64,
        fill: u8,
    ) -> Result<(), AllocError>
        ensures left { OnOk result (Changes (IsMade (left_of kept fill (note_of call.now)
            (files_of read.now (string_bytes call.now.name)))) (string_bytes call.now.name)
            (files_of self.old) (files_of self.new)) }
    {
        let name = call.name.as_str();
        match call.kind {
            Kind::Create => if kept == 0 || call.part == 0 {
                Ok(())
            } else {
                self.put(name, &[])
            },
            Kind::Append => {
                let bytes = spoilt(self.alloc, call.written(), kept, fill)?;
                self.write(
                    name,
                    Kind::Append,
                    call.at,
                    call.bytes.len(),
                    bytes.as_slice(),
                )
            }
            Kind::Write => {
                let bytes = spoilt(self.alloc, call.written(), kept, fill)?;
                self.write(
                    name,
                    Kind::Write,
                    call.at,
                    call.bytes.len(),
                    bytes.as_slice(),
                )
            }
            Kind::Sync => self.put_again(read, name),
        }
    }

    /// Restores the contents of the file from `read`, if it exists there.
    fn put_again(&mut self, read: &NamedFiles, name: &str) -> Result<(), AllocError>
        ensures put { OnOk result (Changes (IsMade (or_else (files_of read.now name.now))) name.now
            (files_of self.old) (files_of self.new)) }
    {
        let Some(bytes) = read.get(name) else {
            return Ok(());
        };
        match self.put(name, bytes) {
            Ok(()) => return Ok(()),
            Err(fault) => return Err(fault),
        }
    }

    /// Returns a copy of the files.
    pub fn copied(&self) -> Result<NamedFiles, AllocError>
        ensures { IfOk result (λ copy. (name : List ℕ) → files_of copy name ≡ files_of self.now name) }
    {
        let files = self.files.clone()?;
        Ok(NamedFiles {
            alloc: self.alloc,
            files,
        })
    }

    /// Fills the buffer with the bytes from offset `at` on. Returns an error if the range isn't inside the file.
    pub fn read_at(&self, name: &str, at: u64, buffer: &mut [u8]) -> Result<(), DeviceFault>
        ensures read { OnOk result (IsRange (files_of self.now name.now) at buffer.new) }
        ensures outside { OnErr result (IsOutside (files_of self.now name.now) at (length buffer.old)) }
    {
        let file = self.get(name).ok_or(DeviceFault)?;
        let at = place_of(at, buffer.len(), file.len()).ok_or(DeviceFault)?;
        buffer.copy_from_slice(&file[at..at + buffer.len()]);
        Ok(())
    }
}

/// Returns the offset as an index if the range is inside a file of `file_length` bytes.
fn place_of(at: u64, count: usize, file_length: usize) -> Option<usize>
    ensures inside { IfSome result (λ offset. (offset ≡ at) × (at + count ≤ file_length)) }
    ensures outside { IfNone result (file_length < at + count) }
{
    let at = usize::try_from(at).ok()?;
    let end = at.checked_add(count)?;
    if end <= file_length { Some(at) } else { None }
}

/// Returns the offset as an index if a call of this kind may write `count` bytes there.
fn place_for(kind: Kind, at: u64, count: usize, length: usize) -> Option<usize>
    ensures offset { IfSome result (λ offset. (offset ≡ at) × IsTrue (has_place kind at count length)) }
    ensures none { IfNone result (has_place kind at count length ≡ false) }
{
    let at = usize::try_from(at).ok()?;
    let count = match kind {
        Kind::Create => return None,
        Kind::Append => 0,
        Kind::Write => count,
        Kind::Sync => return None,
    };
    if at <= length && count <= length - at {
        Some(at)
    } else {
        None
    }
}

/// Writes the bytes at offset `at` if a call of this kind may write `count` bytes there.
fn place_in(
    file: &mut Vec<u8>,
    kind: Kind,
    at: u64,
    count: usize,
    bytes: &[u8],
) -> Result<(), AllocError>
    ensures placed { OnOk result (file.new.items ≡ with_bytes kind at count bytes.now file.old.items) }
    ensures unchanged { OnErr result (file.new.items ≡ file.old.items) }
{
    match place_for(kind, at, count, file.len()) {
        None => Ok(()),
        Some(offset) => write_over(file, offset, bytes),
    }
}

/// Overwrites the bytes from offset `at` on and extends the file if necessary.
fn write_over(file: &mut Vec<u8>, at: usize, bytes: &[u8]) -> Result<(), AllocError>
    requires { at ≤ length file.old.items }
    ensures placed { OnOk result (file.new.items ≡ placed at bytes.now file.old.items) }
    ensures unchanged { OnErr result (file.new.items ≡ file.old.items) }
{
    let over = (file.len() - at).min(bytes.len());
    file.extend_from_slice(&bytes[over..])?;
    copy_over(file.as_mut_slice(), at, &bytes[..over]);
    Ok(())
}

/// Overwrites the bytes from offset `at` on.
fn copy_over(file: &mut [u8], at: usize, bytes: &[u8])
    requires { at + length bytes.now ≤ length file.old }
    ensures { file.new ≡ placed at bytes.now file.old }
{
    file[at..at + bytes.len()].copy_from_slice(bytes);
}

/// Returns the bytes with all after the first `kept` replaced by `fill`.
fn spoilt(alloc: Global, bytes: &[u8], kept: u64, fill: u8) -> Result<Vec<u8>, AllocError>
    ensures { IfOk result (λ spoilt. spoilt.items ≡ spoilt_by kept fill bytes.now) }
{
    let kept = (kept as usize).min(bytes.len());
    let mut spoilt = bytes[..kept].to_vec(alloc)?;
    spoilt.resize(bytes.len(), fill)?;
    Ok(spoilt)
}
