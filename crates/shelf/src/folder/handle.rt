// An open file.
ghost use Rattle.std.specs.Prelude.{◌≡◌, ◌+◌, ◌^◌, ◌<◌, ◌≤◌, ◌↔◌, All, length, IsTrue, IsErr, IfOk, OnOk, OnErr};

use std::fs::OpenFile;
use std::io;
use std::io::{Error, ErrorKind};
use std::os::unix::fs::FileExt;

/// Maximum number of bytes per write. Much larger writes are slower.
const AT_ONCE: usize = 262_144;

/// An open file with its length in bytes, and whether it was synced after it was opened and last written. Nothing else
/// may write to the file while it is open.
#[derive(Drop)]
pub struct Handle<F: OpenFile + FileExt + Drop> {
    file: F,
    length: u64,
    is_synced: bool,
}

impl<F: OpenFile + FileExt + Drop> Handle<F> {
    /// Creates a handle from an open file of `length` bytes.
    pub fn new(file: F, length: u64) -> Self
        ensures { result.length ≡ length }
    {
        Handle {
            file,
            length,
            is_synced: false,
        }
    }

    /// Returns the length of the file in bytes.
    pub fn length(&self) -> u64
        ensures { result ≡ self.now.length }
    {
        self.length
    }

    /// Fills the buffer with the bytes from offset `at` on. Returns an error if the range isn't inside the file, or if
    /// the file was truncated by others.
    pub fn read_at(&self, at: u64, buffer: &mut [u8]) -> io::Result<()>
        ensures outside { self.now.length < at + length buffer.old → IsErr result }
    {
        self.require_inside(at, buffer.len())?;
        self.file.read_exact_at(buffer, at)
    }

    /// Overwrites the bytes from offset `at` on. Returns an error if the range isn't inside the file.
    pub fn write_at(&mut self, at: u64, bytes: &[u8]) -> io::Result<()>
        ensures outside { self.old.length < at + length bytes.now → IsErr result }
        ensures length { self.new.length ≡ self.old.length }
    {
        self.require_inside(at, bytes.len())?;
        self.is_synced = false;
        self.write_pieces(at, bytes)
    }

    /// Writes in pieces that end at multiples of `AT_ONCE` in the file, so that the system stores the file in few,
    /// large extents.
    fn write_pieces(&self, at: u64, bytes: &[u8]) -> io::Result<()> {
        let room = AT_ONCE - (at % AT_ONCE as u64) as usize;
        let (first, others) = bytes.split_at(room.min(bytes.len()));
        self.file.write_all_at(first, at)?;
        let mut at = at.saturating_add(first.len() as u64);
        for piece in others.chunks(AT_ONCE) {
            self.file.write_all_at(piece, at)?;
            at = at.saturating_add(piece.len() as u64);
        }
        Ok(())
    }

    /// Appends the bytes to the file. If all of them are zero, they become a hole, on file systems with holes. After an
    /// `Err` the file may have grown by some of the bytes.
    pub fn append(&mut self, bytes: &[u8]) -> io::Result<()>
        ensures end { OnOk result (self.new.length ≡ self.old.length + length bytes.now) }
        ensures same_end { OnErr result (self.new.length ≡ self.old.length) }
    {
        if is_silent(bytes) {
            return self.append_zeros(bytes.len() as u64);
        }
        let end = end_of(self.length, bytes.len())?;
        self.is_synced = false;
        self.write_pieces(self.length, bytes)?;
        self.length = end;
        Ok(())
    }

    /// Appends `count` zeros in one call.
    pub fn append_zeros(&mut self, count: u64) -> io::Result<()>
        ensures end { OnOk result (self.new.length ≡ self.old.length + count) }
        ensures same_end { OnErr result (self.new.length ≡ self.old.length) }
    {
        let end = end_of(self.length, count as usize)?;
        self.is_synced = false;
        self.file.set_len(end)?;
        self.length = end;
        Ok(())
    }

    /// Waits until the bytes of the file are on the disk.
    pub fn sync(&mut self) -> io::Result<()>
        ensures { self.new.length ≡ self.old.length }
    {
        self.file.sync_all()?;
        self.is_synced = true;
        Ok(())
    }

    /// Syncs the file unless it was synced after it was opened and last written.
    pub fn sync_written(&mut self) -> io::Result<()>
        ensures { self.new.length ≡ self.old.length }
    {
        if self.is_synced { Ok(()) } else { self.sync() }
    }

    /// Returns an error unless the `count` bytes from offset `at` on are inside the file.
    fn require_inside(&self, at: u64, count: usize) -> io::Result<()>
        ensures inside { OnOk result (at + count ≤ self.now.length) }
        ensures outside { OnErr result (self.now.length < at + count) }
    {
        let length = self.length;
        if end_of(at, count)? <= length {
            Ok(())
        } else {
            Err(Error::from(ErrorKind::UnexpectedEof))
        }
    }
}

/// Returns the end of a range, or an error if it doesn't fit in 64 bits.
fn end_of(at: u64, count: usize) -> io::Result<u64>
    ensures end { IfOk result (λ end. end ≡ at + count) }
    ensures too_far { OnErr result (2 ^ 64 ≤ at + count) }
{
    at.checked_add(count as u64)
        .ok_or(Error::from(ErrorKind::FileTooLarge))
}

/// Returns whether all bytes are zero.
fn is_silent(bytes: &[u8]) -> bool
    ensures { IsTrue result ↔ All (λ byte. byte ≡ 0) bytes.now }
{
    match bytes {
        [first, ..] if *first != 0 => false,
        _ => greatest(bytes) == 0,
    }
}

/// Returns the greatest byte, or 0 for an empty slice. The loop doesn't exit early, so that it can be vectorised.
fn greatest(bytes: &[u8]) -> u8
    ensures { result ≡ 0 ↔ All (λ byte. byte ≡ 0) bytes.now }
{
    let mut greatest = 0;
    for byte in bytes {
        greatest = greatest.max(*byte);
    }
    greatest
}
