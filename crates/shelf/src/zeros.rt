// A large source file that needs little memory.
ghost use Rattle.std.specs.Prelude.{◌≡◌, ◌+◌, ◌≤◌, ◌++◌, max, take, drop, replicate, ℕ, true, List, length, OnOk, string_bytes, ⊤};
ghost use Rattle.work_terms.specs.Disk.{IsRange};
ghost use Rattle.shelf.specs.Zeros.{file_named, padded, zero_failures, zero_files};

use crate::failures::counted;
use devices::{DeviceFault, Shelf, ShelfFault};

/// A source of any length that consists of the given first bytes and then zeros. Only the first bytes are stored. For
/// tests with long files.
#[derive(Drop)]
pub struct ZeroShelf {
    name: String,
    head: Vec<u8>,
    length: u64,
    failures: u64,
}

impl ZeroShelf {
    /// Creates a shelf with one file `name` of `length` bytes: `head`, then zeros. If `head` is longer than `length`,
    /// it is the whole file.
    pub fn new(name: String, head: Vec<u8>, length: u64) -> Self
        ensures files { zero_files result ≡ file_named (string_bytes name) (padded head.items length) }
        ensures failures { zero_failures result ≡ 0 }
    {
        ZeroShelf {
            name,
            head,
            length,
            failures: 0,
        }
    }

    /// Returns the number of failed calls.
    pub fn failures(&self) -> u64
        ensures { result ≡ zero_failures self.now }
    {
        self.failures
    }

    /// Returns the length of the file in bytes.
    fn whole(&self) -> u64
        ensures { result ≡ length (padded self.now.head.items self.now.length) }
    {
        self.length.max(self.head.len() as u64)
    }

    /// Fills the buffer with the bytes from offset `at` on. Returns an error if the range isn't inside the file, or if
    /// `name` is another file.
    fn read(&self, name: &str, at: u64, buffer: &mut [u8]) -> Result<(), DeviceFault>
        ensures { OnOk result (IsRange (zero_files self.now name.now) at buffer.new) }
    {
        let end = at.checked_add(buffer.len() as u64).ok_or(DeviceFault)?;
        if self.name.as_str() != name || end > self.whole() {
            return Err(DeviceFault);
        }
        copy_padded(&self.head, at, buffer);
        Ok(())
    }
}

/// Fills the buffer with the bytes from offset `at` on of `head` padded with zeros.
fn copy_padded(head: &[u8], at: u64, buffer: &mut [u8])
    ensures { (n : ℕ) → at + length buffer.old ≤ length (padded head.now n)
        → buffer.new ≡ take (length buffer.old) (drop at (padded head.now n)) }
{
    buffer.fill(0);
    let from = at.min(head.len() as u64) as usize;
    let count = buffer.len().min(head.len() - from);
    buffer[..count].copy_from_slice(&head[from..from + count]);
}

impl Shelf for ZeroShelf {
    ghost stored = { zero_files };

    ghost honest = { λ _. true };

    ghost failures = { zero_failures };

    /// No file name is recorded.
    ghost failed_at = { λ _ _. ⊤ };

    fn length(&mut self, name: &str) -> Result<u64, ShelfFault> {
        if self.name.as_str() == name {
            Ok(self.whole())
        } else {
            Err(ShelfFault::NotFound)
        }
    }

    fn read_at(&mut self, name: &str, at: u64, buffer: &mut [u8]) -> Result<(), ShelfFault> {
        let outcome = self.read(name, at, buffer);
        Ok(counted(&mut self.failures, outcome)?)
    }
}
