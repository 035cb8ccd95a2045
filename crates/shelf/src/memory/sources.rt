// Sources in memory.
ghost use Rattle.std.specs.Prelude.{◌≡◌, ℕ, true, None, List, IfOk, ⊤};
ghost use Rattle.work_terms.specs.Disk.{Changes};
ghost use Rattle.shelf.specs.Files.{IsPut};
ghost use Rattle.shelf.specs.Memory.{shelf_files, shelf_failures, shelf_stretch};

use super::device::Device;
use super::files::NamedFiles;
use devices::{Shelf, ShelfFault};
use std::alloc::{AllocError, Global};

/// Source files in memory, whose calls can be made to fail.
pub struct MemoryShelf {
    files: NamedFiles,
    device: Device,
}

// Written out so that dropping a shelf is a single call.
impl Drop for MemoryShelf {
    fn drop(self) {
        let MemoryShelf { files, device: _ } = self;
        drop(files);
    }
}

impl MemoryShelf {
    /// Creates a shelf without files, whose calls don't fail.
    pub fn new(alloc: Global) -> Self
        ensures empty { (name : List ℕ) → shelf_files result name ≡ None }
        ensures failures { shelf_failures result ≡ 0 }
        ensures stretch { shelf_stretch result ≡ (0, 0) }
    {
        MemoryShelf {
            files: NamedFiles::new(alloc),
            device: Device::new(),
        }
    }

    /// Adds a file with these bytes, or replaces its contents. Returns `AllocError` if out of memory.
    pub fn with_file(mut self, name: &str, bytes: &[u8]) -> Result<Self, AllocError>
        ensures file { IfOk result (λ shelf. Changes (IsPut bytes.now) name.now (shelf_files self) (shelf_files
            shelf)) }
        ensures failures { IfOk result (λ shelf. shelf_failures shelf ≡ shelf_failures self) }
        ensures stretch { IfOk result (λ shelf. shelf_stretch shelf ≡ shelf_stretch self) }
    {
        self.files.put(name, bytes)?;
        Ok(self)
    }

    /// Lets the next `from` calls succeed and the `count` calls after them fail.
    pub fn failing(mut self, from: u64, count: u64) -> Self
        ensures files { shelf_files result ≡ shelf_files self }
        ensures failures { shelf_failures result ≡ shelf_failures self }
        ensures stretch { shelf_stretch result ≡ (from, count) }
    {
        self.device.fail_later(from, count);
        self
    }

    /// Returns the number of failed calls.
    pub fn failures(&self) -> u64
        ensures { result ≡ shelf_failures self.now }
    {
        self.device.failures
    }
}

impl Shelf for MemoryShelf {
    ghost stored = { shelf_files };

    ghost honest = { λ _. true };

    ghost failures = { shelf_failures };

    /// No file name is recorded.
    ghost failed_at = { λ _ _. ⊤ };

    fn length(&mut self, name: &str) -> Result<u64, ShelfFault> {
        self.device.begin()?;
        self.files.length(name).ok_or(ShelfFault::NotFound)
    }

    fn read_at(&mut self, name: &str, at: u64, buffer: &mut [u8]) -> Result<(), ShelfFault> {
        self.device.begin()?;
        let outcome = self.files.read_at(name, at, buffer);
        Ok(self.device.counted(outcome)?)
    }
}
