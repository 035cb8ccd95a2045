// Outputs in a folder of the file system.
ghost use Rattle.std.specs.Prelude.{◌≡◌, false, None, IfOk, ⊤};
ghost use Rattle.shelf.specs.Folder.{folder_named, not_honest};

use super::failures::Failures;
use super::found::FoundOutput;
use super::given::GivenFiles;
use super::open_files::{Access, OpenFiles, Overwrite};
use super::stores::FolderStores;
use crate::reason::{Reason, Reasons};
use devices::{Bench, DeviceFault, ShelfFault};
use std::alloc::{AllocError, Global};
use std::cell::RefCell;
use std::fs::Files;
use std::marker::Model;
use std::os::unix::fs::FileExt;
use std::rc::Rc;

/// Outputs in an existing folder. Only the names of files directly in the folder name a file, and no link is followed.
/// While a bench is at work nothing else may write to its files. At most 28 files stay open. A file that is opened again
/// and isn't the same file, by device and inode number, is a failure; so is one that was given to the command as its list
/// or a source, one with a second name, and a sync after the folder's path leads to another folder.
pub struct FolderBench<R: Files + Drop>
where
    R::File: FileExt,
{
    files: OpenFiles<R>,
    failures: Failures,
}

// Written out, so that dropping it is one call.
impl<R: Files + Drop> Drop for FolderBench<R>
where
    R::File: FileExt,
{
    fn drop(self) {
        let FolderBench { files, failures } = self;
        drop(files);
        drop(failures);
    }
}

/// Clauses see its folder, whether a file in it may be replaced, and the number of failures.
impl<R: Files + Drop> Model for FolderBench<R>
where
    R::File: FileExt,
{
    ghost use Rattle.std.specs.Prelude.{string_bytes};
    ghost use Rattle.shelf.specs.Folder.{OutputFolder, overwrite_of};

    ghost Value = { OutputFolder };

    ghost view = { λ bench. record {
      folder = string_bytes bench.files.folder;
      overwrite = overwrite_of bench.files.access;
      failures = bench.failures.count;
    } };
}

impl<R: Files + Drop> FolderBench<R>
where
    R::File: FileExt,
{
    /// Makes a bench over the folder of this path; the empty path is the current folder. `overwrite` says whether `create`
    /// may replace a file. The bench knows of no given files ([`FolderStores`] makes one that does).
    ///
    /// [`FolderStores`]: crate::FolderStores
    pub fn new(
        alloc: Global,
        files: R,
        folder: &str,
        overwrite: Overwrite,
    ) -> Result<Self, AllocError>
        ensures folder { IfOk result (λ bench. bench.folder ≡ folder_named folder.entry.now) }
        ensures overwrite { IfOk result (λ bench. bench.overwrite ≡ overwrite) }
        ensures failures { IfOk result (λ bench. bench.failures ≡ 0) }
    {
        FolderStores::new(alloc)?.bench(files, folder, overwrite, FoundOutput::unknown(alloc))
    }

    /// Makes a bench over this folder, in which this was found, and over this table of given files.
    pub(super) fn over(
        alloc: Global,
        files: R,
        folder: &str,
        overwrite: Overwrite,
        given: Rc<RefCell<GivenFiles>>,
        found: FoundOutput,
    ) -> Result<Self, AllocError>
        ensures folder { IfOk result (λ bench. bench.folder ≡ folder_named folder.entry.now) }
        ensures overwrite { IfOk result (λ bench. bench.overwrite ≡ overwrite) }
        ensures failures { IfOk result (λ bench. bench.failures ≡ 0) }
    {
        Ok(FolderBench {
            files: OpenFiles::new(alloc, files, folder, Access::Write(overwrite), given, found)?,
            failures: Failures::none(alloc),
        })
    }

    /// Returns the number of failed calls, which stays at its greatest value.
    pub fn failures(&self) -> u64
        ensures { result ≡ self.now.failures }
    {
        self.failures.count
    }
}

impl<R: Files + Drop> Reasons for FolderBench<R>
where
    R::File: FileExt,
{
    fn reason(&self) -> Option<Reason> {
        let error = self.failures.reason?;
        let has_file = self.files.is_made();
        Some(Reason { error, has_file })
    }

    fn failed_file(&self) -> Option<&str> {
        self.failures.file()
    }
}

impl<R: Files + Drop> Bench for FolderBench<R>
where
    R::File: FileExt,
{
    ghost stored = { λ _ _. None };

    /// The contents of a file, and what a crash leaves of it, are up to the file system.
    ghost honest = { λ _. false };

    ghost failures = { λ bench. bench.failures };

    /// It records no names.
    ghost failed_at = { λ _ _. ⊤ };

    ghost may_leave = { λ _ _. ⊥ };

    ghost moment = { λ _. 0 };

    ghost left_since = { λ _ _ _. ⊥ };

    ghost counts_now = { λ _ _ _ _ left. left };

    ghost reads_now = { λ _ honest. not_honest honest };

    ghost only_now = { λ _ _ left. left };

    ghost absent = { λ _ _ _ _ _ left. absurd left };

    fn create(&mut self, name: &str) -> Result<(), DeviceFault> {
        let outcome = self.files.create(name);
        self.failures.counted(name, outcome)
    }

    fn append(&mut self, name: &str, bytes: &[u8]) -> Result<(), DeviceFault> {
        let outcome = self.files.append(name, bytes);
        self.failures.counted(name, outcome)
    }

    fn append_zeros(&mut self, name: &str, count: u64) -> Result<(), DeviceFault> {
        let outcome = self.files.append_zeros(name, count);
        self.failures.counted(name, outcome)
    }

    fn write_at(&mut self, name: &str, at: u64, bytes: &[u8]) -> Result<(), DeviceFault> {
        let outcome = self.files.write_at(name, at, bytes);
        self.failures.counted(name, outcome)
    }

    fn length(&mut self, name: &str) -> Result<u64, ShelfFault> {
        let outcome = self.files.length(name);
        self.failures
            .counted(name, outcome)?
            .ok_or(ShelfFault::NotFound)
    }

    fn read_at(&mut self, name: &str, at: u64, buffer: &mut [u8]) -> Result<(), ShelfFault> {
        let outcome = self.files.read_at(name, at, buffer);
        Ok(self.failures.counted(name, outcome)?)
    }

    fn sync(&mut self, name: &str) -> Result<(), DeviceFault> {
        let outcome = self.files.sync(name);
        self.failures.counted(name, outcome)
    }
}
