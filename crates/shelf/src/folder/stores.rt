// The stores of one command over folders.
ghost use Rattle.std.specs.Prelude.{◌≡◌, IfOk};
ghost use Rattle.shelf.specs.Folder.{folder_named};

use super::bench::FolderBench;
use super::found::FoundOutput;
use super::given::GivenFiles;
use super::identity::Identity;
use super::open_files::Overwrite;
use super::sources::FolderShelf;
use std::alloc::{AllocError, Global};
use std::cell::RefCell;
use std::fs::{Files, Metadata};
use std::os::unix::fs::FileExt;
use std::rc::Rc;

/// Makes the stores of one command over one table of the files that the command was given. A shelf adds each source that
/// it opens to the table, and a bench writes to no file in it.
#[derive(Drop)]
pub struct FolderStores {
    alloc: Global,
    given: Rc<RefCell<GivenFiles>>,
}

impl FolderStores {
    /// Creates an empty table.
    pub fn new(alloc: Global) -> Result<Self, AllocError> {
        let given = Rc::new(alloc, RefCell::new(GivenFiles::new(alloc)))?;
        Ok(FolderStores { alloc, given })
    }

    /// Adds the list to the table, by the metadata of its open handle. Without metadata the list can't be identified, and
    /// then no bench writes to a file that already exists.
    pub fn add_list(&self, found: Option<&Metadata>) -> Result<(), AllocError> {
        let Ok(mut given) = self.given.try_borrow_mut() else {
            return Err(AllocError);
        };
        match found {
            Some(found) => given.add(Identity::of(found)),
            None => {
                given.add_unknown();
                Ok(())
            }
        }
    }

    /// Makes a shelf over the folder of this path. The empty path is the current folder.
    pub fn shelf<R: Files + Drop>(
        &self,
        files: R,
        folder: &str,
    ) -> Result<FolderShelf<R>, AllocError>
    where
        R::File: FileExt,
        ensures folder { IfOk result (λ shelf. shelf.folder ≡ folder_named folder.entry.now) }
        ensures failures { IfOk result (λ shelf. shelf.failures ≡ 0) }
    {
        FolderShelf::over(self.alloc, files, folder, Rc::clone(&self.given)?)
    }

    /// Makes a bench over the folder of this path, in which this was found. The empty path is the current folder.
    pub fn bench<R: Files + Drop>(
        &self,
        files: R,
        folder: &str,
        overwrite: Overwrite,
        found: FoundOutput,
    ) -> Result<FolderBench<R>, AllocError>
    where
        R::File: FileExt,
        ensures folder { IfOk result (λ bench. bench.folder ≡ folder_named folder.entry.now) }
        ensures overwrite { IfOk result (λ bench. bench.overwrite ≡ overwrite) }
        ensures failures { IfOk result (λ bench. bench.failures ≡ 0) }
    {
        FolderBench::over(
            self.alloc,
            files,
            folder,
            overwrite,
            Rc::clone(&self.given)?,
            found,
        )
    }
}
