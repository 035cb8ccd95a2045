// Sources in a folder of the file system.
ghost use Rattle.std.specs.Prelude.{◌≡◌, false, None, Ok, IfOk, IsOk, IsErr, ⊤};
ghost use Rattle.work_terms.specs.Disk.{HasCause};
ghost use Rattle.filename.specs.FileName.{is_file_name};
ghost use Rattle.shelf.specs.Folder.{folder_named};

use super::failures::Failures;
use super::found::FoundOutput;
use super::given::GivenFiles;
use super::identity::Identity;
use super::open_files::{Access, OpenFiles};
use super::search::{FilesBelow, FoundBelow, Unlisted, files_below};
use super::stores::FolderStores;
use crate::reason::{Reason, Reasons};
use devices::{DeviceFault, Shelf, ShelfFault};
use filename::is_file_name;
use std::alloc::{AllocError, Global};
use std::cell::RefCell;
use std::fs::{Files, Metadata};
use std::marker::Model;
use std::os::unix::fs::FileExt;
use std::rc::Rc;
use std::{fs, io};

/// Sources in a folder. At most 28 files stay open, and each is seen as it was when it was opened; nothing may write to
/// it. A file that is opened again and isn't the same file, by device and inode number, is a failure. Only the names of
/// files directly in the folder name a file, or with `searching`, of a file in the folders below.
pub struct FolderShelf<R: Files + Drop>
where
    R::File: FileExt,
{
    files: OpenFiles<R>,
    failures: Failures,
    alloc: Global,
    searches: bool,
    /// The files in the folders below, once they were listed.
    below: Option<FilesBelow>,
    /// The files found there, once or twice, in the order in which they were requested.
    found: Vec<FoundBelow>,
}

// Written out, so that dropping it is one call.
impl<R: Files + Drop> Drop for FolderShelf<R>
where
    R::File: FileExt,
{
    fn drop(self) {
        let FolderShelf {
            files,
            failures,
            alloc: _,
            searches: _,
            below,
            found,
        } = self;
        drop(files);
        drop(failures);
        drop(below);
        drop(found);
    }
}

/// Clauses see its folder and the number of failures.
impl<R: Files + Drop> Model for FolderShelf<R>
where
    R::File: FileExt,
{
    ghost use Rattle.std.specs.Prelude.{string_bytes};
    ghost use Rattle.shelf.specs.Folder.{SourceFolder};

    ghost Value = { SourceFolder };

    ghost view = { λ shelf. record { folder = string_bytes shelf.files.folder; failures = shelf.failures.count } };
}

impl<R: Files + Drop> FolderShelf<R>
where
    R::File: FileExt,
{
    /// Makes a shelf over the folder of this path; the empty path is the current folder.
    pub fn new(alloc: Global, files: R, folder: &str) -> Result<Self, AllocError>
        ensures folder { IfOk result (λ shelf. shelf.folder ≡ folder_named folder.entry.now) }
        ensures failures { IfOk result (λ shelf. shelf.failures ≡ 0) }
    {
        FolderStores::new(alloc)?.shelf(files, folder)
    }

    /// Makes a shelf over this folder that adds each source which it opens to this table of given files.
    pub(super) fn over(
        alloc: Global,
        files: R,
        folder: &str,
        given: Rc<RefCell<GivenFiles>>,
    ) -> Result<Self, AllocError>
        ensures folder { IfOk result (λ shelf. shelf.folder ≡ folder_named folder.entry.now) }
        ensures failures { IfOk result (λ shelf. shelf.failures ≡ 0) }
    {
        let found = FoundOutput::unknown(alloc);
        Ok(FolderShelf {
            files: OpenFiles::new(alloc, files, folder, Access::Read, given, found)?,
            failures: Failures::none(alloc),
            alloc,
            searches: false,
            below: None,
            found: Vec::new(alloc),
        })
    }

    /// Makes the shelf look for a file that isn't directly in the folder in the folders below, by its name. They are all
    /// listed at the first missing file: at most 1,048,576 folders, as many names in each and as many files. A name that
    /// exists once below is that source. If it exists twice, or a part of the tree can't be listed, no file is taken.
    pub fn searching(mut self) -> Self
        ensures { result ≡ self }
    {
        self.searches = true;
        self
    }

    /// Returns the sources that were found in folders below, and those that were found there and not taken, in the order
    /// in which they were requested.
    pub fn found_below(&self) -> &[FoundBelow] {
        self.found.as_slice()
    }

    /// Returns the parts of the tree below the folder that couldn't be listed, at most 20, once it was searched.
    pub fn unlisted(&self) -> &[Unlisted] {
        match &self.below {
            Some(below) => below.unlisted.as_slice(),
            None => &[],
        }
    }

    /// Returns the number of parts of the tree that couldn't be listed.
    pub fn unlisted_count(&self) -> usize {
        match &self.below {
            Some(below) => below.unlisted_count,
            None => 0,
        }
    }

    /// Returns the number of failed calls, which stays at its greatest value.
    pub fn failures(&self) -> u64
        ensures { result ≡ self.now.failures }
    {
        self.failures.count
    }
}

impl<R: Files + AllocGlobal + Clone + Drop> FolderShelf<R>
where
    R::File: FileExt,
{
    /// Returns the path at which the shelf would look for the source of this name, if the file there is the one with this
    /// metadata. It opens nothing.
    pub fn path_of_source(
        &mut self,
        name: &str,
        file: &Metadata,
    ) -> Result<Option<String>, AllocError>
        ensures { self.new ≡ self.old }
    {
        let identity = Identity::of(file);
        match self.path_if(name, identity)? {
            None if self.searches => self.path_below(name, identity),
            path => Ok(path),
        }
    }

    /// Returns the path at which a file of this name is this one in the folders below.
    fn path_below(&mut self, name: &str, identity: Identity) -> Result<Option<String>, AllocError>
        ensures { self.new ≡ self.old }
    {
        self.list_below()?;
        let Some(found) = self.known_below(name) else {
            return Ok(None);
        };
        if let Some(path) = self.path_if(&found.path, identity)? {
            return Ok(Some(path));
        }
        match &found.other {
            Some(other) => self.path_if(other, identity),
            None => Ok(None),
        }
    }

    /// Returns what has the name in the folders below.
    fn known_below(&self, name: &str) -> Option<&FoundBelow> {
        self.below.as_ref()?.files.get(name)
    }

    /// Returns the path of a file relative to the folder, if it leads to this file.
    fn path_if(&self, file: &str, identity: Identity) -> Result<Option<String>, AllocError> {
        let folder = self.files.folder();
        let path = format!(in self.alloc; "{folder}/{file}")?;
        match fs::metadata(self.files.files(), path.as_str()) {
            Ok(found) if Identity::of(&found) == identity => Ok(Some(path)),
            _ => Ok(None),
        }
    }

    /// Returns the length of the file in bytes, or `None` if no file has the name.
    fn find(&mut self, name: &str) -> Result<Option<u64>, DeviceFault>
        ensures no_name { is_file_name name.now ≡ false → result ≡ Ok None }
        ensures cause { HasCause self.old.failures self.new.failures (IsOk result) (IsErr result) }
    {
        if !is_file_name(name) {
            return Ok(None);
        }
        let outcome = self.length_of(name);
        self.failures.counted(name, outcome)
    }

    /// Returns the length of the file whose name is that of a file.
    fn length_of(&mut self, name: &str) -> io::Result<Option<u64>>
        ensures { self.new.failures ≡ self.old.failures }
    {
        let length = self.files.length(name)?;
        if length.is_some() || !self.searches || !self.locate(name)? {
            return Ok(length);
        }
        self.files.length(name)
    }

    /// Takes the only file of the name in the folders below as that source, and returns whether there is one. None is
    /// taken unless the whole tree could be listed.
    fn locate(&mut self, name: &str) -> Result<bool, AllocError>
        ensures { self.new.failures ≡ self.old.failures }
    {
        self.list_below()?;
        let is_whole = self.unlisted_count() == 0;
        let Some(found) = self.taken_below(name) else {
            return Ok(false);
        };
        let is_one = is_whole && found.other.is_none();
        if is_one {
            self.files.put_below(name, &found.path)?;
        }
        self.found.push(found)?;
        Ok(is_one)
    }

    /// Lists the folders below, unless that was done before.
    fn list_below(&mut self) -> Result<(), AllocError>
        ensures { self.new ≡ self.old }
    {
        if self.below.is_none() {
            let found = files_below(self.files.files(), self.alloc, self.files.folder())?;
            self.below = Some(found);
        }
        Ok(())
    }

    /// Removes the entry of a name from what is known of the folders below, and returns it.
    fn taken_below(&mut self, name: &str) -> Option<FoundBelow>
        ensures { self.new.failures ≡ self.old.failures }
    {
        self.below.as_mut()?.files.remove(name)
    }
}

impl<R: Files + Drop> Reasons for FolderShelf<R>
where
    R::File: FileExt,
{
    fn reason(&self) -> Option<Reason> {
        let error = self.failures.reason?;
        Some(Reason {
            error,
            has_file: true,
        })
    }

    fn failed_file(&self) -> Option<&str> {
        self.failures.file()
    }

    fn changed(&self, _: Global) -> Result<Vec<&str>, AllocError> {
        self.files.changed()
    }

    fn unsearched(&self, alloc: Global) -> Option<String> {
        if self.unlisted_count() == 0 {
            return None;
        }
        let mut text = String::new(alloc);
        for part in self.unlisted() {
            if !text.is_empty() {
                text.push_str("; ").ok()?;
            }
            let (path, reason) = (part.path.as_str(), part.reason);
            let words = format!(in alloc; "{path}/: {reason}").ok()?;
            text.push_str(&words).ok()?;
        }
        Some(text)
    }
}

impl<R: Files + AllocGlobal + Clone + Drop> Shelf for FolderShelf<R>
where
    R::File: FileExt,
{
    ghost stored = { λ _ _. None };

    /// The contents of a file are up to the file system.
    ghost honest = { λ _. false };

    ghost failures = { λ shelf. shelf.failures };

    /// It records no names.
    ghost failed_at = { λ _ _. ⊤ };

    fn length(&mut self, name: &str) -> Result<u64, ShelfFault> {
        self.find(name)?.ok_or(ShelfFault::NotFound)
    }

    fn read_at(&mut self, name: &str, at: u64, buffer: &mut [u8]) -> Result<(), ShelfFault> {
        let outcome = self.files.read_at(name, at, buffer);
        Ok(self.failures.counted(name, outcome)?)
    }
}
