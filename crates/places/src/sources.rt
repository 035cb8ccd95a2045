// The sources of a command, which shows how far the search for the chunks of one has come.
ghost use Rattle.std.specs.Prelude.{◌≡◌, false, None, IfOk, ⊤};
ghost use Rattle.shelf.specs.Folder.{folder_named};

use crate::media::open_given_media;
use crate::progress::Progress;
use crate::session::Session;
use devices::{Shelf, ShelfFault};
use shelf::{FolderShelf, FolderStores, Reason, Reasons};
use std::alloc::{AllocError, Global};
use std::fs::{Files, Metadata};
use std::marker::Model;
use std::os::unix::fs::FileExt;

/// Sources in a folder. While one is read from its front on, as for its chunks, how far is shown; until the command asks
/// which of them were changed, after which it prints.
pub struct ShownShelf<'a, R: Files + AllocGlobal + Clone + Drop, L: Progress>
where
    R::File: FileExt,
{
    shelf: FolderShelf<R>,
    line: &'a L,
    alloc: Global,
    /// The source whose length was asked for last, where reads are shown, as long as they went on from its front.
    asked: Option<Asked>,
    /// Up to which byte it was read.
    position: u64,
}

// Written out, so that it is one call where a shelf is dropped.
impl<R: Files + AllocGlobal + Clone + Drop, L: Progress> Drop for ShownShelf<'_, R, L>
where
    R::File: FileExt,
{
    fn drop(self) {
        let ShownShelf {
            shelf,
            line: _,
            alloc: _,
            asked,
            position: _,
        } = self;
        drop(shelf);
        drop(asked);
    }
}

/// A source and how many bytes it has.
#[derive(Drop)]
struct Asked {
    name: String,
    length: u64,
}

/// A clause sees its folder, and how often it has failed.
impl<'a, R: Files + AllocGlobal + Clone + Drop, L: Progress> Model for ShownShelf<'a, R, L>
where
    R::File: FileExt,
{
    ghost use Rattle.shelf.specs.Folder.{SourceFolder};

    ghost Value = { SourceFolder };

    ghost view = { λ shown. shown.shelf };
}

impl<'a, R: Files + AllocGlobal + Clone + Drop, L: Progress> ShownShelf<'a, R, L>
where
    R::File: FileExt,
{
    /// Opens the sources of this folder, shown on the line of the session.
    pub fn open(session: &Session<'a, R, L>, media: &str) -> Result<Self, AllocError>
        ensures folder { IfOk result (λ shelf. shelf.folder ≡ folder_named media.now) }
        ensures failures { IfOk result (λ shelf. shelf.failures ≡ 0) }
    {
        let stores = FolderStores::new(session.rt.alloc())?;
        Self::open_given(session, &stores, media)
    }

    /// Opens the sources of this folder, which are added to the files that the stores never write to.
    pub fn open_given(
        session: &Session<'a, R, L>,
        stores: &FolderStores,
        media: &str,
    ) -> Result<Self, AllocError>
        ensures folder { IfOk result (λ shelf. shelf.folder ≡ folder_named media.now) }
        ensures failures { IfOk result (λ shelf. shelf.failures ≡ 0) }
    {
        Ok(ShownShelf {
            shelf: open_given_media(session.rt, stores, media, session.manner)?,
            line: session.line,
            alloc: session.rt.alloc(),
            asked: None,
            position: 0,
        })
    }

    /// Returns the path at which the source of this name is looked for, if the file there is the one with this metadata.
    pub fn path_of_source(
        &mut self,
        name: &str,
        file: &Metadata,
    ) -> Result<Option<String>, AllocError>
        ensures { self.new ≡ self.old }
    {
        self.shelf.path_of_source(name, file)
    }

    /// The sources, which aren't shown.
    pub fn sources(&self) -> &FolderShelf<R> {
        &self.shelf
    }

    /// The source of this name and length, where its reads are shown.
    fn asked(&self, name: &str, length: u64) -> Option<Asked> {
        if !self.line.shows_reads() {
            return None;
        }
        let name = String::from_str(self.alloc, name).ok()?;
        Some(Asked { name, length })
    }

    /// Shows that a source was read up to this byte, where that goes on with the one whose length was asked for.
    fn follow(&mut self, name: &str, position: u64)
        ensures { self.new ≡ self.old }
    {
        let Some(asked) = &self.asked else {
            return;
        };
        if asked.name.as_str() == name && self.position <= position {
            self.line.read(name, position, asked.length);
            self.position = position;
        } else {
            self.asked = None;
        }
    }
}

impl<R: Files + AllocGlobal + Clone + Drop, L: Progress> Reasons for ShownShelf<'_, R, L>
where
    R::File: FileExt,
{
    fn reason(&self) -> Option<Reason> {
        self.shelf.reason()
    }

    fn failed_file(&self) -> Option<&str> {
        self.shelf.failed_file()
    }

    fn changed(&self, alloc: Global) -> Result<Vec<&str>, AllocError> {
        self.line.end_reads();
        self.shelf.changed(alloc)
    }

    fn unsearched(&self, alloc: Global) -> Option<String> {
        self.shelf.unsearched(alloc)
    }
}

impl<R: Files + AllocGlobal + Clone + Drop, L: Progress> Shelf for ShownShelf<'_, R, L>
where
    R::File: FileExt,
{
    ghost stored = { λ _ _. None };

    /// What a file holds is the file system's.
    ghost honest = { λ _. false };

    ghost failures = { λ shelf. shelf.failures };

    /// It keeps no names.
    ghost failed_at = { λ _ _. ⊤ };

    fn length(&mut self, name: &str) -> Result<u64, ShelfFault> {
        let outcome = self.shelf.length(name);
        self.asked = match outcome {
            Ok(length) => self.asked(name, length),
            Err(_) => None,
        };
        self.position = 0;
        outcome
    }

    fn read_at(&mut self, name: &str, at: u64, buffer: &mut [u8]) -> Result<(), ShelfFault> {
        let outcome = self.shelf.read_at(name, at, buffer);
        self.follow(name, at.saturating_add(buffer.len() as u64));
        outcome
    }
}
