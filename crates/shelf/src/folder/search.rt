// The search for files in the folders below a folder, by their names.
use std::alloc::{AllocError, Global};
use std::collections::BTreeMap;
use std::fs::{Files, ReadDir};
use std::io::{Error, ErrorKind};
use std::{fs, io};

/// The most folders that are listed, the most names in each of them, and the most files that are remembered.
const MOST_NAMES: usize = 1_048_576;

/// The most parts of a tree that couldn't be listed whose paths are remembered.
const MOST_UNLISTED: usize = 20;

/// The paths of files of one name, relative to the folder that was searched. Of more than two, two are remembered.
#[derive(Debug, PartialEq, Eq, Drop)]
pub struct FoundBelow {
    pub path: String,
    pub other: Option<String>,
}

/// A part of a tree that couldn't be listed: its path relative to the folder that was searched, and why.
#[derive(Debug, Drop)]
pub struct Unlisted {
    pub path: String,
    pub reason: Error,
}

/// The files in the folders below a folder, by name, and the parts of the tree that couldn't be listed.
#[derive(Drop)]
pub struct FilesBelow {
    pub files: BTreeMap<String, FoundBelow>,
    /// The first 20 of them.
    pub unlisted: Vec<Unlisted>,
    /// The number of all of them.
    pub unlisted_count: usize,
}

/// A walk through the folders below a folder.
#[derive(Drop)]
struct Walk<'a, R> {
    rt: &'a R,
    alloc: Global,
    folder: &'a str,
    /// The folders still to be listed.
    folders: Vec<String>,
    found: FilesBelow,
}

/// Lists the plain files in the folders below a folder. No link is followed: so the walk ends, and no file is an output
/// under another name except by a hard link.
pub fn files_below<'a, R: Files + AllocGlobal + Clone + Drop>(
    rt: &'a R,
    alloc: Global,
    folder: &'a str,
) -> Result<FilesBelow, AllocError> {
    let mut walk = Walk {
        rt,
        alloc,
        folder,
        folders: Vec::new(alloc),
        found: FilesBelow {
            files: BTreeMap::new(alloc),
            unlisted: Vec::new(alloc),
            unlisted_count: 0,
        },
    };
    walk.look_in("")?;
    for _ in 0..MOST_NAMES {
        let Some(below) = walk.folders.pop() else {
            return Ok(walk.found);
        };
        walk.look_in(&below)?;
    }
    if let Some(below) = walk.folders.pop() {
        walk.note_unlisted(&below, too_many())?;
    }
    Ok(walk.found)
}

impl<R: Files + AllocGlobal + Clone + Drop> Walk<'_, R> {
    /// Takes in the files and folders of a folder.
    fn look_in(&mut self, below: &str) -> Result<(), AllocError> {
        let path = joined(self.alloc, self.folder, below)?;
        match fs::read_dir(self.rt, path.as_str()) {
            Ok(names) => self.take_all(below, names),
            Err(error) => self.note_unlisted(below, error),
        }
    }

    fn take_all(&mut self, below: &str, mut names: ReadDir<R>) -> Result<(), AllocError> {
        for _ in 0..MOST_NAMES {
            match names.next() {
                Some(Ok(entry)) => self.take(below, entry.file_name())?,
                Some(Err(error)) => self.note_unlisted(below, error)?,
                None => return Ok(()),
            }
        }
        self.note_unlisted(below, too_many())
    }

    /// Takes in the file or folder of this name in a folder. A name that is gone by now is passed over.
    fn take(&mut self, below: &str, name: &str) -> Result<(), AllocError> {
        let inner = joined(self.alloc, below, name)?;
        let path = joined(self.alloc, self.folder, &inner)?;
        match fs::symlink_metadata(self.rt, path.as_str()) {
            Ok(found) if found.is_dir() => {
                self.folders.push(inner)?;
                Ok(())
            }
            Ok(found) if found.is_file() && !below.is_empty() => self.add(name, inner),
            Ok(_) => Ok(()),
            Err(error) if error.kind() == ErrorKind::NotFound => Ok(()),
            Err(error) => self.note_unlisted(&inner, error),
        }
    }

    /// Records the path of a file.
    fn add(&mut self, name: &str, path: String) -> Result<(), AllocError> {
        if let Some(found) = self.found.files.get_mut(name) {
            if found.other.is_none() {
                found.other = Some(path);
            }
            return Ok(());
        }
        if self.found.files.len() >= MOST_NAMES {
            return self.note_unlisted(&path, too_many());
        }
        let name = String::from_str(self.alloc, name)?;
        self.found
            .files
            .insert(name, FoundBelow { path, other: None })?;
        Ok(())
    }

    /// Records a part of the tree that can't be listed.
    fn note_unlisted(&mut self, below: &str, reason: io::Error) -> Result<(), AllocError> {
        self.found.unlisted_count = self.found.unlisted_count.saturating_add(1);
        if self.found.unlisted.len() < MOST_UNLISTED {
            let path = String::from_str(self.alloc, below)?;
            self.found.unlisted.push(Unlisted { path, reason })?;
        }
        Ok(())
    }
}

/// Returns the reason why the rest of a tree isn't listed if it has too many names.
fn too_many() -> Error {
    Error::new(ErrorKind::Other, "there are more than 1,048,576 names")
}

/// Joins a path to a folder; the empty path is the folder itself.
fn joined(alloc: Global, folder: &str, path: &str) -> Result<String, AllocError> {
    if folder.is_empty() {
        String::from_str(alloc, path)
    } else if path.is_empty() {
        String::from_str(alloc, folder)
    } else {
        format!(in alloc; "{folder}/{path}")
    }
}
