// What is told beside a refusal of a list over the folder of its media.
use crate::media::{Manner, listed, open_media, unlisted_reason};
use asides::{Asides, FEW_FAULTS, tell_further};
use console::Console;
use findings::Near;
use opening::open_project;
use shelf::FolderShelf;
use std::alloc::Global;
use std::fs;
use std::fs::Files;
use std::os::unix::fs::FileExt;
use unicode_normalization::to_nfc;

/// How many names of a folder are looked at.
const MOST_NAMES: usize = 1_048_576;

/// What is told of a list over the folder of its media.
#[derive(Clone, Copy)]
pub struct FolderAsides<'r, 'm, R> {
    rt: &'r R,
    media: &'m str,
    manner: Manner,
}

impl<'r, 'm, R> FolderAsides<'r, 'm, R> {
    /// What is told of a refusal over this folder, in this manner: all that is at fault, or a few faults.
    pub fn new(rt: &'r R, media: &'m str, manner: Manner) -> Self {
        FolderAsides { rt, media, manner }
    }
}

impl<R: Files + AllocGlobal + Clone + Drop> FolderAsides<'_, '_, R>
where
    R::File: FileExt,
{
    /// The name in the folder that differs from this one in case or in its form of Unicode alone.
    fn similar(&self, alloc: Global, name: &str) -> Option<String> {
        let wanted = to_nfc(alloc, name).ok()?;
        let mut names = fs::read_dir(self.rt, listed(self.media)).ok()?;
        for _ in 0..MOST_NAMES {
            if let Ok(found) = names.next()? {
                if found.file_name() != name
                    && is_similar(alloc, found.file_name(), wanted.as_str())
                {
                    return String::from_str(alloc, found.file_name()).ok();
                }
            }
        }
        None
    }

    /// The folder in that of the media which has a file of this name.
    fn folder_of(&self, alloc: Global, name: &str) -> Option<String> {
        let mut names = fs::read_dir(self.rt, listed(self.media)).ok()?;
        for _ in 0..MOST_NAMES {
            if let Ok(found) = names.next()? {
                if self.has_file(alloc, found.file_name(), name) {
                    return String::from_str(alloc, found.file_name()).ok();
                }
            }
        }
        None
    }

    /// Whether a folder in that of the media has a plain file of this name.
    fn has_file(&self, alloc: Global, folder: &str, name: &str) -> bool {
        match format!(in alloc; "{folder}/{name}") {
            Ok(path) => self.is_file(alloc, &path),
            Err(_) => false,
        }
    }

    /// Whether this path leads to a plain file in the folder of the media.
    fn is_file(&self, alloc: Global, path: &str) -> bool {
        let folder = listed(self.media);
        match format!(in alloc; "{folder}/{path}") {
            Ok(path) => fs::metadata(self.rt, &path).is_ok_and(|found| found.is_file()),
            Err(_) => false,
        }
    }

    /// The part of this name behind its last `\\`, where the folder has a file of that name.
    fn behind_backslash(&self, alloc: Global, name: &str) -> Option<String> {
        let (_, last) = name.rsplit_once('\\')?;
        if !last.is_empty() && self.is_file(alloc, last) {
            String::from_str(alloc, last).ok()
        } else {
            None
        }
    }
}

impl<R: Files + AllocGlobal + Clone + Drop> Asides for FolderAsides<'_, '_, R>
where
    R::File: FileExt,
{
    type Sources = FolderShelf<R>;

    fn most(&self) -> usize {
        if self.manner.tells_all {
            usize::MAX
        } else {
            FEW_FAULTS
        }
    }

    fn near(&self, alloc: Global, name: &str) -> Option<Near> {
        if let Some(last) = self.behind_backslash(alloc, name) {
            return Some(Near::Backslash(last));
        }
        if let Some(similar) = self.similar(alloc, name) {
            return Some(Near::Spelled(similar));
        }
        let folder = self.folder_of(alloc, name)?;
        Some(if self.manner.searches {
            Near::NotTaken(folder)
        } else {
            Near::Folder(folder)
        })
    }

    fn media_error(&self, alloc: Global) -> Option<String> {
        let reason = unlisted_reason(self.rt, self.media)?;
        format!(in alloc; "{reason}").ok()
    }

    fn sources(&self, _: Global) -> Option<FolderShelf<R>> {
        open_media(self.rt, self.media, self.manner).ok()
    }
}

/// Whether a name is this one, which is in NFC, but for case.
fn is_similar(alloc: Global, name: &str, wanted: &str) -> bool {
    match to_nfc(alloc, name) {
        Ok(form) => form.as_bytes().eq_ignore_ascii_case(wanted.as_bytes()),
        Err(_) => false,
    }
}

/// Tells all that is at fault in a list over the folder of its media behind its first fault, and whether it has one.
pub fn tell_all_further<R, E: Console>(
    rt: &R,
    list: &[u8],
    media: &str,
    manner: Manner,
    err: &mut E,
) -> bool
where
    R: Files + AllocGlobal + Clone + Drop,
    R::File: FileExt,
{
    let Ok(mut shelf) = open_media(rt, media, manner) else {
        return false;
    };
    if let Err(fault) = open_project(rt.alloc(), list, &mut shelf) {
        let asides = FolderAsides::new(rt, media, manner);
        tell_further(rt.alloc(), list, &mut shelf, &fault, &asides, err);
        return true;
    }
    false
}
