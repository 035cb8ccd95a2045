// The folder of a list's media.
ghost use Rattle.std.specs.Prelude.{◌≡◌, IfOk};
ghost use Rattle.shelf.specs.Folder.{folder_named};

use console::Console;
use findings::PrintedName;
use shelf::{FolderShelf, FolderStores, FoundBelow, Unlisted};
use std::alloc::AllocError;
use std::fs::Files;
use std::os::unix::fs::FileExt;
use std::{fs, io};

/// How many media from folders below are reported where not all are asked for.
const FEW: usize = 20;

/// What the words ask for beside the request: whether standard error lists all that is at fault in a refused list, whether
/// media are looked for in the folders below, and whether a consolidation is compared with what it was made from.
#[derive(Clone, Copy, Debug)]
pub struct Manner {
    pub tells_all: bool,
    pub searches: bool,
    pub verifies: bool,
}

/// Where the first fault of a project is reported, and no file of it is looked for in folders below.
pub const PLAIN: Manner = Manner {
    tells_all: false,
    searches: false,
    verifies: false,
};

/// Opens the sources of this folder.
pub fn open_media<R>(rt: &R, media: &str, manner: Manner) -> Result<FolderShelf<R>, AllocError>
where
    R: Files + AllocGlobal + Clone + Drop,
    R::File: FileExt,
    ensures folder { IfOk result (λ shelf. shelf.folder ≡ folder_named media.now) }
    ensures failures { IfOk result (λ shelf. shelf.failures ≡ 0) }
{
    let stores = FolderStores::new(rt.alloc())?;
    open_given_media(rt, &stores, media, manner)
}

/// Opens the sources of this folder, which are added to the files that the stores never write to.
pub fn open_given_media<R>(
    rt: &R,
    stores: &FolderStores,
    media: &str,
    manner: Manner,
) -> Result<FolderShelf<R>, AllocError>
where
    R: Files + AllocGlobal + Clone + Drop,
    R::File: FileExt,
    ensures folder { IfOk result (λ shelf. shelf.folder ≡ folder_named media.now) }
    ensures failures { IfOk result (λ shelf. shelf.failures ≡ 0) }
{
    let shelf = stores.shelf(rt.clone()?, media)?;
    Ok(if manner.searches {
        shelf.searching()
    } else {
        shelf
    })
}

/// Prints which sources were taken from folders below, and which weren't, since two files have the name or a part of the
/// tree couldn't be listed; then the parts that couldn't be listed.
pub fn report_found<R: Files + Drop, E: Console>(
    shelf: &FolderShelf<R>,
    manner: Manner,
    err: &mut E,
)
where
    R::File: FileExt,
{
    let found = shelf.found_below();
    let most = if manner.tells_all {
        found.len()
    } else {
        found.len().min(FEW)
    };
    let is_whole = shelf.unlisted_count() == 0;
    for file in &found[..most] {
        print_found(file, is_whole, err);
    }
    if most < found.len() {
        let more = found.len() - most;
        err.print_line(format_args!("and {more} more media from folders below"));
    }
    print_unlisted(shelf.unlisted(), shelf.unlisted_count(), err);
}

/// Prints where a file is, and whether it was taken.
fn print_found<E: Console>(found: &FoundBelow, is_whole: bool, err: &mut E) {
    let path = PrintedName(found.path.as_str());
    let name = PrintedName(last_part(found.path.as_str()));
    match &found.other {
        Some(other) => {
            let other = PrintedName(other.as_str());
            err.print_line(format_args!(
                "{name} lies in two folders below, so neither is taken: {path} and {other}"
            ));
        }
        None if is_whole => err.print_line(format_args!("{name} is taken from {path}")),
        None => err.print_line(format_args!(
            "{path} isn't taken: not all folders could be searched for another file of that name"
        )),
    }
}

/// Prints which parts of a tree couldn't be listed, and why.
fn print_unlisted<E: Console>(unlisted: &[Unlisted], count: usize, err: &mut E) {
    for part in unlisted {
        let (path, reason) = (PrintedName(part.path.as_str()), part.reason);
        err.print_line(format_args!("{path}/ in the media folder can't be searched: {reason}"));
    }
    if unlisted.len() < count {
        let more = count - unlisted.len();
        err.print_line(format_args!("and {more} more folders that can't be searched"));
    }
}

/// The name at the end of a path.
fn last_part(path: &str) -> &str {
    path.rsplit('/').next().unwrap_or(path)
}

/// Why a folder of media can't be listed, if it can't. It is as an empty one then.
pub fn unlisted_reason<R: Files + AllocGlobal + Clone + Drop>(
    rt: &R,
    media: &str,
) -> Option<io::Error> {
    match fs::read_dir(rt, listed(media)) {
        Ok(_) => None,
        Err(error) => Some(error),
    }
}

/// Tells why a folder of media can't be listed, if it can't, and that an empty name is the current folder.
pub fn tell_unlisted<E: Console>(media: &str, reason: Option<io::Error>, err: &mut E) {
    if media.is_empty() {
        err.print_line(
            "the name of the folder of the media is empty: the current folder was taken",
        );
    }
    if let Some(reason) = reason {
        let folder = PrintedName(media);
        err.print_line(format_args!("the folder {folder} can't be read: {reason}"));
    }
}

/// The folder that is listed for the media of this name.
pub fn listed(media: &str) -> &str {
    if media.is_empty() { "." } else { media }
}
