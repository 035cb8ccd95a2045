// The output folder of a command, examined before the first write.
ghost use Rattle.std.specs.Prelude.{◌≡◌, OnOk};

use crate::fault::OpenFault;
use crate::list_file::STANDARD_INPUT;
use crate::media::listed;
use crate::progress::Progress;
use crate::sources::ShownShelf;
use adlmodel::place_of;
use commandline::Places;
use console::Console;
use findings::PrintedName;
use markfile::MARKS;
use shelf::{FoundOutput, Overwrite};
use std::alloc::AllocError;
use std::fs::{File, Files, Metadata, OpenFile, TryLockError};
use std::io::ErrorKind;
use std::os::unix::fs::{FileExt, MetadataExt};
use std::{fmt, fs, io};

/// An open file or folder that a command can lock against other commands while it is open.
pub trait Lock {
    /// Locks it, or returns an error at once if another command holds the lock.
    fn lock_alone(&self) -> Result<(), TryLockError>;
}

impl Lock for File {
    fn lock_alone(&self) -> Result<(), TryLockError> {
        self.try_lock()
    }
}

/// The output folder of a command at work: locked, or the reason why it couldn't be locked.
#[derive(Drop)]
pub enum HeldFolder<F: Drop> {
    Locked(F),
    Unlocked(io::Error),
}

impl<F: Drop> HeldFolder<F> {
    /// Prints that the folder of this path doesn't exist, or that it couldn't be locked against other commands.
    pub fn tell_unlocked<E: Console>(&self, path: &str, err: &mut E) {
        if let HeldFolder::Unlocked(reason) = self {
            let folder = PrintedName(path);
            if matches!(
                reason.kind(),
                ErrorKind::NotFound | ErrorKind::NotADirectory
            ) {
                err.print_line(format_args!("the folder {folder} can't be opened: {reason}"));
                return;
            }
            err.print_line(format_args!(
                "the folder {folder} can't be locked: {reason}; run no other command there meanwhile"
            ));
        }
    }
}

/// What a command may replace in its output: nothing, or these files.
#[derive(Clone, Copy)]
pub struct Replaced<'a> {
    pub overwrite: Overwrite,
    pub files: &'a [&'a str],
}

/// Locks the folder of the output, which has to be empty, or one where files may be replaced.
pub fn ready_output<R>(
    rt: &R,
    places: Places<'_>,
    overwrite: Overwrite,
) -> Result<HeldFolder<R::File>, OpenFault>
where
    R: Files + AllocGlobal + Clone + Drop,
    R::File: Lock,
{
    let held = hold_folder(rt, places.out)?;
    require_ready_folder(rt, places.out, places.media, overwrite)?;
    Ok(held)
}

/// Opens the folder of this path and locks it, if the system can. Returns an error if another command is at work there.
/// Anything but a folder isn't opened, since opening a pipe may wait forever.
fn hold_folder<R>(rt: &R, path: &str) -> Result<HeldFolder<R::File>, OpenFault>
where
    R: Files + AllocGlobal,
    R::File: Lock,
{
    let folder = format!(in rt.alloc(); "{path}/")?;
    let opened = match fs::open(rt, &folder) {
        Ok(opened) => opened,
        Err(error) => return Ok(HeldFolder::Unlocked(error)),
    };
    match opened.lock_alone() {
        Ok(()) => Ok(HeldFolder::Locked(opened)),
        Err(TryLockError::WouldBlock) => Err(OpenFault::Busy),
        Err(TryLockError::Error(error)) => Ok(HeldFolder::Unlocked(error)),
    }
}

/// Returns an error if no folder is given, if existing files must not be replaced and the folder isn't empty or can't be
/// listed, or if files may be replaced and it is the media folder, which may have a source of that name.
fn require_ready_folder<R: Files + AllocGlobal + Clone + Drop>(
    rt: &R,
    path: &str,
    media: &str,
    overwrite: Overwrite,
) -> Result<(), OpenFault> {
    match overwrite {
        Overwrite::Files if path.is_empty() => {
            Err(OpenFault::Unlisted(io::Error::from(ErrorKind::NotFound)))
        }
        Overwrite::Files if is_same_folder(rt, path, media) => Err(OpenFault::Media),
        Overwrite::Files => Ok(()),
        Overwrite::Never => require_empty_folder(rt, path),
    }
}

/// Returns an error if the folder of this path can't be listed or isn't empty.
fn require_empty_folder<R: Files + AllocGlobal + Clone + Drop>(
    rt: &R,
    path: &str,
) -> Result<(), OpenFault> {
    let mut names = fs::read_dir(rt, path).map_err(OpenFault::Unlisted)?;
    match names.next() {
        None => Ok(()),
        Some(Ok(_)) => Err(OpenFault::NotEmpty),
        Some(Err(error)) => Err(OpenFault::Unlisted(error)),
    }
}

/// Returns whether both paths lead to one existing folder.
fn is_same_folder<R: Files>(rt: &R, path: &str, other: &str) -> bool {
    match fs::metadata(rt, listed(path)) {
        Ok(found) => is_found_at(rt, &found, listed(other)),
        Err(_) => false,
    }
}

/// Returns whether this path leads to the file or folder with this metadata.
fn is_found_at<R: Files>(rt: &R, found: &Metadata, path: &str) -> bool {
    fs::metadata(rt, path).is_ok_and(|other| is_same_file(found, &other))
}

/// Returns whether both are of one file, by device and inode number.
fn is_same_file(found: &Metadata, other: &Metadata) -> bool {
    found.dev() == other.dev() && found.ino() == other.ino()
}

/// Records what the folder of an output has before the first write, and that it has to be the folder that is held. If files
/// may be replaced in it, returns an error, and prints why, if a file of these names is the list or a source, or has another
/// name.
pub fn examine_output<R, E: Console, L: Progress>(
    rt: &R,
    places: Places<'_>,
    list: &[u8],
    replaced: Replaced<'_>,
    held: &HeldFolder<R::File>,
    shelf: &mut ShownShelf<'_, R, L>,
    err: &mut E,
) -> Result<FoundOutput, OpenFault>
where
    R: Files + AllocGlobal + Clone + Drop,
    R::File: FileExt,
    ensures same { shelf.new ≡ shelf.old }
    ensures quiet { OnOk result (err.new ≡ err.old) }
{
    let mut found = FoundOutput::empty(rt.alloc());
    if let HeldFolder::Locked(folder) = held {
        if let Ok(metadata) = folder.metadata() {
            found.set_folder(&metadata);
        }
    }
    if replaced.overwrite == Overwrite::Files {
        require_unshared(rt, places, list, replaced.files, shelf, &mut found, err)?;
        require_held(rt, places.out, held)?;
    }
    Ok(found)
}

/// Returns an error if the path of the output leads to another folder than the one that is held, so that files of that
/// folder may have been examined.
fn require_held<R: Files>(rt: &R, path: &str, held: &HeldFolder<R::File>) -> Result<(), OpenFault> {
    let HeldFolder::Locked(folder) = held else {
        return Ok(());
    };
    match folder.metadata() {
        Ok(found) if is_found_at(rt, &found, listed(path)) => Ok(()),
        Ok(_) => Err(OpenFault::Busy),
        Err(error) => Err(OpenFault::Unlisted(error)),
    }
}

/// Records the files of these names, which a rendering would write to or empty. Returns an error, and prints why, if one of
/// them is the list or a source too, or has more names than this one. Anything but a plain file is never written to.
fn require_unshared<R, E: Console, L: Progress>(
    rt: &R,
    places: Places<'_>,
    list: &[u8],
    written: &[&str],
    shelf: &mut ShownShelf<'_, R, L>,
    found: &mut FoundOutput,
    err: &mut E,
) -> Result<(), OpenFault>
where
    R: Files + AllocGlobal + Clone + Drop,
    R::File: FileExt,
    ensures same { shelf.new ≡ shelf.old }
    ensures quiet { OnOk result (err.new ≡ err.old) }
{
    for name in written {
        let folder = places.out;
        let path = format!(in rt.alloc(); "{folder}/{name}")?;
        let Ok(file) = fs::symlink_metadata(rt, &path) else {
            continue;
        };
        if !file.is_file() {
            continue;
        }
        if let Some(sharing) = sharing_of(rt, places, list, &file, shelf)? {
            let path = PrintedName(&path);
            err.print_line(format_args!("{path} {sharing}"));
            return Err(OpenFault::Shared);
        }
        found.add(name, &file)?;
    }
    Ok(())
}

/// Why a file of the output must not be written to.
#[derive(Drop)]
enum Sharing {
    /// The list or a source of this path is the same file.
    Given(String),
    /// Standard input, from which the list came, can't be compared with it.
    Unknown,
    /// It has this many names.
    Linked(u64),
}

impl fmt::Display for Sharing {
    fn fmt<W: fmt::Write>(&self, f: &mut fmt::Formatter<W>) -> fmt::Result {
        match self {
            Sharing::Given(path) => {
                let path = PrintedName(path.as_str());
                write!(f, "is the same file as {path}")
            }
            Sharing::Unknown => f.write_str(
                "may be the list: standard input can't be compared with it; name the list by its path",
            ),
            Sharing::Linked(names) => write!(f, "has {names} names: it is linked from elsewhere"),
        }
    }
}

/// Returns why this file of the output must not be written to, if so.
fn sharing_of<R, L: Progress>(
    rt: &R,
    places: Places<'_>,
    list: &[u8],
    file: &Metadata,
    shelf: &mut ShownShelf<'_, R, L>,
) -> Result<Option<Sharing>, AllocError>
where
    R: Files + AllocGlobal + Clone + Drop,
    R::File: FileExt,
    ensures { shelf.new ≡ shelf.old }
{
    if let Some(sharing) = sharing_with_list(rt, places, file)? {
        return Ok(Some(sharing));
    }
    if let Some(path) = path_of_given(rt, list, file, shelf)? {
        return Ok(Some(Sharing::Given(path)));
    }
    let names = file.nlink();
    Ok(if names > 1 {
        Some(Sharing::Linked(names))
    } else {
        None
    })
}

/// Returns why this file must not be written to if it is the list, or may be.
fn sharing_with_list<R: Files + AllocGlobal>(
    rt: &R,
    places: Places<'_>,
    file: &Metadata,
) -> Result<Option<Sharing>, AllocError> {
    if places.list != "-" {
        return if is_found_at(rt, file, places.list) {
            Ok(Some(Sharing::Given(String::from_str(rt.alloc(), places.list)?)))
        } else {
            Ok(None)
        };
    }
    match fs::metadata(rt, STANDARD_INPUT) {
        Ok(input) if is_same_file(&input, file) => {
            Ok(Some(Sharing::Given(String::from_str(rt.alloc(), "standard input")?)))
        }
        Ok(_) => Ok(None),
        Err(_) => Ok(Some(Sharing::Unknown)),
    }
}

/// Returns the path of the source of this list that is this file, if there is one, used or not.
fn path_of_given<R, L: Progress>(
    rt: &R,
    list: &[u8],
    file: &Metadata,
    shelf: &mut ShownShelf<'_, R, L>,
) -> Result<Option<String>, AllocError>
where
    R: Files + AllocGlobal + Clone + Drop,
    R::File: FileExt,
    ensures { shelf.new ≡ shelf.old }
{
    let Ok(project) = adlread::read(rt.alloc(), list) else {
        return Ok(None);
    };
    for source in project.sources().as_slice() {
        if let Some(location) = place_of(rt.alloc(), source.url())? {
            if let Some(path) = shelf.path_of_source(location.name(), file)? {
                return Ok(Some(path));
            }
        }
    }
    Ok(None)
}

/// Returns the name of something in the folder of this path, if that was refused because it isn't empty: the marks of a
/// rendering, if they exist.
pub fn name_inside<R: Files + AllocGlobal + Clone + Drop>(
    rt: &R,
    fault: OpenFault,
    path: &str,
) -> Option<String> {
    let OpenFault::NotEmpty = fault else {
        return None;
    };
    if has_marks(rt, path) {
        return String::from_str(rt.alloc(), MARKS).ok();
    }
    let found = fs::read_dir(rt, path).ok()?.next()?.ok()?;
    String::from_str(rt.alloc(), found.file_name()).ok()
}

/// Returns whether the marks of a rendering are in the folder of this path.
fn has_marks<R: Files + AllocGlobal + Clone + Drop>(rt: &R, path: &str) -> bool {
    let folder = listed(path);
    match format!(in rt.alloc(); "{folder}/{MARKS}") {
        Ok(marks) => fs::symlink_metadata(rt, &marks).is_ok(),
        Err(_) => false,
    }
}
