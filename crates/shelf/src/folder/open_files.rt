// The open files of a folder.
ghost use Rattle.std.specs.Prelude.{◌≡◌, ◌++◌, codes, string_bytes, false, IfOk};
ghost use Rattle.filename.specs.FileName.{RefusesName};
ghost use Rattle.shelf.specs.Folder.{folder_named};
ghost use Rattle.shelf.specs.Given.{is_given};
ghost use Rattle.shelf.specs.declared.folder.open_files.TheConstants.{OPEN_FILES};

use super::found::FoundOutput;
use super::given::{GivenFiles, OwnFile, folder_was_exchanged, was_exchanged};
use super::handle::Handle;
use super::identity::Identity;
use super::state::State;
use filename::{FileName, require_file_name};
use lru::LruCache;
use std::alloc::{AllocError, Global};
use std::cell::RefCell;
use std::collections::BTreeMap;
use std::fs::{File, Files, Metadata, OpenFile, OpenOptions};
use std::io::{Error, ErrorKind};
use std::num::NonZeroUsize;
use std::os::unix::fs::FileExt;
use std::rc::Rc;
use std::{fs, io};

/// The number of files that stay open. A program with one folder of sources and one of outputs has fewer than 64 handles.
const OPEN_FILES: usize = 28;

/// The system's numbers for "too many open files": of the process (EMFILE), and of all processes (ENFILE).
const TOO_MANY_OPEN: [i32; 2] = [24, 23];

/// What a bench does if a file that it creates already exists.
#[derive(Clone, Copy, Debug, PartialEq, Eq)]
pub enum Overwrite {
    /// Fails, whatever has the name.
    Never,
    /// Empties the file. Anything but a plain file is a failure.
    Files,
}

/// What the files of a folder are opened for.
#[derive(Clone, Copy, PartialEq, Eq)]
pub enum Access {
    Read,
    Write(Overwrite),
}

/// An output that was opened or created: which file it is; its length, if it was synced and closed since the last write to
/// it; the number of calls that wrote to it since its last sync; and the error of a sync that failed after several writes
/// or after the file was closed. Bytes may be lost then that nobody writes again, and the next sync wouldn't say so.
#[derive(Clone, Copy)]
struct Output {
    identity: Identity,
    synced: Option<u64>,
    unsynced: u32,
    lost: Option<Error>,
}

/// The files of a folder by name; the ones used last are open. Outputs are synced before they are closed, so that no
/// failure is lost. A file that is opened again has to be the same file.
pub struct OpenFiles<R: Files + Drop>
where
    R::File: FileExt,
{
    alloc: Global,
    files: R,
    folder: String,
    access: Access,
    handles: LruCache<String, Handle<R::File>>,
    /// The files that the command was given: sources are added, and outputs are compared with it.
    given: Rc<RefCell<GivenFiles>>,
    /// What was found in the folder of outputs before the first write.
    found: FoundOutput,
    /// The state of each source when it was first opened.
    first_states: BTreeMap<String, State>,
    /// The path, relative to the folder, of each source that is in a folder below.
    paths_below: BTreeMap<String, String>,
    /// Each output that was opened or created.
    outputs: BTreeMap<String, Output>,
    /// The open folder of outputs, for its syncs. Its handle is also a reserve for the first output.
    open_folder: Option<R::File>,
    /// Files were created since the folder was synced.
    has_new_names: bool,
    /// The last call of `create` succeeded in creating its file.
    is_made: bool,
    ghost few_open: { handles.cap ≡ OPEN_FILES },
}

// Written out, so that dropping it is one call.
impl<R: Files + Drop> Drop for OpenFiles<R>
where
    R::File: FileExt,
{
    fn drop(self) {
        let OpenFiles {
            alloc: _,
            files,
            folder,
            access: _,
            handles,
            given,
            found,
            first_states,
            paths_below,
            outputs,
            open_folder,
            has_new_names: _,
            is_made: _,
        } = self;
        drop(files);
        drop(folder);
        drop(handles);
        drop(given);
        drop(found);
        drop(first_states);
        drop(paths_below);
        drop(outputs);
        drop(open_folder);
    }
}

impl<R: Files + Drop> OpenFiles<R>
where
    R::File: FileExt,
{
    /// Makes the table of a folder's files, none of them open. The empty path is the current folder.
    pub fn new(
        alloc: Global,
        files: R,
        folder: &str,
        access: Access,
        given: Rc<RefCell<GivenFiles>>,
        found: FoundOutput,
    ) -> Result<Self, AllocError>
        ensures folder { IfOk result (λ opened. string_bytes opened.folder ≡ folder_named folder.entry.now) }
        ensures access { IfOk result (λ opened. opened.access ≡ access) }
    {
        let folder = if folder.is_empty() { "." } else { folder };
        let (open_folder, found) = match access {
            Access::Read => (None, found),
            Access::Write(_) => held_folder(alloc, &files, folder, found)?,
        };
        Ok(OpenFiles {
            alloc,
            files,
            folder: String::from_str(alloc, folder)?,
            access,
            handles: LruCache::new(alloc, NonZeroUsize::new(OPEN_FILES).unwrap())?,
            given,
            found,
            first_states: BTreeMap::new(alloc),
            paths_below: BTreeMap::new(alloc),
            outputs: BTreeMap::new(alloc),
            open_folder,
            has_new_names: false,
            is_made: false,
        })
    }

    /// Returns the file system.
    pub fn files(&self) -> &R {
        &self.files
    }

    /// Returns the folder's path.
    pub fn folder(&self) -> &str {
        &self.folder
    }

    /// Maps a source name to a path below the folder.
    pub fn put_below(&mut self, name: &str, path: &str) -> Result<(), AllocError>
        ensures folder { self.new.folder ≡ self.old.folder }
    {
        let name = String::from_str(self.alloc, name)?;
        let path = String::from_str(self.alloc, path)?;
        self.paths_below.insert(name, path)?;
        Ok(())
    }

    /// Returns whether the last call of `create` created its file.
    pub fn is_made(&self) -> bool {
        self.is_made
    }

    /// Returns the length of the file in bytes, or `None` if no file has the name.
    pub fn length(&mut self, name: &str) -> io::Result<Option<u64>>
        ensures no_name { RefusesName name.now result }
    {
        Ok(self.handle(name)?.map(|handle| handle.length()))
    }

    /// Fills the buffer with the file's bytes from `at`.
    pub fn read_at(&mut self, name: &str, at: u64, buffer: &mut [u8]) -> io::Result<()>
        ensures no_name { RefusesName name.now result }
    {
        let outcome = self.handle_there(name)?.read_at(at, buffer);
        self.closed_if_failed(name, outcome)
    }

    /// Overwrites the file's bytes from `at`.
    pub fn write_at(&mut self, name: &str, at: u64, bytes: &[u8]) -> io::Result<()>
        ensures no_name { RefusesName name.now result }
    {
        self.begin_writing(name);
        let outcome = self.handle_there(name)?.write_at(at, bytes);
        self.closed_if_failed(name, outcome)
    }

    /// Appends the bytes to the file.
    pub fn append(&mut self, name: &str, bytes: &[u8]) -> io::Result<()>
        ensures no_name { RefusesName name.now result }
    {
        self.begin_writing(name);
        let outcome = self.handle_there(name)?.append(bytes);
        self.closed_if_failed(name, outcome)
    }

    /// Appends `count` zeros to an existing output.
    pub fn append_zeros(&mut self, name: &str, count: u64) -> io::Result<()>
        ensures no_name { RefusesName name.now result }
    {
        self.begin_writing(name);
        let outcome = self.handle_there(name)?.append_zeros(count);
        self.closed_if_failed(name, outcome)
    }

    /// Records that an output is written to, so that an earlier sync no longer covers all of it.
    fn begin_writing(&mut self, name: &str) {
        if let Some(output) = self.outputs.get_mut(name) {
            output.synced = None;
            output.unsynced = output.unsynced.saturating_add(1);
        }
    }

    /// Records the outcome of an output's sync. If it failed after more than `again` writes, its bytes count as lost.
    fn note_sync(&mut self, name: &str, outcome: io::Result<()>, again: u32) {
        if let Some(output) = self.outputs.get_mut(name) {
            match outcome {
                Ok(()) => output.unsynced = 0,
                Err(error) if output.unsynced > again => output.lost = Some(error),
                Err(_) => {}
            }
        }
    }

    /// Returns the error by which bytes of an output were lost that nobody writes again, if any.
    fn lost(&self, name: &str) -> Option<Error> {
        self.outputs.get(name)?.lost
    }

    /// Waits until the file is on the disk, and its name too if it is new. The file stays open. Returns an error if the
    /// folder's path leads to another folder now, if the name is no longer that of this file with this length, and, once
    /// it has failed after more than one write, until the file is created again.
    pub fn sync(&mut self, name: &str) -> io::Result<()>
        ensures no_name { RefusesName name.now result }
    {
        require_file_name(name)?;
        if let Some(error) = self.lost(name) {
            return Err(error);
        }
        self.require_same_folder()?;
        let synced = match self.synced_length(name) {
            Some(length) => Ok(length),
            None => self.sync_bytes(name),
        };
        self.hold_folder();
        let length = synced?;
        if self.has_new_names {
            // A crash can take away a file that was synced if its folder wasn't.
            self.sync_folder()?;
            self.has_new_names = false;
        }
        self.require_whole(name, length)
    }

    /// Returns an error if the folder's path leads to another folder than the one that is held.
    fn require_same_folder(&self) -> io::Result<()> {
        let Some(held) = self.found.folder() else {
            return Ok(());
        };
        let found = fs::metadata(&self.files, &self.folder)?;
        if Identity::of(&found) == held {
            Ok(())
        } else {
            Err(folder_was_exchanged())
        }
    }

    /// Waits until the file's bytes are on the disk, and returns how many they are.
    fn sync_bytes(&mut self, name: &str) -> io::Result<u64> {
        let handle = self.handle_there(name)?;
        let length = handle.length();
        let outcome = handle.sync();
        self.note_sync(name, outcome, 1);
        self.closed_if_failed(name, outcome)?;
        Ok(length)
    }

    /// Returns an error if the name isn't that of the file that was written, with this length.
    fn require_whole(&self, name: &str, length: u64) -> io::Result<()> {
        let named = require_file_name(name)?;
        let found = fs::symlink_metadata(&self.files, &self.path_of(named)?)?;
        let is_same = match self.outputs.get(name) {
            Some(output) => output.identity == Identity::of(&found),
            None => false,
        };
        if is_same && found.is_file() && found.len() == length {
            Ok(())
        } else {
            Err(was_exchanged())
        }
    }

    /// Opens the folder again if it was closed, so that the next output has a handle in reserve.
    fn hold_folder(&mut self) {
        if self.open_folder.is_none() {
            self.open_folder = open_folder(self.alloc, &self.files, &self.folder);
        }
    }

    /// Waits until the names of the folder's files are on the disk.
    fn sync_folder(&mut self) -> io::Result<()> {
        if let Some(folder) = &self.open_folder {
            return folder.sync_all();
        }
        let path = folder_path(self.alloc, &self.folder)?;
        let folder = self.open(File::options().read(true), &path)?;
        let outcome = folder.sync_all();
        self.open_folder = Some(folder);
        outcome
    }

    /// Creates an empty file of the name. If the name exists, fails or empties the file.
    pub fn create(&mut self, name: &str) -> io::Result<()>
        ensures no_name { RefusesName name.now result }
    {
        let named = require_file_name(name)?;
        self.begin_writing(name);
        self.handles.pop(name);
        self.has_new_names = true;
        self.is_made = false;
        let path = self.path_of(named)?;
        let own = match self.replaced(&path)? {
            Some(found) => self.open_emptied(name, &path, &found)?,
            None => self.open_own(
                File::options().read(true).write(true).create_new(true),
                &path,
            )?,
        };
        self.is_made = true;
        self.note_output(name, own.identity)?;
        self.keep(name, Handle::new(own.file, 0))
    }

    /// Returns what is at the path of an output that is created, if that may be replaced.
    fn replaced(&self, path: &str) -> io::Result<Option<Metadata>> {
        if self.access != Access::Write(Overwrite::Files) {
            return Ok(None);
        }
        found_or_none(fs::symlink_metadata(&self.files, path))
    }

    /// Opens an existing output and empties it once its open handle was checked.
    fn open_emptied(
        &mut self,
        name: &str,
        path: &str,
        found: &Metadata,
    ) -> io::Result<OwnFile<R::File>> {
        let own = self.open_output(name, path, found)?;
        own.file.set_len(0)?;
        Ok(own)
    }

    /// Opens an existing output, at whose path this was found, for reading and writing. Opening a pipe that way doesn't
    /// wait. Returns an error unless the open file is a plain file, the one that was found there each time, and the
    /// command's own.
    fn open_output(
        &mut self,
        name: &str,
        path: &str,
        found: &Metadata,
    ) -> io::Result<OwnFile<R::File>> {
        if !found.is_file() {
            return Err(Error::from(ErrorKind::InvalidInput));
        }
        let identity = Identity::of(found);
        if !self.may_open(name, identity)? {
            return Err(was_exchanged());
        }
        let own = self.open_own(File::options().read(true).write(true), path)?;
        if own.identity == identity {
            Ok(own)
        } else {
            Err(was_exchanged())
        }
    }

    /// Returns whether an existing file may be opened as the output of this name: it is the one that was opened or created
    /// before, or the one that was found there before the first write.
    fn may_open(&self, name: &str, file: Identity) -> io::Result<bool> {
        if let Some(output) = self.outputs.get(name) {
            return Ok(output.identity == file);
        }
        let given = self.given.try_borrow().map_err(|_| was_exchanged())?;
        Ok(self.found.allows(name, file) && !given.has_unknown())
    }

    /// Opens the path for writing and takes the file as the command's own.
    fn open_own(&mut self, how: &OpenOptions, path: &str) -> io::Result<OwnFile<R::File>> {
        let table = Rc::clone(&self.given)?;
        let given = table.try_borrow().map_err(|_| was_exchanged())?;
        self.open_for_writing(how, path, &given)
    }

    /// Opens the path for writing. Returns an error if the open file is one of those that were given to the command, has
    /// another name, or is no plain file.
    fn open_for_writing(
        &mut self,
        how: &OpenOptions,
        path: &str,
        given: &GivenFiles,
    ) -> io::Result<OwnFile<R::File>>
        ensures not_given { IfOk result (λ own. is_given given.now own.identity ≡ false) }
        ensures one_name { IfOk result (λ own. own.links ≡ 1) }
    {
        let file = self.open(how, path)?;
        given.own(file)
    }

    /// Opens a source, at whose path this was found: a plain file, which the open file has to be too. A source that was
    /// opened before has to be the same file. It becomes one of the given files.
    fn open_source(&mut self, name: &str, path: &str, found: &Metadata) -> io::Result<R::File> {
        if !found.is_file() {
            return Err(Error::from(ErrorKind::InvalidInput));
        }
        let identity = Identity::of(found);
        if self
            .first_states
            .get(name)
            .is_some_and(|first| first.identity != identity)
        {
            return Err(was_exchanged());
        }
        let file = self.open(File::options().read(true), path)?;
        let opened = file.metadata()?;
        if !opened.is_file() || Identity::of(&opened) != identity {
            return Err(was_exchanged());
        }
        let mut given = self.given.try_borrow_mut().map_err(|_| was_exchanged())?;
        given.add(identity)?;
        Ok(file)
    }

    /// Records which file an output is.
    fn note_output(&mut self, name: &str, identity: Identity) -> Result<(), AllocError> {
        let output = Output {
            identity,
            synced: None,
            unsynced: 0,
            lost: None,
        };
        if let Some(noted) = self.outputs.get_mut(name) {
            *noted = output;
            return Ok(());
        }
        let name = String::from_str(self.alloc, name)?;
        self.outputs.insert(name, output)?;
        Ok(())
    }

    /// Opens the path. If the system has no more handles, open files are closed for it, the least recently used first.
    fn open(&mut self, how: &OpenOptions, path: &str) -> io::Result<R::File> {
        let mut outcome = how.open(&self.files, path);
        for _ in 0..OPEN_FILES + 1 {
            if !has_too_many_open(&outcome) || !self.close_one()? {
                return outcome;
            }
            outcome = how.open(&self.files, path);
        }
        outcome
    }

    /// Closes the least recently used file, or else the folder. Returns `false` if none is open.
    fn close_one(&mut self) -> io::Result<bool> {
        match self.handles.pop_lru() {
            Some((name, handle)) if self.access != Access::Read => {
                self.sync_closed(&name, handle)?;
                Ok(true)
            }
            Some(_) => Ok(true),
            None => Ok(self.open_folder.take().is_some()),
        }
    }

    /// Waits until the bytes of an output that is closed are on the disk, so that its own sync needn't open it again.
    fn sync_closed(&mut self, name: &str, mut handle: Handle<R::File>) -> io::Result<()> {
        if self.synced_length(name).is_some() {
            return Ok(());
        }
        let outcome = handle.sync_written();
        self.note_sync(name, outcome, 0);
        outcome?;
        if let Some(output) = self.outputs.get_mut(name) {
            output.synced = Some(handle.length());
        }
        Ok(())
    }

    /// Returns the length of an output that was synced and closed since the last write to it.
    fn synced_length(&self, name: &str) -> Option<u64> {
        self.outputs.get(name)?.synced
    }

    /// Returns the open file of the name, or an error if no file has the name.
    fn handle_there<'a>(&'a mut self, name: &str) -> io::Result<&'a mut Handle<R::File>>
        ensures no_name { RefusesName name.now result }
    {
        self.handle(name)?.ok_or(Error::from(ErrorKind::NotFound))
    }

    /// Returns the open file of the name, which is opened if it wasn't, or `None` if no file has the name.
    fn handle<'a>(&'a mut self, name: &str) -> io::Result<Option<&'a mut Handle<R::File>>>
        ensures no_name { RefusesName name.now result }
    {
        let named = require_file_name(name)?;
        if !self.handles.contains(name) {
            match self.existing(named)? {
                Some(handle) => self.keep(name, handle)?,
                None => return Ok(None),
            }
        }
        Ok(self.handles.get_mut(name))
    }

    /// Opens the file of the name, or returns `None` if no file has it. A link to a source is followed, one to an output
    /// isn't.
    fn existing(&mut self, named: FileName<'_>) -> io::Result<Option<Handle<R::File>>> {
        if self.access == Access::Read {
            self.existing_source(named)
        } else {
            self.existing_output(named)
        }
    }

    /// Opens the source of the name. Its kind is examined before it is opened, since opening a pipe may wait forever.
    fn existing_source(&mut self, named: FileName<'_>) -> io::Result<Option<Handle<R::File>>> {
        let name = named.text;
        let path = self.source_path(named)?;
        let Some(found) = found_or_none(fs::metadata(&self.files, &path))? else {
            return Ok(None);
        };
        let file = self.open_source(name, &path, &found)?;
        self.note_state(name, &found)?;
        Ok(Some(Handle::new(file, found.len())))
    }

    /// Opens the output of the name.
    fn existing_output(&mut self, named: FileName<'_>) -> io::Result<Option<Handle<R::File>>> {
        let name = named.text;
        let path = self.path_of(named)?;
        let Some(found) = found_or_none(fs::symlink_metadata(&self.files, &path))? else {
            return Ok(None);
        };
        let own = self.open_output(name, &path, &found)?;
        if !self.outputs.contains_key(name) {
            self.note_output(name, own.identity)?;
        }
        Ok(Some(Handle::new(own.file, own.length)))
    }

    /// Records the state of a source, unless it was opened before.
    fn note_state(&mut self, name: &str, found: &Metadata) -> Result<(), AllocError> {
        if !self.first_states.contains_key(name) {
            let name = String::from_str(self.alloc, name)?;
            self.first_states.insert(name, State::of(found))?;
        }
        Ok(())
    }

    /// Returns the names of the sources that changed since they were first opened, or are gone, in the order of names.
    pub fn changed(&self) -> Result<Vec<&str>, AllocError> {
        let mut changed = Vec::new(self.alloc);
        for (name, first) in &self.first_states {
            if self.state_now(name) != Some(*first) {
                changed.push(name.as_str())?;
            }
        }
        Ok(changed)
    }

    /// Returns the present state of the file of this name, or `None` if it can't be read.
    fn state_now(&self, name: &str) -> Option<State> {
        let named = require_file_name(name).ok()?;
        let found = fs::metadata(&self.files, &self.source_path(named).ok()?).ok()?;
        Some(State::of(&found))
    }

    /// Returns the path of the source of this name: for one in a folder below, the path where it was found.
    fn source_path(&self, name: FileName<'_>) -> Result<String, AllocError> {
        let folder = self.folder.as_str();
        match self.paths_below.get(name.text) {
            Some(path) => format!(in self.alloc; "{folder}/{path}"),
            None => self.path_of(name),
        }
    }

    /// Returns the path of the file of this name directly in the folder.
    fn path_of(&self, name: FileName<'_>) -> Result<String, AllocError>
        ensures { IfOk result (λ path. string_bytes path ≡ string_bytes self.now.folder
            ++ (codes "/" ++ name.entry.text.now)) }
    {
        name.path_in(self.alloc, self.folder.as_str())
    }

    /// Keeps the file open, in place of the least recently used one.
    fn keep(&mut self, name: &str, handle: Handle<R::File>) -> io::Result<()> {
        let name = String::from_str(self.alloc, name)?;
        if self.handles.len() >= OPEN_FILES {
            self.close_one()?;
        }
        self.handles.put(name, handle)?;
        Ok(())
    }

    /// Returns the outcome. If it is a failure, closes the file, since its length isn't known any more.
    fn closed_if_failed(&mut self, name: &str, outcome: io::Result<()>) -> io::Result<()>
        ensures { result ≡ outcome }
    {
        if outcome.is_err() {
            self.handles.pop(name);
        }
        outcome
    }
}

/// Opens the folder of outputs, if the system lets it be opened, and records which folder it is unless that is known.
fn held_folder<R: Files>(
    alloc: Global,
    files: &R,
    folder: &str,
    mut found: FoundOutput,
) -> Result<(Option<R::File>, FoundOutput), AllocError> {
    let opened = open_folder(alloc, files, folder);
    if found.folder().is_none() {
        if let Some(metadata) = opened.as_ref().and_then(|folder| folder.metadata().ok()) {
            found.set_folder(&metadata);
        }
    }
    Ok((opened, found))
}

/// Opens a folder. Anything else isn't opened, since opening a pipe may wait forever.
fn open_folder<R: Files>(alloc: Global, files: &R, folder: &str) -> Option<R::File> {
    fs::open(files, folder_path(alloc, folder).ok()?.as_str()).ok()
}

/// Returns a path that leads to a folder or nowhere.
fn folder_path(alloc: Global, folder: &str) -> Result<String, AllocError> {
    format!(in alloc; "{folder}/")
}

/// Returns what was found, or `None` if there is no such file.
fn found_or_none(found: io::Result<Metadata>) -> io::Result<Option<Metadata>> {
    match found {
        Ok(found) => Ok(Some(found)),
        Err(error) if is_missing(error.kind()) => Ok(None),
        Err(error) => Err(error),
    }
}

/// Returns whether an error of this kind says that there is no such file. A folder that doesn't exist, or isn't one, has no
/// files, nor has any folder one whose name is too long.
fn is_missing(kind: ErrorKind) -> bool {
    matches!(
        kind,
        ErrorKind::NotFound | ErrorKind::NotADirectory | ErrorKind::InvalidFilename
    )
}

/// Returns whether the system says that too many files are open.
fn has_too_many_open<T>(outcome: &io::Result<T>) -> bool {
    match outcome {
        Ok(_) => false,
        Err(error) => error
            .raw_os_error()
            .is_some_and(|code| TOO_MANY_OPEN.contains(&code)),
    }
}
