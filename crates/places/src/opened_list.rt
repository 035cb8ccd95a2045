// A list that was opened over the folder of its media.
ghost use Rattle.std.specs.Prelude.{◌≡◌, IfOk};
ghost use Rattle.shelf.specs.Folder.{folder_named};

use crate::list_file::{ReadFault, read_list};
use crate::media::{PLAIN, listed, unlisted_reason};
use crate::progress::Progress;
use crate::session::Session;
use crate::sources::ShownShelf;
use std::fs::Files;
use std::io;
use std::os::unix::fs::FileExt;

/// A list as it was read, over the folder of its media.
#[derive(Drop)]
pub struct OpenedList<'a, R: Files + AllocGlobal + Clone + Drop, L: Progress>
where
    R::File: FileExt,
{
    pub text: Vec<u8>,
    pub shelf: ShownShelf<'a, R, L>,
    /// Why the folder can't be listed, if it can't.
    pub unlisted: Option<io::Error>,
}

/// Opens the list of this path over this folder.
pub fn open_list<'a, R, L: Progress>(
    session: &Session<'a, R, L>,
    path: &str,
    media: &str,
) -> Result<OpenedList<'a, R, L>, ReadFault>
where
    R: Files + Input + AllocGlobal + Clone + Drop,
    R::File: FileExt,
    ensures { IfOk result (λ opened. opened.shelf.folder ≡ folder_named media.now) }
{
    let text = read_list(session.rt, path)?;
    let shelf = ShownShelf::open(session, media)?;
    let unlisted = unlisted_reason(session.rt, media);
    Ok(OpenedList {
        text,
        shelf,
        unlisted,
    })
}

/// Opens the list of this name in this folder over the files of the folder, and no others.
pub fn open_inside<'a, R, L: Progress>(
    session: &Session<'a, R, L>,
    folder: &str,
    name: &str,
) -> Result<OpenedList<'a, R, L>, ReadFault>
where
    R: Files + Input + AllocGlobal + Clone + Drop,
    R::File: FileExt,
    ensures { IfOk result (λ opened. opened.shelf.folder ≡ folder_named folder.now) }
{
    let parent = listed(folder);
    let plain = Session {
        rt: session.rt,
        manner: PLAIN,
        line: session.line,
    };
    let path = format!(in plain.rt.alloc(); "{parent}/{name}")?;
    open_list(&plain, &path, folder)
}
