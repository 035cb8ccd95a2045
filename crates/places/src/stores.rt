// The stores of a command that writes.
ghost use Rattle.std.specs.Prelude.{◌≡◌, IfOk, OnOk};
ghost use Rattle.shelf.specs.Folder.{folder_named};

use crate::fault::OpenFault;
use crate::list_file::GivenList;
use crate::output::{HeldFolder, Lock, Replaced, examine_output, ready_output};
use crate::progress::Progress;
use crate::session::Session;
use crate::sources::ShownShelf;
use commandline::Places;
use console::Console;
use shelf::FolderBench;
use std::fs::Files;
use std::os::unix::fs::FileExt;

/// The media folder and the output folder of a command that writes, and the lock on the latter.
#[derive(Drop)]
pub struct OpenStores<'a, R: Files + AllocGlobal + Clone + Drop, L: Progress>
where
    R::File: FileExt,
{
    pub held: HeldFolder<R::File>,
    pub shelf: ShownShelf<'a, R, L>,
    pub bench: FolderBench<R>,
}

/// Opens the media folder and the output folder of a command over this list. Returns an error, before anything is written,
/// if another command is at work in the output folder, if it isn't empty and nothing may be replaced in it, if it is the
/// media folder, or if a file to be replaced is the list or a source or is linked from elsewhere, which is printed.
pub fn open_stores<'a, R, E: Console, L: Progress>(
    session: &Session<'a, R, L>,
    places: Places<'_>,
    given: &GivenList,
    replaced: Replaced<'_>,
    err: &mut E,
) -> Result<OpenStores<'a, R, L>, OpenFault>
where
    R: Files + AllocGlobal + Clone + Drop,
    R::File: FileExt + Lock,
    ensures media { IfOk result (λ stores. stores.shelf.folder ≡ folder_named places.entry.media.now) }
    ensures output { IfOk result (λ stores. stores.bench.folder ≡ folder_named places.entry.out.now) }
    ensures careful { IfOk result (λ stores. stores.bench.overwrite ≡ replaced.entry.overwrite) }
    ensures quiet { OnOk result (err.new ≡ err.old) }
{
    let (rt, stores) = (session.rt, &given.stores);
    let list = given.text.as_slice();
    let held = ready_output(rt, places, replaced.overwrite)?;
    let mut shelf = ShownShelf::open_given(session, stores, places.media)?;
    let found = examine_output(rt, places, list, replaced, &held, &mut shelf, err)?;
    let bench = stores.bench(rt.clone()?, places.out, replaced.overwrite, found)?;
    Ok(OpenStores { held, shelf, bench })
}
