// Opens a list for a command.
ghost use Rattle.consolidate.specs.Commands.{OpensList};

use crate::Fault;
use devices::Shelf;
use opening::{Opened, open_list};
use std::alloc::Global;

/// Opens the project of a list over the sources of a shelf; its fault is one of a command.
pub fn open<S: Shelf>(alloc: Global, list: &[u8], shelf: &mut S) -> Result<Opened, Fault>
    ensures { OpensList S.Shelf list.now shelf.old shelf.new result }
{
    match open_list(alloc, list, shelf) {
        Ok(opened) => Ok(opened),
        Err(fault) => Err(Fault::Project(fault)),
    }
}
