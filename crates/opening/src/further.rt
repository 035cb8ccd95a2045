// Further faults of a refused list: the faults of the same stage that don't depend on the first one.
ghost use Rattle.std.specs.Prelude.{◌≡◌, ◌≤◌, ℕ, IfErr, IfOk, IsTrue, List, Ok, length};
ghost use Rattle.list_terms.specs.Bound.{binding_of};
ghost use Rattle.list_terms.specs.Text.{text_value};
ghost use Rattle.opening.specs.Further.{AreAll, AreFurther, AreOfEntries, AreOfFiles, HasReason, IsCounted, IsCut, IsUnread, WasRead};
ghost use Rattle.opening.specs.Own.{IsTextOf, OfText};

mod entries;
mod files;
mod paths;
mod untold;

use crate::Fault;
use adlread::{AdlFault, Project, read};
use devices::Shelf;
use entries::entry_faults;
use files::file_faults;
use sourceindex::{Bound, bind};
use std::alloc::{AllocError, Global};
pub use untold::Untold;

/// The further faults of a list, up to a limit and in the order of checking, and the number of the others.
#[derive(Debug, Drop)]
pub struct Further {
    pub faults: Vec<Fault>,
    pub more: usize,
}

impl Further {
    /// Keeps the first `most` faults and counts the others.
    fn of(all: Vec<Fault>, most: usize) -> Further
        ensures cut { IsCut most all.items result }
        ensures few { length result.faults.items ≤ most }
    {
        let more = all.len().saturating_sub(most);
        let mut faults = all;
        faults.truncate(most);
        Further { faults, more }
    }
}

/// Finds up to `most` further faults of a list that was refused with the fault `first`, and counts the others.
///
/// After a fault of the text there are none. After a fault of a file, the files of the later used indexes are opened,
/// each once and independently. After a fault of an entry, each other entry is checked independently.
///
/// Returns an error if out of memory, if the device fails, or if `first` isn't the first fault.
pub fn further_faults<S: Shelf>(
    alloc: Global,
    list: &[u8],
    shelf: &mut S,
    first: &Fault,
    most: usize,
) -> Result<Further, Untold>
    ensures further { IsTrue (S.honest shelf.old)
        → IfOk result (AreFurther most list.now (S.stored shelf.old) first.now) }
    ensures few { IfOk result (λ further. length further.faults.items ≤ most) }
    ensures counted { IfOk result (λ further. IsCounted S.Shelf shelf.old shelf.new further.faults.items) }
    ensures untold { IfErr result (HasReason S.Shelf list.now shelf.old shelf.new) }
    ensures only_read { WasRead S.Shelf shelf.old shelf.new }
{
    let all = all_faults(alloc, list, shelf, first)?;
    Ok(Further::of(all, most))
}

/// Returns all further faults.
fn all_faults<S: Shelf>(
    alloc: Global,
    list: &[u8],
    shelf: &mut S,
    first: &Fault,
) -> Result<Vec<Fault>, Untold>
    ensures all { IsTrue (S.honest shelf.old)
        → IfOk result (λ all. AreAll list.now (S.stored shelf.old) first.now all.items) }
    ensures counted { IfOk result (λ all. IsCounted S.Shelf shelf.old shelf.new all.items) }
    ensures untold { IfErr result (HasReason S.Shelf list.now shelf.old shelf.new) }
    ensures only_read { WasRead S.Shelf shelf.old shelf.new }
{
    match first {
        Fault::List(_) => Ok(Vec::new(alloc)),
        Fault::SameName { index } => behind_file(alloc, list, *index, shelf),
        Fault::Media { index, .. } => behind_file(alloc, list, *index, shelf),
        Fault::Entry(fault) => beside_entry(alloc, list, fault.entry, shelf),
    }
}

/// Reads the list again.
fn read_again(alloc: Global, list: &[u8]) -> Result<Project, Untold>
    ensures read { IfOk result (IsTextOf list.now) }
    ensures untold { IfErr result (λ untold. IsUnread list.now untold) }
{
    match read(alloc, list) {
        Ok(project) => Ok(project),
        Err(AdlFault::Memory) => Err(Untold::Memory),
        Err(AdlFault::Text { .. }) => Err(Untold::NotFirst),
    }
}

/// Binds the project of the list again.
fn bind_again<S: Shelf>(alloc: Global, project: &Project, shelf: &mut S) -> Result<Bound, Untold>
    ensures bound { IsTrue (S.honest shelf.old)
        → IfOk result (λ bound. binding_of project.now (S.stored shelf.old) ≡ Ok bound) }
    ensures untold { (list : List ℕ) → text_value list ≡ Ok project.now
        → IfErr result (HasReason S.Shelf list shelf.old shelf.new) }
    ensures only_read { WasRead S.Shelf shelf.old shelf.new }
{
    match bind(alloc, project, shelf) {
        Ok(bound) => Ok(bound),
        Err(fault) => Err(Untold::of(fault)),
    }
}

/// Returns the faults of all files after the file of this index.
fn behind_file<S: Shelf>(
    alloc: Global,
    list: &[u8],
    index: u32,
    shelf: &mut S,
) -> Result<Vec<Fault>, Untold>
    ensures of_files { IsTrue (S.honest shelf.old)
        → IfOk result (λ faults. OfText list.now (λ project.
        AreOfFiles project (S.stored shelf.old) index faults.items)) }
    ensures counted { IfOk result (λ faults. IsCounted S.Shelf shelf.old shelf.new faults.items) }
    ensures untold { IfErr result (HasReason S.Shelf list.now shelf.old shelf.new) }
    ensures only_read { WasRead S.Shelf shelf.old shelf.new }
{
    let project = read_again(alloc, list)?;
    let faults = file_faults(alloc, &project, index, shelf)?;
    Ok(faults)
}

/// Returns the faults of all entries except the one with this number.
fn beside_entry<S: Shelf>(
    alloc: Global,
    list: &[u8],
    entry: u32,
    shelf: &mut S,
) -> Result<Vec<Fault>, Untold>
    ensures of_entries { IsTrue (S.honest shelf.old)
        → IfOk result (λ faults. OfText list.now (λ project.
        AreOfEntries project (S.stored shelf.old) entry faults.items)) }
    ensures counted { IfOk result (λ faults. IsCounted S.Shelf shelf.old shelf.new faults.items) }
    ensures untold { IfErr result (HasReason S.Shelf list.now shelf.old shelf.new) }
    ensures only_read { WasRead S.Shelf shelf.old shelf.new }
{
    let project = read_again(alloc, list)?;
    let bound = bind_again(alloc, &project, shelf)?;
    let faults = entry_faults(alloc, &bound, project.events(), entry)?;
    Ok(faults)
}
