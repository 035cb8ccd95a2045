// Faults of source files, each checked independently.
ghost use Rattle.std.specs.Prelude.{◌≡◌, ◌≤◌, ◌==◌, ◌∷◌, ◌++◌, [], List, IfOk, IsTrue, OnOk, Some, length, position};
ghost use Rattle.std.specs.List.{cons_option};
ghost use Rattle.list_terms.specs.Names as names;
ghost use Rattle.list_terms.specs.Names.{place_of_url};
ghost use Rattle.opening.specs.Further as spec;
ghost use Rattle.opening.specs.Further.{AreOfFiles, AreTold, IsCounted, IsFileTold, WasRead, places_of, used_of};
ghost use Rattle.opening.specs.Paths.{Knows};

use super::paths::{Naming, Paths};
use crate::Fault;
use adlmodel::{Place, Project, Source, place_of};
use devices::Shelf;
use sourceindex::UsedNumbers;
use std::alloc::{AllocError, Global};
use wavread::{MediaFault, open};

/// Returns the fault of the file of this source, at this location.
fn file_fault<S: Shelf>(
    alloc: Global,
    source: &Source,
    location: &Place,
    shelf: &mut S,
) -> Result<Option<Fault>, AllocError>
    requires { place_of_url source.now.url ≡ Some location.now }
    ensures reported { IsTrue (S.honest shelf.old)
        → IfOk result (IsFileTold (S.stored shelf.old) source.now location.now) }
    ensures counted { IfOk result (λ told. IsCounted S.Shelf shelf.old shelf.new (cons_option told [])) }
    ensures only_read { WasRead S.Shelf shelf.old shelf.new }
{
    match open(alloc, shelf, location.name()) {
        Ok(_) => Ok(None),
        Err(MediaFault::Memory) => Err(AllocError),
        Err(fault) => {
            let index = source.number();
            let name = Some(String::from_str(alloc, location.name())?);
            Ok(Some(Fault::Media { index, name, fault }))
        }
    }
}

/// Returns the fault of the file of this source and records its path. Ignores a source that no entry uses.
fn source_fault<S: Shelf>(
    alloc: Global,
    used: &UsedNumbers,
    source: &Source,
    paths: &mut Paths,
    shelf: &mut S,
) -> Result<Option<Fault>, AllocError>
    ensures reported { IsTrue (S.honest shelf.old) → (named : List names.Place) → Knows paths.old named
        → IfOk result (λ reported.
        AreTold (S.stored shelf.old) named (used_of used.now (source.now ∷ [])) (cons_option reported [])) }
    ensures counted { IfOk result (λ told. IsCounted S.Shelf shelf.old shelf.new (cons_option told [])) }
    ensures noted { (named : List names.Place) → Knows paths.old named
        → OnOk result (Knows paths.new (named ++ places_of (used_of used.now (source.now ∷ [])))) }
    ensures only_read { WasRead S.Shelf shelf.old shelf.new }
{
    if !used.contains(source.number()) {
        return Ok(None);
    }
    let Some(location) = place_of(alloc, source.url())? else {
        return Ok(None);
    };
    match paths.note(alloc, &location)? {
        Naming::First => file_fault(alloc, source, &location, shelf),
        Naming::Again => Ok(None),
        Naming::ByOtherPath => Ok(Some(Fault::SameName {
            index: source.number(),
        })),
    }
}

/// Records the path of the file of this source. Ignores a source that no entry uses.
fn note_file(
    alloc: Global,
    used: &UsedNumbers,
    source: &Source,
    paths: &mut Paths,
) -> Result<(), AllocError>
    ensures { (named : List names.Place) → Knows paths.old named
        → OnOk result (Knows paths.new (named ++ places_of (used_of used.now (source.now ∷ [])))) }
{
    if !used.contains(source.number()) {
        return Ok(());
    }
    if let Some(location) = place_of(alloc, source.url())? {
        let _ = paths.note(alloc, &location)?;
    }
    Ok(())
}

/// Records the paths of the files of the used sources.
fn note_files(
    alloc: Global,
    used: &UsedNumbers,
    sources: &[Source],
    paths: &mut Paths,
) -> Result<(), AllocError>
    ensures { (named : List names.Place) → Knows paths.old named
        → OnOk result (Knows paths.new (named ++ places_of (used_of used.now sources.now))) }
{
    for source in sources {
        note_file(alloc, used, source, paths)?;
    }
    Ok(())
}

/// Returns the faults of the files of the used sources, each file once.
fn tell_files<S: Shelf>(
    alloc: Global,
    used: &UsedNumbers,
    sources: &[Source],
    paths: &mut Paths,
    shelf: &mut S,
) -> Result<Vec<Fault>, AllocError>
    ensures reported { IsTrue (S.honest shelf.old) → (named : List names.Place) → Knows paths.old named
        → IfOk result (λ faults. AreTold (S.stored shelf.old) named (used_of used.now sources.now) faults.items) }
    ensures counted { IfOk result (λ faults. IsCounted S.Shelf shelf.old shelf.new faults.items) }
    ensures only_read { WasRead S.Shelf shelf.old shelf.new }
{
    let mut faults = Vec::new(alloc);
    for source in sources {
        if let Some(fault) = source_fault(alloc, used, source, paths, shelf)? {
            faults.push(fault)?;
        }
    }
    Ok(faults)
}

/// Returns the position of the source with this number.
fn place_of_number(sources: &[Source], number: u32) -> Option<usize>
    ensures { result ≡ position (λ source. source.number == number) sources.now }
{
    sources.iter().position(|source| source.number() == number)
}

/// Returns the number of sources up to and including the one with this number, or of all sources if there is none.
fn count_up_to(sources: &[Source], number: u32) -> usize
    ensures count { result ≡ spec.count_up_to number sources.now }
    ensures within { result ≤ length sources.now }
{
    match place_of_number(sources, number) {
        Some(position) => position + 1,
        None => sources.len(),
    }
}

/// Returns the faults of the files of the used indexes after the index already reported, each file once, in the order
/// of the source index.
pub fn file_faults<S: Shelf>(
    alloc: Global,
    project: &Project,
    reported: u32,
    shelf: &mut S,
) -> Result<Vec<Fault>, AllocError>
    ensures of_files { IsTrue (S.honest shelf.old)
        → IfOk result (λ faults. AreOfFiles project.now (S.stored shelf.old) reported faults.items) }
    ensures counted { IfOk result (λ faults. IsCounted S.Shelf shelf.old shelf.new faults.items) }
    ensures only_read { WasRead S.Shelf shelf.old shelf.new }
{
    let used = UsedNumbers::new(alloc, project.events());
    let mut paths = Paths::new(alloc);
    let sources = project.sources().as_slice();
    let (before, after) = sources.split_at(count_up_to(sources, reported));
    note_files(alloc, &used, before, &mut paths)?;
    tell_files(alloc, &used, after, &mut paths, shelf)
}
