// Pictures of refused lists.
use crate::part::Part;
use crate::picture::Picture;
use adlmodel::{Project, place_of};
use adlread::read;
use console::Console;
use devices::Shelf;
use opening::{Fault, further_faults};
use sourceindex::bind;
use std::alloc::{AllocError, Global};
use std::collections::BTreeMap;

/// Draws a part of a list that was refused with `fault`: its entries if its files can be bound,
/// otherwise its files. Draws nothing if the text is faulty or the part is empty.
pub fn draw_refused<S: Shelf, O: Console>(
    alloc: Global,
    name: &str,
    list: &[u8],
    part: Part,
    fault: &Fault,
    shelf: &mut S,
    out: &mut O,
) {
    let Ok(project) = read(alloc, list) else {
        return;
    };
    if part.is_empty(project.events()) {
        return;
    }
    match fault {
        Fault::List(_) => {}
        Fault::Entry(_) => {
            if let Ok(bound) = bind(alloc, &project, shelf) {
                out.print(Picture::of_bad_entries(&project, &bound, name).of_part(part));
            }
        }
        Fault::SameName { .. } | Fault::Media { .. } => {
            if let Ok(bad_files) = bad_files_of(alloc, list, &project, fault, shelf) {
                out.print(Picture::of_bad_files(&project, &bad_files, name).of_part(part));
            }
        }
    }
}

/// Returns the indexes of faulty files, with their refusal numbers.
fn bad_files_of<S: Shelf>(
    alloc: Global,
    list: &[u8],
    project: &Project,
    first: &Fault,
    shelf: &mut S,
) -> Result<BTreeMap<u32, u8>, AllocError> {
    let mut names = BTreeMap::new(alloc);
    let mut bad_files = BTreeMap::new(alloc);
    add_fault(alloc, first, &mut names, &mut bad_files)?;
    if let Ok(further) = further_faults(alloc, list, shelf, first, usize::MAX) {
        for fault in &further.faults {
            add_fault(alloc, fault, &mut names, &mut bad_files)?;
        }
    }
    for source in project.sources().as_slice() {
        let Ok(Some(location)) = place_of(alloc, source.url()) else {
            continue;
        };
        if let Some(number) = names.get(location.name()) {
            bad_files.insert(source.number(), *number)?;
        }
    }
    Ok(bad_files)
}

/// Records the index of a fault, and the name of its file if it has one.
fn add_fault(
    alloc: Global,
    fault: &Fault,
    names: &mut BTreeMap<String, u8>,
    bad_files: &mut BTreeMap<u32, u8>,
) -> Result<(), AllocError> {
    let number = fault.number();
    match fault {
        Fault::Media { index, name, .. } => {
            bad_files.insert(*index, number)?;
            if let Some(name) = name {
                names.insert(String::from_str(alloc, name.as_str())?, number)?;
            }
        }
        Fault::SameName { index } => {
            bad_files.insert(*index, number)?;
        }
        Fault::List(_) | Fault::Entry(_) => {}
    }
    Ok(())
}
