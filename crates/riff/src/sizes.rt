// Sizes of chunks: from the chunk header or from `ds64` (EBU Tech 3306).
ghost use Rattle.std.specs.Prelude.{◌≡◌, ◌+◌, ◌*◌, ℕ, List, Some, IsTrue, IfOk, IfSome, IsErrOf};
ghost use Rattle.std.specs.Option.{option_or};
ghost use Rattle.devices.specs.Fault.{IsThere};
ghost use Rattle.devices.specs.Frame.{OnlyReads};
ghost use Rattle.riff.specs.Found.{IsAhead};
ghost use Rattle.riff.specs.Sizes.{HasSize, HasEntrySize, IsIndexed, IsIndexOf, TellsSize, entry_from, entry_size};

use crate::MediaFault;
use crate::entry::{BLOCK_LENGTH, ENTRY_LENGTH, Entries, Entry, key_of, read_entries};
use crate::head::Head;
use crate::index::Index;
use devices::{Shelf, ShelfFault};
use sound_terms::Ds64;

/// The size field that refers to `ds64`.
const IN_DS64: u32 = 0xffff_ffff;

/// The size of a chunk's contents: known, to be looked up in the given number of table entries, or missing.
#[derive(Clone, Copy)]
pub enum Size {
    Told(u64),
    InTable(u32),
    Missing,
}

/// Returns the size of the chunk with this header, using the index of the table if there is one.
pub fn size_of(sizes: &Option<Ds64>, index: &Option<Index>, head: &Head) -> Size
    ensures { (file : List ℕ) → IsIndexOf file sizes.now index.now → HasSize file sizes.now head.now result }
{
    match sizes {
        Some(ds64) if head.size == IN_DS64 => {
            if head.id == *b"data" {
                Size::Told(ds64.data_size)
            } else {
                size_in(ds64.entries, index, &head.id)
            }
        }
        _ => Size::Told(u64::from(head.size)),
    }
}

/// Returns the size in the first entry with this id, using the index of the table if there is one.
fn size_in(entries: u32, index: &Option<Index>, id: &[u8; 4]) -> Size
    ensures { (file : List ℕ) → IfSome index.now (IsIndexed file entries)
        → HasEntrySize (entry_size file entries id.now) entries result }
{
    let Some(index) = index else {
        return Size::InTable(entries);
    };
    match index.get(&key_of(id)) {
        Some(size) => Size::Told(*size),
        None => Size::Missing,
    }
}

/// Returns the size in the first of these entries with this id.
fn size_among(entries: &Entries, id: [u8; 4]) -> Option<u64>
    ensures { (file : List ℕ) (at rest : ℕ) → IsAhead file at entries.now.bytes.now
        → entry_from file at (entries.now.count + rest) id
        ≡ option_or result (entry_from file (at + 12 * entries.now.count) rest id) }
{
    for i in 0..entries.count {
        let entry = Entry::of(&entries.bytes[ENTRY_LENGTH * i..]);
        if entry.id == id {
            return Some(entry.size);
        }
    }
    None
}

/// Searches the table for an id, in blocks, and returns the size in the first entry.
fn entry_of<S: Shelf>(
    shelf: &mut S,
    name: &str,
    entries: u32,
    id: [u8; 4],
) -> Result<Option<u64>, ShelfFault>
    ensures found { IsTrue (S.honest shelf.old) → (file : List ℕ) → S.stored shelf.old name.now ≡ Some file
        → IfOk result (λ size. size ≡ entry_size file entries id) }
    ensures not_missing { IsThere result }
    ensures only_reads { OnlyReads S.Shelf shelf.old shelf.new result (λ fault. fault ≡ ShelfFault.Device)
        (λ _ failed. failed name.now) }
{
    let mut block = [0u8; BLOCK_LENGTH];
    let mut done = 0;
    while done < entries {
        let read = read_entries(shelf, name, done, entries - done, &mut block)?;
        if let Some(size) = size_among(&read, id) {
            return Ok(Some(size));
        }
        done += read.count as u32;
    }
    Ok(None)
}

/// Returns the size of the chunk with this header, searching the table if necessary. Returns `BadDs64` if the size is
/// missing.
pub fn told_size<S: Shelf>(
    shelf: &mut S,
    name: &str,
    sizes: &Option<Ds64>,
    index: &Option<Index>,
    head: &Head,
) -> Result<u64, MediaFault>
    ensures size { IsTrue (S.honest shelf.old) → (file : List ℕ) → S.stored shelf.old name.now ≡ Some file
        → IsIndexOf file sizes.now index.now → TellsSize file sizes.now head.now result }
    ensures no_memory { IsErrOf result MediaFault.Memory → ⊥ }
    ensures only_reads { OnlyReads S.Shelf shelf.old shelf.new result (λ fault. fault ≡ MediaFault.Device)
        (λ _ failed. failed name.now) }
{
    match size_of(sizes, index, head) {
        Size::Told(size) => Ok(size),
        Size::InTable(entries) => entry_of(shelf, name, entries, head.id)?.ok_or(
            MediaFault::BadDs64,
        ),
        Size::Missing => Err(MediaFault::BadDs64),
    }
}
