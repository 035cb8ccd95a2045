// Index of the `ds64` table (EBU Tech 3306).
ghost use Rattle.std.specs.Prelude.{◌≡◌, ◌+◌, ◌*◌, ℕ, List, Some, IsTrue, IfOk, IfErr, OnOk};
ghost use Rattle.devices.specs.Frame.{OnlyReads};
ghost use Rattle.riff.specs.Fault.{IsExcused};
ghost use Rattle.riff.specs.Found.{IsAhead};
ghost use Rattle.riff.specs.Sizes.{HasEntry, IsIndexed, entries_of};

use crate::MediaFault;
use crate::entry::{BLOCK_LENGTH, ENTRY_LENGTH, Entries, Entry, key_of, read_entries};
use devices::Shelf;
use sound_terms::Ds64;
use std::alloc::{AllocError, Global};
use std::collections::BTreeMap;

/// The sizes in a `ds64` table by chunk id (as a number); the first entry of each id counts.
pub type Index = BTreeMap<u32, u64>;

/// Adds an entry after those already added.
fn add_entry(index: &mut Index, entry: &Entry) -> Result<(), AllocError>
    ensures { (file : List ℕ) (n : ℕ) → HasEntry file (48 + 12 * n) entry.now → IsIndexed file n index.old
        → OnOk result (IsIndexed file (n + 1) index.new) }
{
    let key = key_of(&entry.id);
    if !index.contains_key(&key) {
        index.insert(key, entry.size)?;
    }
    Ok(())
}

/// Adds entries after those already added.
fn add_entries(index: &mut Index, entries: &Entries) -> Result<(), AllocError>
    ensures { (file : List ℕ) (n : ℕ) → IsAhead file (48 + 12 * n) entries.now.bytes.now → IsIndexed file n index.old
        → OnOk result (IsIndexed file (n + entries.now.count) index.new) }
{
    for i in 0..entries.count {
        let entry = Entry::of(&entries.bytes[ENTRY_LENGTH * i..]);
        add_entry(index, &entry)?;
    }
    Ok(())
}

/// Returns the number of entries of the table: 0 in RIFF.
fn entries_of(sizes: &Option<Ds64>) -> u32
    ensures { result ≡ entries_of sizes.now }
{
    match sizes {
        Some(ds64) => ds64.entries,
        None => 0,
    }
}

/// Reads the `ds64` table in blocks. Returns `Device` if a read fails, and `Memory` if out of memory.
pub fn index_of<S: Shelf>(
    alloc: Global,
    shelf: &mut S,
    name: &str,
    sizes: &Option<Ds64>,
) -> Result<Index, MediaFault>
    ensures indexed { IsTrue (S.honest shelf.old) → (file : List ℕ) → S.stored shelf.old name.now ≡ Some file
        → IfOk result (IsIndexed file (entries_of sizes.now)) }
    ensures excused { IfErr result IsExcused }
    ensures only_reads { OnlyReads S.Shelf shelf.old shelf.new result (λ fault. fault ≡ MediaFault.Device)
        (λ _ failed. failed name.now) }
{
    let entries = entries_of(sizes);
    let mut index = BTreeMap::new(alloc);
    let mut block = [0u8; BLOCK_LENGTH];
    let mut done = 0;
    while done < entries {
        let read = read_entries(shelf, name, done, entries - done, &mut block)?;
        add_block(&mut index, &read)?;
        done += read.count as u32;
    }
    Ok(index)
}

/// Adds the entries of a block. Returns `Memory` if out of memory.
fn add_block(index: &mut Index, block: &Entries) -> Result<(), MediaFault>
    ensures added { (file : List ℕ) (n : ℕ) → IsAhead file (48 + 12 * n) block.now.bytes.now → IsIndexed file n index.old
        → OnOk result (IsIndexed file (n + block.now.count) index.new) }
    ensures memory { IfErr result (λ fault. fault ≡ MediaFault.Memory) }
{
    add_entries(index, block).map_err(|_| MediaFault::Memory)
}
