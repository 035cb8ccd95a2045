// Entries of the `ds64` table (EBU Tech 3306).
ghost use Rattle.std.specs.Prelude.{◌≡◌, ◌≤◌, ◌+◌, ◌*◌, ℕ, List, Some, IfOk, IsTrue, length, take};
ghost use Rattle.devices.specs.Fault.{IsThere};
ghost use Rattle.devices.specs.Frame.{OnlyReads};
ghost use Rattle.byteorder.specs.Endian.{little_number};
ghost use Rattle.sound_terms.specs.Chunks.{number_at};
ghost use Rattle.riff.specs.Found.{IsAhead};
ghost use Rattle.riff.specs.Ids.{IsId};

use byteorder::{ByteOrder, LittleEndian};
use devices::{Shelf, ShelfFault};

/// The offset of the `ds64` table: after the form header, the header of `ds64` and its 28 bytes of fields.
const TABLE: u64 = 48;

/// The length of an entry: a chunk id and its size.
pub const ENTRY_LENGTH: usize = 12;

/// The maximum number of entries per read.
const BLOCK: u32 = 341;

/// The number of bytes of a full read.
pub const BLOCK_LENGTH: usize = 4092;

/// An entry of the `ds64` table: the size of the chunks with this id.
#[derive(Clone, Copy)]
pub struct Entry {
    pub id: [u8; 4],
    pub size: u64,
}

/// Consecutive entries of the table.
#[derive(Clone, Copy)]
pub struct Entries<'a> {
    pub bytes: &'a [u8],
    pub count: usize,
    ghost whole: { length bytes.now ≡ 12 * count },
}

impl Entry {
    /// Decodes the entry at the start of the bytes.
    pub fn of(bytes: &[u8]) -> Entry
        requires { 12 ≤ length bytes.now }
        ensures id { result.id ≡ take 4 bytes.now }
        ensures size { result.size ≡ number_at 8 4 bytes.now }
    {
        Entry {
            id: [bytes[0], bytes[1], bytes[2], bytes[3]],
            size: LittleEndian::read_u64(&bytes[4..]),
        }
    }
}

/// Reads the entries after the first `done` entries of the table, at most one block of the `left` remaining ones.
pub fn read_entries<'a, S: Shelf>(
    shelf: &mut S,
    name: &str,
    done: u32,
    left: u32,
    block: &'a mut [u8; BLOCK_LENGTH],
) -> Result<Entries<'a>, ShelfFault>
    ensures ahead { IsTrue (S.honest shelf.old) → (file : List ℕ) → S.stored shelf.old name.now ≡ Some file
        → IfOk result (λ entries. IsAhead file (48 + 12 * done) entries.bytes.now) }
    ensures some { 1 ≤ left → IfOk result (λ entries. 1 ≤ entries.count) }
    ensures within { IfOk result (λ entries. entries.count ≤ left) }
    ensures not_missing { IsThere result }
    ensures only_reads { OnlyReads S.Shelf shelf.old shelf.new result (λ fault. fault ≡ ShelfFault.Device)
        (λ _ failed. failed name.now) }
{
    let count = BLOCK.min(left) as usize;
    let bytes = &mut block[..count * ENTRY_LENGTH];
    shelf.read_at(name, TABLE + ENTRY_LENGTH as u64 * u64::from(done), bytes)?;
    Ok(Entries { bytes, count })
}

/// Returns an id as a number, to be used as a map key.
pub fn key_of(id: &[u8; 4]) -> u32
    ensures key { result ≡ little_number 4 id.now }
    ensures is_id { IsId id.now }
{
    LittleEndian::read_u32(id)
}
