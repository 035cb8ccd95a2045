//! The `ds64` chunk of RF64 (EBU Tech 3306), which holds the sizes that exceed 32 bits.
#![tactic(auto)]

ghost use Rattle.std.specs.Prelude.{◌≡◌, ◌+◌, ◌≤◌, length, Some};
ghost use Rattle.sound_terms.specs.Chunks.{number_at};
ghost use Rattle.sound_terms.specs.Ds64.{ds64_of, ds64_bytes};

use byteorder::{ByteOrder, LittleEndian};
pub use sound_terms::Ds64;

/// The length of the fixed fields, before the table.
const FIELDS: u64 = 28;

/// The length of a table entry: a chunk id and its size.
const ENTRY: u64 = 12;

/// Parses the first 28 bytes of a `ds64` chunk of the given size (EBU Tech 3306, 3.2): the form size, the `data` size
/// and the number of sample frames, 8 bytes each, and the number of table entries, 4 bytes.
///
/// Returns `None` if the chunk is too short for its table.
pub fn read_ds64(bytes: &[u8; 28], size: u32) -> Option<Ds64>
    ensures { result ≡ ds64_of bytes.now size }
{
    let entries = u32_at(bytes, 24);
    if u64::from(size) < FIELDS + ENTRY * u64::from(entries) {
        return None;
    }
    Some(Ds64 {
        riff_size: u64_at(bytes, 0),
        data_size: u64_at(bytes, 8),
        samples: u64_at(bytes, 16),
        entries,
    })
}

fn u32_at(bytes: &[u8], at: usize) -> u32
    requires { at + 4 ≤ length bytes.now }
    ensures { result ≡ number_at 4 at bytes.now }
{
    LittleEndian::read_u32(&bytes[at..])
}

fn u64_at(bytes: &[u8], at: usize) -> u64
    requires { at + 8 ≤ length bytes.now }
    ensures { result ≡ number_at 8 at bytes.now }
{
    LittleEndian::read_u64(&bytes[at..])
}

/// Returns the 28 bytes of a `ds64` chunk without table entries (EBU Tech 3306, 3.2): the form size, the `data` size
/// and the number of sample frames.
pub fn ds64_bytes(riff_size: u64, data_size: u64, samples: u64) -> [u8; 28]
    ensures bytes { result ≡ ds64_bytes riff_size data_size samples }
    ensures again { ds64_of result 28 ≡ Some (record {
      riff_size = riff_size;
      data_size = data_size;
      samples = samples;
      entries = 0;
    }) }
{
    let mut bytes = [0; 28];
    LittleEndian::write_u64(&mut bytes, riff_size);
    LittleEndian::write_u64(&mut bytes[8..], data_size);
    LittleEndian::write_u64(&mut bytes[16..], samples);
    bytes
}
