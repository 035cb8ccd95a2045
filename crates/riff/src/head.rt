// Chunk headers.
ghost use Rattle.std.specs.Prelude.{◌≡◌, ◌≤◌, ◌+◌, ◌%◌, length, take};
ghost use Rattle.sound_terms.specs.Chunks.{number_at};

use byteorder::{ByteOrder, LittleEndian};

/// The length of a chunk header: id and size.
pub const HEAD_LENGTH: u64 = 8;

/// A chunk header: the id, and the size field as stored.
#[derive(Clone, Copy)]
pub struct Head {
    pub id: [u8; 4],
    pub size: u32,
}

impl Head {
    /// Decodes the header at the start of the bytes.
    pub fn of(bytes: &[u8]) -> Head
        requires { 8 ≤ length bytes.now }
        ensures id { result.id ≡ take 4 bytes.now }
        ensures size { result.size ≡ number_at 4 4 bytes.now }
    {
        Head {
            id: [bytes[0], bytes[1], bytes[2], bytes[3]],
            size: LittleEndian::read_u32(&bytes[4..]),
        }
    }
}
