// Header fields, each written after the previous one: little-endian numbers and chunk headers.
ghost use Rattle.std.specs.Prelude.{◌≡◌, ◌≤◌, ◌+◌, ◌++◌, length, take};
ghost use Rattle.sound_terms.specs.Waves.{u16_bytes, u32_bytes, chunk_head};

use byteorder::{ByteOrder, LittleEndian};

/// Writes a word at offset `at` and returns its end.
pub fn put(out: &mut [u8], at: usize, word: &[u8]) -> usize
    requires { at + length word.now ≤ length out.old }
    ensures put { take result out.new ≡ take at out.old ++ word.now }
    ensures end { result ≡ at + length word.now }
{
    let end = at + word.len();
    out[at..end].copy_from_slice(word);
    end
}

/// Encodes a 16-bit number, little endian.
#[tactic(auto, unfolding(sound_terms::specs::Waves::u16_bytes))]
pub fn u16_bytes(number: u16) -> [u8; 2]
    ensures { result ≡ u16_bytes number }
{
    let mut bytes = [0; 2];
    LittleEndian::write_u16(&mut bytes, number);
    bytes
}

/// Encodes a 32-bit number, little endian.
#[tactic(auto, unfolding(sound_terms::specs::Waves::u32_bytes))]
pub fn u32_bytes(number: u32) -> [u8; 4]
    ensures { result ≡ u32_bytes number }
{
    let mut bytes = [0; 4];
    LittleEndian::write_u32(&mut bytes, number);
    bytes
}

/// Returns the header of a chunk: its id and the size of its contents.
#[tactic(auto, unfolding(sound_terms::specs::Waves::chunk_head))]
pub fn chunk_head(id: &[u8; 4], size: u32) -> [u8; 8]
    ensures { result ≡ chunk_head id.now size }
{
    let size = u32_bytes(size);
    let mut head = [0; 8];
    let at = put(&mut head, 0, id);
    put(&mut head, at, &size);
    head
}
