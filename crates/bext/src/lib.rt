//! The `bext` chunk of Broadcast Wave (EBU Tech 3285), without its CodingHistory.
#![tactic(auto)]

ghost use Rattle.std.specs.Prelude.{◌≡◌, ◌+◌, ◌≤◌, ◌++◌, length, take, drop, Some};
ghost use Rattle.sound_terms.specs.Bext.{bext_of, bext_bytes};
ghost use Rattle.sound_terms.specs.Waves.{u16_bytes, u64_bytes};

use byteorder::{ByteOrder, LittleEndian};
pub use sound_terms::Bext;

/// The `bext` version that is written.
const VERSION: u16 = 1;

/// Parses the five text fields and the time reference of a `bext` chunk (EBU Tech 3285, 2.3). Later bytes are ignored.
///
/// Returns `None` if the contents have fewer than 346 bytes.
pub fn read_bext(bytes: &[u8]) -> Option<Bext>
    ensures { result ≡ bext_of bytes.now }
{
    if bytes.len() < 346 {
        return None;
    }
    Some(Bext {
        text: text_of(bytes),
        time_reference: LittleEndian::read_u64(&bytes[338..]),
    })
}

fn text_of(bytes: &[u8]) -> [u8; 338]
    requires { 338 ≤ length bytes.now }
    ensures { result ≡ take 338 bytes.now }
{
    let fields = &bytes[..338];
    let mut text = [0; 338];
    text.copy_from_slice(fields);
    text
}

/// Returns the 602 bytes before the CodingHistory (EBU Tech 3285, 2.3): the text fields, the time reference, version 1,
/// and zeros for the UMID and the reserved bytes.
pub fn bytes_of(bext: &Bext) -> [u8; 602]
    ensures bytes { result ≡ bext_bytes bext.now }
    ensures again { bext_of result ≡ Some bext.now }
{
    let mut bytes = [0; 602];
    put(&mut bytes, 0, &bext.text);
    let time_reference = bext.time_reference;
    put(&mut bytes, 338, &u64_field(time_reference));
    put(&mut bytes, 346, &u16_field(VERSION));
    bytes
}

/// Encodes a 16-bit number, little endian.
#[tactic(auto, unfolding(sound_terms::specs::Waves::u16_bytes))]
fn u16_field(number: u16) -> [u8; 2]
    ensures { result ≡ u16_bytes number }
{
    let mut field = [0; 2];
    LittleEndian::write_u16(&mut field, number);
    field
}

/// Encodes a 64-bit number, little endian.
#[tactic(auto, unfolding(sound_terms::specs::Waves::u64_bytes))]
fn u64_field(number: u64) -> [u8; 8]
    ensures { result ≡ u64_bytes number }
{
    let mut field = [0; 8];
    LittleEndian::write_u64(&mut field, number);
    field
}

/// Overwrites the bytes from `at` on with `word`.
fn put(bytes: &mut [u8], at: usize, word: &[u8])
    requires { at + length word.now ≤ length bytes.old }
    ensures { bytes.new ≡ take at bytes.old ++ (word.now ++ drop (at + length word.now) bytes.old) }
{
    bytes[at..at + word.len()].copy_from_slice(word);
}
