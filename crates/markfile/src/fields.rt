// Little-endian encoding of numbers.
ghost use Rattle.std.specs.Prelude.{◌≡◌};
ghost use Rattle.sound_terms.specs.Waves.{u16_bytes, u32_bytes, u64_bytes};

use byteorder::{ByteOrder, LittleEndian};

/// Encodes a 16-bit number, little endian.
#[tactic(auto, unfolding(sound_terms::specs::Waves::u16_bytes))]
pub fn bytes_of_u16(number: u16) -> [u8; 2]
    ensures { result ≡ u16_bytes number }
{
    let mut bytes = [0; 2];
    LittleEndian::write_u16(&mut bytes, number);
    bytes
}

/// Encodes a 32-bit number, little endian.
#[tactic(auto, unfolding(sound_terms::specs::Waves::u32_bytes))]
pub fn bytes_of_u32(number: u32) -> [u8; 4]
    ensures { result ≡ u32_bytes number }
{
    let mut bytes = [0; 4];
    LittleEndian::write_u32(&mut bytes, number);
    bytes
}

/// Encodes a 64-bit number, little endian.
#[tactic(auto, unfolding(sound_terms::specs::Waves::u64_bytes))]
pub fn bytes_of_u64(number: u64) -> [u8; 8]
    ensures { result ≡ u64_bytes number }
{
    let mut bytes = [0; 8];
    LittleEndian::write_u64(&mut bytes, number);
    bytes
}
