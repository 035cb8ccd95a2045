// Contents of a `bext` chunk as kept in memory.
ghost use Rattle.std.specs.Prelude.{◌≤◌, vec_len};

use sound_terms::Bext;

/// The fields and the CodingHistory of a `bext` chunk. `short` is true if the chunk is too short for its fields, `cut`
/// if the CodingHistory was truncated.
#[derive(Drop)]
pub struct Told {
    pub bext: Option<Bext>,
    pub history: Vec<u8>,
    pub short: bool,
    pub cut: bool,
    ghost few: { vec_len history ≤ 65536 },
}
