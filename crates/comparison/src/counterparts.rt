// Stored samples at two bit depths, compared by `are_same_at`; equal to `unpack` of both and a
// comparison at full scale.
ghost use Rattle.std.specs.Prelude.{◌≡◌, ◌*◌, ◌/◌, length};
ghost use Rattle.sound_terms.specs.Depth.{bits_of};

use sound_terms::Depth;

/// The same number of stored samples from either side, each side at its own bit depth.
#[derive(Clone, Copy)]
pub struct Counterparts<'a> {
    pub depth: Depth,
    pub bytes: &'a [u8],
    pub other: Depth,
    pub others: &'a [u8],
    pub count: usize,
    ghost whole: { length bytes.now ≡ count * (bits_of depth / 8) },
    ghost others_whole: { length others.now ≡ count * (bits_of other / 8) },
}
