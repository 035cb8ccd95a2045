// Samples: bytes, fades and sums.
use pcm::{Depth, all_zero, pack, unpack};
use soundlaw::{contribution, finish, widen};

/// Unpacks two samples and packs them again; also returns whether both are zero.
pub fn pair_of_samples(bytes: &[u8; 6]) -> ([u8; 6], bool) {
    let mut samples = [0; 2];
    unpack(Depth::TwentyFour, bytes, &mut samples);
    let mut again = [0; 6];
    pack(Depth::TwentyFour, &samples, &mut again);
    (again, all_zero(&samples))
}

/// Crossfades two 32-bit samples to a 16-bit sample: three quarters of `out` plus a quarter of
/// `into`.
pub fn crossfaded(out: i32, into: i32) -> i32 {
    let out = contribution(widen(out, Depth::ThirtyTwo), 3, 4);
    let into = contribution(widen(into, Depth::ThirtyTwo), 1, 4);
    finish(out + into, Depth::Sixteen)
}
