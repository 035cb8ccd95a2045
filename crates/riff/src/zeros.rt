// Chunk headers of zero bytes, found in files that were preallocated and never written.
ghost use Rattle.std.specs.Prelude.{◌≡◌, ◌≤◌, ◌*◌, ◌↔◌, All, take, replicate, length, IsTrue};

use crate::head::HEAD_LENGTH;

/// The number of bytes that are checked at once.
const TOGETHER: usize = 512;

/// Returns the number of chunk headers of id 0 and size 0 at the start of the bytes, in multiples of 64.
pub fn zero_heads(bytes: &[u8]) -> u64
    ensures within { 8 * result ≤ length bytes.now }
    ensures zeros { take (8 * result) bytes.now ≡ replicate (8 * result) 0 }
{
    // few headers are zero, and a group is long
    if bytes.is_empty() || bytes[0] != 0 {
        return 0;
    }
    let mut groups = 0;
    while groups < bytes.len() / TOGETHER
        && are_zeros(&bytes[groups * TOGETHER..(groups + 1) * TOGETHER])
    {
        groups += 1;
    }
    groups as u64 * (TOGETHER as u64 / HEAD_LENGTH)
}

/// Returns true if all bytes are zero. The loop has no early exit, so that it can be vectorised.
fn are_zeros(bytes: &[u8]) -> bool
    ensures { IsTrue result ↔ All (λ byte. byte ≡ 0) bytes.now }
{
    let mut greatest = 0;
    for byte in bytes {
        greatest = greatest.max(*byte);
    }
    greatest == 0
}
