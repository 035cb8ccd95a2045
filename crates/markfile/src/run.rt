// Identity of a rendering run.
ghost use Rattle.std.specs.Prelude.{◌≡◌};
ghost use Rattle.sha2.specs.Sha256.{sha256};
ghost use Rattle.markfile.specs.Format.{run_bytes};
ghost use Rattle.markfile.specs.Range.{range_of};

use crate::fields::{bytes_of_u16, bytes_of_u64};
use sampletime::SampleTime;
use sha2::{Digest, Sha256};
use sound_terms::Depth;

/// The part of a list to render: the samples from `from` up to but not including `to`, on channels 1 to `channels` (at
/// most 64), at a depth.
#[derive(Clone, Copy, Debug, PartialEq, Eq)]
pub struct RunRange {
    pub from: SampleTime,
    pub to: SampleTime,
    pub channels: u8,
    pub depth: Depth,
}

/// The identity of a rendering, as stored in its marks.
#[derive(Clone, Copy, Debug, PartialEq, Eq)]
pub struct RunId {
    /// The SHA-256 digest of the range and the list.
    pub digest: [u8; 32],
    /// The number of blocks.
    pub blocks: u32,
    /// The length of the rendered file in bytes.
    pub length: u64,
}

impl RunId {
    /// Creates the identity of the run that renders `range` of `list`, in the given number of blocks, to a file of the
    /// given length in bytes.
    pub fn new(list: &[u8], range: &RunRange, blocks: u32, length: u64) -> Self
        ensures digest { result.digest ≡ sha256 (run_bytes (range_of range.now) list.now) }
        ensures blocks { result.blocks ≡ blocks }
        ensures length { result.length ≡ length }
    {
        let mut hasher = Sha256::new();
        hasher.update(bytes_of_u64(range.from.get()));
        hasher.update(bytes_of_u64(range.to.get()));
        hasher.update(bytes_of_u16(u16::from(range.channels)));
        hasher.update(bytes_of_u16(u16::from(range.depth.bits())));
        hasher.update(list);
        RunId {
            digest: hasher.finalize(),
            blocks,
            length,
        }
    }
}
