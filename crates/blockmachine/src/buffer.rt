// Buffers for data read from files.
ghost use Rattle.std.specs.Prelude.{◌≡◌, length};

use std::alloc::{AllocError, Global};

/// Samples per read, over all channels of a file.
pub const SAMPLES: usize = 16_384;

/// Bytes for a full read at 32 bits per sample.
const BYTES: usize = 4 * SAMPLES;

/// Consecutive sample frames of an open file, with all channels: the file's index, the first frame
/// and the number.
#[derive(Clone, Copy, Debug, PartialEq, Eq)]
pub struct Held {
    pub file: u32,
    pub frame: u64,
    pub length: u32,
}

/// Buffers for one read, as stored bytes and as samples, and the range of the file that the bytes
/// begin with.
#[derive(Drop)]
pub struct Buffer {
    pub bytes: Vec<u8>,
    pub samples: Vec<i32>,
    pub held: Option<Held>,
    ghost bytes_room: { length bytes.items ≡ 65536 },
    ghost samples_room: { length samples.items ≡ 16384 },
}

impl Buffer {
    /// Allocates the buffers. Returns `AllocError` if out of memory.
    pub fn new(alloc: Global) -> Result<Self, AllocError> {
        let mut bytes = Vec::new(alloc);
        bytes.resize(BYTES, 0)?;
        let mut samples = Vec::new(alloc);
        samples.resize(SAMPLES, 0)?;
        Ok(Buffer {
            bytes,
            samples,
            held: None,
        })
    }
}
