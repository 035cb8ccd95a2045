// Sound files for tests.
use sound_terms::{Bext, Depth};
use std::alloc::Global;
use std::test::Fail;
use wavwrite::{SoundInfo, header};

/// Four stereo sample frames; only the second channel is audible.
pub const LOUD: [u8; 16] = [0, 0, 100, 0, 0, 0, 100, 0, 0, 0, 100, 0, 0, 0, 100, 0];

/// The chunk `JUNK` of a written file, and the head of its `bext`.
const JUNK: &[u8] =
    b"JUNK\x1c\0\0\0\0\0\0\0\0\0\0\0\0\0\0\0\0\0\0\0\0\0\0\0\0\0\0\0\0\0\0\0bext\x5a\x02\0\0";

/// Builds the header of a Broadcast Wave file of version 1 (EBU Tech 3285) without CodingHistory, field by field.
pub fn head_with(
    alloc: Global,
    channels: u8,
    depth: Depth,
    frames: u64,
    bext: Bext,
) -> Result<Vec<u8>, Fail> {
    let width = u64::from(channels) * u64::from(depth.bits() / 8);
    let length = frames.checked_mul(width).ok_or("too long")?;
    let padded = length.checked_add(length % 2).ok_or("too long")?;
    let size = padded.checked_add(682).ok_or("too long")?;
    if size > 0xffff_fffe {
        return Err("too long".into());
    }
    let mut head = b"RIFF".to_vec(alloc)?;
    head.extend_from_slice(&size.to_le_bytes()[..4])?;
    head.extend_from_slice(b"WAVE")?;
    head.extend_from_slice(JUNK)?;
    head.extend_from_slice(&bext.text)?;
    head.extend_from_slice(&bext.time_reference.to_le_bytes())?;
    head.extend_from_slice(&[1, 0])?;
    head.extend_from_slice(&[0; 254])?;
    head.extend_from_slice(b"fmt \x10\0\0\0\x01\0")?;
    head.extend_from_slice(&[channels, 0, 0x80, 0xbb, 0, 0])?;
    head.extend_from_slice(&width.saturating_mul(48_000).to_le_bytes()[..4])?;
    head.extend_from_slice(&width.to_le_bytes()[..2])?;
    head.extend_from_slice(&[depth.bits(), 0])?;
    head.extend_from_slice(b"data")?;
    head.extend_from_slice(&length.to_le_bytes()[..4])?;
    Ok(head)
}

/// Returns the header of a file that starts at `time`, in samples.
pub fn head_at(
    alloc: Global,
    channels: u8,
    depth: Depth,
    frames: u64,
    time: u64,
) -> Result<Vec<u8>, Fail> {
    let bext = Bext {
        text: [0; 338],
        time_reference: time,
    };
    head_with(alloc, channels, depth, frames, bext)
}

/// Returns the header of a 16-bit file that starts at midnight.
pub fn head(alloc: Global, channels: u8, frames: u64) -> Result<Vec<u8>, Fail> {
    head_at(alloc, channels, Depth::Sixteen, frames, 0)
}

/// Returns the header that is written for a mono file of 16 bits that begins at midnight.
pub fn written_head(alloc: Global, frames: u64) -> Result<Vec<u8>, Fail> {
    let bext = Bext {
        text: [0; 338],
        time_reference: 0,
    };
    let info = SoundInfo::new(1, Depth::Sixteen, frames, bext, Vec::new(alloc)).ok_or("no info")?;
    Ok(header(alloc, &info)?)
}

/// Returns the two bytes of a sample. They repeat after a prime number of samples.
pub fn sample(place: u64) -> [u8; 2] {
    ((place % 65_521) as u16).to_le_bytes()
}

/// Appends samples to the header of a 16-bit mono file.
pub fn with_samples(head: Vec<u8>, frames: u64) -> Result<Vec<u8>, Fail> {
    let mut file = head;
    for place in 0..frames {
        file.extend_from_slice(&sample(place))?;
    }
    Ok(file)
}

/// Returns a 16-bit mono file that starts at midnight.
pub fn sound(alloc: Global, frames: u64) -> Result<Vec<u8>, Fail> {
    with_samples(head(alloc, 1, frames)?, frames)
}

/// Returns a stereo file of 12 sample frames; the middle four are silent.
pub fn silent_middle(alloc: Global) -> Result<Vec<u8>, Fail> {
    let mut file = head(alloc, 2, 12)?;
    for frames in [LOUD, [0; 16], LOUD] {
        file.extend_from_slice(&frames)?;
    }
    Ok(file)
}
