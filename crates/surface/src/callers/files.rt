// Sound files: chunks, fields, samples and headers.

use bext::{Bext, bytes_of, read_bext};
use rf64::{Ds64, ds64_bytes, read_ds64};
use riff::{Chunks, Format, MediaFault, read_fmt, walk};
use shelf::Shelf;
use std::alloc::Global;
use wavread::{Sound, open};
use wavwrite::{Depth, HeaderFault, SoundInfo, fits, header};

/// Returns the relevant chunks of a file.
pub fn read_chunks<S: Shelf>(shelf: &mut S, name: &str) -> Result<Chunks, MediaFault> {
    walk(shelf, name)
}

/// Parses the content of `fmt `.
pub fn read_format(bytes: &[u8]) -> Result<Format, MediaFault> {
    read_fmt(bytes)
}

/// Parses the content of `bext` and writes it again.
pub fn texts_of(bytes: &[u8]) -> Option<[u8; 602]> {
    let bext: Bext = read_bext(bytes)?;
    Some(bytes_of(&bext))
}

/// Parses the content of `ds64` and writes it again.
pub fn ds64_both_ways(bytes: &[u8; 28], size: u32) -> Option<[u8; 28]> {
    let sizes: Ds64 = read_ds64(bytes, size)?;
    Some(ds64_bytes(sizes.riff_size, sizes.data_size, sizes.samples))
}

/// Returns the first sample of a file on its first channel, or `None` if the file is empty.
pub fn first_sample<S: Shelf>(
    alloc: Global,
    shelf: &mut S,
    name: &str,
) -> Result<Option<i32>, MediaFault> {
    let sound: Sound = open(alloc, shelf, name)?;
    if sound.frames() == 0 || sound.channels() == 0 {
        return Ok(None);
    }
    let mut samples = [0; 1];
    sound.read(shelf, 1, 0, &mut samples)?;
    sound.read_bytes(shelf, 0, &mut [])?;
    Ok(Some(samples[0]))
}

/// Creates the description of a 24-bit mono file of `frames` samples.
pub fn info_of(alloc: Global, frames: u64, bext: Bext) -> Option<SoundInfo> {
    SoundInfo::new(1, Depth::TwentyFour, frames, bext, Vec::new(alloc))
}

/// Returns the header of a file, or `None` if the file would be too long.
pub fn header_of(alloc: Global, info: &SoundInfo) -> Result<Option<Vec<u8>>, HeaderFault> {
    if !fits(info) {
        return Ok(None);
    }
    let bytes = header(alloc, info)?;
    Ok(Some(bytes))
}
