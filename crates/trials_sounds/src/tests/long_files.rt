// The transition from RIFF to RF64, with files of zeros that take no memory.
use shelf::ZeroShelf;
use std::alloc::Global;
use std::test::Fail;
use trials_projects::media::{head, written_head};
use wavread::{Depth, open};
use wavwrite::{Bext, SoundInfo, fits_riff_with, is_large, place_of};

/// The maximum number of 16-bit mono samples in a RIFF file without a CodingHistory.
const MOST_OF_RIFF: u64 = 2_147_483_306;

/// The first 56 bytes of the shortest RF64 file: its header, `ds64` with the sizes of form and
/// `data`, the number of samples and no table (EBU Tech 3306), and the start of `bext`.
const RF64_HEAD: [u8; 56] = [
    0x52, 0x46, 0x36, 0x34, 0xff, 0xff, 0xff, 0xff, 0x57, 0x41, 0x56, 0x45, 0x64, 0x73, 0x36, 0x34,
    0x1c, 0, 0, 0, 0, 0, 0, 0, 1, 0, 0, 0, 0x56, 0xfd, 0xff, 0xff, 0, 0, 0, 0, 0xab, 0xfe, 0xff,
    0x7f, 0, 0, 0, 0, 0, 0, 0, 0, 0x62, 0x65, 0x78, 0x74, 0x5a, 2, 0, 0,
];

/// Returns a shelf with a file of zeros.
fn silent(alloc: Global, frames: u64) -> Result<ZeroShelf, Fail> {
    let head = written_head(alloc, frames)?;
    let samples = frames.saturating_mul(2);
    let length = samples.saturating_add(head.len() as u64);
    Ok(ZeroShelf::new(String::from_str(alloc, "A.wav")?, head, length))
}

/// Returns the number of channels, the depth and the length of a file, after its last sample was
/// read as zero.
fn opened(alloc: Global, frames: u64) -> Result<(u8, Depth, u64), Fail> {
    let mut shelf = silent(alloc, frames)?;
    let sound = open(alloc, &mut shelf, "A.wav")?;
    let last = sound.frames().checked_sub(1).ok_or("no frames")?;
    let mut sample = [1];
    sound.read(&mut shelf, 1, last, &mut sample)?;
    if sample != [0] {
        return Err("the last sample isn't zero".into());
    }
    Ok((sound.channels(), sound.depth(), sound.frames()))
}

/// Returns whether the header of a file has the given start and end.
fn has_head(alloc: Global, frames: u64, first: &[u8], last: &[u8]) -> Result<bool, Fail> {
    let head = written_head(alloc, frames)?;
    Ok((head.len() == 690) & head.starts_with(first) & head.ends_with(last))
}

#[test]
fn the_longest_riff_is_opened(rt: HostRuntime) -> Result<(), Fail> {
    let (first, last) = (b"RIFF\xfe\xff\xff\xffWAVEJUNK", b"data\x54\xfd\xff\xff");
    assert!(rt; has_head(rt.alloc(), MOST_OF_RIFF, first, last)?);
    assert_eq!(rt;
        opened(rt.alloc(), MOST_OF_RIFF)?,
        (1, Depth::Sixteen, MOST_OF_RIFF)
    );
    Ok(())
}

#[test]
fn the_shortest_rf64_is_opened(rt: HostRuntime) -> Result<(), Fail> {
    let frames = MOST_OF_RIFF + 1;
    assert!(rt; has_head(rt.alloc(), frames, &RF64_HEAD, b"data\xff\xff\xff\xff")?);
    assert_eq!(rt; opened(rt.alloc(), frames)?, (1, Depth::Sixteen, frames));
    Ok(())
}

#[test]
fn a_header_has_each_field_of_broadcast_wave(rt: HostRuntime) -> Result<(), Fail> {
    for frames in [1, 12_000, MOST_OF_RIFF] {
        let by_hand = head(rt.alloc(), 1, frames)?;
        assert!(rt; written_head(rt.alloc(), frames)? == by_hand);
    }
    Ok(())
}

/// The facts of a file of one channel of 16 bits.
fn info(alloc: Global, frames: u64) -> Result<SoundInfo, Fail> {
    let bext = Bext {
        text: [0; 338],
        time_reference: 0,
    };
    Ok(SoundInfo::new(1, Depth::Sixteen, frames, bext, Vec::new(alloc)).ok_or("no info")?)
}

#[test]
fn a_file_is_large_past_the_most_that_riff_can_tell(rt: HostRuntime) -> Result<(), Fail> {
    for (frames, large) in [(1, false), (MOST_OF_RIFF, false), (MOST_OF_RIFF + 1, true)] {
        let info = info(rt.alloc(), frames)?;
        assert_eq!(rt; place_of(&info), 690);
        assert_eq!(rt; is_large(&info), large);
        assert_eq!(rt; fits_riff_with(1, Depth::Sixteen, frames, 0), !large);
    }
    Ok(())
}
