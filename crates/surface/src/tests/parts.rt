// A consolidation and a rendering made from their parts, compared with the results of the main
// functions.
use crate::callers::blocks::{first_source, samples_of};
use crate::callers::calls::rendered;
use crate::callers::lists::bound_and_checked;
use crate::callers::media::consolidated_by_parts;
use adlread::read;
use consolidate::consolidate;
use projectcheck::Checked;
use sampletime::SampleTime;
use shelf::{MemoryBench, MemoryShelf};
use sound_terms::{Bext, Depth};
use std::alloc::Global;
use std::test::Fail;
use trials_projects::lists::list;
use trials_projects::media::{head_with, sample, with_samples};

/// Two entries on two channels; the second fades in while the first is audible.
const ENTRIES: &str = "(Entry) 1 (Cut) I 1 1 1 00.00.00.00/0003 00.00.00.00/0000 00.00.02.00/0000
(Entry) 2 (Cut) I 1 1 2 00.00.02.05/0400 00.00.01.24/0000 00.00.02.01/0005
(Infade) 00.00.00.01/0000 LIN _ _ _
";

/// Number of samples of the file, and end of the second entry.
const FRAMES: u64 = 110_000;

const END: u64 = 97_925;

/// Offset of the samples in a written file.
const SAMPLES_AT: usize = 690;

/// Returns the sources.
fn sources(alloc: Global) -> Result<MemoryShelf, Fail> {
    let bext = Bext {
        text: [7; 338],
        time_reference: 0,
    };
    let head = head_with(alloc, 1, Depth::Sixteen, FRAMES, bext)?;
    let file = with_samples(head, FRAMES)?;
    Ok(MemoryShelf::new(alloc).with_file("A.wav", &file)?)
}

/// Returns the checked list.
fn checked(alloc: Global, shelf: &mut MemoryShelf) -> Result<Checked, Fail> {
    let text = list(alloc, ENTRIES)?;
    let project = read(alloc, text.as_bytes())?;
    let Ok(checked) = bound_and_checked(alloc, project, shelf) else {
        return Err("not accepted".into());
    };
    Ok(checked)
}

/// Returns the consolidation made from its parts, with a handle of ten samples.
fn made_of_parts(alloc: Global, shelf: &mut MemoryShelf) -> Result<MemoryBench, Fail> {
    let mut bench = MemoryBench::new(alloc);
    let checked = checked(alloc, shelf)?;
    if consolidated_by_parts(alloc, &checked, 10, shelf, &mut bench).is_err() {
        return Err("not made".into());
    }
    Ok(bench)
}

/// Returns the consolidation made by `consolidate`.
fn made_by_call(alloc: Global, shelf: &mut MemoryShelf) -> Result<MemoryBench, Fail> {
    let mut bench = MemoryBench::new(alloc);
    let text = list(alloc, ENTRIES)?;
    consolidate(
        alloc,
        text.as_bytes(),
        10,
        Vec::new(alloc),
        shelf,
        &mut bench,
    )?;
    Ok(bench)
}

/// The list over the media: the 96,000 frames of the first entry and the 3,845 of the second, with ten on either side
/// as far as the file has them.
const KEPT: &[u8] = b"<ADL>\r
<SEQUENCE>\r
(SEQ_SAMPLE_RATE) S48000\r
(SEQ_FRAME_RATE) 25\r
</SEQUENCE>\r
<SOURCE_INDEX>\r
(Index) 0001 (F) \"URL:file://localhost/M00001.wav\" _ 00.00.00.00/0000 00.00.02.00/0013\r
(Index) 0002 (F) \"URL:file://localhost/M00002.wav\" _ 00.00.02.05/0390 00.00.00.02/0025\r
</SOURCE_INDEX>\r
<EVENT_LIST>\r
(Entry) 0001 (Cut) I 0001 1 1 00.00.00.00/0003 00.00.00.00/0000 00.00.02.00/0000\r
(Entry) 0002 (Cut) I 0002 1 2 00.00.02.05/0400 00.00.01.24/0000 00.00.02.01/0005\r
(Infade) 00.00.00.01/0000 LIN _ _ _\r
</EVENT_LIST>\r
</ADL>\r
";

/// The medium of these frames.
fn medium(alloc: Global, first: u64, frames: u64) -> Result<Vec<u8>, Fail> {
    let bext = Bext {
        text: [7; 338],
        time_reference: first,
    };
    let mut file = head_with(alloc, 1, Depth::Sixteen, frames, bext)?;
    for place in 0..frames {
        file.extend_from_slice(&sample(first.saturating_add(place)))?;
    }
    Ok(file)
}

/// Whether a bench has both media and the list.
fn has_all(alloc: Global, bench: &MemoryBench) -> Result<bool, Fail> {
    let (one, other) = (medium(alloc, 0, 96_013)?, medium(alloc, 105_990, 3_865)?);
    Ok(
        (bench.bytes("M00001.wav") == Some(one.as_slice()))
            & (bench.bytes("M00002.wav") == Some(other.as_slice()))
            & (bench.bytes("consolidated.adl") == Some(KEPT)),
    )
}

#[test]
fn parts_make_the_media_and_the_list_of_the_call(rt: HostRuntime) -> Result<(), Fail> {
    let mut shelf = sources(rt.alloc())?;
    let by_parts = made_of_parts(rt.alloc(), &mut shelf)?;
    assert!(rt; has_all(rt.alloc(), &by_parts)?);
    let by_call = made_by_call(rt.alloc(), &mut shelf)?;
    assert!(rt; has_all(rt.alloc(), &by_call)?);
    Ok(())
}

/// Returns whether the bytes encode the samples at 24 bits.
fn are_bytes_of(bytes: &[u8], samples: &[i32]) -> bool {
    bytes.len() / 3 == samples.len()
        && bytes.chunks_exact(3).zip(samples.iter()).all(|(bytes, sample)| match bytes {
            [low, middle, high] => i32::from_le_bytes([0, *low, *middle, *high]) >> 8 == *sample,
            _ => false,
        })
}

/// Returns the samples of a rendering made from its blocks.
fn samples_of_blocks(alloc: Global, shelf: &mut MemoryShelf) -> Result<Vec<i32>, Fail> {
    let end = SampleTime::new(END).ok_or("no time")?;
    let checked = checked(alloc, shelf)?;
    match samples_of(alloc, &checked, end, shelf) {
        Ok(samples) => Ok(samples),
        Err(_) => Err("no samples".into()),
    }
}

/// Returns whether `render` produces these samples.
fn are_rendered(alloc: Global, samples: &[i32], shelf: &mut MemoryShelf) -> Result<bool, Fail> {
    let mut bench = MemoryBench::new(alloc);
    let text = list(alloc, ENTRIES)?;
    rendered(alloc, text.as_bytes(), shelf, &mut bench)?;
    let file = bench.bytes("render.wav").unwrap_or(&[]);
    Ok(are_bytes_of(file.get(SAMPLES_AT..).unwrap_or(&[]), samples))
}

/// A sample of the file at 24 bits.
fn played(place: u64) -> i32 {
    i32::from(i16::from_le_bytes(sample(place))) * 256
}

/// Whether both channels play their frames of the file. The fade of the second one, 1,920 frames from 94,080 on, isn't
/// checked here.
fn are_played(samples: &[i32]) -> bool {
    let mut frame: u64 = 0;
    for pair in samples.chunks_exact(2) {
        let first = if frame < 96_000 {
            played(frame.saturating_add(3))
        } else {
            0
        };
        let second = if frame < 94_080 {
            0
        } else {
            played(frame.saturating_add(11_920))
        };
        let is_faded = (94_080..96_000).contains(&frame);
        let is_played = match pair {
            [one, other] => *one == first && (is_faded || *other == second),
            _ => false,
        };
        if !is_played {
            return false;
        }
        frame = frame.saturating_add(1);
    }
    frame == END
}

#[test]
fn blocks_make_the_samples_of_the_call(rt: HostRuntime) -> Result<(), Fail> {
    let mut shelf = sources(rt.alloc())?;
    let samples = samples_of_blocks(rt.alloc(), &mut shelf)?;
    assert!(rt; are_played(samples.as_slice()));
    assert!(rt; are_rendered(rt.alloc(), samples.as_slice(), &mut shelf)?);
    Ok(())
}

#[test]
fn the_first_source_of_a_project_is_told(rt: HostRuntime) -> Result<(), Fail> {
    let mut shelf = sources(rt.alloc())?;
    let end = SampleTime::new(END).ok_or("no time")?;
    let checked = checked(rt.alloc(), &mut shelf)?;
    assert!(rt; first_source(rt.alloc(), &checked, end).is_ok_and(|found| found == Some((0, 3))));
    Ok(())
}
