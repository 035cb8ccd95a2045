// Consolidations of files in memory with various passes.
use crate::tests::flat_cut::FlatCut;
use adlmodel::Project;
use adlread::read;
use consolidate::{Written, consolidate};
use passes::{DropSilent, JoinCuts, Pass, Regroup, SplitFades};
use shelf::{MemoryBench, MemoryShelf};
use std::alloc::{AllocError, Global};
use std::test::Fail;
use trials_projects::lists::{FADED, list};
use trials_projects::media::{head, silent_middle};

/// Adds the pass denoted by a letter.
fn push_pass(alloc: Global, letter: u8, passes: &mut Vec<Box<dyn Pass>>) -> Result<(), AllocError> {
    match letter {
        b's' => passes.push(Box::new(alloc, SplitFades)?)?,
        b'd' => passes.push(Box::new(alloc, DropSilent)?)?,
        b'j' => passes.push(Box::new(alloc, JoinCuts)?)?,
        b'r' => passes.push(Box::new(alloc, Regroup)?)?,
        _ => passes.push(Box::new(alloc, FlatCut { time: 6 })?)?,
    }
    Ok(())
}

/// Returns the passes denoted by the letters.
fn passes_of(alloc: Global, letters: &[u8]) -> Result<Vec<Box<dyn Pass>>, AllocError> {
    let mut passes: Vec<Box<dyn Pass>> = Vec::new(alloc);
    for letter in letters {
        push_pass(alloc, *letter, &mut passes)?;
    }
    Ok(passes)
}

/// Consolidates the entry without handles, with the given passes.
fn written(alloc: Global, letters: &[u8], bench: &mut MemoryBench) -> Result<Written, Fail> {
    let mut shelf = MemoryShelf::new(alloc).with_file("A.wav", silent_middle(alloc)?.as_slice())?;
    let text = list(alloc, FADED)?;
    let passes = passes_of(alloc, letters)?;
    Ok(consolidate(alloc, text.as_bytes(), 0, passes, &mut shelf, bench)?)
}

/// Returns the numbers of sample frames (4 bytes each) in up to three media; 0 for missing ones.
fn frames_of(alloc: Global, bench: &MemoryBench) -> Result<[usize; 3], Fail> {
    let head = head(alloc, 2, 12)?.len();
    let frames = |name| match bench.bytes(name) {
        Some(file) => file.len().saturating_sub(head) / 4,
        None => 0,
    };
    Ok([
        frames("M00001.wav"),
        frames("M00002.wav"),
        frames("M00003.wav"),
    ])
}

/// Returns the start and the length of each entry of a project.
fn spans_of(alloc: Global, project: &Project) -> Result<Vec<(u64, u64)>, AllocError> {
    let mut spans = Vec::new(alloc);
    for event in project.events() {
        let start = event.dest_in.get();
        spans.push((start, event.dest_out.get().saturating_sub(start)))?;
    }
    Ok(spans)
}

/// Returns the start and the length of each entry of the list that was written.
fn entries_of(alloc: Global, bench: &MemoryBench) -> Result<Vec<(u64, u64)>, Fail> {
    let text = bench.bytes("consolidated.adl").ok_or("no list")?;
    Ok(spans_of(alloc, &read(alloc, text)?)?)
}

/// Passes by letter, the expected number of sample frames per medium, and the expected starts and
/// lengths of entries.
type Case = (&'static [u8], [usize; 3], &'static [(u64, u64)]);

const CASES: [Case; 7] = [
    (b"", [12, 0, 0], &[(0, 12)]),
    (b"d", [12, 0, 0], &[(0, 12)]),
    (b"s", [12, 0, 0], &[(0, 4), (4, 4), (8, 4)]),
    (b"sd", [4, 4, 0], &[(0, 4), (8, 4)]),
    (b"sdjr", [4, 4, 0], &[(0, 4), (8, 4)]),
    // a custom pass cuts the middle in two, and each fade joins one part
    (b"sc", [12, 0, 0], &[(0, 4), (4, 2), (6, 2), (8, 4)]),
    (b"scr", [12, 0, 0], &[(0, 6), (6, 6)]),
];

#[test]
fn an_entry_with_a_silent_middle_goes_by_any_passes(rt: HostRuntime) -> Result<(), Fail> {
    let alloc = rt.alloc();
    for (letters, media, entries) in CASES {
        let mut bench = MemoryBench::new(alloc);
        let written = written(alloc, letters, &mut bench)?;
        assert_eq!(rt; frames_of(alloc, &bench)?, media);
        assert_eq!(rt; entries_of(alloc, &bench)?.as_slice(), entries);
        assert_eq!(rt; written.entries as usize, entries.len());
    }
    Ok(())
}
