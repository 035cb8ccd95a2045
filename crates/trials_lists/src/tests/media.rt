// Copies of pieces of media, including failures of the source or the medium.
use adlread::read;
use mediacopy::{
    CopyFault, CopyJob, LayoutFault, copy_piece, is_piece, lay_out, length_of, medium_name,
};
use mediaset::Run;
use shelf::{MemoryBench, MemoryShelf};
use sourceindex::{Bound, bind};
use std::alloc::Global;
use std::process::Abort;
use std::test::Fail;
use trials_projects::lists::list;
use wavwrite::{Bext, Depth, SoundInfo, fits};

/// An entry that plays a file.
const ENTRY: &str = "(Entry) 1 (Cut) I 1 1 1 00.00.00.00/0000 01.00.00.00/0000 01.00.00.00/0010
";

/// Runs of the file; the second has five samples from the third on.
const RUNS: [Run; 2] = [
    Run {
        file: 0,
        first: 0,
        length: 1,
    },
    Run {
        file: 0,
        first: 2,
        length: 5,
    },
];

/// The three middle samples of the second run.
const MIDDLE: CopyJob = CopyJob {
    run: 1,
    from: 1,
    frames: 3,
};

/// Returns a 16-bit mono file of ten samples with the bytes 1 to 20.
fn source(alloc: Global) -> Result<MemoryShelf, Fail> {
    let mut file = b"RIFF\x38\0\0\0WAVE\
        fmt \x10\0\0\0\x01\0\x01\0\x80\xbb\0\0\0\x77\x01\0\x02\0\x10\0data\x14\0\0\0"
        .to_vec(alloc)?;
    for byte in 1..21 {
        file.push(byte)?;
    }
    Ok(MemoryShelf::new(alloc).with_file("A.wav", &file)?)
}

/// Returns the binding of the list.
fn bound_list(alloc: Global) -> Result<Bound, Fail> {
    let text = list(alloc, ENTRY)?;
    let project = read(alloc, text.as_bytes())?;
    let mut shelf = source(alloc)?;
    Ok(bind(alloc, &project, &mut shelf)?)
}

/// Returns the medium of the second run before any piece is copied.
fn laid_out(rt: &impl Abort, alloc: Global) -> Result<MemoryBench, Fail> {
    let bext = Bext {
        text: [0; 338],
        time_reference: 2,
    };
    let info = SoundInfo::new(1, Depth::Sixteen, 5, bext, Vec::new(alloc)).ok_or("no medium")?;
    assert!(rt; fits(&info));
    let mut bench = MemoryBench::new(alloc);
    lay_out(alloc, &mut bench, medium_name(2).as_str(), &info)?;
    Ok(bench)
}

/// Returns the medium, in an output whose next call fails after the given number of bytes, if any.
fn failing_after(rt: &impl Abort, alloc: Global, part: Option<u64>) -> Result<MemoryBench, Fail> {
    let bench = laid_out(rt, alloc)?;
    match part {
        Some(part) => Ok(bench.stop_at(0, part)),
        None => Ok(bench),
    }
}

/// Copies the piece.
fn copied(
    rt: &impl Abort,
    alloc: Global,
    bound: &Bound,
    shelf: &mut MemoryShelf,
    bench: &mut MemoryBench,
) -> Result<Result<(), CopyFault>, Fail> {
    assert!(rt; is_piece(bound, &RUNS, MIDDLE));
    let mut bytes = Vec::new(alloc);
    bytes.resize(length_of(bound, &RUNS, MIDDLE), 0)?;
    Ok(copy_piece(shelf, bench, bound, &RUNS, MIDDLE, &mut bytes))
}

/// Returns whether the medium has these samples and an unchanged header.
fn has_samples(bench: &MemoryBench, before: &MemoryBench, samples: &[u8; 10]) -> bool {
    let Some(medium) = bench.bytes("M00002.wav") else {
        return false;
    };
    let Some(blank) = before.bytes("M00002.wav") else {
        return false;
    };
    medium.len() == 700
        && medium.ends_with(samples)
        && medium.iter().take(690).eq(blank.iter().take(690))
}

/// Number of bytes written before the medium fails, if it does; whether the source fails; the
/// result, and the samples of the medium.
type Case = (Option<u64>, bool, Result<(), CopyFault>, [u8; 10]);

const CASES: [Case; 4] = [
    (None, false, Ok(()), [0, 0, 7, 8, 9, 10, 11, 12, 0, 0]),
    (None, true, Err(CopyFault::Source), [0; 10]),
    (Some(5), true, Err(CopyFault::Source), [0; 10]),
    (
        Some(5),
        false,
        Err(CopyFault::Output),
        [0, 0, 7, 8, 9, 10, 11, 0, 0, 0],
    ),
];

/// Returns whether copying the piece has the expected result.
fn is_copied_so(
    rt: &impl Abort,
    alloc: Global,
    bound: &Bound,
    before: &MemoryBench,
    case: Case,
) -> Result<bool, Fail> {
    let (part, fails, answer, samples) = case;
    let mut shelf = source(alloc)?.failing(0, u64::from(fails));
    let mut bench = failing_after(rt, alloc, part)?;
    let answered = copied(rt, alloc, bound, &mut shelf, &mut bench)?;
    Ok(answered == answer && has_samples(&bench, before, &samples))
}

#[test]
fn a_piece_is_copied_or_its_medium_is_torn_within_it_alone(rt: HostRuntime) -> Result<(), Fail> {
    let bound = bound_list(rt.alloc())?;
    let before = laid_out(&rt, rt.alloc())?;
    for case in CASES {
        assert!(rt; is_copied_so(&rt, rt.alloc(), &bound, &before, case)?);
    }
    let numbers = [CopyFault::Source.number(), CopyFault::Output.number()];
    assert_eq!(rt; numbers, [22, 62]);
    let numbers = [LayoutFault::Output.number(), LayoutFault::Memory.number()];
    assert_eq!(rt; numbers, [62, 63]);
    Ok(())
}
