// The program as a function on lists of one entry.
use answers::{HeldLines, answer};
use passes::Pass;
use shelf::{Bench, MemoryBench, MemoryShelf};
use std::alloc::{AllocError, Global};
use std::process::Abort;
use std::test::Fail;
use trials_projects::lists::list;

/// An entry of four samples.
const SHORT_ENTRY: &str =
    "(Entry) 0001 (Cut) I 0001 1 1 00.00.00.00/0000 01.00.00.00/0000 01.00.00.00/0004\n";

/// Returns an entry of ten samples with a fade-in of six and a fade-out of the given length.
fn faded_entry(alloc: Global, out_fade: &str) -> Result<String, AllocError> {
    format!(in alloc;
        "(Entry) 0007 (Cut) I 0001 1 1 00.00.00.00/0000 01.00.00.00/0000 01.00.00.00/0010
(Infade) 00.00.00.00/0006 LIN _ _ _
(Outfade) {out_fade} LIN _ _ _
"
    )
}

/// The header of a 16-bit mono file, up to the length of its data.
const HEAD: &[u8] =
    b"RIFF\x2c\0\0\0WAVEfmt \x10\0\0\0\x01\0\x01\0\x80\xbb\0\0\0\x77\x01\0\x02\0\x10\0data";

/// The samples 1000, -1000, 32767 and -32768, after their length.
const FOUR_SAMPLES: &[u8] = b"\x08\0\0\0\xe8\x03\x18\xfc\xff\x7f\0\x80";

/// Twelve samples, after their length. The file's header states a shorter total length, which is
/// ignored.
const TWELVE_SAMPLES: &[u8] = b"\x18\0\0\0\0\0\0\0\0\0\0\0\0\0\0\0\0\0\0\0\0\0\0\0\0\0\0\0";

/// Offset of the samples in a rendered file.
const SAMPLES_AT: usize = 690;

/// Returns a folder with `A.wav`, made of the given data length and samples.
fn folder(alloc: Global, samples: &[u8]) -> Result<MemoryShelf, AllocError> {
    let mut wave = HEAD.to_vec(alloc)?;
    wave.extend_from_slice(samples)?;
    MemoryShelf::new(alloc).with_file("A.wav", wave.as_slice())
}

/// Exit status and output of the program.
#[derive(Drop)]
struct Answered {
    status: u8,
    out: HeldLines,
    err: HeldLines,
}

/// Runs the program on a list of these entries and the files of a folder, without passes.
fn answer_over(
    alloc: Global,
    words: &[&str],
    entries: &str,
    folder: MemoryShelf,
    bench: &mut MemoryBench,
) -> Result<Answered, AllocError> {
    let list = list(alloc, entries)?;
    let mut folder = folder;
    let mut out = HeldLines::new(alloc);
    let mut err = HeldLines::new(alloc);
    let passes: Vec<Box<dyn Pass>> = Vec::new(alloc);
    let status = answer(
        alloc,
        words,
        list.as_bytes(),
        passes,
        &mut folder,
        bench,
        &mut out,
        &mut err,
    );
    Ok(Answered { status, out, err })
}

/// Checks exit status and output.
fn require(rt: &impl Abort, answered: Answered, status: u8, out: &str, err: &str) {
    assert_eq!(rt; answered.status, status);
    assert!(rt; answered.out.text() == Some(out.as_bytes()));
    assert!(rt; answered.err.text() == Some(err.as_bytes()));
}

/// Runs the program on the entry of four samples.
fn answer_four(
    alloc: Global,
    words: &[&str],
    bench: &mut MemoryBench,
) -> Result<Answered, AllocError> {
    let folder = folder(alloc, FOUR_SAMPLES)?;
    answer_over(alloc, words, SHORT_ENTRY, folder, bench)
}

/// Returns whether a file of the output has the four samples and the given length.
fn has_four(bench: &MemoryBench, name: &str, length: usize) -> bool {
    let file = bench.bytes(name).unwrap_or(&[]);
    file.len() == length && file.get(SAMPLES_AT..) == FOUR_SAMPLES.get(4..)
}

#[test]
fn four_samples_are_rendered(rt: HostRuntime) -> Result<(), Fail> {
    let mut bench = MemoryBench::new(rt.alloc());
    let words = ["render", "L.adl", "M", "O", "--depth", "16"];
    let answered = answer_four(rt.alloc(), &words, &mut bench)?;
    require(&rt, answered, 0, "rendered 4 frames 1 channels\n", "");
    assert!(rt; has_four(&bench, "render.wav", 698));
    Ok(())
}

#[test]
fn four_samples_are_consolidated(rt: HostRuntime) -> Result<(), Fail> {
    let mut bench = MemoryBench::new(rt.alloc());
    let words = ["consolidate", "L.adl", "M", "O"];
    let answered = answer_four(rt.alloc(), &words, &mut bench)?;
    let saved = "kept 8 of 8 bytes of samples; wrote 1017 bytes in all\n";
    require(&rt, answered, 0, "written 1 media 1 entries\n", saved);
    assert!(rt; has_four(&bench, "M00001.wav", 698));
    Ok(())
}

/// Checks a list of these entries.
fn checked(alloc: Global, entries: &str, folder: MemoryShelf) -> Result<Answered, AllocError> {
    let mut bench = MemoryBench::new(alloc);
    answer_over(alloc, &["check", "L.adl", "M"], entries, folder, &mut bench)
}

/// Checks a list of the entry with a fade-out of the given length.
fn checked_with_fades(alloc: Global, out_fade: &str) -> Result<Answered, AllocError> {
    let entry = faded_entry(alloc, out_fade)?;
    checked(alloc, entry.as_str(), folder(alloc, TWELVE_SAMPLES)?)
}

#[test]
fn fades_longer_than_their_entry_are_refused(rt: HostRuntime) -> Result<(), Fail> {
    let answered = checked_with_fades(rt.alloc(), "00.00.00.00/0005")?;
    let explanation =
        "the fades are longer than the entry: in-fade and out-fade together are longer than from in to out; \
        shorten the fades (adlcons explain 43)\n";
    require(&rt, answered, 1, "refused 43 at entry 7\n", explanation);
    Ok(())
}

#[test]
fn fades_as_long_as_their_entry_are_accepted(rt: HostRuntime) -> Result<(), Fail> {
    let answered = checked_with_fades(rt.alloc(), "00.00.00.00/0004")?;
    let room =
        "consolidate would write at most 1406 bytes of media\nrender would write 765 bytes\n";
    require(&rt, answered, 0, "accepted 1 entries 1 indexes\n", room);
    Ok(())
}

#[test]
fn a_missing_file_is_refused_by_its_name(rt: HostRuntime) -> Result<(), Fail> {
    let alloc = rt.alloc();
    let answered = checked(alloc, SHORT_ENTRY, MemoryShelf::new(alloc))?;
    let refusal = "refused 21 at index 1 file A.wav\n";
    let explanation =
        "there is no such file: the media folder has no file of that name, or its name is spelled differently; \
        put the file into the folder, or name the folder that has it (adlcons explain 21)\n";
    require(&rt, answered, 1, refusal, explanation);
    Ok(())
}

#[test]
fn words_that_lack_the_output_are_a_mistake(rt: HostRuntime) -> Result<(), Fail> {
    let mut bench = MemoryBench::new(rt.alloc());
    let answered = answer_four(rt.alloc(), &["render", "L.adl", "M"], &mut bench)?;
    let usage = "error: the following required arguments were not provided:\n  <OUT>\n\n\
        Usage: adlcons render <LIST> <MEDIA> <OUT>\n\nFor more information, try '--help'.\n";
    require(&rt, answered, 2, "", usage);
    assert!(rt; bench.bytes("render.wav").is_none());
    Ok(())
}
