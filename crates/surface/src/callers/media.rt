// A consolidation made from its parts: media that are preallocated and filled piece by piece, and
// the list over them.
use adlwrite::write;
use anyhow::{Context, Result, bail};
use interval::from_checked;
use mediacopy::{
    CopyFault, CopyJob, copy_piece, fetch_piece, is_piece, lay_out, length_of, medium_name,
    place_piece,
};
use mediaset::{Run, runs};
use projectcheck::Checked;
use relink::relink;
use shelf::{Bench, Shelf};
use sourceindex::Bound;
use std::alloc::Global;
use wavread::Sound;
use wavwrite::{Bext, SoundInfo, fits};

/// Sample frames per piece.
const PIECE: u64 = 65_536;

/// Name of the list.
const LIST: &str = "consolidated.adl";

/// Returns the description of the medium of a run; the source's first sample is at time `base`.
fn info_of(alloc: Global, sound: &Sound, base: u64, run: &Run) -> Result<SoundInfo> {
    let text = match sound.bext() {
        Some(bext) => bext.text,
        None => [0; 338],
    };
    let bext = Bext {
        text,
        time_reference: base.checked_add(run.first).context("no time")?,
    };
    let history = Vec::from_slice(alloc, sound.history())?;
    SoundInfo::new(sound.channels(), sound.depth(), run.length, bext, history).context(
        "no sound file",
    )
}

/// Preallocates the medium of run `k` with samples of zero.
pub fn laid_out<B: Bench>(
    alloc: Global,
    bench: &mut B,
    bound: &Bound,
    k: u32,
    run: &Run,
) -> Result<()> {
    let sound = bound.sounds().get(run.file as usize).context("no file")?;
    let home = bound.home(run.file).context("no index")?;
    let info = info_of(alloc, sound, home.base, run)?;
    if !fits(&info) {
        bail!("too long");
    }
    lay_out(alloc, bench, medium_name(u64::from(k) + 1).as_str(), &info)?;
    Ok(())
}

/// Copies a piece of a medium. Returns false if there is no such piece. Every other piece is read
/// and written in separate steps, as two workers would.
pub fn copied<S: Shelf, B: Bench>(
    alloc: Global,
    shelf: &mut S,
    bench: &mut B,
    bound: &Bound,
    runs: &[Run],
    job: CopyJob,
) -> Result<bool> {
    if !is_piece(bound, runs, job) {
        return Ok(false);
    }
    let mut bytes = Vec::new(alloc);
    bytes.resize(length_of(bound, runs, job), 0)?;
    if job.from / PIECE % 2 == 0 {
        copy_piece(shelf, bench, bound, runs, job, bytes.as_mut_slice())?;
    } else {
        fetch_piece(shelf, bound, runs, job, bytes.as_mut_slice())?;
        place_piece(bench, bound, runs, job, bytes.as_slice())?;
    }
    Ok(true)
}

/// Preallocates and fills the medium of run `k`.
fn copy_run<S: Shelf, B: Bench>(
    alloc: Global,
    shelf: &mut S,
    bench: &mut B,
    bound: &Bound,
    runs: &[Run],
    k: u32,
    run: &Run,
) -> Result<()> {
    laid_out(alloc, bench, bound, k, run)?;
    for i in 0..run.length.div_ceil(PIECE) {
        let from = i * PIECE;
        let frames = (run.length - from).min(PIECE) as u32;
        let job = CopyJob {
            run: k,
            from,
            frames,
        };
        if !copied(alloc, shelf, bench, bound, runs, job)? {
            bail!("no piece");
        }
    }
    bench.sync(medium_name(u64::from(k) + 1).as_str())?;
    Ok(())
}

/// Writes the media of a project with a handle in samples, and then the list over them.
pub fn consolidated_by_parts<S: Shelf, B: Bench>(
    alloc: Global,
    checked: &Checked,
    handle: u64,
    shelf: &mut S,
    bench: &mut B,
) -> Result<()> {
    let intervals = from_checked(alloc, checked)?;
    let bound = checked.bound();
    let kept = runs(alloc, &intervals, bound, handle)?;
    let renewed = relink(alloc, intervals, kept.as_slice(), checked)?;
    for (k, run) in kept.iter().enumerate() {
        copy_run(alloc, shelf, bench, bound, kept.as_slice(), k as u32, run)?;
    }
    bench.create(LIST)?;
    write(&renewed, bench, LIST)?;
    bench.sync(LIST)?;
    Ok(())
}
