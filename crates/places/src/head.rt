// The bytes around the samples of a rendering that is resumed: its head, and the pad byte.
use crate::media::listed;
use asides::rendering_info;
use commandline::{Chosen, Request};
use console::Console;
use findings::PrintedName;
use markfile::{MARKS, SOUND};
use std::alloc::Global;
use std::fs;
use std::fs::{File, Files, OpenFile};
use std::os::unix::fs::FileExt;
use wavwrite::{data_length, fits, header};

/// The number of bytes of a mark file before the mark of the first block.
const FRONT: u64 = 44;

/// The first byte of started marks.
const STARTED: u8 = 1;

/// Returns the position of the first byte before or after the samples at which the rendering that a request resumes isn't
/// as it was written, or `None` if there is none or it can't be known. The file is examined before the first write, and
/// only if marks are started and it has its full length.
pub fn changed_position<R>(rt: &R, request: Request<'_>, list: &[u8]) -> Option<u64>
where
    R: Files + AllocGlobal,
    R::File: FileExt,
{
    match request {
        Request::Resume(places, chosen) => position_in(rt, places.out, chosen, list),
        _ => None,
    }
}

/// Reports that a resumed rendering was changed by something else at this position.
pub fn report_change<E: Console>(out: &str, position: u64, err: &mut E) {
    let folder = PrintedName(out);
    err.print_line(format_args!(
        "{folder}/{SOUND} was changed by another hand at byte {position}, where it has no samples; it stays so"
    ));
}

/// Returns the position of the first byte outside the samples that isn't this rendering's.
fn position_in<R>(rt: &R, out: &str, chosen: Chosen<'_>, list: &[u8]) -> Option<u64>
where
    R: Files + AllocGlobal,
    R::File: FileExt,
{
    let project = adlread::read(rt.alloc(), list).ok()?;
    let info = rendering_info(rt.alloc(), &project, chosen)?;
    if !fits(&info) || !has_marks(rt, out) {
        return None;
    }
    let head = header(rt.alloc(), &info).ok()?;
    position_around(rt, out, &head, data_length(&info))
}

/// Returns the position of the first byte that differs from this head before the samples, or from the zero pad byte after
/// them, or `None` if there is none or the file hasn't the length of both.
fn position_around<R>(rt: &R, out: &str, head: &[u8], samples: u64) -> Option<u64>
where
    R: Files + AllocGlobal,
    R::File: FileExt,
{
    let end = (head.len() as u64).checked_add(samples)?;
    let (file, length) = open_output(rt, out, SOUND)?;
    if length != end.checked_add(samples % 2)? {
        return None;
    }
    if let Some(position) = first_difference(rt.alloc(), &file, head) {
        return Some(position);
    }
    if samples % 2 == 1 && byte_at(&file, end)? != 0 {
        return Some(end);
    }
    None
}

/// Returns whether the marks in this folder are started.
fn has_marks<R>(rt: &R, out: &str) -> bool
where
    R: Files + AllocGlobal,
    R::File: FileExt,
{
    match open_output(rt, out, MARKS) {
        Some((file, length)) => length >= FRONT && byte_at(&file, 0) == Some(STARTED),
        None => false,
    }
}

/// Opens an existing output and returns it with its length, or `None` if it isn't a plain file. It is opened for reading and
/// writing, since opening a pipe for reading waits for a writer.
fn open_output<R>(rt: &R, out: &str, name: &str) -> Option<(R::File, u64)>
where
    R: Files + AllocGlobal,
    R::File: FileExt,
{
    let folder = listed(out);
    let path = format!(in rt.alloc(); "{folder}/{name}").ok()?;
    if !fs::symlink_metadata(rt, path.as_str()).ok()?.is_file() {
        return None;
    }
    let file = File::options()
        .read(true)
        .write(true)
        .open(rt, path.as_str())
        .ok()?;
    let opened = file.metadata().ok()?;
    if opened.is_file() {
        Some((file, opened.len()))
    } else {
        None
    }
}

/// Returns the byte of a file at this position.
fn byte_at<F: OpenFile + FileExt>(file: &F, position: u64) -> Option<u8> {
    let mut bytes = [0; 1];
    file.read_exact_at(&mut bytes, position).ok()?;
    Some(bytes[0])
}

/// Returns the first position at which a file doesn't begin with these bytes.
fn first_difference<F: OpenFile + FileExt>(alloc: Global, file: &F, wanted: &[u8]) -> Option<u64> {
    let mut bytes = Vec::new(alloc);
    bytes.resize(wanted.len(), 0).ok()?;
    file.read_exact_at(&mut bytes, 0).ok()?;
    for k in 0..wanted.len() {
        if bytes.get(k) != wanted.get(k) {
            return Some(k as u64);
        }
    }
    None
}
