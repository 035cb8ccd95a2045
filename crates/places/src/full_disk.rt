// How many bytes an output takes, said where its disk is full.
use crate::media::{Manner, open_media};
use crate::progress::Progress;
use crate::session::Session;
use asides::{media_size, rendering_size};
use commandline::{Chosen, Request};
use console::Console;
use opening::open_project;
use shelf::{FolderBench, Reasons};
use std::alloc::Global;
use std::fs::Files;
use std::io::ErrorKind;
use std::os::unix::fs::FileExt;

/// Reports how many bytes the output of this request takes, where it was refused since its disk is full.
pub fn report_full_disk<R, E: Console, L: Progress>(
    session: &Session<'_, R, L>,
    request: Request<'_>,
    list: &[u8],
    is_refused: bool,
    bench: &FolderBench<R>,
    err: &mut E,
)
where
    R: Files + AllocGlobal + Clone + Drop,
    R::File: FileExt,
{
    if !is_refused || !is_full(bench) {
        return;
    }
    match request {
        Request::Render(_, chosen) | Request::Resume(_, chosen) => {
            if let Some(size) = size_of_rendering(session.rt.alloc(), list, chosen) {
                err.print_line(format_args!(
                    "render.wav and render.marks take {size} bytes in all"
                ));
            }
        }
        Request::Consolidate(places, handle, _) => {
            let (rt, manner) = (session.rt, session.manner);
            if let Some(size) = size_of_media(rt, places.media, list, manner, handle) {
                err.print_line(format_args!("the media take at most {size} bytes in all"));
            }
        }
        _ => {}
    }
}

/// Whether the last failure of an output was that its disk is full.
fn is_full<R: Files + Drop>(bench: &FolderBench<R>) -> bool
where
    R::File: FileExt,
{
    match bench.reason() {
        Some(reason) => matches!(
            reason.error.kind(),
            ErrorKind::StorageFull | ErrorKind::QuotaExceeded
        ),
        None => false,
    }
}

/// How many bytes the rendering of a list that was chosen so takes, with its marks.
fn size_of_rendering(alloc: Global, list: &[u8], chosen: Chosen<'_>) -> Option<u64> {
    let project = adlread::read(alloc, list).ok()?;
    rendering_size(alloc, &project, chosen)
}

/// How many bytes the media of a list with this handle take at most.
fn size_of_media<R>(rt: &R, media: &str, list: &[u8], manner: Manner, handle: u64) -> Option<u64>
where
    R: Files + AllocGlobal + Clone + Drop,
    R::File: FileExt,
{
    let mut shelf = open_media(rt, media, manner).ok()?;
    let checked = open_project(rt.alloc(), list, &mut shelf).ok()?;
    media_size(rt.alloc(), &checked, handle)
}
