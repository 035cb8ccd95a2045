// Sources that were written to after the marks of a rendering that is gone on with.
use crate::media::listed;
use adlmodel::{Project, Source, place_of};
use commandline::{Places, Request};
use console::Console;
use findings::PrintedName;
use markfile::MARKS;
use std::alloc::{AllocError, Global};
use std::collections::BTreeSet;
use std::fs;
use std::fs::Files;
use std::os::unix::fs::MetadataExt;

/// How many of them are reported.
const MOST: usize = 20;

/// The names of the sources of a list that were written to after the marks in the folder of the output, for a request
/// that goes on with a rendering; none where that can't be known. It is looked at before the first write.
pub fn newer_sources<R>(rt: &R, request: Request<'_>, list: &[u8]) -> Option<Vec<String>>
where
    R: Files + AllocGlobal,
{
    match request {
        Request::Resume(places, _) => newer_in(rt, places, list),
        _ => None,
    }
}

/// Reports these sources: blocks that are marked were made of what these were before.
pub fn report_newer<E: Console>(names: &[String], err: &mut E) {
    for name in names.iter().take(MOST) {
        let name = PrintedName(name.as_str());
        err.print_line(format_args!(
            "the source {name} was written to after {MARKS}: what was marked by then is of the file as it was before"
        ));
    }
    if names.len() > MOST {
        let more = names.len() - MOST;
        err.print_line(format_args!("and {more} more such sources"));
    }
}

/// When a file was last written to: seconds since 1970, and nanoseconds of the next.
#[derive(Clone, Copy)]
struct Moment {
    seconds: i64,
    nanoseconds: i64,
}

impl Moment {
    /// Of the file of this name in a folder.
    fn of<R>(rt: &R, folder: &str, name: &str) -> Option<Moment>
    where
        R: Files + AllocGlobal,
    {
        let folder = listed(folder);
        let path = format!(in rt.alloc(); "{folder}/{name}").ok()?;
        let found = fs::metadata(rt, path.as_str()).ok()?;
        Some(Moment {
            seconds: found.mtime(),
            nanoseconds: found.mtime_nsec(),
        })
    }

    /// Whether it is later than another.
    fn is_after(&self, other: &Moment) -> bool {
        if self.seconds == other.seconds {
            self.nanoseconds > other.nanoseconds
        } else {
            self.seconds > other.seconds
        }
    }
}

/// The sources of a list over this folder that are newer than the marks in this one.
fn newer_in<R>(rt: &R, places: Places<'_>, list: &[u8]) -> Option<Vec<String>>
where
    R: Files + AllocGlobal,
{
    let marked = Moment::of(rt, places.out, MARKS)?;
    let project = adlread::read(rt.alloc(), list).ok()?;
    let names = names_of(rt.alloc(), &project).ok()?;
    newer_of(rt, places.media, &names, &marked).ok()
}

/// Those of these names whose file in a folder was written to later than at this moment.
fn newer_of<R>(
    rt: &R,
    folder: &str,
    names: &[String],
    marked: &Moment,
) -> Result<Vec<String>, AllocError>
where
    R: Files + AllocGlobal,
{
    let mut newer = Vec::new(rt.alloc());
    for name in names {
        let name = name.as_str();
        if is_newer(rt, folder, name, marked) {
            newer.push(String::from_str(rt.alloc(), name)?)?;
        }
    }
    Ok(newer)
}

/// Whether the file of this name in a folder was written to later than at this moment.
fn is_newer<R>(rt: &R, folder: &str, name: &str, marked: &Moment) -> bool
where
    R: Files + AllocGlobal,
{
    match Moment::of(rt, folder, name) {
        Some(written) => written.is_after(marked),
        None => false,
    }
}

/// The names of the files that entries of a project play, each once.
fn names_of(alloc: Global, project: &Project) -> Result<Vec<String>, AllocError> {
    let mut used = BTreeSet::new(alloc);
    for event in project.events() {
        used.insert(event.index)?;
    }
    let mut names = Vec::new(alloc);
    let mut known = BTreeSet::new(alloc);
    for source in project.sources().as_slice() {
        if used.contains(&source.number()) {
            add_name(alloc, source, &mut names, &mut known)?;
        }
    }
    Ok(names)
}

/// Adds the name of the file of a source, where it isn't known yet.
fn add_name(
    alloc: Global,
    source: &Source,
    names: &mut Vec<String>,
    known: &mut BTreeSet<String>,
) -> Result<(), AllocError> {
    let Some(location) = place_of(alloc, source.url())? else {
        return Ok(());
    };
    let name = location.name();
    if known.contains(name) {
        return Ok(());
    }
    known.insert(String::from_str(alloc, name)?)?;
    names.push(String::from_str(alloc, name)?)?;
    Ok(())
}
