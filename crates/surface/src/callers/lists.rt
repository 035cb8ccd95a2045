// Lists: text, times, names and bindings.
ghost use Rattle.std.specs.Prelude.{◌≡◌};
ghost use Rattle.indexmap.specs.IndexMap.{keys, values};
ghost use Rattle.list_terms.specs.WholeProject.{AreEvents, AreSources, index_numbers};

use adlmodel::{
    Channels, Event, Fade, Place, Project, Source, Sources, by_number, place_of, sources_by_number,
};
use adlread::{AdlFault, rate_of, read};
use adltoken::{Lines, Token, TokenFault, TokenKind, Tokens};
use adlwrite::{WriteFault, write};
use anyhow::Result;
use indexmap::IndexMap;
use list_terms::Notice;
use projectcheck::{Checked, check};
use sampletime::{Rate, SampleTime, Separators, parse_time, text_of};
use shelf::{Bench, Shelf};
use sourceindex::{Bound, bind};
use std::alloc::{AllocError, Global};

/// Parses the text of a time and writes it again.
pub fn spelt_again(text: &[u8]) -> Option<[u8; 16]> {
    let (time, separators): (SampleTime, Separators) = parse_time(text, Rate::Frames25)?;
    Some(text_of(time, separators, Rate::Frames25))
}

/// Returns the first line of a text.
pub fn first_line(text: &[u8]) -> Option<&[u8]> {
    let mut lines = Lines::new(text);
    lines.next_line()
}

/// Returns the kind, the position and the length of the first token of a text, and the length of its content.
pub fn first_token(text: &[u8]) -> Result<Option<(TokenKind, usize, usize, usize)>, TokenFault> {
    let mut lines = Lines::new(text);
    let Some(line) = lines.next_line() else {
        return Ok(None);
    };
    let mut tokens: Tokens = lines.tokens(line);
    let next: Option<Token> = tokens.next_token()?;
    let Some(token) = next else {
        return Ok(None);
    };
    let span = token.span();
    Ok(Some((token.kind, span.at, span.length, token.content.len())))
}

/// Returns the frame rate of a list.
pub fn rate_in(text: &[u8]) -> Rate {
    rate_of(text)
}

/// Reads a list.
pub fn read_list(alloc: Global, text: &[u8]) -> Result<Project, AdlFault> {
    read(alloc, text)
}

/// Writes a list at the end of an existing file.
pub fn write_list<B: Bench>(project: &Project, bench: &mut B) -> Result<(), WriteFault> {
    write(project, bench, "L.adl")
}

/// Copies a project.
pub fn copied(project: &Project) -> Result<Project, AllocError> {
    project.try_copy()
}

/// Rebuilds a project from its sources and events.
pub fn made_anew(alloc: Global, project: &Project) -> Result<Project, AllocError> {
    let sources = Sources::from_slice(alloc, project.sources().as_slice())?;
    let events = Vec::from_slice(alloc, project.events())?;
    project.with(sources, events)
}

/// Returns the number of sources in a project's map.
pub fn mapped(project: &Project) -> usize {
    by_number(project.sources()).len()
}

/// Returns a project over the sources of a map.
pub fn made_of_map(
    project: &Project,
    sources: IndexMap<u32, Source>,
    events: Vec<Event>,
) -> Result<Project, AllocError>
    requires numbers { keys sources ≡ index_numbers (values sources) }
    requires sources { AreSources (values sources) }
    requires events { AreEvents events.items }
{
    project.with(sources_by_number(sources), events)
}

/// Returns whether a project has an index with this number, and its numbers of indexes, entries and
/// notices.
pub fn counts_of(project: &Project, number: u32) -> (bool, usize, usize, usize) {
    let sources: &Sources = project.sources();
    let source: Option<&Source> = sources.get(number);
    (
        source.is_some(),
        sources.as_slice().len(),
        project.events().len(),
        project.notices().len(),
    )
}

/// Returns the channels, the start time and the fade-in of an entry.
pub fn parts_of(event: &Event) -> (Channels, SampleTime, Fade) {
    (event.dest, event.dest_in, event.rise)
}

/// Returns the lengths of the path and of the file name in a URL.
pub fn lengths_of(alloc: Global, url: &[u8]) -> Result<Option<(usize, usize)>, AllocError> {
    let found: Option<Place> = place_of(alloc, url)?;
    let Some(location) = found else {
        return Ok(None);
    };
    Ok(Some((location.path().len(), location.name().len())))
}

/// Binds a project to its files and checks it.
pub fn bound_and_checked<S: Shelf>(
    alloc: Global,
    project: Project,
    shelf: &mut S,
) -> Result<Checked> {
    let bound: Bound = bind(alloc, &project, shelf)?;
    let checked = check(project, bound)?;
    Ok(checked)
}

/// Returns the number of entries of a checked project, and the number of its files.
pub fn sizes_of_checked(checked: &Checked) -> (usize, usize) {
    (
        checked.project().events().len(),
        checked.bound().sounds().len(),
    )
}

/// Returns the numbers of files, indexes and notices of a binding, and the base of its first file.
pub fn sizes_of(bound: &Bound) -> (usize, usize, usize, Option<u64>) {
    let base = match bound.home(0) {
        Some(home) => Some(home.base),
        None => None,
    };
    (
        bound.sounds().len(),
        bound.indexes().len(),
        bound.notices().len(),
        base,
    )
}
