// Projects that are copied, or rebuilt from their parts.
use adlmodel::{Project, Source, Sources, by_number, sources_by_number};
use adlread::read;
use adlwrite::{text_of, write};
use indexmap::IndexMap;
use shelf::{Bench, MemoryBench};
use std::alloc::{AllocError, Global};
use std::test::Fail;
use trials_projects::lists::list_of;

const LIST: &str = "copy.adl";

/// A list with all sections that are kept, in the form that `write` produces.
const WRITTEN: &str = "<ADL>\r
<VERSION>\r
(ADL_ID) \"1234\"\r
\r
  (VER_ADL_VERSION)\t01.01 \r
</VERSION>\r
<SYSTEM>\r
(SYS_GAIN) 0.0\r
</SYSTEM>\r
<SEQUENCE>\r
(SEQ_SAMPLE_RATE) S48000\r
(SEQ_FRAME_RATE) 25\r
(SEQ_DEST_START) 00.00.00.00/0000\r
</SEQUENCE>\r
<SOURCE_INDEX>\r
(Index) 0001 (F) \"URL:file://localhost/First take.wav\" \"a b\" 10:00:00:00.0000 _\r
(Index) 12345 (F) \"file:///B%20C.wav\" _ _ 00:01:00:00.0000\r
</SOURCE_INDEX>\r
<EVENT_LIST>\r
(Entry) 0001 (Cut) I 0001 1~2 3~4 10:00:00:00.0000 01:00:00:00.0000 01:00:10:00.0000\r
(Infade) 00:00:00:12.0000 LIN _ _ _\r
(Outfade) 00:00:01:00.1919 LIN _ _ _\r
(Entry) 0002 (Cut) I 12345 7 1 00:00:00:00.0000 01:00:10:00.0000 24:00:00:00.0000\r
</EVENT_LIST>\r
</ADL>\r
";

/// Two indexes of one file.
const SHARED_FILE: &str = "(Index) 1 (F) \"URL:file://localhost/A.wav\" _ 00.00.00.00/0000 _
(Index) 2 (F) \"URL:file://localhost/A.wav\" _ 01.00.00.00/0000 _
";

/// Two entries, one for each index.
const OF_EACH: &str = "(Entry) 1 (Cut) I 1 1 1 00.00.00.00/0100 01.00.00.00/0000 01.00.00.00/0200
(Entry) 2 (Cut) I 2 1 1 01.00.00.00/0200 02.00.00.00/0000 02.00.00.00/0200
";

/// Returns whether `write` produces this text for a project.
fn is_written(alloc: Global, project: &Project, text: &[u8]) -> Result<bool, Fail> {
    let mut bench = MemoryBench::new(alloc);
    bench.create(LIST)?;
    write(project, &mut bench, LIST)?;
    Ok(bench.bytes(LIST) == Some(text))
}

/// Returns whether a project rebuilt from the same parts, with its header, has this text.
fn is_made_anew(alloc: Global, project: &Project, text: &[u8]) -> Result<bool, Fail> {
    let sources = Sources::from_slice(alloc, project.sources().as_slice())?;
    let events = Vec::from_slice(alloc, project.events())?;
    is_written(alloc, &project.with(sources, events)?, text)
}

fn is_copied(alloc: Global, project: &Project, text: &[u8]) -> Result<bool, Fail> {
    is_written(alloc, &project.try_copy()?, text)
}

/// Returns whether a project, its copy and its rebuilt copy have the same text.
fn are_same(alloc: Global, project: &Project) -> Result<bool, Fail> {
    let text = text_of(alloc, project)?;
    let text = text.as_slice();
    Ok(is_copied(alloc, project, text)? && is_made_anew(alloc, project, text)?)
}

#[test]
fn a_copy_and_a_project_of_the_same_parts_are_the_same_list(rt: HostRuntime) -> Result<(), Fail> {
    let shared = list_of(rt.alloc(), SHARED_FILE, OF_EACH)?;
    assert!(rt; are_same(rt.alloc(), &read(rt.alloc(), WRITTEN.as_bytes())?)?);
    assert!(rt; are_same(rt.alloc(), &read(rt.alloc(), shared.as_bytes())?)?);
    Ok(())
}

#[test]
fn a_list_in_its_written_form_is_written_as_it_is(rt: HostRuntime) -> Result<(), Fail> {
    let project = read(rt.alloc(), WRITTEN.as_bytes())?;
    assert!(rt; is_written(rt.alloc(), &project, WRITTEN.as_bytes())?);
    Ok(())
}

/// Makes sources of a map of one source.
fn alone(alloc: Global, source: &Source) -> Result<Sources, AllocError> {
    let mut by_number = IndexMap::new(alloc);
    by_number.insert(source.number(), source.try_copy()?)?;
    Ok(sources_by_number(by_number))
}

#[test]
fn sources_are_found_by_their_numbers(rt: HostRuntime) -> Result<(), Fail> {
    let text = list_of(rt.alloc(), SHARED_FILE, OF_EACH)?;
    let project = read(rt.alloc(), text.as_bytes())?;
    let sources = by_number(project.sources());
    assert_eq!(rt; sources.len(), 2);
    let second = sources.get(&2).ok_or("no source")?;
    let sources = alone(rt.alloc(), second)?;
    assert_eq!(rt; sources.as_slice().len(), 1);
    assert!(rt; sources.contains(2));
    Ok(())
}
