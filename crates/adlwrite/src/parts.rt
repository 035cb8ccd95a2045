// The parts of a list, each appended to its file without allocating memory.
ghost use Rattle.std.specs.Prelude.{◌≡◌, ◌-◌, ℕ, IsSome, IsTrue, List, OnOk, codes, flat_map, length, replicate};
ghost use Rattle.list_terms.specs.Project.{ListProject};
ghost use Rattle.list_terms.specs.WrittenText as written;
ghost use Rattle.list_terms.specs.WrittenText.{number_text, text_of_project, time_text};
ghost use Rattle.adlmodel.specs.Header.{header_view};
ghost use Rattle.devices.specs.Frame.{Appends};
ghost use Rattle.adlwrite.specs.Parts.{channels_behind, event_text, fade_text, head_text, header_text, list_text, part_text, section_text, source_text};

use adlmodel::{Bytes, Channels, Event, Header, KeptLines, Project, Source};
use devices::{Bench, DeviceFault};
use itoa::Buffer;
use sampletime::{SampleTime, text_of};

/// The file that a list is appended to, and its project, whose frame rate and separators the times have.
#[derive(Clone, Copy)]
struct ListFile<'a> {
    name: &'a str,
    project: &'a Project,
}

/// Anything that can be written into a list.
trait Written {
    /// The text, in a list of this project.
    ghost text: { ListProject → Self → List ℕ };

    /// Appends the text.
    fn put<B: Bench>(&self, bench: &mut B, file: &ListFile<'_>) -> Result<(), DeviceFault>
        ensures { Appends B.Bench file.now.name.now (text file.now.project.now self.now) bench.old bench.new result };
}

/// Appends each element in order.
fn put_all<B: Bench, W: Written>(
    bench: &mut B,
    file: &ListFile<'_>,
    all: &[W],
) -> Result<(), DeviceFault>
    ensures { Appends B.Bench file.now.name.now (flat_map (W.text file.now.project.now) all.now) bench.old bench.new result }
{
    for one in all {
        one.put(bench, file)?;
    }
    Ok(())
}

impl Written for &[u8] {
    ghost text = { λ _ text. text.now };

    fn put<B: Bench>(&self, bench: &mut B, file: &ListFile<'_>) -> Result<(), DeviceFault> {
        bench.append(file.name, *self)
    }
}

/// A part of a line.
#[derive(Clone, Copy)]
enum Part<'a> {
    /// Verbatim text.
    Plain(&'a [u8]),
    /// A number with at least four digits.
    Number(u32),
    /// A run of channels after a space: `n` for one channel, `a~b` for several.
    Run(Channels),
    /// A time with the separators of the project, or `_` if it is missing.
    Time(Option<SampleTime>),
    /// The line of a fade, by its keyword and its length; nothing if the length is zero.
    Fade(&'a [u8], SampleTime),
}

impl Written for Part<'_> {
    ghost text = { part_text };

    fn put<B: Bench>(&self, bench: &mut B, file: &ListFile<'_>) -> Result<(), DeviceFault> {
        match *self {
            Part::Plain(text) => text.put(bench, file),
            Part::Number(number) => put_number(bench, file, number),
            Part::Run(channels) => put_channels(bench, file, channels),
            Part::Time(time) => time_in(&mut [0; 16], file.project, time).put(bench, file),
            Part::Fade(keyword, length) => put_fade(bench, file, keyword, length),
        }
    }
}

/// Appends a number with at least four digits.
fn put_number<B: Bench>(bench: &mut B, file: &ListFile<'_>, number: u32) -> Result<(), DeviceFault>
    ensures { Appends B.Bench file.now.name.now (number_text number) bench.old bench.new result }
{
    let mut buffer = Buffer::new();
    let digits = buffer.format(number).as_bytes();
    put_all(bench, file, &[zeros_for(digits), digits])
}

/// Returns the zeros that fill a number up to four digits.
fn zeros_for(digits: &[u8]) -> &'static [u8]
    ensures { result.now ≡ replicate (4 - length digits.now) 48 }
{
    match digits.len() {
        0 => b"0000",
        1 => b"000",
        2 => b"00",
        3 => b"0",
        _ => b"",
    }
}

/// Formats a time with the separators of the project, or `_` if it is missing.
fn time_in<'a>(room: &'a mut [u8; 16], project: &Project, time: Option<SampleTime>) -> &'a [u8]
    ensures { result.now ≡ time_text project.now time }
{
    let _ = project.header();
    match time {
        Some(time) => {
            *room = text_of(time, project.separators(), project.rate());
            &*room
        }
        None => b"_",
    }
}

/// Appends a space and a run of channels: `n` for one channel, `a~b` for several.
#[tactic(auto, unfolding(crate::specs::Parts::channels_behind))]
fn put_channels<B: Bench>(
    bench: &mut B,
    file: &ListFile<'_>,
    channels: Channels,
) -> Result<(), DeviceFault>
    ensures { Appends B.Bench file.now.name.now (channels_behind channels) bench.old bench.new result }
{
    let mut buffer = Buffer::new();
    let first = buffer.format(channels.first).as_bytes();
    if channels.first == channels.last {
        return put_all(bench, file, &[b" ", first]);
    }
    let mut buffer = Buffer::new();
    let last = buffer.format(channels.last).as_bytes();
    put_all(bench, file, &[b" ", first, b"~", last])
}

/// Appends the line of a fade, unless its length is zero.
fn put_fade<B: Bench>(
    bench: &mut B,
    file: &ListFile<'_>,
    keyword: &[u8],
    length: SampleTime,
) -> Result<(), DeviceFault>
    ensures { Appends B.Bench file.now.name.now (fade_text file.now.project.now keyword.now length) bench.old bench.new result }
{
    if length.get() == 0 {
        return Ok(());
    }
    let mut room = [0; 16];
    let time = time_in(&mut room, file.project, Some(length));
    put_all(bench, file, &[keyword, time, b" LIN _ _ _\r\n"])
}

/// A verbatim line.
impl Written for Bytes {
    ghost text = { λ _ line. written.line line };

    fn put<B: Bench>(&self, bench: &mut B, file: &ListFile<'_>) -> Result<(), DeviceFault> {
        put_all(bench, file, &[self.as_slice(), b"\r\n"])
    }
}

/// The line of a source.
impl Written for Source {
    ghost text = { source_text };

    fn put<B: Bench>(&self, bench: &mut B, file: &ListFile<'_>) -> Result<(), DeviceFault> {
        let parts = [
            Part::Plain(b"(Index) "),
            Part::Number(self.number()),
            Part::Plain(b" (F) \""),
            Part::Plain(self.url()),
            Part::Plain(b"\" "),
            Part::Plain(self.uid()),
            Part::Plain(b" "),
            Part::Time(self.start()),
            Part::Plain(b" "),
            Part::Time(self.length()),
            Part::Plain(b"\r\n"),
        ];
        put_all(bench, file, &parts)
    }
}

/// The lines of an entry and its fades.
impl Written for Event {
    ghost text = { event_text };

    fn put<B: Bench>(&self, bench: &mut B, file: &ListFile<'_>) -> Result<(), DeviceFault> {
        let parts = [
            Part::Plain(b"(Entry) "),
            Part::Number(self.number),
            Part::Plain(b" (Cut) I "),
            Part::Number(self.index),
            Part::Run(self.source),
            Part::Run(self.dest),
            Part::Plain(b" "),
            Part::Time(Some(self.source_in)),
            Part::Plain(b" "),
            Part::Time(Some(self.dest_in)),
            Part::Plain(b" "),
            Part::Time(Some(self.dest_out)),
            Part::Plain(b"\r\n"),
            Part::Fade(b"(Infade) ", self.rise.length),
            Part::Fade(b"(Outfade) ", self.fall.length),
        ];
        put_all(bench, file, &parts)
    }
}

/// Appends a section with the given content.
fn put_section<B: Bench, W: Written>(
    bench: &mut B,
    file: &ListFile<'_>,
    section: &[u8],
    content: &[W],
) -> Result<(), DeviceFault>
    ensures { Appends B.Bench file.now.name.now
        (section_text section.now (flat_map (W.text file.now.project.now) content.now)) bench.old bench.new result }
{
    put_all(bench, file, &[b"<", section, b">\r\n"])?;
    put_all(bench, file, content)?;
    put_all(bench, file, &[b"</", section, b">\r\n"])
}

/// A header section: its name, and its lines if the list has it.
#[derive(Clone, Copy)]
struct HeaderSection<'a>(&'a [u8], &'a Option<KeptLines>);

/// A header section, if the list has it.
impl Written for HeaderSection<'_> {
    ghost text = { λ _ section. header_text section.0.now section.1.now };

    #[tactic(auto, unfolding(crate::specs::Parts::header_text))]
    fn put<B: Bench>(&self, bench: &mut B, file: &ListFile<'_>) -> Result<(), DeviceFault> {
        match self.1 {
            Some(lines) => put_section(bench, file, self.0, lines.as_slice()),
            None => Ok(()),
        }
    }
}

/// Appends the header sections.
fn put_head<B: Bench>(
    bench: &mut B,
    file: &ListFile<'_>,
    header: &Header,
) -> Result<(), DeviceFault>
    ensures { Appends B.Bench file.now.name.now (head_text (header_view header.now)) bench.old bench.new result }
{
    let sections = [
        HeaderSection(b"VERSION", &header.version),
        HeaderSection(b"PROJECT", &header.project),
        HeaderSection(b"SYSTEM", &header.system),
        HeaderSection(b"SEQUENCE", &header.sequence),
        HeaderSection(b"TRACKLIST", &header.track_list),
    ];
    put_all(bench, file, &sections)
}

/// Appends the first line of a list to an existing file.
fn put_start<B: Bench>(bench: &mut B, name: &str) -> Result<(), DeviceFault>
    ensures appends { Appends B.Bench name.now (codes "<ADL>\r\n") bench.old bench.new result }
    ensures there { IsTrue (B.honest bench.old) → OnOk result (IsSome (B.stored bench.old name.now)) }
{
    bench.append(name, b"<ADL>\r\n")
}

/// Appends a list with the given parts.
fn put_parts<B: Bench>(
    bench: &mut B,
    file: &ListFile<'_>,
    header: &Header,
    sources: &[Source],
    events: &[Event],
) -> Result<(), DeviceFault>
    ensures appends { Appends B.Bench file.now.name.now
        (list_text file.now.project.now (header_view header.now) sources.now events.now) bench.old bench.new result }
    ensures there { IsTrue (B.honest bench.old) → OnOk result (IsSome (B.stored bench.old file.now.name.now)) }
{
    put_start(bench, file.name)?;
    put_head(bench, file, header)?;
    put_section(bench, file, b"SOURCE_INDEX", sources)?;
    put_section(bench, file, b"EVENT_LIST", events)?;
    let end: &[u8] = b"</ADL>\r\n";
    end.put(bench, file)
}

/// Appends a whole list to an existing file.
pub fn put_list<B: Bench>(bench: &mut B, name: &str, project: &Project) -> Result<(), DeviceFault>
    ensures appends { Appends B.Bench name.now (text_of_project project.now) bench.old bench.new result }
    ensures there { IsTrue (B.honest bench.old) → OnOk result (IsSome (B.stored bench.old name.now)) }
{
    let file = ListFile { name, project };
    let header = project.header();
    put_parts(
        bench,
        &file,
        header,
        project.sources().as_slice(),
        project.events(),
    )
}
