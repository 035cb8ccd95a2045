// The picture of a project.
use crate::escaped::Escaped;
use crate::hatch::put_pattern;
use crate::legend::put_box;
use crate::part::Part;
use crate::ruler::TimeCode;
use crate::scale::{LEFT, WIDTH};
use crate::shown::Shown;
use crate::sources::SourceBars;
use crate::timeline::Timeline;
use adlmodel::Project;
use interval::from_checked;
use mediaset::{RunFault, Runs};
use projectcheck::Checked;
use sourceindex::Bound;
use std::alloc::Global;
use std::collections::BTreeMap;
use std::fmt;

/// The played runs of the files, and the runs kept with a handle of the given number of samples.
#[derive(Drop)]
struct FileRuns {
    played: Runs,
    kept: Runs,
    handle: u64,
}

/// A project as an SVG 1.1 picture, 1,200 pixels wide, black on white. Each channel has a lane with
/// the entries and their fades, under the time code of the list; entries are cut at the edges of a
/// selected part of the timeline. Below the lanes of a valid project is a bar for each file with
/// its played, kept and dropped samples. In the picture of a project that is refused because of its
/// files or entries, an entry that can't be played has a dashed outline, and samples missing from
/// its file are hatched. Title and description contain the picture as text. Names are escaped.
#[derive(Drop)]
pub struct Picture<'a> {
    shown: Shown<'a>,
    name: &'a str,
    part: Part,
    files: Option<FileRuns>,
}

impl<'a> Picture<'a> {
    /// Creates the picture of a valid project with the given name and a handle in samples. Silent
    /// samples count as played.
    ///
    /// Returns `RunFault::TooManyRuns` if there are more than 32,767 kept runs, and
    /// `RunFault::Memory` if out of memory.
    pub fn of(
        alloc: Global,
        checked: &'a Checked,
        name: &'a str,
        handle: u64,
    ) -> Result<Self, RunFault> {
        let Ok(intervals) = from_checked(alloc, checked) else {
            return Err(RunFault::Memory);
        };
        let bound = checked.bound();
        let played = Runs::kept(alloc, &intervals, bound.homes(alloc)?, 0)?;
        let kept = Runs::kept(alloc, &intervals, bound.homes(alloc)?, handle)?;
        Ok(Picture {
            shown: Shown {
                project: checked.project(),
                bound: Some(bound),
                bad_files: None,
            },
            name,
            part: Part::ALL,
            files: Some(FileRuns {
                played,
                kept,
                handle,
            }),
        })
    }

    /// Creates the picture of a project with faulty entries.
    pub fn of_bad_entries(project: &'a Project, bound: &'a Bound, name: &'a str) -> Self {
        Picture {
            shown: Shown {
                project,
                bound: Some(bound),
                bad_files: None,
            },
            name,
            part: Part::ALL,
            files: None,
        }
    }

    /// Creates the picture of a project with faulty files: `bad_files` maps their indexes to
    /// refusal numbers.
    pub fn of_bad_files(
        project: &'a Project,
        bad_files: &'a BTreeMap<u32, u8>,
        name: &'a str,
    ) -> Self {
        Picture {
            shown: Shown {
                project,
                bound: None,
                bad_files: Some(bad_files),
            },
            name,
            part: Part::ALL,
            files: None,
        }
    }

    /// Restricts the picture to a part of the timeline.
    pub fn of_part(self, part: Part) -> Self {
        Picture { part, ..self }
    }

    /// Writes title and description.
    fn put_words<W: fmt::Write>(
        &self,
        f: &mut fmt::Formatter<W>,
        timeline: Timeline<'_>,
    ) -> fmt::Result {
        let name = Escaped(self.name);
        let project = self.shown.project;
        let entries = project.events().len();
        let (first, last) = timeline.channels;
        let from = TimeCode {
            project,
            samples: timeline.span.0,
        };
        let to = TimeCode {
            project,
            samples: timeline.span.1,
        };
        writeln!(f, "<title id='title'>{name}</title>")?;
        f.write_str("<desc id='words'>")?;
        if self.part.is_chosen() {
            let drawn = timeline.count();
            write!(f, "{drawn} of ")?;
        }
        write!(f, "{entries} entries on channels {first} to {last}, ")?;
        write!(f, "from {from} to {to}, of ")?;
        match self.shown.bound {
            Some(bound) => write!(f, "{} files", bound.sounds().len())?,
            None => write!(f, "{} sources", project.sources().as_slice().len())?,
        }
        if self.files.is_none() {
            let refused = self.shown.refused();
            write!(f, "; {refused} entries are at fault, or their files")?;
        }
        writeln!(f, ".</desc>")
    }

    /// Writes the bars of the files, or the legend for faulty entries, at `top` pixels.
    fn put_below<W: fmt::Write>(&self, f: &mut fmt::Formatter<W>, top: u64) -> fmt::Result {
        match self.bars(top) {
            Some(bars) => bars.put(f),
            None => put_meaning(f, top),
        }
    }

    /// Returns the bars of the files at `top` pixels, if there are any.
    fn bars(&self, top: u64) -> Option<SourceBars<'_>> {
        let bound = self.shown.bound?;
        let files = self.files.as_ref()?;
        Some(SourceBars {
            sounds: bound.sounds(),
            played: files.played.as_slice(),
            kept: files.kept.as_slice(),
            handle: files.handle,
            top,
        })
    }

    /// Returns the end of the part below the lanes, in pixels from the top.
    fn bottom(&self, top: u64) -> u64 {
        match self.bars(top) {
            Some(bars) => bars.bottom(),
            None => top.saturating_add(MEANING),
        }
    }
}

/// Height of the legend for faulty entries, in pixels.
const MEANING: u64 = 36;

/// Writes the legend for faulty entries.
fn put_meaning<W: fmt::Write>(f: &mut fmt::Formatter<W>, top: u64) -> fmt::Result {
    let text = top.saturating_add(24);
    let box_top = top.saturating_add(13);
    put_box(
        f,
        LEFT,
        box_top,
        " fill='#fff' stroke='#000' stroke-width='2.5' stroke-dasharray='6 3'",
    )?;
    writeln!(f, "<text x='150' y='{text}'>at fault</text>")?;
    put_box(f, 330, box_top, " fill='url(#missing)'")?;
    writeln!(f, "<text x='360' y='{text}'>frames that are missing</text>")
}

impl fmt::Display for Picture<'_> {
    fn fmt<W: fmt::Write>(&self, f: &mut fmt::Formatter<W>) -> fmt::Result {
        let timeline = Timeline::of(self.shown, self.part);
        let below = timeline.bottom();
        let height = self.bottom(below).saturating_add(10);
        let name = Escaped(self.name);
        write!(
            f,
            "<svg xmlns='http://www.w3.org/2000/svg' width='{WIDTH}' height='{height}'"
        )?;
        write!(
            f,
            " viewBox='0 0 {WIDTH} {height}' role='img' aria-labelledby='title words'"
        )?;
        writeln!(f, " font-family='sans-serif' font-size='12'>")?;
        self.put_words(f, timeline)?;
        if self.files.is_none() {
            put_pattern(f)?;
        }
        writeln!(f, "<rect width='{WIDTH}' height='{height}' fill='#fff'/>")?;
        writeln!(f, "<text x='120' y='22' font-size='16'>{name}</text>")?;
        timeline.put(f)?;
        self.put_below(f, below)?;
        writeln!(f, "</svg>")
    }
}
