// Explanations of refusals: the meaning of the number, the details found, and the remedy.
use comparing::ListFault;
use findings::{
    LineAtFault, ListLines, Look, Meaning, PrintedName, Spot, SystemWord, meaning_at, project_spot,
    remedy_by,
};
use markfile::MARKS;
use shelf::Reason;
use std::fmt;
use std::fmt::Display;
use std::io::{Error, ErrorKind};

/// The details that a command found about a refusal: the invalid line, the file if its location doesn't name it, an
/// item in a folder that should be empty, the state of the output folder, the result of a second look at the source
/// files, the system error, and the unfinished output.
#[derive(Clone, Copy)]
struct Findings<'a> {
    line: Option<LineAtFault<'a>>,
    file: Option<&'a str>,
    inside: Option<&'a str>,
    folder: Option<FoundFolder>,
    look: Option<&'a Look>,
    reason: Option<Error>,
    unfinished: Option<Unfinished>,
}

/// The state of the output folder that caused a refusal: it is the media folder, another command is using it, or a file
/// in it to be written is also an input or has another name.
#[derive(Clone, Copy)]
pub enum FoundFolder {
    Media,
    Busy,
    Shared,
}

impl FoundFolder {
    fn text(self) -> &'static str {
        match self {
            FoundFolder::Media => "it is the folder of the media",
            FoundFolder::Busy => "another command is at work there",
            FoundFolder::Shared => "a file in it that would be written to is another file too",
        }
    }

    fn remedy(self) -> &'static str {
        match self {
            FoundFolder::Media => "name the folder of the rendering that was stopped",
            FoundFolder::Busy =>
                "wait until that is done, or make another empty folder and name that",
            FoundFolder::Shared => "put a copy into the stead of that file, or name another folder",
        }
    }
}

/// The unfinished output: a file, the medium with this number, a rendering with its marks, the report of a finished
/// rendering, or everything.
#[derive(Clone, Copy)]
pub enum Unfinished {
    File(&'static str),
    Medium(u32),
    Rendering,
    Report,
    Whole,
}

/// A fault of a command: its number and kind of location, the invalid line of the list, the file, the system error of
/// the source or output that failed, and the unfinished output.
#[derive(Clone, Copy)]
pub struct FoundFault<'a> {
    pub number: u8,
    pub spot: Spot,
    pub line: Option<LineAtFault<'a>>,
    pub file: Option<&'a str>,
    pub reason: Option<Error>,
    pub unfinished: Option<Unfinished>,
}

impl<'a> Explanation<'a> {
    /// Creates the explanation of a fault of a command.
    pub fn of(found: FoundFault<'a>) -> Explanation<'a> {
        Explanation {
            number: found.number,
            spot: found.spot,
            is_rendering: false,
            findings: Findings {
                line: found.line,
                file: found.file,
                unfinished: found.unfinished,
                ..Findings::by(found.reason, None)
            },
        }
    }

    /// Creates the explanation of a fault of one of two lists to compare; `source` is the system error of the source
    /// that failed.
    pub fn of_list(
        fault: &'a ListFault,
        list: &'a [u8],
        source: Option<Reason>,
    ) -> Explanation<'a> {
        Explanation {
            number: fault.number(),
            spot: list_spot(fault),
            is_rendering: false,
            findings: Findings::of_list(fault, list, source),
        }
    }

    /// Creates the explanation of a refusal about a file or about nothing in particular.
    ///
    /// `reason` is the system error, `inside` the name of an item in a folder that isn't empty.
    pub fn by(number: u8, reason: Option<Error>, inside: Option<&'a str>) -> Explanation<'a> {
        Explanation {
            number,
            spot: Spot::File,
            is_rendering: false,
            findings: Findings::by(reason, inside),
        }
    }

    /// Adds the result of a second look at the source files.
    pub fn with_look(self, look: &'a Look) -> Explanation<'a> {
        Explanation {
            findings: Findings {
                look: Some(look),
                ..self.findings
            },
            ..self
        }
    }

    /// Adds the file of the fault, if it is known.
    pub fn with_file(self, file: Option<&'a str>) -> Explanation<'a> {
        Explanation {
            findings: Findings {
                file: file.or(self.findings.file),
                ..self.findings
            },
            ..self
        }
    }

    /// Adds the state of the output folder.
    pub fn with_folder(self, folder: FoundFolder) -> Explanation<'a> {
        Explanation {
            findings: Findings {
                folder: Some(folder),
                ..self.findings
            },
            ..self
        }
    }

    /// Marks the fault as one of a rendering, which can be resumed from its unfinished output.
    pub fn of_rendering(self) -> Explanation<'a> {
        Explanation {
            is_rendering: true,
            findings: self.findings.of_rendering(),
            ..self
        }
    }

    /// Returns the meaning of the number.
    pub fn meaning(&self) -> Option<&'static str> {
        Some(meaning_at(self.number, self.spot)?.meaning)
    }

    /// Returns the general cause of the refusal, from its number.
    pub fn cause(&self) -> &'static str {
        match meaning_at(self.number, self.spot) {
            Some(meaning) => meaning.cause,
            None => "",
        }
    }

    /// Returns the remedy.
    pub fn remedy(&self) -> Option<&'static str> {
        Some(self.remedy_by(meaning_at(self.number, self.spot)?))
    }

    /// Returns the remedy: for the details found, else for the system error, else for the number.
    fn remedy_by(&self, meaning: Meaning) -> &'static str {
        if let Some(remedy) = self.findings.look.and_then(|look| look.remedy()) {
            return remedy;
        }
        if let Some(folder) = self.findings.folder {
            return folder.remedy();
        }
        if self.findings.inside == Some(MARKS) {
            return "to continue that rendering, use adlcons resume with the same options; \
                    else make an empty folder and name that";
        }
        let goes_on = self.is_rendering && self.findings.unfinished.is_some();
        let kind = self.findings.reason.map(|reason| reason.kind());
        remedy_by(self.number, kind, goes_on).unwrap_or(meaning.remedy)
    }
}

/// Returns the kind of location of a fault of one of two lists.
fn list_spot(fault: &ListFault) -> Spot {
    match fault {
        ListFault::Project(fault) => project_spot(fault),
        ListFault::Source { .. } => Spot::File,
        ListFault::Intervals | ListFault::Memory => Spot::Nowhere,
    }
}

impl<'a> Findings<'a> {
    /// Creates details with only a system error and an item of a folder.
    fn by(reason: Option<Error>, inside: Option<&'a str>) -> Findings<'a> {
        Findings {
            line: None,
            file: None,
            inside,
            folder: None,
            look: None,
            reason,
            unfinished: None,
        }
    }

    /// Creates the details of a fault of one of two lists.
    fn of_list(fault: &'a ListFault, list: &'a [u8], source: Option<Reason>) -> Findings<'a> {
        let line = match fault {
            ListFault::Project(fault) => ListLines::new(list).at(fault),
            _ => None,
        };
        let reason = reason_of_list(fault, source).map(|reason| reason.error);
        Findings {
            line,
            ..Findings::by(reason, None)
        }
    }
}

/// Returns the system error if the fault is about a source that failed.
fn reason_of_list(fault: &ListFault, source: Option<Reason>) -> Option<Reason> {
    match fault {
        ListFault::Project(opening::Fault::Media { .. }) | ListFault::Source { .. } => source,
        ListFault::Project(_) | ListFault::Intervals | ListFault::Memory => None,
    }
}

/// The explanation of a refusal, displayed as one line.
#[derive(Clone, Copy)]
pub struct Explanation<'a> {
    number: u8,
    spot: Spot,
    is_rendering: bool,
    findings: Findings<'a>,
}

impl fmt::Display for Explanation<'_> {
    fn fmt<W: fmt::Write>(&self, f: &mut fmt::Formatter<W>) -> fmt::Result {
        let number = self.number;
        let meaning = meaning_at(number, self.spot);
        if let Some(meaning) = meaning {
            write!(f, "{}: ", meaning.meaning)?;
            self.findings.fmt_cause(meaning, f)?;
        }
        self.findings.fmt(f)?;
        if let Some(meaning) = meaning {
            write!(f, "; {}", self.remedy_by(meaning))?;
        }
        write!(f, " (adlcons explain {number})")
    }
}

impl Findings<'_> {
    /// Names the unfinished files of a rendering, unless one of them may be missing.
    fn of_rendering(self) -> Self {
        let is_gone = self
            .reason
            .is_some_and(|reason| reason.kind() == ErrorKind::NotFound);
        match self.unfinished {
            Some(Unfinished::Whole) if !is_gone => Findings {
                unfinished: Some(Unfinished::Rendering),
                ..self
            },
            _ => self,
        }
    }

    /// Writes the specific cause, or else the general one.
    fn fmt_cause<W: fmt::Write>(&self, meaning: Meaning, f: &mut fmt::Formatter<W>) -> fmt::Result {
        match self.look {
            Some(look) if look.has_cause() => look.fmt_cause(f),
            _ => self.fmt_found(meaning, f),
        }
    }

    /// Writes the state of the output folder, else the system error, else the general cause.
    fn fmt_found<W: fmt::Write>(&self, meaning: Meaning, f: &mut fmt::Formatter<W>) -> fmt::Result {
        if let Some(folder) = self.folder {
            return f.write_str(folder.text());
        }
        if let Some(name) = self.inside {
            let name = PrintedName(name);
            return write!(f, "it already contains {name}");
        }
        match self.reason {
            Some(reason) => SystemWord(reason).fmt(f),
            None => f.write_str(meaning.cause),
        }
    }
}

impl fmt::Display for Findings<'_> {
    fn fmt<W: fmt::Write>(&self, f: &mut fmt::Formatter<W>) -> fmt::Result {
        if let Some(line) = self.line {
            line.fmt(f)?;
        }
        if let Some(file) = self.file {
            let name = PrintedName(file);
            write!(f, "; the file is: {name}")?;
        }
        if let Some(near) = self.look.and_then(|look| look.near.as_ref()) {
            write!(f, "; {near}")?;
        }
        match self.unfinished {
            Some(Unfinished::File(name)) => write!(f, "; unfinished in the output: {name}"),
            Some(Unfinished::Medium(number)) => {
                write!(f, "; unfinished in the output: M{number:05}.wav")
            }
            Some(Unfinished::Rendering) => {
                f.write_str("; unfinished in the output: render.wav and render.marks")
            }
            Some(Unfinished::Report) => {
                f.write_str("; render.wav in the output is finished, and render.json isn't")
            }
            Some(Unfinished::Whole) => f.write_str("; what lies in the output is unfinished"),
            None => Ok(()),
        }
    }
}
