// What is told of a further fault of a list, in one line.
use crate::line_at_fault::LineAtFault;
use crate::look::Look;
use crate::meanings::{Meaning, Spot, meaning_at};
use adlread::AdlFault;
use opening::Fault;
use std::fmt;
use std::fmt::Display;

/// What a fault of a list names.
pub fn project_spot(fault: &Fault) -> Spot {
    match fault {
        Fault::List(AdlFault::Text { .. }) => Spot::Line,
        Fault::List(AdlFault::Memory) => Spot::Nowhere,
        Fault::SameName { .. } => Spot::Index,
        Fault::Media { .. } => Spot::IndexFile,
        Fault::Entry(_) => Spot::Entry,
    }
}

/// What a further fault of a list means, what stands at it, and what a second look at the media found, behind its number
/// and place in one line.
#[derive(Clone, Copy)]
pub struct FurtherExplanation<'a> {
    meaning: Option<Meaning>,
    line: Option<LineAtFault<'a>>,
    look: &'a Look,
}

impl<'a> FurtherExplanation<'a> {
    /// Of this fault, which stands at this line of the list, or at none.
    pub fn of(
        fault: &Fault,
        line: Option<LineAtFault<'a>>,
        look: &'a Look,
    ) -> FurtherExplanation<'a> {
        FurtherExplanation {
            meaning: meaning_at(fault.number(), project_spot(fault)),
            line,
            look,
        }
    }

    /// What the number means.
    pub fn meaning(&self) -> Option<&'static str> {
        Some(self.meaning?.meaning)
    }

    /// What to do.
    pub fn remedy(&self) -> Option<&'static str> {
        self.look.remedy().or(Some(self.meaning?.remedy))
    }

    /// Whether its line ends with what to do: that of a file or an entry does, and of those of lines the first one of a
    /// number, since the others are like it.
    fn ends_with_remedy(&self) -> bool {
        self.line.is_none_or(|line| line.is_first)
    }

    /// How the fault comes about, as it was found or else as the number says.
    pub fn cause(self) -> FoundCause<'a> {
        FoundCause(self)
    }

    /// Writes how it comes about, behind a colon; nothing where the line says that.
    fn fmt_cause<W: fmt::Write>(&self, f: &mut fmt::Formatter<W>) -> fmt::Result {
        if self.look.has_cause() {
            f.write_str(": ")?;
            return self.look.fmt_cause(f);
        }
        match (self.line, self.meaning) {
            (Some(line), Some(meaning)) if !line.has_cause() => write!(f, ": {}", meaning.cause),
            _ => Ok(()),
        }
    }
}

/// How a further fault comes about.
#[derive(Clone, Copy)]
pub struct FoundCause<'a>(FurtherExplanation<'a>);

impl fmt::Display for FoundCause<'_> {
    fn fmt<W: fmt::Write>(&self, f: &mut fmt::Formatter<W>) -> fmt::Result {
        let FurtherExplanation {
            meaning,
            line,
            look,
        } = self.0;
        if look.has_cause() {
            return look.fmt_cause(f);
        }
        match (line, meaning) {
            (Some(line), _) if line.has_cause() => line.fmt_cause(f),
            (_, Some(meaning)) => f.write_str(meaning.cause),
            (_, None) => Ok(()),
        }
    }
}

impl fmt::Display for FurtherExplanation<'_> {
    fn fmt<W: fmt::Write>(&self, f: &mut fmt::Formatter<W>) -> fmt::Result {
        if let Some(meaning) = self.meaning {
            write!(f, ": {}", meaning.meaning)?;
        }
        self.fmt_cause(f)?;
        if let Some(line) = self.line {
            line.fmt_brief(f)?;
        }
        if let Some(near) = &self.look.near {
            write!(f, "; {near}")?;
        }
        match self.remedy() {
            Some(remedy) if self.ends_with_remedy() => write!(f, "; {remedy}"),
            _ => Ok(()),
        }
    }
}
