// Meanings of notice numbers.
use std::fmt;
use thiserror::Error;

/// The meaning of a kind of notice, and its remedy.
#[derive(Clone, Copy, Debug, PartialEq, Eq)]
pub struct NoticeMeaning {
    pub kind: u8,
    pub meaning: &'static str,
    pub remedy: &'static str,
}

/// All kinds, in order.
pub static NOTICES: [NoticeMeaning; 7] = [
    NoticeMeaning {
        kind: 1,
        meaning: "the section that begins at this line is unknown and is skipped",
        remedy: "none, unless something in it should be heard",
    },
    NoticeMeaning {
        kind: 2,
        meaning: "the line isn't an (Index) line and is dropped",
        remedy: "none, unless a file is missing",
    },
    NoticeMeaning {
        kind: 3,
        meaning: "no entry uses this index, so its file isn't opened",
        remedy: "none, or take the index out of the list",
    },
    NoticeMeaning {
        kind: 4,
        meaning: "the list and the file disagree on the time of the file's first frame",
        remedy: "check that this is the right file; the list's time is used",
    },
    NoticeMeaning {
        kind: 5,
        meaning: "the file's bext chunk is too short and is ignored",
        remedy: "none; what the chunk says of the file isn't carried over",
    },
    NoticeMeaning {
        kind: 6,
        meaning: "the file has chunks that aren't carried into new media",
        remedy: "keep the file if anyone needs these chunks",
    },
    NoticeMeaning {
        kind: 7,
        meaning: "the file's CodingHistory is cut after 65536 bytes",
        remedy: "keep the file if anyone needs the rest of it",
    },
];

/// Returns the meaning of a kind of notice.
pub fn notice_meaning(kind: u8) -> Option<NoticeMeaning> {
    NOTICES.iter().find(|notice| notice.kind == kind).copied()
}

/// No notice has the given number.
#[derive(Clone, Copy, Debug, PartialEq, Eq, Error)]
#[error("error: no notice has this number; 'adlcons explain notice' tells all of them")]
pub struct NoSuchNotice;

/// The meaning of one notice number, or of all.
#[derive(Clone, Copy)]
pub struct ExplainedNotices {
    kind: Option<u8>,
}

/// Parses a notice number; `None` means all numbers. Returns `NoSuchNotice` if no notice has this number.
pub fn notice_meanings_of(number: Option<&str>) -> Result<ExplainedNotices, NoSuchNotice> {
    let Some(text) = number else {
        return Ok(ExplainedNotices { kind: None });
    };
    let kind = text.parse::<u8>().map_err(|_| NoSuchNotice)?;
    match notice_meaning(kind) {
        Some(_) => Ok(ExplainedNotices { kind: Some(kind) }),
        None => Err(NoSuchNotice),
    }
}

impl fmt::Display for ExplainedNotices {
    fn fmt<W: fmt::Write>(&self, f: &mut fmt::Formatter<W>) -> fmt::Result {
        for notice in &NOTICES {
            if self.kind.is_none_or(|kind| kind == notice.kind) {
                writeln!(f, "notice {}: {}.", notice.kind, notice.meaning)?;
                writeln!(f, "    Remedy: {}.", notice.remedy)?;
            }
        }
        Ok(())
    }
}

/// Displays the meaning as one line.
impl fmt::Display for NoticeMeaning {
    fn fmt<W: fmt::Write>(&self, f: &mut fmt::Formatter<W>) -> fmt::Result {
        let kind = self.kind;
        write!(
            f,
            "notice {kind}: {} (adlcons explain notice {kind})",
            self.meaning
        )
    }
}
