//! The vocabulary of audio decision lists (AES31-3): sections, tokens, faults and their locations.
//!
//! The definitions in `specs` state which project a text spells, which files its indexes are bound to, and which
//! refusal every other list gets.
#![tactic(auto)]

ghost use Rattle.std.specs.Prelude.{◌≡◌};
ghost use Rattle.list_terms.specs.Text.{fault_number};

use sound_terms::Event;

/// A notice about a project: its kind (1 to 7), and the line (kinds 1 and 2) or the index (kinds 3 to 7) that it
/// concerns.
#[derive(Clone, Copy, Debug, PartialEq, Eq)]
pub struct Notice {
    pub kind: u8,
    pub at: u64,
}

/// The form of a token: `"..."`, `(...)` or a word.
#[derive(Clone, Copy, Debug, PartialEq, Eq)]
pub enum TokenKind {
    Quoted,
    Keyword,
    Word,
}

/// The kind of a line that follows an `(Entry)` line and belongs to it, named by its keyword.
#[derive(Clone, Copy, Debug, PartialEq, Eq)]
pub enum EntryKeyword {
    Infade,
    Outfade,
    Rem,
    Gain,
}

/// A section of a list.
#[derive(Clone, Copy, Debug, PartialEq, Eq)]
pub enum Section {
    Version,
    Project,
    System,
    Sequence,
    TrackList,
    SourceIndex,
    EventList,
    Skipped,
    /// An unknown section named after gain, automation, pan, mute or fades. It may only hold blank lines.
    Unsupported,
}

/// The part of a list that a reader is in: before `<ADL>`, between sections, inside a section, or after `</ADL>`.
#[derive(Clone, Copy, Debug, PartialEq, Eq)]
pub enum Stage {
    Before,
    Outside,
    Inside(Section),
    Behind,
}

/// The last entry of a list so far, and which of its fades have been given.
#[derive(Clone, Copy, Debug, PartialEq, Eq)]
pub struct OpenEntry {
    pub event: Event,
    pub has_rise: bool,
    pub has_fall: bool,
}

/// The rates that SEQUENCE has given so far.
#[derive(Clone, Copy, Debug, PartialEq, Eq)]
pub struct Rates {
    pub sample_rate: bool,
    pub frame_rate: bool,
}

/// The sections of a list that have been opened.
#[derive(Clone, Copy, Debug, PartialEq, Eq)]
pub struct Opened {
    pub version: bool,
    pub project: bool,
    pub system: bool,
    pub sequence: bool,
    pub track_list: bool,
    pub source_index: bool,
    pub event_list: bool,
}

/// A fault in the text of a list.
#[derive(Clone, Copy, Debug, PartialEq, Eq)]
pub enum TextFault {
    /// A byte that is neither printable ASCII nor a space or tab; inside quotes, CR.
    BadByte,
    /// A byte that isn't allowed in its place, or a quotation mark or parenthesis without its partner.
    BadLine,
    /// A line that isn't allowed between sections, or no `</ADL>`.
    SectionMismatch,
    /// No SEQUENCE, SOURCE_INDEX or EVENT_LIST.
    MissingSection,
    /// A section is opened a second time.
    RepeatedSection,
    /// Not a time of day.
    BadTime,
    /// Not a number from 1 to 32767 in one to six digits.
    BadNumber,
    /// Not a run of channels from 1 to 64, or more or fewer channels than the source has.
    BadChannels,
    /// Not a `file://` URL of a file.
    BadUrl,
    /// The line ends before a required field.
    MissingField,
    /// SEQUENCE gives no sample rate or no frame rate.
    MissingSequence,
    /// SEQUENCE gives another rate.
    WrongSequence,
    /// Something that isn't supported and could change the sound.
    Unsupported,
    /// The number of an earlier index or entry.
    DuplicateNumber,
    /// More than 65,535 header lines.
    TooMany,
    /// A line that belongs to an entry, before the first entry.
    Unplaced,
    /// A second fade-in or fade-out of an entry.
    RepeatedFade,
}

impl TextFault {
    /// Returns the refusal number, 1 to 17.
    pub fn number(&self) -> u8
        ensures { result ≡ fault_number self.now }
    {
        match self {
            TextFault::BadByte => 1,
            TextFault::BadLine => 2,
            TextFault::SectionMismatch => 3,
            TextFault::MissingSection => 4,
            TextFault::RepeatedSection => 5,
            TextFault::BadTime => 6,
            TextFault::BadNumber => 7,
            TextFault::BadChannels => 8,
            TextFault::BadUrl => 9,
            TextFault::MissingField => 10,
            TextFault::MissingSequence => 11,
            TextFault::WrongSequence => 12,
            TextFault::Unsupported => 13,
            TextFault::DuplicateNumber => 14,
            TextFault::TooMany => 15,
            TextFault::Unplaced => 16,
            TextFault::RepeatedFade => 17,
        }
    }
}

/// The location of a fault in the text of a list: the line, counted from 1, and the number of the entry or index if
/// the fault concerns one.
#[derive(Clone, Copy, Debug, PartialEq, Eq)]
pub enum Location {
    Line { line: u64 },
    Entry { line: u64, entry: u32 },
    Index { line: u64, index: u32 },
}
