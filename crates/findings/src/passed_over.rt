// Parts of a list that are ignored although they may affect the sound.
use crate::shown::Shown;
use adltoken::{Lines, Token, Tokens, is_same_name, trimmed};
use std::fmt;

/// Maximum number of lines displayed.
const MOST: usize = 20;

/// Number of fields of an entry, including its keyword.
const ENTRY_FIELDS: usize = 10;

/// Maximum number of bytes displayed of the ignored words.
const SHOWN_BYTES: usize = 60;

/// The ignored words of a line, with the number of the line.
#[derive(Clone, Copy)]
pub struct PassedLineWords<'a> {
    pub line: u64,
    pub words: &'a [u8],
    unheard: Unheard,
}

/// The kind of ignored information.
#[derive(Clone, Copy, PartialEq, Eq)]
enum Unheard {
    TrackSetting,
    Crossfades,
    BehindEntry,
    Levels,
}

impl Unheard {
    fn text(self) -> &'static str {
        match self {
            Unheard::TrackSetting => "gain, pan and mute of a track aren't applied",
            Unheard::Crossfades => "default crossfades aren't heard",
            Unheard::BehindEntry => "what follows the fields of an entry is ignored",
            Unheard::Levels => "levels and volumes aren't applied",
        }
    }
}

/// An iterator over the lines with ignored words that may affect the sound: gain, pan and mute in TRACKLIST, a nonzero
/// crossfade length in SYSTEM, text after the fields of an entry, and sections of levels, which are skipped.
#[derive(Drop)]
pub struct PassedLines<'a> {
    lines: Lines<'a>,
    section: Section,
}

impl<'a> PassedLines<'a> {
    /// Creates an iterator over the list.
    pub fn new(list: &'a [u8]) -> Self {
        PassedLines {
            lines: Lines::new(list),
            section: Section::Other,
        }
    }

    /// Returns the next such line, with its ignored words.
    pub fn next_line(&mut self) -> Option<PassedLineWords<'a>> {
        let mut section = self.section;
        'lines: while let Some(line) = self.lines.next_line() {
            if section == Section::EventList && ends_with_time(line) {
                continue;
            }
            let text = trimmed(line);
            if is_same_name(text, b"</ADL>") {
                self.lines = Lines::new(b"");
                break;
            }
            let passed = passed_in(section, text);
            section = section.after(text);
            if let Some((words, unheard)) = passed {
                self.section = section;
                let line = self.lines.number();
                return Some(PassedLineWords {
                    line,
                    words,
                    unheard,
                });
            }
        }
        None
    }
}

/// The ignored words of a list for display: at most 20 lines, and the number of the others.
#[derive(Clone, Copy)]
pub struct PassedWords<'a>(pub &'a [u8]);

impl fmt::Display for PassedWords<'_> {
    fn fmt<W: fmt::Write>(&self, f: &mut fmt::Formatter<W>) -> fmt::Result {
        let mut lines = PassedLines::new(self.0);
        let mut count: usize = 0;
        'lines: for _ in 0..usize::MAX {
            let Some(passed) = lines.next_line() else {
                break;
            };
            count = count.saturating_add(1);
            if count <= MOST {
                let line = passed.line;
                let words = Shown(passed.words, SHOWN_BYTES);
                let unheard = passed.unheard.text();
                writeln!(f, "not honoured at line {line}: {words}; {unheard}")?;
            }
        }
        match count.checked_sub(MOST) {
            None | Some(0) => Ok(()),
            Some(more) => writeln!(f, "and {more} more lines with what isn't honoured"),
        }
    }
}

/// The section of a line, if it matters here.
#[derive(Clone, Copy, PartialEq, Eq)]
enum Section {
    System,
    TrackList,
    EventList,
    Other,
}

impl Section {
    /// Returns the section with this name.
    fn of(name: &[u8]) -> Section {
        if is_same_name(name, b"EVENT_LIST") {
            Section::EventList
        } else if is_same_name(name, b"TRACKLIST") {
            Section::TrackList
        } else if is_same_name(name, b"SYSTEM") {
            Section::System
        } else {
            Section::Other
        }
    }

    /// Returns the section of the line after this one.
    fn after(self, line: &[u8]) -> Section {
        match named_by(line) {
            Some(name) => Section::of(name),
            None if line.starts_with(b"</") => Section::Other,
            None => self,
        }
    }
}

/// Returns the name of the section that a line opens.
fn named_by(line: &[u8]) -> Option<&[u8]> {
    if line.starts_with(b"</") {
        return None;
    }
    line.strip_prefix(b"<")?.strip_suffix(b">")
}

/// Returns the ignored words of a line in this section, to its end, and their kind.
fn passed_in(section: Section, line: &[u8]) -> Option<(&[u8], Unheard)> {
    if named_by(line).is_some_and(says_levels) {
        return Some((line, Unheard::Levels));
    }
    let sought = Sought::of(section, line)?;
    Some((words_in(sought, line)?, sought.unheard()))
}

/// Returns the sought words of a line, to its end.
fn words_in(sought: Sought, line: &[u8]) -> Option<&[u8]> {
    let mut tokens = Tokens::new(line);
    for position in 1..=line.len() {
        let token = tokens.next_token().ok()??;
        if sought.is_at(position, token) {
            return sought.words_from(line, token, tokens.rest);
        }
    }
    None
}

/// Returns the line from this token on; `left` is the text after the token.
fn from_token<'a>(line: &'a [u8], token: Token<'_>, left: &[u8]) -> Option<&'a [u8]> {
    let before = line
        .len()
        .checked_sub(left.len())?
        .checked_sub(token.text.len())?;
    line.get(before..)
}

/// Returns whether the name of an unknown section mentions levels.
fn says_levels(name: &[u8]) -> bool {
    name.windows(5)
        .any(|part| part.eq_ignore_ascii_case(b"LEVEL"))
        || name
            .windows(6)
            .any(|part| part.eq_ignore_ascii_case(b"VOLUME"))
}

/// The ignored information that a line may contain.
#[derive(Clone, Copy, PartialEq, Eq)]
enum Sought {
    TrackSetting,
    CrossfadeLength,
    BehindEntry,
}

impl Sought {
    /// Returns the ignored information that a line of this section may contain.
    fn of(section: Section, line: &[u8]) -> Option<Sought> {
        match section {
            Section::TrackList => Some(Sought::TrackSetting),
            Section::System if begins_with(line, b"SYS_XFADE_LENGTH") => {
                Some(Sought::CrossfadeLength)
            }
            Section::EventList if begins_with(line, b"Entry") => Some(Sought::BehindEntry),
            _ => None,
        }
    }

    /// Returns the kind of ignored information.
    fn unheard(self) -> Unheard {
        match self {
            Sought::TrackSetting => Unheard::TrackSetting,
            Sought::CrossfadeLength => Unheard::Crossfades,
            Sought::BehindEntry => Unheard::BehindEntry,
        }
    }

    /// Returns the words to display: the whole line for a crossfade length, otherwise the line from the token on.
    fn words_from<'a>(self, line: &'a [u8], token: Token<'_>, left: &[u8]) -> Option<&'a [u8]> {
        match self {
            Sought::CrossfadeLength => Some(line),
            Sought::TrackSetting | Sought::BehindEntry => from_token(line, token, left),
        }
    }

    /// Returns whether the token at this position of the line, counted from 1, is one to report.
    fn is_at(self, position: usize, token: Token<'_>) -> bool {
        match self {
            Sought::TrackSetting => is_track_setting(token),
            Sought::CrossfadeLength => position == 2 && !is_zero(token.content),
            Sought::BehindEntry => position > ENTRY_FIELDS && !is_usual(token.content),
        }
    }
}

/// Returns whether the line ends with a time, like an entry without text after its fields. Settles most lines quickly.
fn ends_with_time(line: &[u8]) -> bool {
    match line.split_last_chunk::<17>() {
        Some((_, [blank, first, ..])) => blank.is_ascii_whitespace() && first.is_ascii_digit(),
        None => false,
    }
}

/// Returns whether the line begins with this keyword.
fn begins_with(line: &[u8], keyword: &[u8]) -> bool {
    match Tokens::new(line).next_token() {
        Ok(Some(token)) => token.is_keyword(keyword),
        _ => false,
    }
}

/// Returns whether the keyword sets the level or the position of a track.
fn is_track_setting(token: Token<'_>) -> bool {
    token.is_keyword(b"Mute") || token.is_keyword(b"Gain") || token.is_keyword(b"Pan")
}

/// Returns whether a time is zero or missing.
fn is_zero(content: &[u8]) -> bool {
    content.iter().all(|byte| !matches!(*byte, b'1'..=b'9'))
}

/// Returns whether a word after an entry has no effect on the sound.
fn is_usual(content: &[u8]) -> bool {
    content == b"_".as_slice() || content.eq_ignore_ascii_case(b"R")
}
