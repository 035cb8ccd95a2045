// The outline of a list (its sections, whatever their lines contain), and the frame rate found there.
ghost use Rattle.std.specs.Prelude.{◌≡◌, IfOk, option_map, is_ok};
ghost use Rattle.sampletime.specs.FrameRate.{frames_per_second};
ghost use Rattle.list_terms.specs.Fields as fields;
ghost use Rattle.list_terms.specs.Lines.{lines_of};
ghost use Rattle.list_terms.specs.Text as spec;
ghost use Rattle.adltoken.specs.Views.{token_view};
ghost use Rattle.adlread.specs.Outline.{outline_of};

use crate::fields::{end_line, told_rate};
use crate::header::is_tag;
use crate::tags::{is_end, is_list_begin, opened_name, section_of};
use adltoken::{Lines, Token, Tokens, trimmed};
use list_terms::{Opened, Section, Stage};
use sampletime::Rate;

/// The frame rate of a list that gives none.
pub const UNTOLD: Rate = Rate::Frames25;

/// Returns the frame rate of a list, skipping over its lines up to the one that gives the rate.
#[tactic(auto, unfolding(list_terms::specs::Text::rate_from, list_terms::specs::Text::rate_of))]
pub fn rate_in_lines(text: &[u8]) -> Rate
    ensures { frames_per_second result ≡ spec.rate_of text.now }
{
    let mut outline = Outline::new();
    let mut lines = Lines::new(text);
    'lines: while let Some(line) = lines.next_line() {
        if let Some(rate) = outline.rate_in(line) {
            return rate;
        }
        let Some(next) = outline.passed(line) else {
            return UNTOLD;
        };
        outline = next;
    }
    UNTOLD
}

/// The outline of a list so far: the stage, the name of the open section, and the sections opened.
#[derive(Clone, Copy)]
pub struct Outline<'a> {
    stage: Stage,
    name: &'a [u8],
    opened: Opened,
}

impl<'a> Outline<'a> {
    /// Returns the outline before the first line.
    pub fn new() -> Self
        ensures { outline_of result ≡ spec.nothing_passed }
    {
        Outline {
            stage: Stage::Before,
            name: &[],
            opened: Opened {
                version: false,
                project: false,
                system: false,
                sequence: false,
                track_list: false,
                source_index: false,
                event_list: false,
            },
        }
    }

    /// Returns the rate that a line gives, if the line is in SEQUENCE.
    pub fn rate_in(&self, line: &[u8]) -> Option<Rate>
        ensures { option_map frames_per_second result ≡ spec.rate_in (outline_of self.now) line.now }
    {
        match self.stage {
            Stage::Inside(Section::Sequence) => {
                if is_end(self.name, trimmed(line)) {
                    None
                } else {
                    rate_of_line(line)
                }
            }
            _ => None,
        }
    }

    /// Returns the outline after a line, or `None` if the line isn't allowed there.
    #[tactic(auto, unfolding(list_terms::specs::Text::passed))]
    pub fn passed(self, line: &'a [u8]) -> Option<Self>
        ensures { option_map outline_of result ≡ spec.passed (outline_of self.entry) line.now }
    {
        match self.stage {
            Stage::Before => self.passed_before(trimmed(line)),
            Stage::Outside => self.passed_outside(trimmed(line)),
            Stage::Inside(section) => self.passed_inside(section, line),
            Stage::Behind => None,
        }
    }

    /// Returns the outline after a line before the list.
    #[tactic(auto, unfolding(list_terms::specs::Text::passed_before))]
    fn passed_before(self, line: &[u8]) -> Option<Self>
        ensures { option_map outline_of result ≡ spec.passed_before (outline_of self.entry) line.now }
    {
        if line.is_empty() {
            Some(self)
        } else if is_list_begin(line) {
            Some(Outline {
                stage: Stage::Outside,
                name: self.name,
                opened: self.opened,
            })
        } else {
            None
        }
    }

    /// Returns the outline after a line between sections.
    #[tactic(auto, unfolding(list_terms::specs::Text::passed_outside))]
    fn passed_outside(self, line: &'a [u8]) -> Option<Self>
        ensures { option_map outline_of result ≡ spec.passed_outside (outline_of self.entry) line.now }
    {
        if line.is_empty() {
            return Some(self);
        }
        if is_end(b"ADL", line) {
            return Some(Outline {
                stage: Stage::Behind,
                name: self.name,
                opened: self.opened,
            });
        }
        match opened_name(line) {
            Some(name) => self.opens(name),
            None => None,
        }
    }

    /// Opens the section with this name. Returns `None` if it was opened before.
    #[tactic(auto, unfolding(list_terms::specs::Text::opens))]
    fn opens(self, name: &'a [u8]) -> Option<Self>
        ensures { option_map outline_of result ≡ spec.opens (outline_of self.entry) name.now }
    {
        let section = section_of(name);
        if has_opened(self.opened, section) {
            return None;
        }
        Some(Outline {
            stage: Stage::Inside(section),
            name,
            opened: with_opened(self.opened, section),
        })
    }

    /// Returns the outline after a line inside a section.
    #[tactic(auto, unfolding(list_terms::specs::Text::passed_inside))]
    fn passed_inside(self, section: Section, line: &[u8]) -> Option<Self>
        ensures { option_map outline_of result ≡ spec.passed_inside (outline_of self.entry) section line.now }
    {
        if is_end(self.name, trimmed(line)) {
            Some(Outline {
                stage: Stage::Outside,
                name: self.name,
                opened: self.opened,
            })
        } else if may_stand(section, line) {
            Some(self)
        } else {
            None
        }
    }
}

fn has_opened(opened: Opened, section: Section) -> bool
    ensures { result ≡ spec.has_opened opened section }
{
    match section {
        Section::Version => opened.version,
        Section::Project => opened.project,
        Section::System => opened.system,
        Section::Sequence => opened.sequence,
        Section::TrackList => opened.track_list,
        Section::SourceIndex => opened.source_index,
        Section::EventList => opened.event_list,
        Section::Skipped | Section::Unsupported => false,
    }
}

fn with_opened(opened: Opened, section: Section) -> Opened
    ensures { result ≡ spec.with_opened opened section }
{
    let mut opened = opened;
    match section {
        Section::Version => opened.version = true,
        Section::Project => opened.project = true,
        Section::System => opened.system = true,
        Section::Sequence => opened.sequence = true,
        Section::TrackList => opened.track_list = true,
        Section::SourceIndex => opened.source_index = true,
        Section::EventList => opened.event_list = true,
        Section::Skipped | Section::Unsupported => {}
    }
    opened
}

/// Returns whether a line may occur in a section, apart from the values of its fields.
fn may_stand(section: Section, line: &[u8]) -> bool
    ensures { result ≡ spec.may_stand section line.now }
{
    match section {
        Section::System | Section::Sequence | Section::SourceIndex | Section::EventList => {
            is_cut_whole(line)
        }
        Section::Unsupported => trimmed(line).is_empty(),
        Section::Version | Section::Project | Section::TrackList | Section::Skipped => true,
    }
}

/// Returns whether a line doesn't begin with `<` and consists of whole tokens.
fn is_cut_whole(line: &[u8]) -> bool
    ensures { result ≡ spec.is_cut_whole line.now }
{
    !is_tag(line) && is_whole(line)
}

fn is_whole(line: &[u8]) -> bool
    ensures { result ≡ is_ok (fields.end_line line.now) }
{
    let mut tokens = Tokens::new(line);
    match end_line(&mut tokens) {
        Ok(()) => true,
        Err(_) => false,
    }
}

/// Returns the rate after `(SEQ_FRAME_RATE)`.
#[tactic(auto, unfolding(list_terms::specs::Text::rate_of_line))]
fn rate_of_line(line: &[u8]) -> Option<Rate>
    ensures { option_map frames_per_second result ≡ spec.rate_of_line line.now }
{
    let mut tokens = Tokens::new(line);
    let keyword = whole_token(&mut tokens)?;
    if !keyword.is_keyword(b"SEQ_FRAME_RATE") {
        return None;
    }
    let value = whole_token(&mut tokens)?;
    told_rate(value.content)
}

/// Returns the next token, or `None` if there is no valid token.
fn whole_token<'a>(tokens: &mut Tokens<'a>) -> Option<Token<'a>>
    ensures { option_map (λ token. (token_view token, tokens.new.rest.now)) result
        ≡ spec.whole_token tokens.old.rest.now }
{
    match tokens.cut_next() {
        Ok(token) => token,
        Err(_) => None,
    }
}
