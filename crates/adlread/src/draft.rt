// The state of reading a list.
ghost use Rattle.std.specs.Prelude.{◌≡◌, ◌&&◌, ℕ, Err, IfOk, IfSome, IsTrue, MatchOption, None, Ok, OnErr, is_some, length, option_map};
ghost use Rattle.sampletime.specs.FrameRate.{frames_per_second};
ghost use Rattle.list_terms.specs.Text as text;
ghost use Rattle.list_terms.specs.Text.{nothing_read};
ghost use Rattle.list_terms.specs.Tokens.{trimmed};
ghost use Rattle.list_terms.specs.WholeProject.{IsProject};
ghost use Rattle.adltoken.specs.declared.tokens.Span.{Span};
ghost use Rattle.list_terms.specs.Forms.{Number, Then, any};
ghost use Rattle.adlread.specs.Entries.{entries_of};
ghost use Rattle.adlread.specs.Fault.{Reads, refusal, refused};
ghost use Rattle.adlread.specs.FaultSpans.{IsAt, end_from, entry_fields, event_line_span, fault_span, first_of_line, form_from, header_span, index_fields, index_line_span, section_span};
ghost use Rattle.adlread.specs.HeaderSoFar.{header_so_far};
ghost use Rattle.adlread.specs.Context.{context_of};
ghost use Rattle.adlread.specs.SoFar.{IsSoFar};

use crate::fault::{AdlFault, at_line, first_in, located};
use crate::fields::{end_line, number_field};
use crate::header::{HeaderSoFar, is_tag};
use crate::reader::{cut_next, reached, tokens_of};
use crate::sections::{EventList, SourceIndex};
use crate::tags::{is_end, is_list_begin, opened_name, section_of};
use adlmodel::{KeptLines, Project};
use adltoken::{TextFault, Tokens, trimmed};
use list_terms::{Location, Notice, OpenEntry, Section, Stage};
use sampletime::{Rate, Separators};
use std::alloc::{AllocError, Global};

/// The state of reading a list: the stage, the name of the open section, and the project so far.
pub struct Draft<'a> {
    stage: Stage,
    name: &'a [u8],
    header: HeaderSoFar,
    has_index: bool,
    index: SourceIndex,
    has_events: bool,
    events: EventList,
    notices: Vec<Notice>,
}

// Written by hand so that callers drop a draft with a single call.
impl Drop for Draft<'_> {
    fn drop(self) {
        let Draft {
            stage: _,
            name: _,
            header,
            has_index: _,
            index,
            has_events: _,
            events,
            notices,
        } = self;
        drop(header);
        drop(index);
        drop(events);
        drop(notices);
    }
}

impl<'a> Draft<'a> {
    /// Returns the state before the first line.
    pub fn new(alloc: Global) -> Result<Self, AllocError>
        ensures { IfOk result (λ draft. context_of draft ≡ nothing_read) }
    {
        let index = SourceIndex::new(alloc);
        let events = EventList::new(alloc)?;
        Ok(Draft {
            stage: Stage::Before,
            name: &[],
            header: HeaderSoFar::new(),
            has_index: false,
            index,
            has_events: false,
            events,
            notices: Vec::new(alloc),
        })
    }

    /// Returns whether `</ADL>` has been read.
    pub fn is_behind(&self) -> bool
        ensures { result ≡ text.is_behind self.now.stage }
    {
        match self.stage {
            Stage::Behind => true,
            Stage::Before | Stage::Outside | Stage::Inside(_) => false,
        }
    }

    /// Reads one more line, which has the given number. A fault leaves the draft unchanged.
    #[tactic(auto, unfolding(list_terms::specs::Text::with_line, crate::specs::FaultSpans::fault_span))]
    pub fn add(
        &mut self,
        alloc: Global,
        line: &'a [u8],
        number: u64,
        rate: Rate,
    ) -> Result<(), AdlFault>
        ensures exact { Reads (λ _. context_of self.new) result (text.with_line (frames_per_second rate) (context_of self.old) number line.now) }
        ensures stays { OnErr result (context_of self.new ≡ context_of self.old) }
        ensures span { IsAt (fault_span (frames_per_second rate) (context_of self.old) line.now) result }
    {
        match self.stage {
            Stage::Before => self.before_list(line, number),
            Stage::Outside => self.outside(alloc, line, number),
            Stage::Inside(section) => {
                if is_end(self.name, trimmed(line)) {
                    self.stage = Stage::Outside;
                    Ok(())
                } else {
                    self.inside(alloc, section, line, number, rate)
                }
            }
            Stage::Behind => Ok(()),
        }
    }

    /// Reads a line before the list: blank, or `<ADL>`.
    #[tactic(auto, unfolding(list_terms::specs::Text::before_list))]
    fn before_list(&mut self, line: &[u8], number: u64) -> Result<(), AdlFault>
        ensures exact { Reads (λ _. context_of self.new) result (text.before_list (context_of self.old) number (trimmed line.now)) }
        ensures stays { OnErr result (context_of self.new ≡ context_of self.old) }
        ensures span { IsAt (first_of_line line.now) result }
    {
        let tag = trimmed(line);
        if tag.is_empty() {
            return Ok(());
        }
        if is_list_begin(tag) {
            self.stage = Stage::Outside;
            return Ok(());
        }
        Err(at_line(TextFault::SectionMismatch, number, first_in(line)))
    }

    /// Reads a line between sections: blank, `</ADL>`, or the opening of a section.
    #[tactic(auto, unfolding(list_terms::specs::Text::outside))]
    fn outside(&mut self, alloc: Global, line: &'a [u8], number: u64) -> Result<(), AdlFault>
        ensures exact { Reads (λ _. context_of self.new) result (text.outside (context_of self.old) number (trimmed line.now)) }
        ensures stays { OnErr result (context_of self.new ≡ context_of self.old) }
        ensures span { IsAt (first_of_line line.now) result }
    {
        let tag = trimmed(line);
        if tag.is_empty() {
            return Ok(());
        }
        if is_end(b"ADL", tag) {
            self.stage = Stage::Behind;
            return Ok(());
        }
        match opened_name(tag) {
            Some(name) => self.open(alloc, name, line, number),
            None => Err(at_line(TextFault::SectionMismatch, number, first_in(line))),
        }
    }

    /// Opens the section that `line` names.
    #[tactic(auto, unfolding(list_terms::specs::Text::opened))]
    fn open(
        &mut self,
        alloc: Global,
        name: &'a [u8],
        line: &[u8],
        number: u64,
    ) -> Result<(), AdlFault>
        ensures exact { Reads (λ _. context_of self.new) result (text.opened (context_of self.old) number name.now) }
        ensures stays { OnErr result (context_of self.new ≡ context_of self.old) }
        ensures span { IsAt (first_of_line line.now) result }
    {
        let section = section_of(name);
        if self.is_opened(section) {
            return Err(at_line(TextFault::RepeatedSection, number, first_in(line)));
        }
        self.begin(alloc, section, number)?;
        self.stage = Stage::Inside(section);
        self.name = name;
        Ok(())
    }

    fn is_opened(&self, section: Section) -> bool
        ensures { result ≡ text.is_opened (context_of self.now) section }
    {
        let lines = &self.header.lines;
        match section {
            Section::Version => lines.version.is_some(),
            Section::Project => lines.project.is_some(),
            Section::System => lines.system.is_some(),
            Section::Sequence => lines.sequence.is_some(),
            Section::TrackList => lines.track_list.is_some(),
            Section::SourceIndex => self.has_index,
            Section::EventList => self.has_events,
            Section::Skipped | Section::Unsupported => false,
        }
    }

    /// Records that a section begins. A skipped section adds notice 1.
    fn begin(&mut self, alloc: Global, section: Section, number: u64) -> Result<(), AdlFault>
        ensures exact { Reads (λ _. context_of self.new) result
            (Ok (text.with_section (context_of self.old) number section)) }
        ensures stays { OnErr result (context_of self.new ≡ context_of self.old) }
        ensures span { (span : Span) → IsAt span result }
    {
        match section {
            Section::Version => self.header.lines.version = Some(KeptLines::new(alloc)),
            Section::Project => self.header.lines.project = Some(KeptLines::new(alloc)),
            Section::System => self.header.lines.system = Some(KeptLines::new(alloc)),
            Section::Sequence => self.header.lines.sequence = Some(KeptLines::new(alloc)),
            Section::TrackList => self.header.lines.track_list = Some(KeptLines::new(alloc)),
            Section::SourceIndex => self.has_index = true,
            Section::EventList => self.has_events = true,
            Section::Skipped | Section::Unsupported => self.note(1, number)?,
        }
        Ok(())
    }

    /// Adds a notice at a line.
    fn note(&mut self, kind: u8, line: u64) -> Result<(), AdlFault>
        ensures exact { Reads (λ _. context_of self.new) result (Ok (text.with_notice (context_of self.old) kind line)) }
        ensures stays { OnErr result (context_of self.new ≡ context_of self.old) }
        ensures span { (span : Span) → IsAt span result }
    {
        self.notices.push(Notice { kind, at: line })?;
        Ok(())
    }

    /// Reads a line inside a section.
    #[tactic(auto, unfolding(list_terms::specs::Text::in_section, crate::specs::FaultSpans::section_span))]
    fn inside(
        &mut self,
        alloc: Global,
        section: Section,
        line: &[u8],
        number: u64,
        rate: Rate,
    ) -> Result<(), AdlFault>
        ensures exact { Reads (λ _. context_of self.new) result
            (text.in_section (frames_per_second rate) (context_of self.old) number line.now section) }
        ensures stays { OnErr result (context_of self.new ≡ context_of self.old) }
        ensures span { IsAt (section_span (frames_per_second rate) (context_of self.old) line.now section) result }
    {
        match section {
            Section::Version
            | Section::Project
            | Section::System
            | Section::Sequence
            | Section::TrackList => self.in_header(alloc, section, line, number, rate),
            Section::SourceIndex => self.in_source_index(alloc, line, number, rate),
            Section::EventList => self.in_event_list(line, number, rate),
            Section::Skipped => Ok(()),
            Section::Unsupported => in_unsupported(line, number),
        }
    }

    /// Reads a header line, which is kept verbatim.
    #[tactic(auto, unfolding(list_terms::specs::Text::in_header))]
    fn in_header(
        &mut self,
        alloc: Global,
        section: Section,
        line: &[u8],
        number: u64,
        rate: Rate,
    ) -> Result<(), AdlFault>
        ensures exact { Reads (λ _. context_of self.new) result
            (text.in_header (frames_per_second rate) (context_of self.old) number line.now section) }
        ensures stays { OnErr result (context_of self.new ≡ context_of self.old) }
        ensures span { IsAt (header_span (frames_per_second rate) (header_so_far self.old.header) section
            (length line.now) (first_of_line line.now) line.now) result }
    {
        let mut tokens = tokens_of(line);
        match self.header.keep(alloc, section, &mut tokens, rate) {
            Ok(()) => Ok(()),
            Err(fault) => Err(fault.at(Location::Line { line: number }, reached(&tokens))),
        }
    }

    /// Reads a line of SOURCE_INDEX.
    #[tactic(auto, unfolding(list_terms::specs::Text::in_source_index, crate::specs::FaultSpans::index_line_span))]
    fn in_source_index(
        &mut self,
        alloc: Global,
        line: &[u8],
        number: u64,
        rate: Rate,
    ) -> Result<(), AdlFault>
        ensures exact { Reads (λ _. context_of self.new) result
            (text.in_source_index (frames_per_second rate) (context_of self.old) number line.now) }
        ensures stays { OnErr result (context_of self.new ≡ context_of self.old) }
        ensures span { IsAt (index_line_span (frames_per_second rate) self.old.index.sources line.now) result }
    {
        if is_tag(line) {
            return Err(at_line(TextFault::SectionMismatch, number, first_in(line)));
        }
        let location = Location::Line { line: number };
        let mut tokens = tokens_of(line);
        let Some(token) = located(cut_next(&mut tokens), location, reached(&tokens))? else {
            return Ok(());
        };
        if token.is_keyword(b"Index") {
            self.index_line(alloc, &mut tokens, number, rate)
        } else {
            self.dropped_line(&mut tokens, number)
        }
    }

    /// Reads an `(Index)` line after its keyword.
    #[tactic(auto, unfolding(list_terms::specs::Text::index_line, crate::specs::FaultSpans::form_span))]
    fn index_line(
        &mut self,
        alloc: Global,
        tokens: &mut Tokens<'_>,
        line: u64,
        rate: Rate,
    ) -> Result<(), AdlFault>
        ensures exact { Reads (λ _. context_of self.new) result
            (text.index_line (frames_per_second rate) (context_of self.old) line tokens.old.rest.now) }
        ensures stays { OnErr result (context_of self.new ≡ context_of self.old) }
        ensures span { IsAt (form_from (Then Number (index_fields (frames_per_second rate) self.old.index.sources))
            tokens.old) result }
    {
        let number = located(
            number_field(tokens),
            Location::Line { line },
            reached(tokens),
        )?;
        let location = Location::Index {
            line,
            index: number,
        };
        match self.index.add(alloc, number, tokens, rate) {
            Ok(()) => Ok(()),
            Err(fault) => Err(fault.at(location, reached(tokens))),
        }
    }

    /// Drops any other line of SOURCE_INDEX, with notice 2.
    #[tactic(auto, unfolding(list_terms::specs::Text::dropped_line))]
    fn dropped_line(&mut self, tokens: &mut Tokens<'_>, line: u64) -> Result<(), AdlFault>
        ensures exact { Reads (λ _. context_of self.new) result
            (text.dropped_line (context_of self.old) line tokens.old.rest.now) }
        ensures stays { OnErr result (context_of self.new ≡ context_of self.old) }
        ensures span { IsAt (end_from any tokens.old) result }
    {
        located(end_line(tokens), Location::Line { line }, reached(tokens))?;
        self.note(2, line)
    }

    /// Reads a line of EVENT_LIST.
    #[tactic(auto, unfolding(list_terms::specs::Text::in_event_list, crate::specs::FaultSpans::event_line_span))]
    fn in_event_list(&mut self, line: &[u8], number: u64, rate: Rate) -> Result<(), AdlFault>
        ensures exact { Reads (λ _. context_of self.new) result
            (text.in_event_list (frames_per_second rate) (context_of self.old) number line.now) }
        ensures stays { OnErr result (context_of self.new ≡ context_of self.old) }
        ensures span { IsAt (event_line_span (frames_per_second rate) (entries_of self.old.events) line.now) result }
    {
        if is_tag(line) {
            return Err(at_line(TextFault::SectionMismatch, number, first_in(line)));
        }
        let location = location_in(number, self.events.entry);
        let mut tokens = tokens_of(line);
        let Some(token) = located(cut_next(&mut tokens), location, reached(&tokens))? else {
            return Ok(());
        };
        if token.is_keyword(b"Entry") {
            self.entry_line(&mut tokens, number, rate)
        } else {
            let said = self.events.add_further(&token, &mut tokens, rate);
            located(said, location, reached(&tokens))
        }
    }

    /// Reads an `(Entry)` line after its keyword.
    #[tactic(auto, unfolding(list_terms::specs::Text::entry_line, crate::specs::FaultSpans::form_span))]
    fn entry_line(&mut self, tokens: &mut Tokens<'_>, line: u64, rate: Rate) -> Result<(), AdlFault>
        ensures exact { Reads (λ _. context_of self.new) result
            (text.entry_line (frames_per_second rate) (context_of self.old) line tokens.old.rest.now) }
        ensures stays { OnErr result (context_of self.new ≡ context_of self.old) }
        ensures span { IsAt (form_from (Then Number (entry_fields (frames_per_second rate) (entries_of self.old.events)))
            tokens.old) result }
    {
        let number = located(
            number_field(tokens),
            Location::Line { line },
            reached(tokens),
        )?;
        let location = Location::Entry {
            line,
            entry: number,
        };
        match self.events.add(number, tokens, rate) {
            Ok(()) => Ok(()),
            Err(fault) => Err(fault.at(location, reached(tokens))),
        }
    }

    /// Returns the project at the line `</ADL>`. Returns a fault if a required section or a rate is missing, or if
    /// out of memory.
    pub fn finish(self, line: &[u8], number: u64, rate: Rate) -> Result<Project, AdlFault>
        requires { IsSoFar (frames_per_second rate) (context_of self) }
        ensures exact { Reads (λ project. project) result
            (text.finished (frames_per_second rate) (context_of self.entry) number) }
        ensures whole { IfOk result IsProject }
        ensures span { IsAt (first_of_line line.now) result }
    {
        if let Some(fault) = self.lacks() {
            return Err(at_line(fault, number, first_in(line)));
        }
        self.project(rate)
    }

    /// Returns the fault of a list that ends at this line without a required section or rate, or `None` if nothing
    /// is missing.
    pub fn missing(&self, line: &[u8], number: u64) -> Option<AdlFault>
        ensures exact { (rate : ℕ) → option_map refusal result ≡ refused (text.finished rate (context_of self.now) number) }
        ensures span { IfSome result (λ fault. IsAt {X = Unit {0}} (first_of_line line.now) (Err fault)) }
    {
        match self.lacks() {
            Some(fault) => Some(at_line(fault, number, first_in(line))),
            None => None,
        }
    }

    /// Returns the fault of a list that ends here without a required section or rate.
    #[tactic(auto, unfolding(list_terms::specs::Text::finished))]
    fn lacks(&self) -> Option<TextFault>
        ensures fault { (rate number : ℕ) → MatchOption result
            (text.finished rate (context_of self.now) number ≡ Ok (text.project_of rate (context_of self.now)))
            (λ fault. text.finished rate (context_of self.now) number ≡ Err (text.at_line number fault)) }
        ensures rates { result ≡ None
            → IsTrue (self.now.header.rates.sample_rate && self.now.header.rates.frame_rate) }
    {
        if !self.has_sections() {
            return Some(TextFault::MissingSection);
        }
        let rates = self.header.rates;
        if rates.sample_rate && rates.frame_rate {
            None
        } else {
            Some(TextFault::MissingSequence)
        }
    }

    /// Returns whether SEQUENCE, SOURCE_INDEX and EVENT_LIST have been opened.
    fn has_sections(&self) -> bool
        ensures { result ≡ (is_some self.now.header.lines.sequence && self.now.has_index && self.now.has_events) }
    {
        self.header.lines.sequence.is_some() && self.has_index && self.has_events
    }

    /// Builds the project. Both rates must have been given.
    fn project(self, rate: Rate) -> Result<Project, AdlFault>
        requires whole { IsSoFar (frames_per_second rate) (context_of self) }
        requires rates { IsTrue (self.header.rates.sample_rate && self.header.rates.frame_rate) }
        ensures exact { Reads (λ project. project) result
            (Ok (text.project_of (frames_per_second rate) (context_of self.entry))) }
        ensures whole { IfOk result IsProject }
        ensures span { (span : Span) → IsAt span result }
    {
        let Draft {
            stage: _,
            name: _,
            header,
            has_index: _,
            index,
            has_events: _,
            events,
            notices,
        } = self;
        let mut list = events;
        list.close()?;
        let separators = list.separators.unwrap_or(Separators::DEFAULT);
        let project = Project::new(
            header.lines,
            rate,
            index.sources,
            list.events,
            separators,
            notices,
        );
        let _ = project.header();
        Ok(project)
    }
}

/// Reads a line of a section that may only hold blank lines.
#[tactic(auto, unfolding(list_terms::specs::Text::in_unsupported))]
fn in_unsupported(line: &[u8], number: u64) -> Result<(), AdlFault>
    ensures exact { (c : text.Context) → Reads (λ _. c) result (text.in_unsupported c number line.now) }
    ensures span { IsAt (first_of_line line.now) result }
{
    if trimmed(line).is_empty() {
        Ok(())
    } else {
        Err(at_line(TextFault::Unsupported, number, first_in(line)))
    }
}

/// Returns the location of a line of EVENT_LIST that isn't an `(Entry)` line.
fn location_in(line: u64, entry: Option<OpenEntry>) -> Location
    ensures { result ≡ text.location_in line entry }
{
    match entry {
        Some(entry) => Location::Entry {
            line,
            entry: entry.event.number,
        },
        None => Location::Line { line },
    }
}
