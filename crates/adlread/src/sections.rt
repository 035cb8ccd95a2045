// SOURCE_INDEX and EVENT_LIST during reading.
ghost use Rattle.std.specs.Prelude.{◌≡◌, ◌<◌, [], IfOk, IsTrue, OnErr, OnOk};
ghost use Rattle.std.proofs.Props.{props};
ghost use Rattle.sampletime.specs.FrameRate.{frames_per_second};
ghost use Rattle.list_terms.specs.WholeProject.{AreEvents, AreNumberedSources, is_number};
ghost use Rattle.list_terms.specs.Steps.{ok_map};
ghost use Rattle.list_terms.specs.Text.{all_events, closed_entries, entry_of, further_line, no_entry, source_with};
ghost use Rattle.adltoken.specs.Views.{token_view};
ghost use Rattle.adlread.specs.Fault.{Says};
ghost use Rattle.adlread.specs.FaultSpans.{OnText, entry_fields, form_from, further_span, index_fields, line_length, reached};
ghost use Rattle.adlread.specs.Flags.{AreFlags};

use crate::entry_lines::{entry_with, event_fields, remark, source_fields};
use crate::fault::LineFault;
use crate::taken::Numbers;
use adlmodel::{Event, Sources};
use adltoken::{TextFault, Token, Tokens};
use list_terms::OpenEntry;
use sampletime::{Rate, Separators};
use std::alloc::{AllocError, Global};

/// The sources so far.
#[derive(Drop)]
pub struct SourceIndex {
    pub sources: Sources,
    pub ghost whole: { AreNumberedSources sources } by { Prim.hlevel props },
}

impl SourceIndex {
    /// Returns an index without sources.
    pub fn new(alloc: Global) -> Self
        ensures { result.sources ≡ [] }
    {
        SourceIndex {
            sources: Sources::new(alloc),
        }
    }

    /// Reads the fields of a source and adds it. Returns a fault if its number isn't new, if a field is invalid, or
    /// if out of memory.
    #[tactic(auto, unfolding(list_terms::specs::Text::source_with, crate::specs::FaultSpans::form_span))]
    pub fn add(
        &mut self,
        alloc: Global,
        number: u32,
        tokens: &mut Tokens<'_>,
        rate: Rate,
    ) -> Result<(), LineFault>
        requires { IsTrue (is_number number) }
        ensures exact { Says (λ _. self.new.sources) result
            (source_with (frames_per_second rate) self.old.sources number tokens.old.rest.now) }
        ensures stays { OnErr result (self.new.sources ≡ self.old.sources) }
        ensures span { OnText result (reached tokens.new
            ≡ form_from (index_fields (frames_per_second rate) self.old.sources number) tokens.old) }
    {
        if self.sources.contains(number) {
            return Err(LineFault::Text(TextFault::DuplicateNumber));
        }
        let source = source_fields(alloc, number, tokens, rate)?;
        self.sources.push(source)?;
        Ok(())
    }
}

/// The event list so far: the complete events, the last entry, the separators of the first destination in, and the
/// numbers used.
#[derive(Drop)]
pub struct EventList {
    pub events: Vec<Event>,
    pub entry: Option<OpenEntry>,
    pub separators: Option<Separators>,
    numbers: Numbers,
    ghost flags: { AreFlags (λ e. e.number) (all_events events.items entry) numbers.taken.items },
    pub ghost whole: { AreEvents (all_events events.items entry) } by { Prim.hlevel props },
}

impl EventList {
    ghost use Rattle.adlread.specs.Entries.{entries_of};

    /// Returns an event list without entries.
    pub fn new(alloc: Global) -> Result<Self, AllocError>
        ensures { IfOk result (λ list. entries_of list ≡ no_entry) }
    {
        let numbers = Numbers::new(alloc)?;
        Ok(EventList {
            events: Vec::new(alloc),
            entry: None,
            separators: None,
            numbers,
        })
    }

    /// Completes the last entry.
    pub fn close(&mut self) -> Result<(), AllocError>
        ensures closed { OnOk result (entries_of self.new ≡ closed_entries (entries_of self.old)) }
        ensures stays { OnErr result (entries_of self.new ≡ entries_of self.old) }
    {
        if let Some(entry) = self.entry {
            self.events.push(entry.event)?;
            self.entry = None;
        }
        Ok(())
    }

    /// Reads the fields of an entry and adds it. Returns a fault if its number isn't new, if a field is invalid, or
    /// if out of memory.
    #[tactic(auto, unfolding(list_terms::specs::Text::entry_of, crate::specs::FaultSpans::form_span))]
    pub fn add(&mut self, number: u32, tokens: &mut Tokens<'_>, rate: Rate) -> Result<(), LineFault>
        requires { IsTrue (is_number number) }
        ensures exact { Says (λ _. entries_of self.new) result
            (entry_of (frames_per_second rate) (entries_of self.old) number tokens.old.rest.now) }
        ensures stays { OnErr result (entries_of self.new ≡ entries_of self.old) }
        ensures span { OnText result (reached tokens.new
            ≡ form_from (entry_fields (frames_per_second rate) (entries_of self.old) number) tokens.old) }
    {
        if self.numbers.contains(number) {
            return Err(LineFault::Text(TextFault::DuplicateNumber));
        }
        let (event, separators) = event_fields(number, tokens, rate)?;
        self.close()?;
        self.entry = Some(OpenEntry {
            event,
            has_rise: false,
            has_fall: false,
        });
        self.numbers.insert(number);
        self.separators = Some(self.separators.unwrap_or(separators));
        Ok(())
    }

    /// Reads any other line of EVENT_LIST, which belongs to the entry before it.
    #[tactic(auto, unfolding(list_terms::specs::Text::further_line))]
    pub fn add_further(
        &mut self,
        token: &Token<'_>,
        tokens: &mut Tokens<'_>,
        rate: Rate,
    ) -> Result<(), TextFault>
        ensures exact { ok_map (λ _. entries_of self.new) result
            ≡ further_line (frames_per_second rate) (entries_of self.old) (token_view token.now) tokens.old.rest.now }
        ensures stays { OnErr result (entries_of self.new ≡ entries_of self.old) }
        ensures span { OnErr result (reached tokens.new
            ≡ further_span (frames_per_second rate) self.old.entry (token_view token.now) (line_length tokens.old)
            (reached tokens.old) tokens.old.rest.now) }
    {
        match self.entry {
            None => remark(token, tokens),
            Some(entry) => {
                let entry = entry_with(entry, token, tokens, rate)?;
                self.entry = Some(entry);
                Ok(())
            }
        }
    }
}
