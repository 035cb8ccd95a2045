// The header during reading.
ghost use Rattle.std.specs.Prelude.{◌≡◌, OnErr, OnOk};
ghost use Rattle.sampletime.specs.FrameRate.{frames_per_second};
ghost use Rattle.list_terms.specs.Text.{is_tag, keep, kept_line, no_header, rates_with, with_text};
ghost use Rattle.list_terms.specs.Text as text;
ghost use Rattle.adlmodel.specs.Header.{header_view};
ghost use Rattle.adlread.specs.Fault.{Says};
ghost use Rattle.adlread.specs.FaultSpans.{OnText, header_span, line_length, reached, settings_span};
ghost use Rattle.adlread.specs.HeaderSoFar.{header_so_far};

use crate::entry_lines::{sequence_line, system_line};
use crate::fault::LineFault;
use adlmodel::{Header, KeptLines};
use adltoken::{TextFault, Tokens, skip_blanks};
use list_terms::{Rates, Section};
use sampletime::Rate;
use std::alloc::{AllocError, Global};

/// The header so far: its lines, their number, and the rates given.
#[derive(Drop)]
pub struct HeaderSoFar {
    pub lines: Header,
    pub kept: u32,
    pub rates: Rates,
}

const MOST_LINES: u32 = 65_535;

impl HeaderSoFar {
    /// Returns a header without sections.
    pub fn new() -> Self
        ensures { header_so_far result ≡ no_header }
    {
        HeaderSoFar {
            lines: Header {
                version: None,
                project: None,
                system: None,
                sequence: None,
                track_list: None,
            },
            kept: 0,
            rates: Rates {
                sample_rate: false,
                frame_rate: false,
            },
        }
    }

    /// Keeps a line in a section of the header. Returns a fault if the line is unsupported or one too many, or if
    /// out of memory.
    #[tactic(auto, unfolding(list_terms::specs::Text::kept_line))]
    pub fn keep(
        &mut self,
        alloc: Global,
        section: Section,
        tokens: &mut Tokens<'_>,
        rate: Rate,
    ) -> Result<(), LineFault>
        ensures exact { Says (λ _. header_so_far self.new) result
            (kept_line (header_so_far self.old) section tokens.old.rest.now
            (rates_with (frames_per_second rate) section self.old.rates tokens.old.rest.now)) }
        ensures stays { OnErr result (header_so_far self.new ≡ header_so_far self.old) }
        ensures span { OnText result (reached tokens.new
            ≡ header_span (frames_per_second rate) (header_so_far self.old) section (line_length tokens.old)
            (reached tokens.old) tokens.old.rest.now) }
    {
        if self.kept >= MOST_LINES {
            return Err(LineFault::Text(TextFault::TooMany));
        }
        let line = tokens.rest;
        let rates = rates_with(section, self.rates, tokens, rate)?;
        keep_line(alloc, section, line, &mut self.lines)?;
        self.kept += 1;
        self.rates = rates;
        Ok(())
    }
}

/// Reads a header line and returns the rates given so far.
fn rates_with(
    section: Section,
    rates: Rates,
    tokens: &mut Tokens<'_>,
    rate: Rate,
) -> Result<Rates, TextFault>
    ensures exact { result ≡ text.rates_with (frames_per_second rate) section rates tokens.old.rest.now }
    ensures span { OnErr result (reached tokens.new
        ≡ settings_span (frames_per_second rate) section rates (line_length tokens.old) (reached tokens.old)
        tokens.old.rest.now) }
{
    match section {
        Section::System => {
            if is_tag(tokens.rest) {
                return Err(TextFault::SectionMismatch);
            }
            system_line(tokens, rate)?;
            Ok(rates)
        }
        Section::Sequence => {
            if is_tag(tokens.rest) {
                return Err(TextFault::SectionMismatch);
            }
            sequence_line(rates, tokens, rate)
        }
        _ => Ok(rates),
    }
}

/// Returns whether a line begins with `<`, perhaps after spaces and tabs.
pub fn is_tag(line: &[u8]) -> bool
    ensures { result ≡ text.is_tag line.now }
{
    match skip_blanks(line) {
        [byte, ..] => *byte == b'<',
        [] => false,
    }
}

fn keep_line(
    alloc: Global,
    section: Section,
    line: &[u8],
    header: &mut Header,
) -> Result<(), AllocError>
    ensures kept { OnOk result (header_view header.new ≡ keep section line.now (header_view header.old)) }
    ensures stays { OnErr result (header_view header.new ≡ header_view header.old) }
{
    match section {
        Section::Version => push_line(alloc, line, &mut header.version),
        Section::Project => push_line(alloc, line, &mut header.project),
        Section::System => push_line(alloc, line, &mut header.system),
        Section::Sequence => push_line(alloc, line, &mut header.sequence),
        Section::TrackList => push_line(alloc, line, &mut header.track_list),
        Section::SourceIndex | Section::EventList | Section::Skipped | Section::Unsupported => Ok(
            (),
        ),
    }
}

fn push_line(alloc: Global, line: &[u8], lines: &mut Option<KeptLines>) -> Result<(), AllocError>
    ensures pushed { OnOk result (lines.new ≡ with_text line.now lines.old) }
    ensures stays { OnErr result (lines.new ≡ lines.old) }
{
    match lines {
        Some(lines) => lines.push(alloc, line),
        None => Ok(()),
    }
}
