// The lines of SOURCE_INDEX, EVENT_LIST, SEQUENCE and SYSTEM.
ghost use Rattle.std.specs.Prelude.{◌≡◌, ◌==◌, ◌≤◌, ◌-◌, IfOk, IsTrue, OnErr, codes, false, is_some, length, option_map, unwrap_or};
ghost use Rattle.list_terms.specs.Steps.{ok_map};
ghost use Rattle.list_terms.specs.Fields.{is_missing, is_zero, told_rate};
ghost use Rattle.list_terms.specs.Forms as form;
ghost use Rattle.list_terms.specs.Forms.{reads, value_at};
ghost use Rattle.list_terms.specs.declared.TextFault.TheVariants.{Unsupported, WrongSequence};
ghost use Rattle.list_terms.specs.EntryLines as spec;
ghost use Rattle.list_terms.specs.Names.{place_of_url};
ghost use Rattle.list_terms.specs.WholeProject.{is_event, is_number, is_source};
ghost use Rattle.sampletime.specs.FrameRate.{frames_per_second};
ghost use Rattle.sampletime.specs.TimeCode.{day};
ghost use Rattle.adltoken.specs.Views.{token_view};
ghost use Rattle.adlread.specs.Fault.{Says};
ghost use Rattle.adlread.specs.FaultSpans.{OnText, StepsOver, form_from, line_from, reached};
ghost use Rattle.adlread.specs.FurtherLines.{HasNumberOf, StaysWhole};

use crate::fault::LineFault;
use crate::fields::{
    channels_field, end_line, end_with_zeros, field, identifier_field, is_missing, is_zero,
    keyword_field, number_field, optional_time_field, time_field, told_rate,
};
use crate::reader::cut_next;
use adlmodel::{Bytes, Channels, Event, Fade, Source, place_of};
use adltoken::{EntryKeyword, TextFault, Token, Tokens, is_same_name, skip_blanks};
use list_terms::{OpenEntry, Rates};
use sampletime::{Rate, SampleTime, Separators, parse_time};
use std::alloc::Global;

/// Reads the fields of a source: `(F)`, URL, identifier, in and length.
#[tactic(auto, unfolding(list_terms::specs::Forms::reads, crate::specs::FaultSpans::form_span, list_terms::specs::Fields::end_line))]
pub fn source_fields(
    alloc: Global,
    number: u32,
    tokens: &mut Tokens<'_>,
    rate: Rate,
) -> Result<Source, LineFault>
    ensures fields { Says (λ source. source) result (reads (spec.source_fields (frames_per_second rate) number) tokens.old.rest.now) }
    ensures number { IfOk result (λ source. source.number ≡ number) }
    ensures whole { IsTrue (is_number number) → IfOk result (λ source. IsTrue (is_source source)) }
    ensures span { OnText result (reached tokens.new
        ≡ form_from (spec.source_fields (frames_per_second rate) number) tokens.old) }
{
    keyword_field(b"F", tokens)?;
    let url = url_field(alloc, tokens)?;
    let uid = identifier_field(tokens)?;
    let start = optional_time_field(tokens, rate)?;
    let length = optional_time_field(tokens, rate)?;
    end_line(tokens)?;
    let url = Bytes::from_slice(alloc, url)?;
    let uid = Bytes::from_slice(alloc, uid)?;
    Ok(Source::new(number, url, uid, start, length))
}

/// Reads a URL that names a file.
#[tactic(auto, unfolding(list_terms::specs::Forms::value_at))]
fn url_field<'a>(alloc: Global, tokens: &mut Tokens<'a>) -> Result<&'a [u8], LineFault>
    ensures value { Says (λ url. (url.now, tokens.new.rest.now)) result (value_at form.Url tokens.old.rest.now) }
    ensures location { IfOk result (λ url. IsTrue (is_some (place_of_url url.now))) }
    ensures steps { StepsOver tokens.old tokens.new }
{
    let token = field(tokens)?;
    let location = place_of(alloc, token.content)?;
    if location.is_some() {
        Ok(token.content)
    } else {
        Err(LineFault::Text(TextFault::BadUrl))
    }
}

/// Reads the fields of an entry: `(Cut) I`, index, channels and times. Returns the event and the separators of its
/// destination in.
#[tactic(auto, unfolding(list_terms::specs::Forms::reads, crate::specs::FaultSpans::form_span, list_terms::specs::Fields::end_line))]
pub fn event_fields(
    number: u32,
    tokens: &mut Tokens<'_>,
    rate: Rate,
) -> Result<(Event, Separators), TextFault>
    ensures fields { result ≡ reads (spec.event_fields (frames_per_second rate) number) tokens.old.rest.now }
    ensures number { IfOk result (λ entry. entry.0.number ≡ number) }
    ensures whole { IsTrue (is_number number) → IfOk result (λ entry. IsTrue (is_event entry.0)) }
    ensures span { OnErr result (reached tokens.new
        ≡ form_from (spec.event_fields (frames_per_second rate) number) tokens.old) }
{
    keyword_field(b"Cut", tokens)?;
    cut_field(tokens)?;
    let index = number_field(tokens)?;
    let source = channels_field(tokens)?;
    let dest = channels_field(tokens)?;
    if !has_width(source, dest) {
        return Err(TextFault::BadChannels);
    }
    let (source_in, _) = time_field(tokens, rate)?;
    let (dest_in, separators) = time_field(tokens, rate)?;
    let (dest_out, _) = time_field(tokens, rate)?;
    end_line(tokens)?;
    let event = Event {
        number,
        index,
        source,
        dest,
        source_in,
        dest_in,
        dest_out,
        rise: NO_FADE,
        fall: NO_FADE,
    };
    Ok((event, separators))
}

/// Returns whether two runs have the same number of channels.
fn has_width(source: Channels, dest: Channels) -> bool
    ensures { result ≡ spec.has_width source dest }
{
    source.last.saturating_sub(source.first) == dest.last.saturating_sub(dest.first)
}

const NO_FADE: Fade = Fade {
    length: SampleTime::ZERO,
};

/// Reads `I`, the only supported kind of cut.
#[tactic(auto, unfolding(list_terms::specs::Forms::value_at))]
fn cut_field(tokens: &mut Tokens<'_>) -> Result<(), TextFault>
    ensures exact { ok_map (λ _. (tt, tokens.new.rest.now)) result
        ≡ value_at (form.Passes spec.is_cut Unsupported) tokens.old.rest.now }
    ensures steps { StepsOver tokens.old tokens.new }
{
    let token = field(tokens)?;
    if token.content == b"I".as_slice() {
        Ok(())
    } else {
        Err(TextFault::Unsupported)
    }
}

/// Reads the length of a fade, and its curve if the fade is longer than zero.
#[tactic(auto, unfolding(list_terms::specs::Forms::reads, crate::specs::FaultSpans::form_span, list_terms::specs::Fields::end_line))]
fn fade_fields(tokens: &mut Tokens<'_>, rate: Rate) -> Result<SampleTime, TextFault>
    ensures value { result ≡ reads (spec.fade_fields (frames_per_second rate)) tokens.old.rest.now }
    ensures in_day { IfOk result (λ length. length ≤ day) }
    ensures span { OnErr result (reached tokens.new
        ≡ form_from (spec.fade_fields (frames_per_second rate)) tokens.old) }
{
    let length = optional_time_field(tokens, rate)?.unwrap_or(SampleTime::ZERO);
    if length.get() != 0 {
        linear_field(tokens)?;
    }
    end_line(tokens)?;
    Ok(length)
}

/// Reads `LIN`, the only supported curve.
#[tactic(auto, unfolding(list_terms::specs::Forms::value_at))]
fn linear_field(tokens: &mut Tokens<'_>) -> Result<(), TextFault>
    ensures exact { ok_map (λ _. (tt, tokens.new.rest.now)) result
        ≡ value_at (form.Passes spec.is_linear Unsupported) tokens.old.rest.now }
    ensures steps { StepsOver tokens.old tokens.new }
{
    let token = field(tokens)?;
    if is_same_name(token.content, b"LIN") {
        Ok(())
    } else {
        Err(TextFault::Unsupported)
    }
}

/// Reads a line of an entry (a fade, a remark, or a gain of zero) and returns the entry with it.
#[tactic(auto, unfolding(list_terms::specs::EntryLines::entry_with, list_terms::specs::Forms::reads, crate::specs::FaultSpans::form_span, list_terms::specs::Fields::end_line))]
pub fn entry_with(
    entry: OpenEntry,
    token: &Token<'_>,
    tokens: &mut Tokens<'_>,
    rate: Rate,
) -> Result<OpenEntry, TextFault>
    ensures value { result
        ≡ reads (spec.entry_with (frames_per_second rate) entry (token_view token.now)) tokens.old.rest.now }
    ensures number { IfOk result (HasNumberOf entry) }
    ensures whole { StaysWhole entry result }
    ensures span { OnErr result (reached tokens.new
        ≡ form_from (spec.entry_with (frames_per_second rate) entry (token_view token.now)) tokens.old) }
{
    match token.entry_keyword() {
        Some(EntryKeyword::Infade) => with_rise(entry, tokens, rate),
        Some(EntryKeyword::Outfade) => with_fall(entry, tokens, rate),
        Some(EntryKeyword::Rem) => {
            end_line(tokens)?;
            Ok(entry)
        }
        Some(EntryKeyword::Gain) => {
            end_with_zeros(tokens)?;
            Ok(entry)
        }
        None => Err(TextFault::Unsupported),
    }
}

/// Reads a fade-in.
#[tactic(auto, using(list_terms::specs::FormLaws::reads_mapped, crate::proofs::SpanLaws::span_mapped), unfolding(list_terms::specs::Forms::reads, crate::specs::FaultSpans::form_span))]
fn with_rise(entry: OpenEntry, tokens: &mut Tokens<'_>, rate: Rate) -> Result<OpenEntry, TextFault>
    ensures value { result ≡ reads (spec.told_rise (frames_per_second rate) entry) tokens.old.rest.now }
    ensures number { IfOk result (HasNumberOf entry) }
    ensures whole { StaysWhole entry result }
    ensures span { OnErr result (reached tokens.new
        ≡ form_from (spec.told_rise (frames_per_second rate) entry) tokens.old) }
{
    if entry.has_rise {
        return Err(TextFault::RepeatedFade);
    }
    let length = fade_fields(tokens, rate)?;
    let mut entry = entry;
    entry.event.rise = Fade { length };
    entry.has_rise = true;
    Ok(entry)
}

/// Reads a fade-out.
#[tactic(auto, using(list_terms::specs::FormLaws::reads_mapped, crate::proofs::SpanLaws::span_mapped), unfolding(list_terms::specs::Forms::reads, crate::specs::FaultSpans::form_span))]
fn with_fall(entry: OpenEntry, tokens: &mut Tokens<'_>, rate: Rate) -> Result<OpenEntry, TextFault>
    ensures value { result ≡ reads (spec.told_fall (frames_per_second rate) entry) tokens.old.rest.now }
    ensures number { IfOk result (HasNumberOf entry) }
    ensures whole { StaysWhole entry result }
    ensures span { OnErr result (reached tokens.new
        ≡ form_from (spec.told_fall (frames_per_second rate) entry) tokens.old) }
{
    if entry.has_fall {
        return Err(TextFault::RepeatedFade);
    }
    let length = fade_fields(tokens, rate)?;
    let mut entry = entry;
    entry.event.fall = Fade { length };
    entry.has_fall = true;
    Ok(entry)
}

/// Reads a line before the first entry, which must be a remark.
#[tactic(auto, unfolding(list_terms::specs::EntryLines::remark, list_terms::specs::Forms::reads, crate::specs::FaultSpans::form_span, list_terms::specs::Fields::end_line))]
pub fn remark(token: &Token<'_>, tokens: &mut Tokens<'_>) -> Result<(), TextFault>
    ensures exact { ok_map (λ _. tt) result ≡ reads (spec.remark (token_view token.now)) tokens.old.rest.now }
    ensures span { OnErr result (reached tokens.new ≡ form_from (spec.remark (token_view token.now)) tokens.old) }
{
    if token.is_keyword(b"Rem") {
        end_line(tokens)
    } else {
        Err(TextFault::Unplaced)
    }
}

/// Reads a line of SEQUENCE and returns the rates given so far. Lines without a rate aren't interpreted.
#[tactic(auto, unfolding(list_terms::specs::EntryLines::sequence_line, list_terms::specs::Forms::reads_line, crate::specs::FaultSpans::line_span, list_terms::specs::Forms::reads, crate::specs::FaultSpans::form_span, list_terms::specs::Fields::end_line))]
pub fn sequence_line(rates: Rates, tokens: &mut Tokens<'_>, rate: Rate) -> Result<Rates, TextFault>
    ensures exact { result ≡ spec.sequence_line (frames_per_second rate) rates tokens.old.rest.now }
    ensures span { OnErr result (reached tokens.new
        ≡ line_from (spec.sequence_fields (frames_per_second rate) rates) tokens.old) }
{
    let Some(token) = cut_next(tokens)? else {
        return Ok(rates);
    };
    let mut rates = rates;
    if token.is_keyword(b"SEQ_SAMPLE_RATE") {
        sample_rate_field(tokens)?;
        rates.sample_rate = true;
    } else if token.is_keyword(b"SEQ_FRAME_RATE") {
        frame_rate_field(tokens, rate)?;
        rates.frame_rate = true;
    }
    end_line(tokens)?;
    Ok(rates)
}

/// Reads `S48000` or `48000`.
#[tactic(auto, unfolding(list_terms::specs::Forms::value_at))]
fn sample_rate_field(tokens: &mut Tokens<'_>) -> Result<(), TextFault>
    ensures exact { ok_map (λ _. (tt, tokens.new.rest.now)) result
        ≡ value_at (form.Passes spec.is_48000 WrongSequence) tokens.old.rest.now }
    ensures steps { StepsOver tokens.old tokens.new }
{
    let token = field(tokens)?;
    if is_same_name(token.content, b"S48000") || token.content == b"48000".as_slice() {
        Ok(())
    } else {
        Err(TextFault::WrongSequence)
    }
}

/// Reads the frame rate, which must be the list's.
#[tactic(auto, unfolding(list_terms::specs::Forms::value_at))]
fn frame_rate_field(tokens: &mut Tokens<'_>, rate: Rate) -> Result<(), TextFault>
    ensures exact { ok_map (λ _. (tt, tokens.new.rest.now)) result
        ≡ value_at (form.Passes (spec.tells_rate (frames_per_second rate)) WrongSequence) tokens.old.rest.now }
    ensures steps { StepsOver tokens.old tokens.new }
{
    let token = field(tokens)?;
    if tells_rate(token.content, rate) {
        Ok(())
    } else {
        Err(TextFault::WrongSequence)
    }
}

/// Returns whether a text is the given frame rate.
fn tells_rate(text: &[u8], rate: Rate) -> bool
    ensures { result
        ≡ unwrap_or (option_map (λ stated. stated == frames_per_second rate) (told_rate text.now)) false }
{
    match told_rate(text) {
        Some(stated) => stated.frames_per_second() == rate.frames_per_second(),
        None => false,
    }
}

/// Reads a line of SYSTEM, which must not set a source offset or a gain. Other lines aren't interpreted.
#[tactic(auto, unfolding(list_terms::specs::EntryLines::system_line, list_terms::specs::Forms::reads_line, crate::specs::FaultSpans::line_span, list_terms::specs::Forms::reads, crate::specs::FaultSpans::form_span, list_terms::specs::Fields::end_line))]
pub fn system_line(tokens: &mut Tokens<'_>, rate: Rate) -> Result<(), TextFault>
    ensures exact { ok_map (λ _. tt) result ≡ spec.system_line (frames_per_second rate) tokens.old.rest.now }
    ensures span { OnErr result (reached tokens.new
        ≡ line_from (spec.system_fields (frames_per_second rate)) tokens.old) }
{
    let Some(token) = cut_next(tokens)? else {
        return Ok(());
    };
    if token.is_keyword(b"SYS_SRC_OFFSET") {
        offset_setting(tokens, rate)
    } else if token.is_keyword(b"SYS_GAIN") {
        gain_setting(tokens)
    } else {
        end_line(tokens)
    }
}

/// Reads an optional offset, which must be `_` or a time of zero.
#[tactic(auto, unfolding(list_terms::specs::Forms::reads, crate::specs::FaultSpans::form_span))]
fn offset_setting(tokens: &mut Tokens<'_>, rate: Rate) -> Result<(), TextFault>
    ensures exact { ok_map (λ _. tt {0}) result
        ≡ reads (form.May (λ t. spec.is_no_offset (frames_per_second rate) t.content) Unsupported (tt {0})) tokens.old.rest.now }
    ensures span { OnErr result (reached tokens.new
        ≡ form_from (form.May (λ t. spec.is_no_offset (frames_per_second rate) t.content) Unsupported (tt {0})) tokens.old) }
{
    let Some(token) = cut_next(tokens)? else {
        return Ok(());
    };
    if is_no_offset(token.content, rate) {
        end_line(tokens)
    } else {
        Err(TextFault::Unsupported)
    }
}

/// Reads an optional gain, which must be zero.
#[tactic(auto, unfolding(list_terms::specs::Forms::reads, crate::specs::FaultSpans::form_span))]
fn gain_setting(tokens: &mut Tokens<'_>) -> Result<(), TextFault>
    ensures exact { ok_map (λ _. tt {0}) result
        ≡ reads (form.May (λ t. is_zero t.content) Unsupported (tt {0})) tokens.old.rest.now }
    ensures span { OnErr result (reached tokens.new
        ≡ form_from (form.May (λ t. is_zero t.content) Unsupported (tt {0})) tokens.old) }
{
    let Some(token) = cut_next(tokens)? else {
        return Ok(());
    };
    if is_zero(token.content) {
        end_line(tokens)
    } else {
        Err(TextFault::Unsupported)
    }
}

/// Returns whether a text is `_` or a time of zero.
fn is_no_offset(text: &[u8], rate: Rate) -> bool
    ensures { result ≡ spec.is_no_offset (frames_per_second rate) text.now }
{
    if is_missing(text) {
        return true;
    }
    match parse_time(text, rate) {
        Some((time, _)) => time.get() == 0,
        None => false,
    }
}
