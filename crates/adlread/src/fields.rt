// Fields of lines.
ghost use Rattle.std.specs.Prelude.{◌≡◌, ◌≤◌, [], IfOk, IsTrue, OnErr, length, option_map, unwrap_or};
ghost use Rattle.std.specs.List.{list_all};
ghost use Rattle.list_terms.specs.Steps.{ok_map};
ghost use Rattle.list_terms.specs.Names.{behind_byte};
ghost use Rattle.list_terms.specs.Tokens.{all_tokens, token_text};
ghost use Rattle.list_terms.specs.Fields as spec;
ghost use Rattle.list_terms.specs.Forms as form;
ghost use Rattle.list_terms.specs.Forms.{any, keyword, value_at};
ghost use Rattle.list_terms.specs.WholeProject.{are_channels, is_number, is_time_of_day};
ghost use Rattle.sampletime.specs.FrameRate.{frames_per_second};
ghost use Rattle.sampletime.specs.TimeCode.{day};
ghost use Rattle.adltoken.specs.Views.{token_view};
ghost use Rattle.adlread.specs.FaultSpans.{StepsOver, end_from, reached};

use crate::numbers::{channels_of, number_up_to};
use crate::reader::cut_next;
use adlmodel::Channels;
use adltoken::{TextFault, Token, Tokens, behind_byte, length_before};
use sampletime::{Rate, SampleTime, Separators, parse_time};

/// Reads the next token, which is required.
#[tactic(auto, unfolding(list_terms::specs::Fields::field))]
pub fn field<'a>(tokens: &mut Tokens<'a>) -> Result<Token<'a>, TextFault>
    ensures exact { ok_map (λ token. (token_view token, tokens.new.rest.now)) result ≡ spec.field tokens.old.rest.now }
    ensures whole { IfOk result (λ token. token.text.now ≡ token_text (token_view token)) }
    ensures steps { StepsOver tokens.old tokens.new }
{
    match cut_next(tokens)? {
        Some(token) => Ok(token),
        None => Err(TextFault::MissingField),
    }
}

/// Reads the keyword with the given name.
#[tactic(auto, unfolding(list_terms::specs::Forms::value_at))]
pub fn keyword_field(name: &[u8], tokens: &mut Tokens<'_>) -> Result<(), TextFault>
    ensures exact { ok_map (λ _. (tt, tokens.new.rest.now)) result ≡ value_at (keyword name.now) tokens.old.rest.now }
    ensures steps { StepsOver tokens.old tokens.new }
{
    let token = field(tokens)?;
    if token.is_keyword(name) {
        Ok(())
    } else {
        Err(TextFault::Unsupported)
    }
}

/// Reads a number from 1 to 32767.
#[tactic(auto, unfolding(list_terms::specs::Forms::value_at))]
pub fn number_field(tokens: &mut Tokens<'_>) -> Result<u32, TextFault>
    ensures exact { ok_map (λ number. (number, tokens.new.rest.now)) result ≡ value_at form.Number tokens.old.rest.now }
    ensures range { IfOk result (λ number. IsTrue (is_number number)) }
    ensures steps { StepsOver tokens.old tokens.new }
{
    let token = field(tokens)?;
    number_up_to(32_767, token.content).ok_or(TextFault::BadNumber)
}

/// Reads a run of channels.
#[tactic(auto, unfolding(list_terms::specs::Forms::value_at))]
pub fn channels_field(tokens: &mut Tokens<'_>) -> Result<Channels, TextFault>
    ensures exact { ok_map (λ channels. (channels, tokens.new.rest.now)) result
        ≡ value_at form.Run tokens.old.rest.now }
    ensures range { IfOk result (λ channels. IsTrue (are_channels channels)) }
    ensures steps { StepsOver tokens.old tokens.new }
{
    let token = field(tokens)?;
    channels_of(token.content).ok_or(TextFault::BadChannels)
}

/// Reads a time and its separators.
#[tactic(auto, unfolding(list_terms::specs::Forms::value_at))]
pub fn time_field(
    tokens: &mut Tokens<'_>,
    rate: Rate,
) -> Result<(SampleTime, Separators), TextFault>
    ensures exact { ok_map (λ time. ((time.0, time.1), tokens.new.rest.now)) result
        ≡ value_at (form.Time (frames_per_second rate)) tokens.old.rest.now }
    ensures in_day { IfOk result (λ time. time.0 ≤ day) }
    ensures steps { StepsOver tokens.old tokens.new }
{
    let token = field(tokens)?;
    parse_time(token.content, rate).ok_or(TextFault::BadTime)
}

/// Reads a time, or `_` for none.
#[tactic(auto, unfolding(list_terms::specs::Forms::value_at))]
pub fn optional_time_field(
    tokens: &mut Tokens<'_>,
    rate: Rate,
) -> Result<Option<SampleTime>, TextFault>
    ensures exact { ok_map (λ time. (time, tokens.new.rest.now)) result
        ≡ value_at (form.MayTime (frames_per_second rate)) tokens.old.rest.now }
    ensures in_day { IfOk result (λ time. IsTrue (is_time_of_day time)) }
    ensures steps { StepsOver tokens.old tokens.new }
{
    let token = field(tokens)?;
    optional_time(token.content, rate)
}

/// Parses a time, or `_` for none.
#[tactic(auto, unfolding(list_terms::specs::Fields::optional_time))]
fn optional_time(text: &[u8], rate: Rate) -> Result<Option<SampleTime>, TextFault>
    ensures exact { result ≡ spec.optional_time (frames_per_second rate) text.now }
    ensures in_day { IfOk result (λ time. IsTrue (is_time_of_day time)) }
{
    if is_missing(text) {
        return Ok(None);
    }
    match parse_time(text, rate) {
        Some((time, _)) => Ok(Some(time)),
        None => Err(TextFault::BadTime),
    }
}

/// Reads an identifier, which is any token, verbatim.
#[tactic(auto, unfolding(list_terms::specs::Forms::value_at))]
pub fn identifier_field<'a>(tokens: &mut Tokens<'a>) -> Result<&'a [u8], TextFault>
    ensures exact { ok_map (λ text. (text.now, tokens.new.rest.now)) result ≡ value_at form.Identifier tokens.old.rest.now }
    ensures steps { StepsOver tokens.old tokens.new }
{
    let token = field(tokens)?;
    Ok(token.text)
}

/// Reads the tokens up to the end of the line.
#[tactic(auto, unfolding(list_terms::specs::Fields::end_line, list_terms::specs::Tokens::all_tokens, crate::specs::FaultSpans::end_span))]
pub fn end_line(tokens: &mut Tokens<'_>) -> Result<(), TextFault>
    ensures exact { ok_map (λ _. tt) result ≡ spec.end_line tokens.old.rest.now }
    ensures span { OnErr result (reached tokens.new ≡ end_from any tokens.old) }
{
    while let Some(_) = cut_next(tokens)? {}
    Ok(())
}

/// Reads the tokens up to the end of the line, which must be zeros.
#[tactic(auto, unfolding(list_terms::specs::Tokens::all_tokens, crate::specs::FaultSpans::end_span))]
pub fn end_with_zeros(tokens: &mut Tokens<'_>) -> Result<(), TextFault>
    ensures exact { ok_map (λ _. tt) result ≡ all_tokens (λ t.
        spec.is_zero t.content) (length tokens.old.rest.now) tokens.old.rest.now }
    ensures span { OnErr result (reached tokens.new ≡ end_from (λ t. spec.is_zero t.content) tokens.old) }
{
    while let Some(token) = cut_next(tokens)? {
        if !is_zero(token.content) {
            return Err(TextFault::Unsupported);
        }
    }
    Ok(())
}

/// Returns whether a text is `_`, the mark of a missing value.
pub fn is_missing(text: &[u8]) -> bool
    ensures { result ≡ spec.is_missing text.now }
{
    text == b"_".as_slice()
}

/// Returns whether a text is `_` or a zero, with or without a sign and decimals.
#[tactic(auto, unfolding(list_terms::specs::Fields::is_zero))]
pub fn is_zero(text: &[u8]) -> bool
    ensures { result ≡ spec.is_zero text.now }
{
    is_missing(text) || is_plain_zero(without_sign(text))
}

fn without_sign(text: &[u8]) -> &[u8]
    ensures { result.now ≡ spec.without_sign text.now }
{
    match text {
        [b'+' | b'-', rest @ ..] => rest,
        _ => text,
    }
}

/// Returns whether a text is one or more zeros, perhaps with a full stop and more zeros after it.
fn is_plain_zero(text: &[u8]) -> bool
    ensures { result ≡ spec.is_plain_zero text.now }
{
    let (whole, _) = text.split_at(length_before(b'.', text));
    !whole.is_empty() && are_zeros(whole) && zeros_behind_stop(text)
}

/// Returns whether a text is the given number, perhaps with a full stop and zeros after it.
#[tactic(auto, unfolding(list_terms::specs::Fields::is_whole_number))]
fn is_whole_number(number: &[u8], text: &[u8]) -> bool
    ensures { result ≡ spec.is_whole_number number.now text.now }
{
    let (whole, _) = text.split_at(length_before(b'.', text));
    whole == number && zeros_behind_stop(text)
}

/// Parses a frame rate: `24`, `25` or `30`, perhaps with a full stop and zeros after it.
#[tactic(auto, unfolding(list_terms::specs::Fields::told_rate))]
pub fn told_rate(text: &[u8]) -> Option<Rate>
    ensures { option_map frames_per_second result ≡ spec.told_rate text.now }
{
    if is_whole_number(b"24", text) {
        Some(Rate::Frames24)
    } else if is_whole_number(b"25", text) {
        Some(Rate::Frames25)
    } else if is_whole_number(b"30", text) {
        Some(Rate::Frames30)
    } else {
        None
    }
}

/// Returns whether only zeros, or nothing, are after the first full stop.
fn zeros_behind_stop(text: &[u8]) -> bool
    ensures { result ≡ list_all spec.is_zero_digit (unwrap_or (behind_byte 46 text.now) []) }
{
    match behind_byte(b'.', text) {
        Some(rest) => are_zeros(rest),
        None => true,
    }
}

fn are_zeros(text: &[u8]) -> bool
    ensures { result ≡ list_all spec.is_zero_digit text.now }
{
    text.iter().all(|byte| *byte == b'0')
}
