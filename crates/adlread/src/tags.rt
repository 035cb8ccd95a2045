// Lines that open and close sections.
ghost use Rattle.std.specs.Prelude.{◌≡◌, option_map};
ghost use Rattle.std.specs.List.{list_all};
ghost use Rattle.list_terms.specs.Text as text;

use adltoken::{is_same_name, starts_in_any_case};
use list_terms::Section;

/// Returns the text between `<` and a final `>`.
fn tag_of(line: &[u8]) -> Option<&[u8]>
    ensures { option_map (λ tag. tag.now) result ≡ text.tag_of line.now }
{
    match line {
        [b'<', rest @ ..] => before_close(rest),
        _ => None,
    }
}

/// Returns the text before a final `>`.
fn before_close(tag: &[u8]) -> Option<&[u8]>
    ensures { option_map (λ front. front.now) result ≡ text.before_close tag.now }
{
    tag.strip_suffix(b">")
}

/// Returns whether a line is `</NAME>`, in any case.
pub fn is_end(name: &[u8], line: &[u8]) -> bool
    ensures { result ≡ text.is_end name.now line.now }
{
    match tag_of(line) {
        Some([b'/', rest @ ..]) => is_same_name(rest, name),
        _ => false,
    }
}

/// Returns the name of the section that a line opens: letters, digits and `_`.
pub fn opened_name(line: &[u8]) -> Option<&[u8]>
    ensures { option_map (λ name. name.now) result ≡ text.opened_name line.now }
{
    let name = tag_of(line)?;
    if is_section_name(name) {
        Some(name)
    } else {
        None
    }
}

fn is_section_name(name: &[u8]) -> bool
    ensures { result ≡ text.is_section_name name.now }
{
    !name.is_empty() && are_name_bytes(name)
}

fn are_name_bytes(name: &[u8]) -> bool
    ensures { result ≡ list_all text.is_name_byte name.now }
{
    name.iter().all(|byte| is_name_byte(*byte))
}

fn is_name_byte(byte: u8) -> bool
    ensures { result ≡ text.is_name_byte byte }
{
    byte.is_ascii_alphanumeric() || byte == b'_'
}

/// Returns whether a line is `<ADL>`, in any case.
pub fn is_list_begin(line: &[u8]) -> bool
    ensures { result ≡ text.is_list_begin line.now }
{
    match opened_name(line) {
        Some(name) => is_same_name(name, b"ADL"),
        None => false,
    }
}

/// Returns the section with the given name.
#[tactic(auto, unfolding(list_terms::specs::Text::section_of))]
pub fn section_of(name: &[u8]) -> Section
    ensures { result ≡ text.section_of name.now }
{
    if is_same_name(name, b"VERSION") {
        Section::Version
    } else if is_same_name(name, b"PROJECT") {
        Section::Project
    } else if is_same_name(name, b"SYSTEM") {
        Section::System
    } else if is_same_name(name, b"SEQUENCE") {
        Section::Sequence
    } else if is_same_name(name, b"TRACKLIST") {
        Section::TrackList
    } else if is_same_name(name, b"SOURCE_INDEX") {
        Section::SourceIndex
    } else if is_same_name(name, b"EVENT_LIST") {
        Section::EventList
    } else if is_unsupported(name) {
        Section::Unsupported
    } else {
        Section::Skipped
    }
}

/// Returns whether a section's name contains GAIN, AUTOMATION, PAN, MUTE or FADE.
fn is_unsupported(name: &[u8]) -> bool
    ensures { result ≡ text.is_unsupported name.now }
{
    has_word(b"GAIN", name)
        || has_word(b"AUTOMATION", name)
        || has_word(b"PAN", name)
        || has_word(b"MUTE", name)
        || has_word(b"FADE", name)
}

/// Returns whether a name contains the given word, in any case.
fn has_word(word: &[u8], name: &[u8]) -> bool
    ensures { result ≡ text.has_word word.now name.now }
{
    let mut rest = name;
    while let [_, after @ ..] = rest {
        if rest.len() < word.len() {
            return false;
        }
        if starts_in_any_case(word, rest) {
            return true;
        }
        rest = after;
    }
    false
}
