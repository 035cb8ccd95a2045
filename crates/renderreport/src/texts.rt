// Texts appended to the report, without using memory.
ghost use Rattle.std.specs.Prelude.{◌≡◌, ◌<◌, ◌++◌, ◌∷◌, [], false, option_map, true};
ghost use Rattle.std.specs.Char.{digit_char};
ghost use Rattle.hex.specs.Hex.{encode_lower};
ghost use Rattle.json.specs.Print as json;
ghost use Rattle.json.specs.Print.{escape_byte};
ghost use Rattle.serde_json.specs.Written.{compact_text};
ghost use Rattle.devices.specs.Frame.{Appends};
ghost use Rattle.renderreport.specs.Parts.{all_of, part_text};
ghost use Rattle.renderreport.specs.Report.{known, report_name};

use crate::RENDER_REPORT;
use devices::{Bench, DeviceFault};
use itoa::Buffer;

/// A part of a report.
#[derive(Clone, Copy, Debug)]
pub enum Part<'a> {
    /// A text that needs no escapes.
    Plain(&'a [u8]),
    /// A text to be escaped for a JSON string.
    InString(&'a [u8]),
    /// A number in decimal.
    Number(u128),
    /// A digest in hexadecimal.
    Digest([u8; 32]),
}

fn put_text<B: Bench>(bench: &mut B, text: &[u8]) -> Result<(), DeviceFault>
    ensures { Appends B.Bench report_name text.now bench.old bench.new result }
{
    bench.append(RENDER_REPORT, text)
}

/// Appends the parts, in order.
pub fn put<B: Bench>(bench: &mut B, parts: &[Part<'_>]) -> Result<(), DeviceFault>
    ensures { Appends B.Bench report_name (all_of parts.now) bench.old bench.new result }
{
    for part in parts {
        put_part(bench, part)?;
    }
    Ok(())
}

fn put_part<B: Bench>(bench: &mut B, part: &Part<'_>) -> Result<(), DeviceFault>
    ensures { Appends B.Bench report_name (part_text part.now) bench.old bench.new result }
{
    match *part {
        Part::Plain(text) => put_text(bench, text),
        Part::InString(text) => put_as_string(bench, text),
        Part::Number(number) => put_text(bench, Buffer::new().format(number).as_bytes()),
        Part::Digest(digest) => put_as_string(bench, &hex_of(&digest)),
    }
}

/// Appends a text, escaped for a JSON string. A text without escapes is appended in a single call.
fn put_as_string<B: Bench>(bench: &mut B, text: &[u8]) -> Result<(), DeviceFault>
    ensures { Appends B.Bench report_name (json.escape text.now) bench.old bench.new result }
{
    if is_plain(text) {
        put_text(bench, text)
    } else {
        put_escaped(bench, text)
    }
}

/// Returns whether the text needs no escapes in a JSON string.
fn is_plain(text: &[u8]) -> bool
    ensures { result ≡ true → json.escape text.now ≡ text.now }
{
    for byte in text {
        if is_escaped(*byte) {
            return false;
        }
    }
    true
}

/// Returns whether the byte is escaped in a JSON string.
#[tactic(auto, unfolding(json::specs::Print::escape_byte))]
fn is_escaped(byte: u8) -> bool
    ensures { result ≡ false → escape_byte byte ≡ byte ∷ [] }
{
    let letter = escape_letter(byte);
    if letter > 0 { true } else { byte < 32 }
}

/// Appends the bytes, each escaped if necessary.
fn put_escaped<B: Bench>(bench: &mut B, bytes: &[u8]) -> Result<(), DeviceFault>
    ensures { Appends B.Bench report_name (json.escape bytes.now) bench.old bench.new result }
{
    for byte in bytes {
        put_byte(bench, *byte)?;
    }
    Ok(())
}

#[tactic(auto, unfolding(json::specs::Print::escape_byte))]
fn put_byte<B: Bench>(bench: &mut B, byte: u8) -> Result<(), DeviceFault>
    ensures { Appends B.Bench report_name (escape_byte byte) bench.old bench.new result }
{
    let letter = escape_letter(byte);
    if letter > 0 {
        put_text(bench, &[b'\\', letter])
    } else if byte < 32 {
        put_text(
            bench,
            &[b'\\', b'u', b'0', b'0', digit(byte / 16), digit(byte % 16)],
        )
    } else {
        put_text(bench, &[byte])
    }
}

/// Returns the letter of the short escape of a byte, or 0 if it has none.
fn escape_letter(byte: u8) -> u8
    ensures { result ≡ json.escape_letter byte }
{
    match byte {
        b'"' | b'\\' => byte,
        8 => b'b',
        12 => b'f',
        b'\n' => b'n',
        b'\r' => b'r',
        b'\t' => b't',
        _ => 0,
    }
}

fn digit(number: u8) -> u8
    requires { number < 16 }
    ensures { result ≡ digit_char number }
{
    if number < 10 {
        b'0' + number
    } else {
        b'a' - 10 + number
    }
}

/// Returns the number as a part, or null if there is none.
pub fn found<'a>(number: Option<u128>) -> Part<'a>
    ensures { part_text result ≡ compact_text (known number) }
{
    match number {
        Some(number) => Part::Number(number),
        None => Part::Plain(b"null"),
    }
}

/// Returns the hexadecimal digits of a digest.
fn hex_of(digest: &[u8; 32]) -> [u8; 64]
    ensures { result ≡ encode_lower digest.now }
{
    let mut digits = [0; 64];
    match hex::encode_to_slice(digest, &mut digits) {
        Ok(()) => digits,
        Err(_) => digits,
    }
}
