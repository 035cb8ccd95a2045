// Printing of JSON values.
ghost use Rattle.std.specs.Prelude.{◌≡◌, ◌<◌, ◌++◌, option_map, string_bytes};
ghost use Rattle.std.specs.Char.{digit_char};
ghost use Rattle.std.specs.List.{flat_map};
ghost use Rattle.std.specs.Str.{chars};
ghost use Rattle.json.specs.Print as json;
ghost use Rattle.json.specs.Print.{escape_byte, quoted};
ghost use Rattle.serde_json.specs.Data.{boolean};
ghost use Rattle.checkreport.specs.Printed.{printed_in_string, printed_string, printed_text, unit_escape};
ghost use Rattle.checkreport.specs.Report.{count_in, text_in};
ghost use Rattle.console.specs.Printing.{Prints};

use console::{Console, is_unseen, put_counted};

/// Version of the report format.
pub const FORM: u64 = 6;

/// Prints `words`, followed by a number or null.
pub fn put_found<O: Console>(out: &mut O, words: &str, found: Option<u64>)
    ensures { Prints O.contents O.failures out.old out.new (words.now ++ printed_text (count_in found)) }
{
    match found {
        Some(number) => put_counted(out, words, number),
        None => {
            out.put(words.as_bytes());
            out.put(b"null");
        }
    }
}

/// Prints `true` or `false`.
pub fn put_flag<O: Console>(out: &mut O, flag: bool)
    ensures { Prints O.contents O.failures out.old out.new (printed_text (boolean flag)) }
{
    if flag {
        out.put(b"true");
    } else {
        out.put(b"false");
    }
}

/// Prints a text as a JSON string, or null if there is none.
pub fn put_text<O: Console>(out: &mut O, text: &Option<String>)
    ensures { Prints O.contents O.failures out.old out.new
        (printed_text (text_in (option_map string_bytes text.now))) }
{
    match text {
        Some(text) => put_string(out, text.as_str()),
        None => out.put(b"null"),
    }
}

/// Prints a text as a JSON string, with each invisible character escaped.
pub fn put_string<O: Console>(out: &mut O, text: &str)
    ensures { Prints O.contents O.failures out.old out.new (printed_string text.now) }
{
    out.put(b"\"");
    put_characters(out, text);
    out.put(b"\"");
}

/// Prints the characters of a text as they are in a string.
fn put_characters<O: Console>(out: &mut O, text: &str)
    ensures { Prints O.contents O.failures out.old out.new (flat_map printed_in_string (chars text.now)) }
{
    for character in text.chars() {
        put_character(out, character);
    }
}

/// Prints a character as it is in a string.
fn put_character<O: Console>(out: &mut O, character: char)
    ensures { Prints O.contents O.failures out.old out.new (printed_in_string character) }
{
    if character >= ' ' && is_unseen(character) {
        let mut units = [0; 2];
        put_units(out, character.encode_utf16(&mut units));
    } else {
        let mut buffer = [0; 4];
        let text: &str = character.encode_utf8(&mut buffer);
        put_escaped(out, text.as_bytes());
    }
}

/// Prints UTF-16 code units as escapes.
fn put_units<O: Console>(out: &mut O, units: &[u16])
    ensures { Prints O.contents O.failures out.old out.new (flat_map unit_escape units.now) }
{
    for unit in units {
        put_unit(out, *unit);
    }
}

/// Prints a UTF-16 code unit as an escape.
fn put_unit<O: Console>(out: &mut O, unit: u16)
    ensures { Prints O.contents O.failures out.old out.new (unit_escape unit) }
{
    out.put(&[
        b'\\',
        b'u',
        digit((unit / 4096 % 16) as u8),
        digit((unit / 256 % 16) as u8),
        digit((unit / 16 % 16) as u8),
        digit((unit % 16) as u8),
    ]);
}

/// Prints a name of the program's own as a string.
pub fn put_quoted<O: Console>(out: &mut O, name: &str)
    ensures { Prints O.contents O.failures out.old out.new (quoted name.now) }
{
    out.put(b"\"");
    put_escaped(out, name.as_bytes());
    out.put(b"\"");
}

/// Prints bytes, escaped for a JSON string.
fn put_escaped<O: Console>(out: &mut O, bytes: &[u8])
    ensures { Prints O.contents O.failures out.old out.new (json.escape bytes.now) }
{
    for byte in bytes {
        put_byte(out, *byte);
    }
}

/// Prints a byte, escaped if necessary.
#[tactic(auto, unfolding(json::specs::Print::escape_byte))]
fn put_byte<O: Console>(out: &mut O, byte: u8)
    ensures { Prints O.contents O.failures out.old out.new (escape_byte byte) }
{
    let letter = escape_letter(byte);
    if letter > 0 {
        out.put(&[b'\\', letter]);
    } else if byte < 32 {
        out.put(&[b'\\', b'u', b'0', b'0', digit(byte / 16), digit(byte % 16)]);
    } else {
        out.put(&[byte]);
    }
}

/// Returns the letter of the short escape of a byte, or 0 if it has none.
fn escape_letter(byte: u8) -> u8
    ensures { result ≡ json.escape_letter byte }
{
    match byte {
        b'"' | b'\\' => byte,
        8 => b'b',
        12 => b'f',
        b'\n' => b'n',
        b'\r' => b'r',
        b'\t' => b't',
        _ => 0,
    }
}

/// Returns the hexadecimal digit of `number` modulo 16.
fn digit(number: u8) -> u8
    ensures { number < 16 → result ≡ digit_char number }
{
    let rest = number % 16;
    if rest < 10 {
        b'0' + rest
    } else {
        b'a' - 10 + rest
    }
}
