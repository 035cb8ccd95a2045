// Printing of file names.
ghost use Rattle.std.specs.Prelude.{◌≡◌};
ghost use Rattle.std.specs.List.{flat_map};
ghost use Rattle.percent_encoding.specs.Percent as percent;
ghost use Rattle.console.specs.Lines as lines;
ghost use Rattle.console.specs.Lines.{printed_character, printed_name};
ghost use Rattle.console.specs.Printing.{Prints};

use crate::console::Console;
use percent_encoding::percent_encode_byte;
use ucd_category::GeneralCategory;
use ucd_derived::is_default_ignorable_code_point;

/// Returns whether a character is invisible in a line, so that it may hide a difference or change how the rest is shown:
/// a control or format character, a separator of lines or paragraphs, or one of the blank fillers.
pub fn is_unseen(character: char) -> bool
    ensures { result ≡ lines.is_unseen character }
{
    is_hidden(GeneralCategory::for_char(character))
        || is_default_ignorable_code_point(character)
        || character == '\u{2800}'
}

/// Returns whether the characters of a general category have no visible form.
fn is_hidden(category: GeneralCategory) -> bool
    ensures { result ≡ lines.is_hidden category }
{
    match category {
        GeneralCategory::Control
        | GeneralCategory::Format
        | GeneralCategory::LineSeparator
        | GeneralCategory::ParagraphSeparator => true,
        _ => false,
    }
}

/// Prints a name, with each invisible character as the percent escapes of its UTF-8 bytes.
pub fn put_name<C: Console>(console: &mut C, name: &str)
    ensures { Prints C.contents C.failures console.old console.new (printed_name name.now) }
{
    for character in name.chars() {
        put_character(console, character);
    }
}

/// Prints a character of a name.
fn put_character<C: Console>(console: &mut C, character: char)
    ensures { Prints C.contents C.failures console.old console.new (printed_character character) }
{
    let mut buffer = [0; 4];
    let text: &str = character.encode_utf8(&mut buffer);
    if is_unseen(character) {
        put_escapes(console, text.as_bytes());
    } else {
        console.put(text.as_bytes());
    }
}

/// Prints each byte as a percent escape.
fn put_escapes<C: Console>(console: &mut C, bytes: &[u8])
    ensures { Prints C.contents C.failures console.old console.new (flat_map percent.percent_encode_byte bytes.now) }
{
    for byte in bytes {
        console.put(percent_encode_byte(*byte).as_bytes());
    }
}
