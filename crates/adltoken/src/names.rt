// Case-insensitive names, and splitting at a byte.
ghost use Rattle.std.specs.Prelude.{◌≡◌, ◌==◌, ◌≤◌, length, option_map, take};
ghost use Rattle.std.specs.List.{position_or_len};
ghost use Rattle.list_terms.specs.Names as names;
ghost use Rattle.list_terms.specs.Fields as spec;

/// Returns whether two texts are equal up to the case of ASCII letters.
pub fn is_same_name(name: &[u8], other: &[u8]) -> bool
    ensures { result ≡ spec.is_same_name name.now other.now }
{
    name.eq_ignore_ascii_case(other)
}

/// Returns the text after the first occurrence of a byte, or `None` if the byte doesn't occur.
pub fn behind_byte(sought: u8, text: &[u8]) -> Option<&[u8]>
    ensures { option_map (λ rest. rest.now) result ≡ names.behind_byte sought text.now }
{
    let mut text = text;
    while let [byte, rest @ ..] = text {
        if *byte == sought {
            return Some(rest);
        }
        text = rest;
    }
    None
}

/// Returns the number of bytes before the first occurrence of a byte, or the whole length if the byte doesn't
/// occur.
pub fn length_before(sought: u8, text: &[u8]) -> usize
    ensures position { result ≡ position_or_len (λ byte. byte == sought) text.now }
    ensures inside { result ≤ length text.now }
{
    text.iter().take_while(|byte| **byte != sought).count()
}

/// Returns whether `bytes` starts with `text`, up to the case of ASCII letters.
pub fn starts_in_any_case(text: &[u8], bytes: &[u8]) -> bool
    ensures { result ≡ names.begins_with text.now bytes.now }
{
    front(bytes, text.len()).eq_ignore_ascii_case(text)
}

/// Returns the first `count` bytes, or the whole text if it is shorter.
fn front(bytes: &[u8], count: usize) -> &[u8]
    ensures { result.now ≡ take count bytes.now }
{
    if count < bytes.len() {
        bytes.split_at(count).0
    } else {
        bytes
    }
}
