// Spaces and tabs.
ghost use Rattle.std.specs.Prelude.{◌≡◌, ◌≤◌, length};
ghost use Rattle.std.specs.List.{prefix_len};
ghost use Rattle.list_terms.specs.Tokens as spec;

/// Returns whether a byte is a space or a tab.
pub fn is_blank(byte: u8) -> bool
    ensures { result ≡ spec.is_blank byte }
{
    byte == b' ' || byte == b'\t'
}

/// Returns the text without its leading spaces and tabs.
pub fn skip_blanks(text: &[u8]) -> &[u8]
    ensures rest { result.now ≡ spec.behind_blanks text.now }
    ensures shorter { length result.now ≤ length text.now }
{
    let blanks = leading_blanks(text);
    text.split_at(blanks).1
}

/// Returns the number of leading spaces and tabs.
fn leading_blanks(text: &[u8]) -> usize
    ensures count { result ≡ prefix_len spec.is_blank text.now }
    ensures inside { result ≤ length text.now }
{
    text.iter().take_while(|byte| is_blank(**byte)).count()
}

/// Returns the text without leading and trailing spaces and tabs.
pub fn trimmed(text: &[u8]) -> &[u8]
    ensures { result.now ≡ spec.trimmed text.now }
{
    without_last_blanks(skip_blanks(text))
}

fn without_last_blanks(text: &[u8]) -> &[u8]
    ensures { result.now ≡ spec.before_blanks text.now }
{
    let mut end = text.len();
    while end > 0 && is_blank(text[end - 1]) {
        end -= 1;
    }
    text.split_at(end).0
}
