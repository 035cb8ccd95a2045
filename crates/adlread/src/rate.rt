// The frame rate of a text. Equal to `rate_in_lines`, but quicker if the text never mentions `SEQ_FRAME_RATE`.
ghost use Rattle.std.specs.Prelude.{◌≡◌, ◌≤◌, codes, length};
ghost use Rattle.std.specs.Bool.{OnFalse};
ghost use Rattle.sampletime.specs.FrameRate.{frames_per_second};
ghost use Rattle.list_terms.specs.Text.{has_word};
ghost use Rattle.list_terms.specs.Text as spec;

use crate::outline::{Outline, UNTOLD, rate_in_lines};
use adltoken::{Lines, starts_in_any_case};
use memchr::memchr2;
use sampletime::Rate;

/// Returns the frame rate of a list: the first valid one, 24, 25 or 30, that a line of SEQUENCE gives after
/// `(SEQ_FRAME_RATE)`.
///
/// Returns 25 if there is none, or if an earlier line is misplaced or can't be cut into tokens. Other faults don't
/// matter: a text that [`crate::read`] refuses has a rate too.
pub fn rate_of(text: &[u8]) -> Rate
    ensures { frames_per_second result ≡ spec.rate_of text.now }
{
    if begins_list(text) && has_rate_keyword(text) {
        rate_in_lines(text)
    } else {
        UNTOLD
    }
}

/// Returns whether the first line may be before a list or begin one. Otherwise no line gives a rate.
fn begins_list(text: &[u8]) -> bool
    ensures { OnFalse result (spec.rate_of text.now ≡ 25) }
{
    match Lines::new(text).next_line() {
        Some(line) => Outline::new().passed(line).is_some(),
        None => false,
    }
}

/// Returns whether a text contains `SEQ_FRAME_RATE`, in any case.
///
/// If it doesn't, no line gives a rate. This saves cutting a long text that may not even be a list.
pub fn has_rate_keyword(text: &[u8]) -> bool
    ensures { result ≡ has_word (codes "SEQ_FRAME_RATE") text.now }
{
    let mut rest = from_first_letter(text);
    while let [_, after @ ..] = rest {
        if starts_in_any_case(b"SEQ_FRAME_RATE", rest) {
            return true;
        }
        rest = from_first_letter(after);
    }
    false
}

/// Returns the text from its first `S` or `s` on, or nothing if it has none.
fn from_first_letter(text: &[u8]) -> &[u8]
    ensures same { has_word (codes "SEQ_FRAME_RATE") result.now ≡ has_word (codes "SEQ_FRAME_RATE") text.now }
    ensures shorter { length result.now ≤ length text.now }
{
    match memchr2(b'S', b's', text) {
        Some(position) => text.split_at(position).1,
        None => &[],
    }
}
