//! A tokenizer for audio decision lists: splits text into lines and lines into tokens without copying.
//!
//! A line ends with LF or CR LF; the last line may lack its end. A token is `"..."`, `(...)` or a word of printable
//! ASCII. Tokens are separated by any number of spaces and tabs, including none.
#![tactic(auto)]

mod blanks;
mod fault;
mod keywords;
mod lines;
mod names;
mod tokens;

pub use blanks::{is_blank, skip_blanks, trimmed};
pub use fault::TokenFault;
pub use lines::Lines;
pub use list_terms::{EntryKeyword, TextFault, TokenKind};
pub use names::{behind_byte, is_same_name, length_before, starts_in_any_case};
pub use tokens::{Span, Token, Tokens};
