// Errors of the tokenizer.
ghost use Rattle.std.specs.Prelude.{◌≡◌};
ghost use Rattle.adltoken.specs.Fault.{IsTokenFault, line_of, number_of, text_fault};

use list_terms::TextFault;
use thiserror::Error;

/// The reason why a line can't be split into tokens. Lines count from 1.
#[derive(Clone, Copy, Debug, PartialEq, Eq, Error)]
pub enum TokenFault {
    /// 1: a byte that is neither printable ASCII nor a space or tab; inside quotes, CR.
    #[error("line {line} has a byte that no list may have")]
    BadByte { line: u64 },
    /// 2: a byte that isn't allowed in its place, or a quotation mark or parenthesis without its partner.
    #[error("line {line} can't be cut into tokens")]
    BadLine { line: u64 },
}

impl TokenFault {
    /// Returns the refusal number, 1 or 2.
    pub fn number(&self) -> u8
        ensures { result ≡ number_of self.now }
    {
        match self {
            TokenFault::BadByte { .. } => 1,
            TokenFault::BadLine { .. } => 2,
        }
    }

    /// Returns the faulty line, counted from 1.
    pub fn line(&self) -> u64
        ensures { result ≡ line_of self.now }
    {
        match self {
            TokenFault::BadByte { line } | TokenFault::BadLine { line } => *line,
        }
    }

    /// Attaches a line number to a token fault.
    pub(crate) fn in_line(fault: TextFault, line: u64) -> Self
        requires { IsTokenFault fault }
        ensures fault { text_fault result ≡ fault }
        ensures line { line_of result ≡ line }
    {
        match fault {
            TextFault::BadByte => TokenFault::BadByte { line },
            _ => TokenFault::BadLine { line },
        }
    }
}
