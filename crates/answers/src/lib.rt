//! The answer to a request over any sources and any outputs: status, notices and lines.
//!
//! Proved: `answer_request` leaves shelf and bench as the contract of its call says for some outcome; the status is 0 if
//! that is `Ok` and 1 if it is a refusal; and its notices and line are exactly what was printed, if no print failed
//! (`checked`, `rendered`, `resumed`, `consolidated`). A consolidation uses the given passes, and the standard groups if
//! these are the standard ones (`standard`). The report of a check is the answer to it and exactly what was printed
//! (`reported`); over any sources some report was printed, with its own status (`report_printed`). The status is 2 only for
//! a time that cannot be read, which standard error names (`bad_time`, `bad_time_resumed`, `bad_time_shown`), for an unknown
//! number, and for two lists (`mistake`); then nothing was printed on standard output or written (`two`). Each call returns
//! the two consoles of its `Terminal` (`consoles`).
//!
//! `answer_standard` is the same with the standard passes; if there is no memory for them, nothing was printed, read or
//! written (`nothing`, `untouched`). `answer` takes arguments: unless the status is 2 the same holds, with jobs of one
//! block. Arguments that ask for nothing exit with 2 (`refused_words`); help and the version with 0, or 2 if out of memory
//! (`help`).
#![tactic(auto)]

mod check_report;
mod chosen;
mod drawing;
mod explained;
mod held;
mod refusal;
mod report;
mod requests;
mod saved;
mod standard;
mod words;

pub use asides::{Asides, AsidesOfTwo, Meter, Terminal};
pub use check_report::answer_report;
pub use chosen::can_be_timed;
pub use drawing::{Drawing, answer_picture};
pub use held::HeldLines;
pub use requests::{Command, answer_error, answer_request, explain, explain_notice};
pub use standard::answer_standard;
pub use verdicts::{
    BadTime, BothLists, MISTAKE, REFUSED, answer_compare, answer_verified, put_lines,
};
pub use words::answer;
