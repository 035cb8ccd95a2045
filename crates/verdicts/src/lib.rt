//! The answer to a comparison of two lists: status, notices and lines.
//!
//! Proved: unless the status is 2, `answer_compare` leaves both shelves as the contract of `compare` says for some outcome,
//! the status is 0 if that is `Same` and otherwise 1, and its notices and line are exactly what was printed, if no print
//! failed (`compared`). The status is 2 only for a time that cannot be read, which standard error names (`bad_time`,
//! `mistake`), and then standard output is empty (`two`). `answer_verified` compares a list with the one written for it: if
//! they are the same, or neither has a sample, the status is 0 and the given lines are printed; otherwise it is 1, with the
//! difference, or a refusal with its list (`verified`). Details of a difference on standard error and the report of a
//! comparison are only tested.
#![tactic(auto)]

mod comparison_report;
mod counts;
mod difference;
mod list_refusal;
mod status;
mod times;
mod two_lists;
mod verified;

pub use difference::BothLists;
pub use status::{DONE, MISTAKE, REFUSED};
pub use times::{BadTime, refuse_time, time_of};
pub use two_lists::answer_compare;
pub use verified::{answer_verified, put_lines};
