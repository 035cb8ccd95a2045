//! What numbers mean, what to do about them, and what is found in a refused list and its sources. No contract specifies
//! these texts.
//!
//! Proved: the meaning found for a number is that of this number, and the part shown of a faulty line is inside that line
//! (`inside`).
#![tactic(auto)]

mod column;
mod file_kind;
mod found_format;
mod found_sound;
mod further;
mod hints;
mod line_at_fault;
mod look;
mod meanings;
mod names;
mod notices;
mod passed_over;
mod played;
mod remedies;
mod shown;

pub use found_format::FoundFormat;
pub use found_sound::FoundSound;
pub use further::{FoundCause, FurtherExplanation, project_spot};
pub use line_at_fault::{LineAtFault, ListLines};
pub use look::{Look, Near};
pub use meanings::{Explained, Meaning, NoSuchNumber, Spot, meaning_at, meanings_of};
pub use names::{PrintedLines, PrintedName};
pub use notices::{ExplainedNotices, NOTICES, NoSuchNotice, NoticeMeaning, notice_meanings_of};
pub use passed_over::{PassedLineWords, PassedLines, PassedWords};
pub use played::{Outside, Played, PlayedFile};
pub use remedies::{SystemWord, remedy_by};
pub use shown::Shown;
