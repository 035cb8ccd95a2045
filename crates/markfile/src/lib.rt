//! Marks of a rendering: a file next to the sound that records which of its blocks are on the disk, so that an
//! interrupted rendering can resume.
#![tactic(auto)]

mod fault;
mod fields;
mod found_marks;
mod fresh;
mod fresh_marks;
mod front;
mod marked_blocks;
mod run;
mod settled;
mod synced;

pub use fault::{MarkFault, MarkedFile};
pub use found_marks::{Marks, open_marks};
pub use fresh::FreshMarks;
pub use fresh_marks::{start, start_fresh};
pub use marked_blocks::{MOST_AT_ONCE, mark, mark_all};
pub use run::{RunId, RunRange};

/// The name of the rendered file.
pub const SOUND: &str = "render.wav";

/// The name of the file of marks.
pub const MARKS: &str = "render.marks";
