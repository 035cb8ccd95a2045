//! Consolidates a project without faults: new media files with exactly the frames that are kept, and a list over them.
//!
//! Proved: `Consolidation::plan` takes all memory that the work needs and writes nothing. The groups are what the given
//! passes leave of the entries (`planned`). Over an honest shelf 53 and 55 are returned exactly if they apply, and 47, 51,
//! 52, 54 or 56 never after them (`refusals`). Unchanged sources fit the plan, and no two jobs overlap (`fits`).
//!
//! The work implements `JobMaker` of `execution` without marks: jobs copy pieces of 65,536 frames, run by run. The outputs
//! are the media files in the order of their runs, then `SHA256SUMS` and `consolidated.json` if a report is requested, then
//! the list. For outputs that are all complete, `outcome` proves that the list is accepted over the media files and has the
//! exact sum of the given list on every channel at every sample (`same_sound`); that list, media files, counts and sizes are
//! those of the definition and no other file has changed (`consolidated`); and that each line of `SHA256SUMS` is the SHA-256
//! of the bytes in its file (`checks`).
#![tactic(auto)]

mod fault;
mod jobs;
mod last;
mod list;
mod maker;
mod media;
mod outcome;
mod output_groups;
mod outputs;
mod plan;
mod plan_parts;
mod sizes;
mod written;

pub use fault::ConsolidationFault;
pub use list::{LIST, REPORT, SUMS};
pub use plan::{Consolidation, MediaChoice};
pub use written::{Sizes, Written};
