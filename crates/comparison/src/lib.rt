//! Comparison of two valid projects, sample by sample before any rounding.
//!
//! `compare_projects` compares exact sums block by block. It reads nothing if neither project plays
//! in a block, and sums nothing if both add the same samples, at whatever bit depths they are
//! stored. Equal ranges of two files are remembered and mostly not read again. The result is `Same`
//! exactly if the sums are equal on every selected channel at every selected time; otherwise it is
//! the first difference: its time, the lowest channel that differs then, and both sums (clause
//! `compared`). Files are only read (`first_read`, `second_read`).
//!
//! `differing_in` counts the differing samples of a stretch, channel by channel (`counted`).
#![tactic(auto)]

mod block;
mod counterparts;
mod depths;
mod difference;
mod fault;
mod first_difference;
mod matches;
mod projects;
mod range;
mod side;
mod sides;
mod stored;
mod stretches;
mod tally;

pub use fault::{CompareFault, SideFault};
pub use projects::{Comparison, compare_projects};
pub use range::Selection;
pub use stretches::{DifferingCounts, differing_in};
