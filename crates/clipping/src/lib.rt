//! Tallies of the clipped samples of a rendering: their number, the first one, the highest peak, and their channels.
//!
//! [`is_clipped`] decides whether the rounded value of a sum is outside the range of the depth. [`Clips`] is a tally
//! over interleaved sums: [`Clips::note`] adds one sum, [`Clips::joined`] combines the tallies of consecutive parts,
//! and [`Clips::of_kept`] counts a slice of sums stored at a depth.
#![tactic(auto)]

mod kept;
mod tally;

pub use kept::Kept;
pub use tally::{Clips, is_clipped};
