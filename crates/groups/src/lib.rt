//! Intervals: a list's sound as groups of pieces of source files.
#![tactic(auto)]

mod cuts;
mod fault;
mod group;
mod intervals;
mod packed;
mod parts;
mod pieces;
mod placed;

pub use fault::IntervalFault;
pub use group::Group;
pub use intervals::Intervals;
pub use parts::group_of;
pub use pieces::{Pieces, group_pieces};
pub use sound_terms::{Piece, Placed, Shape};
