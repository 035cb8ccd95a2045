//! The sound of a checked project, as groups of pieces of its files.
#![tactic(auto)]

mod sound;

pub use groups::{
    Group, IntervalFault, Intervals, Piece, Pieces, Placed, Shape, group_of, group_pieces,
};
pub use sound::from_checked;
