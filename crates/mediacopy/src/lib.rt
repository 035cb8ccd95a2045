//! The media of a consolidation: one file for each run of kept sample frames, preallocated and then filled from its
//! source piece by piece.
#![tactic(auto)]

mod fault;
mod info;
mod layout;
mod names;
mod piece;
mod piece_copy;

pub use fault::{CopyFault, LayoutFault};
pub use info::{info_of, reads_back};
pub use layout::{LONGEST_HEADER, lay_out, lay_out_in};
pub use names::medium_name;
pub use piece::CopyJob;
pub use piece_copy::{copy_piece, fetch_piece, is_piece, length_of, place_piece};
