//! Detection of silence in opened sound files, as required by passes over pieces, and the execution of these passes.
#![tactic(auto)]

mod known;
mod part;
mod pieces;
mod progress;
mod search;
mod silences;
mod turns;
mod window;
mod zeros;

pub use silences::silent_of;
pub use turns::run;
