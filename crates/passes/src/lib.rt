//! Transformations of groups that leave the sum of samples unchanged.
#![tactic(auto)]

mod ends;
mod fades;
mod fault;
mod in_turn;
mod joined_cuts;
mod marks;
mod output;
mod pass;
mod queue;
mod regroup;
mod samples;
mod silence;
mod silences;

pub use fades::SplitFades;
pub use fault::PassFault;
pub use in_turn::{run, turn};
pub use joined_cuts::JoinCuts;
pub use pass::Pass;
pub use regroup::Regroup;
pub use samples::Samples;
pub use silence::DropSilent;
pub use silences::silent_of;
