//! The consolidated list: one index for each run of kept sample frames, and one entry for each group.
#![tactic(auto)]

mod checked;
mod entries;
mod fault;
mod indexes;
mod links;
mod names;
mod search;

pub use checked::relink;
pub use fault::RelinkFault;
pub use links::relink_homed;
pub use names::media_name;
