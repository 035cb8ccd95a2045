//! The runs of sample frames that a consolidation keeps: those that are played, and those within a handle of them.
#![tactic(auto)]

mod bound;
mod fault;
mod kept;
mod merged_spans;
mod spans;

pub use bound::runs;
pub use fault::RunFault;
pub use kept::Runs;
pub use sound_terms::{Home, Homes, Run};
