//! Plans of renderings: for each block of the output, a program that lists the stretches of files
//! to add to its sums, and their fades.
#![tactic(auto)]

mod exact;
mod fault;
mod lines;
mod plan;
mod reach;
mod source;
mod span;

pub use fault::PlanFault;
pub use plan::Plan;
pub use sound_terms::{Depth, Instruction, Program, Shape, Stretch};
