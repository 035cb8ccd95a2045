//! The machine that runs the program of a block: it reads the source samples, sums them and emits
//! output samples.
#![tactic(auto)]

mod addition;
mod additions;
mod alone;
mod buffer;
mod clipped;
mod exact;
mod faded;
mod fault;
mod first_layer;
mod frames;
mod layers;
mod machine;
mod output;
mod slope;
mod storing;
mod stretches;
mod sums;

pub use alone::copy_alone;
pub use clipping::Clips;
pub use fault::MachineFault;
pub use machine::Machine;
pub use sound_terms::{Depth, Format, Instruction, Program, Stretch};
