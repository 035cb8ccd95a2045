//! The binding of a project to its files: for each used index the file, the time of its first sample frame, and the
//! number of sample frames in reach.
#![tactic(auto)]

mod binder;
mod binding;
mod bound;
mod bound_indexes;
mod fault;
mod files;
mod homes;
mod told;
mod used_numbers;

pub use binding::bind;
pub use bound::Bound;
pub use fault::BindFault;
pub use riff::MediaFault;
pub use sound_terms::{BoundIndex, Home, Homes};
pub use used_numbers::UsedNumbers;
