//! The check of a project against its files.
#![tactic(auto)]

mod checked;
mod entry;
mod fault;

pub use checked::{Checked, check};
pub use entry::fault_of;
pub use fault::{EntryFault, EventFault};
