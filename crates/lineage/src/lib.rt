//! The entries of a given list that play together with each entry of a new one, as groups without duplicates.
#![tactic(auto)]

mod lines;
mod played;
mod shared;

pub use played::{Played, given_entries, new_entries};
pub use shared::{Group, Grouped, GroupedEntry, group_entries};
