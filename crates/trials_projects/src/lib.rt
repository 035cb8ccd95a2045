//! Small projects for tests: lists, sound files, and sources that record reads.
#![tactic(auto)]

pub mod lists;
pub mod media;
pub mod recorded;
