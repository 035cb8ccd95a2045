//! The smallest use of `execution`, so that its generic code is checked at a concrete type: 64
//! jobs, and a file that is written last.
#![tactic(auto)]

mod listed;
#[cfg(test)]
mod tests;

pub use listed::{Listed, write_listed};
