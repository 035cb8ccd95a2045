//! Comparison of two lists, each with its sources on a shelf of its own.
#![tactic(auto)]

mod compare_call;
mod compare_fault;

pub use compare_call::{Compared, compare};
pub use compare_fault::{CompareFault, ListFault};
