//! Explains a refusal on standard error: what its fault means and what to do. No contract specifies these texts.
//!
//! Proved: each call returns.
#![tactic(auto)]

mod explanation;

pub use explanation::{Explanation, FoundFault, FoundFolder, Unfinished};
