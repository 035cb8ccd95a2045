//! Definitions for contracts about stored files and refusals. This crate has no code.
#![tactic(auto)]
