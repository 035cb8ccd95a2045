//! Laws about definitions of std only: Boolean tests, lists and digits. This crate has no code.
#![tactic(auto)]
