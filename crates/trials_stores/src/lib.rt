//! Tests of the stores in memory, of zeros and in folders, and of marks in memory.
#![tactic(auto)]

#[cfg(test)]
mod tests;
