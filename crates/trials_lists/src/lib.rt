//! Tests of lists: tokens, copies of projects, pieces of media, consolidations with various passes,
//! schedules of many workers, and runs whose stores fail or stop at each call in turn.
#![tactic(auto)]

#[cfg(test)]
mod tests;
