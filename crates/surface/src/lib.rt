//! The public functions as callers use them: every type is named and every function is called once,
//! with its arguments and result, so that changes of the public interface fail here. A
//! consolidation and a rendering are also made from their parts. The tests cover these callers, and
//! the program as a function over stores in memory: its exit status and all its output.
#![tactic(auto)]

#[cfg(test)]
mod callers;
#[cfg(test)]
mod tests;
