//! Tests of sound processing: kernels, chunks, cut pieces, queries of passes, programs of blocks,
//! reads for silence, and the longest files.
#![tactic(auto)]

#[cfg(test)]
mod tests;
