//! Remarks on finished work, outside of any contract: the difference between two lists, and clipped
//! samples of a rendering.
#![tactic(auto)]

mod clipped;
mod comparison_report;
mod difference;

pub use clipped::{ClippedLine, Rendering};
pub use comparison_report::ComparisonReport;
pub use difference::{Agreement, DifferingSamples, ExactSample, NamedList, SoundingEntries};
