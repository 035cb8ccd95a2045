//! Parsing of command lines: `check`, `consolidate`, `render`, `resume`, `compare`, `show` and
//! `explain`.
#![tactic(auto)]

mod choice;
mod request;
mod words;

pub use choice::{Chosen, Drawn, MediaReport, Selected};
pub use request::{BothPlaces, Parsed, Places, Request, parse};
pub use words::{VERSION, command};
