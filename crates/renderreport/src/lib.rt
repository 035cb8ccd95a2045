//! The report of a rendering for an archive: a JSON value (RFC 8259) on one line, written next to the file without
//! allocating.
//!
//! Proved: over an honest bench `write_report` writes exactly the bytes of `report_text` of `specs/Report.antt` to
//! `render.json` (`written`), and they outlast a crash (`durable`): one JSON value in the compact text of the toolchain's
//! `serde_json`. The SHA-256 of the rendered file is the toolchain's `sha2` of what is read of it then; that of the list is
//! of its text. No other file changes, each is as durable as before (`only_writes`), and a crash at any moment leaves every
//! other file as it might have left it before (`beside`). An error says at which of the two files the device failed.
#![tactic(auto)]

mod channels;
mod digest;
mod fault;
mod parts;
mod report_facts;
mod texts;
mod written;

pub use fault::ReportFault;
pub use report_facts::ReportFacts;
pub use written::{RENDER_REPORT, write_report};
