//! Provenance of the media of a consolidation, for archives: its report as a JSON value (RFC 8259),
//! and the checksums of all files that it writes.
#![tactic(auto)]

mod asked;
mod entries;
mod media;
mod notices;
mod report;

pub use asked::ReportOn;
pub use digests::{Medium, ReportFault};
pub use lineage::Played;
pub use report::{Report, report_of};
