//! SHA-256 digests of media and of whole sources, each computed in one pass, and the checksum file
//! of a consolidation.
#![tactic(auto)]

mod digests;
mod fault;
mod kept;
mod medium;
mod sums;
mod wholes;

pub use digests::hashed_media;
pub use fault::ReportFault;
pub use medium::Medium;
pub use sums::sums_text;
