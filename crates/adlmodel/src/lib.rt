//! The in-memory model of a project, as an audio decision list (AES31-3) spells it: header lines, sources, events
//! and notices.
#![tactic(auto)]

mod bytes;
mod header;
mod place;
mod project;
mod reach;
mod source;
mod sources;

pub use bytes::Bytes;
pub use header::{Header, KeptLines};
pub use list_terms::Notice;
pub use place::{Place, place_of};
pub use project::Project;
pub use sound_terms::{Channels, Event, Fade};
pub use source::Source;
pub use sources::{Sources, by_number, sources_by_number};
