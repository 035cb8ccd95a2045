//! Pictures of projects: the entries in a lane for each channel, and below them the played and kept
//! parts of each file. Also pictures of refused lists, as far as they can be drawn.
#![tactic(auto)]

mod escaped;
mod hatch;
mod legend;
mod part;
mod picture;
mod refused;
mod ruler;
mod scale;
mod shown;
mod sources;
mod timeline;

pub use part::Part;
pub use picture::Picture;
pub use refused::draw_refused;
