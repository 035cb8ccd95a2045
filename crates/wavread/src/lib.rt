//! Reader for sound files: the facts that a RIFF WAVE, Broadcast Wave or RF64 file gives (EBU Tech 3285, EBU Tech
//! 3306), and its samples.
#![tactic(auto)]

mod bext_chunk;
mod format_chunk;
mod sound;
mod sound_file;
mod told;

pub use riff::MediaFault;
pub use sound::Sound;
pub use sound_file::open;
pub use sound_terms::{Bext, Depth};
