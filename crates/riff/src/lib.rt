//! Chunks of RIFF WAVE and RF64 files (EBU Tech 3285, EBU Tech 3306), located without reading the samples, and the
//! contents of the `fmt ` chunk.
#![tactic(auto)]

mod entry;
mod fault;
mod form;
mod found;
mod head;
mod index;
mod pcm_format;
mod sizes;
mod wave;
mod zeros;

pub use fault::MediaFault;
pub use pcm_format::read_fmt;
pub use sound_terms::{Depth, Format, SoundFault, Span};
pub use wave::{Chunks, walk, walk_indexed};
