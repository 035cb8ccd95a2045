//! Headers of sound files to write: RIFF WAVE with a Broadcast Wave `bext` chunk (EBU Tech 3285), or RF64 (EBU Tech
//! 3306) if the file is too long for RIFF, at any depth and with 1 to 64 channels.
#![tactic(auto)]

mod chunks;
mod fault;
mod fields;
mod info;
mod info_ref;
mod whole;

pub use fault::HeaderFault;
pub use info::SoundInfo;
pub use info_ref::SoundInfoRef;
pub use sound_terms::{Bext, Depth};
pub use whole::{data_length, fits, fits_riff_with, header, is_large, place_of};
