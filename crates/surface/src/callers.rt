// Callers of the public functions, crate by crate.
pub mod blocks;
pub mod boards;
pub mod calls;
pub mod fields;
pub mod files;
pub mod lists;
pub mod marks;
pub mod media;
pub mod numbers;
pub mod samples;
pub mod sounding;
pub mod stores;
pub mod words;
