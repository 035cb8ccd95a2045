// A medium as described in a report.
use sound_terms::Run;

/// A medium: its number, its run of kept samples, the SHA-256 of its bytes, and the SHA-256 of its
/// whole source if requested.
#[derive(Clone, Copy, Debug, PartialEq, Eq)]
pub struct Medium {
    pub number: u32,
    pub run: Run,
    pub digest: [u8; 32],
    pub source: Option<[u8; 32]>,
}
