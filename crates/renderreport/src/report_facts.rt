// The content of a report.
use clipping::Clips;
use sampletime::SampleTime;
use sound_terms::Depth;

/// The content of a report: the program that rendered the file, the text of the list, the bit depth, the range and the
/// clipping.
///
/// The range starts at `start` and has `frames` sample frames. `marked` is the number of blocks that were marked before
/// a rendering was resumed, or `None` if it wasn't; then `clips` covers only the other blocks.
#[derive(Clone, Copy, Debug)]
pub struct ReportFacts<'a> {
    pub program: &'a str,
    pub version: &'a str,
    pub list: &'a [u8],
    pub depth: Depth,
    pub start: SampleTime,
    pub frames: u64,
    pub channels: u8,
    pub clips: Clips,
    pub marked: Option<u32>,
}

/// The content of a report, with the SHA-256 of the rendered file.
#[derive(Clone, Copy, Debug)]
pub struct Report<'a, 'b> {
    pub facts: &'a ReportFacts<'b>,
    pub digest: [u8; 32],
}
