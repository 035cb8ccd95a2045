// What is chosen of a command, and what of a rendering was clipped.
ghost use Rattle.rendering.specs.Rendering.{HaveChannels};

use crate::report::ReportChoice;
use clipping::Clips;
use passes::Pass;
use rendering::{JobLength, Options};
use sampletime::SampleTime;

/// What is rendered of a list, on 1 to 64 channels where their number is chosen, and how long the jobs are. The file is
/// the same for each length.
#[derive(Clone, Copy, Debug, PartialEq, Eq)]
pub struct RenderChoice {
    pub options: Options,
    pub jobs: JobLength,
    ghost few_channels: { HaveChannels options },
}

/// What a consolidation keeps: the frames that the passes leave, which go over the pieces of the entries one after the
/// other, and those at most `handle` frames away.
#[derive(Drop)]
pub struct Keeping {
    pub handle: u64,
    pub passes: Vec<Box<dyn Pass>>,
}

/// What is kept of a list, and which report of it is asked for, where one is.
#[derive(Drop)]
pub struct ConsolidateChoice<'a> {
    pub keeping: Keeping,
    pub report: Option<ReportChoice<'a>>,
}

/// What was clipped of a rendering: the tally of its exact sums, of which the first stands at the first frame on channel 1,
/// then that on channel 2, and so on; the time of that frame, and how many channels there are, 1 to 64.
#[derive(Clone, Copy, Debug, PartialEq, Eq)]
pub struct Clipping {
    pub clips: Clips,
    pub start: SampleTime,
    pub channels: u8,
}

/// By which program a report of a rendering is asked for: its name and its version.
#[derive(Clone, Copy, Debug)]
pub struct RenderReport<'a> {
    pub program: &'a str,
    pub version: &'a str,
}

/// What is rendered of a list, and by which program its report is asked for.
#[derive(Clone, Copy, Debug)]
pub struct ReportedChoice<'a> {
    pub choice: RenderChoice,
    pub report: RenderReport<'a>,
}
