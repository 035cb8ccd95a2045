// Options of renderings, consolidations, pictures and comparisons.
ghost use Rattle.std.specs.Prelude.{◌≡◌, true};
ghost use Rattle.commandline.specs.Channels.{are_few};

use job_terms::Order;
use sound_terms::Depth;

/// Options of a rendering: start and end time as text, the number of channels (1 to 64), the bit
/// depth, the job order, and whether a report is written next to the file.
#[derive(Clone, Copy, Debug, PartialEq, Eq)]
pub struct Chosen<'a> {
    pub from: Option<&'a str>,
    pub to: Option<&'a str>,
    pub channels: Option<u8>,
    pub depth: Depth,
    pub order: Order,
    pub report: bool,
    ghost few_channels: { are_few channels ≡ true },
}

/// The kind of report that a consolidation writes.
#[derive(Clone, Copy, Debug, PartialEq, Eq)]
pub enum MediaReport {
    /// No report.
    NoReport,
    /// A report on the provenance of media and entries, and checksums of all files written.
    Plain,
    /// The plain report with the digest of each whole source.
    WithDigests,
}

/// Options of a picture: start and end time as text.
#[derive(Clone, Copy, Debug, PartialEq, Eq)]
pub struct Drawn<'a> {
    pub from: Option<&'a str>,
    pub to: Option<&'a str>,
}

/// Options of a comparison: start and end time as text, the number of channels (1 to 64), and
/// whether the result is printed as JSON.
#[derive(Clone, Copy, Debug, PartialEq, Eq)]
pub struct Selected<'a> {
    pub from: Option<&'a str>,
    pub to: Option<&'a str>,
    pub channels: Option<u8>,
    pub report: bool,
    ghost few_channels: { are_few channels ≡ true },
}
