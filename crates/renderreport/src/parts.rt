// The parts of a report, in order.
ghost use Rattle.std.specs.Prelude.{◌≡◌, ◌++◌, ◌/◌, codes, decimal, max, option_map};
ghost use Rattle.sha2.specs.Sha256.{sha256};
ghost use Rattle.devices.specs.Frame.{Appends};
ghost use Rattle.renderreport.specs.Parts.{all_of, clipped_end, end_text, opening_text, range_text, report_parts};
ghost use Rattle.renderreport.specs.Report.{Facts, facts_of, report_name, time_of};

use crate::ReportFacts;
use crate::channels::put_channels;
use crate::report_facts::Report;
use crate::texts::{Part, found, put};
use devices::{Bench, DeviceFault};
use sha2::{Digest, Sha256};

/// Version of the report format.
const FORM: u8 = 1;

/// Appends the whole report.
pub fn put_report<B: Bench>(bench: &mut B, report: &Report<'_, '_>) -> Result<(), DeviceFault>
    ensures { Appends B.Bench report_name (report_parts (facts_of report.now.facts.now) report.now.digest) bench.old bench.new result }
{
    put_opening(bench, report.facts)?;
    put_channels(bench, report.facts.clips.channels)?;
    put_clipped_end(bench, report.facts)?;
    put_range(bench, report.facts)?;
    put_end(bench, report)
}

/// Appends the members up to the list of clipped channels.
#[tactic(auto, unfolding(crate::specs::Parts::opening_text, crate::specs::Parts::all_of))]
fn put_opening<B: Bench>(bench: &mut B, facts: &ReportFacts<'_>) -> Result<(), DeviceFault>
    ensures { Appends B.Bench report_name (opening_text (facts_of facts.now)) bench.old bench.new result }
{
    let parts = [
        Part::Plain(b"{\"channels\":"),
        Part::Number(u128::from(facts.channels)),
        Part::Plain(b",\"clipped\":{\"channels\":["),
    ];
    put(bench, &parts)
}

/// Returns the time, in samples, of the sample frame that contains a sample. Samples count from 0, interleaved by
/// channel.
fn time_of(facts: &ReportFacts<'_>, sample: u64) -> u128
    ensures { result ≡ time_of (facts_of facts.now) sample }
{
    let frame = sample / u64::from(facts.channels.max(1));
    u128::from(facts.start.get()) + u128::from(frame)
}

/// Returns the time of the first clipped sample.
fn first_time(facts: &ReportFacts<'_>) -> Option<u128>
    ensures { result ≡ option_map (time_of (facts_of facts.now)) facts.now.clips.first }
{
    match facts.clips.first {
        Some(sample) => Some(time_of(facts, sample)),
        None => None,
    }
}

/// Appends the rest of the clipping, after the list of channels.
#[tactic(auto, unfolding(crate::specs::Parts::clipped_end, crate::specs::Parts::all_of))]
fn put_clipped_end<B: Bench>(bench: &mut B, facts: &ReportFacts<'_>) -> Result<(), DeviceFault>
    ensures { Appends B.Bench report_name (clipped_end (facts_of facts.now)) bench.old bench.new result }
{
    let parts = [
        Part::Plain(b"],\"first\":"),
        found(first_time(facts)),
        Part::Plain(b",\"peak\":"),
        Part::Number(u128::from(facts.clips.peak)),
        Part::Plain(b",\"samples\":"),
        Part::Number(u128::from(facts.clips.samples)),
        Part::Plain(b"}"),
    ];
    put(bench, &parts)
}

/// Appends the depth and the range.
#[tactic(auto, unfolding(crate::specs::Parts::range_text, crate::specs::Parts::all_of))]
fn put_range<B: Bench>(bench: &mut B, facts: &ReportFacts<'_>) -> Result<(), DeviceFault>
    ensures { Appends B.Bench report_name (range_text (facts_of facts.now)) bench.old bench.new result }
{
    let parts = [
        Part::Plain(b",\"depth\":"),
        Part::Number(u128::from(facts.depth.bits())),
        Part::Plain(b",\"first\":"),
        Part::Number(u128::from(facts.start.get())),
        Part::Plain(b",\"form\":"),
        Part::Number(u128::from(FORM)),
        Part::Plain(b",\"frames\":"),
        Part::Number(u128::from(facts.frames)),
    ];
    put(bench, &parts)
}

/// Appends the hashes of the list and the file, the marked blocks and the program.
fn put_end<B: Bench>(bench: &mut B, report: &Report<'_, '_>) -> Result<(), DeviceFault>
    ensures { Appends B.Bench report_name (end_text (facts_of report.now.facts.now) report.now.digest) bench.old bench.new result }
{
    let facts = report.facts;
    let parts = [
        Part::Plain(b",\"given_list_sha256\":\""),
        Part::Digest(list_digest(facts)),
        Part::Plain(b"\",\"marked\":"),
        found(marked_in(facts)),
        Part::Plain(b",\"program\":\""),
        Part::InString(facts.program.as_bytes()),
        Part::Plain(b"\",\"sha256\":\""),
        Part::Digest(report.digest),
        Part::Plain(b"\",\"version\":\""),
        Part::InString(facts.version.as_bytes()),
        Part::Plain(b"\"}\n"),
    ];
    put(bench, &parts)
}

fn list_digest(facts: &ReportFacts<'_>) -> [u8; 32]
    ensures { result ≡ sha256 facts.now.list.now }
{
    Sha256::digest(facts.list)
}

/// Returns the number of blocks marked before, if the rendering was resumed.
fn marked_in(facts: &ReportFacts<'_>) -> Option<u128>
    ensures { result ≡ facts.now.marked }
{
    match facts.marked {
        Some(marked) => Some(u128::from(marked)),
        None => None,
    }
}
