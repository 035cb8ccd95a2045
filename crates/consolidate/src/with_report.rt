// Renders a list, or goes on with its rendering, and writes a report beside the file.
ghost use Rattle.std.specs.Prelude.{◌≡◌};
ghost use Rattle.list_terms.specs.Steps.{ok_map};
ghost use Rattle.renderreport.specs.Report.{facts_of};
ghost use Rattle.rendering.specs.Rendering.{values_of};
ghost use Rattle.consolidate.specs.SoundReports.{IsReportedRendering, IsReportedResuming, WritesReport, asked_of, sound_facts};

use crate::choice::{Clipping, RenderReport, ReportedChoice};
use crate::render_call::{RenderedSound, render_watched};
use crate::resume_call::{ResumedSound, resume_watched};
use crate::{Fault, OutputFile};
use devices::{Bench, Shelf, Watch};
use rendering::Depth;
use renderreport::{ReportFacts, ReportFault, write_report};
use std::alloc::Global;

/// Writes the report of these facts.
fn write_facts<B: Bench>(bench: &mut B, facts: &ReportFacts<'_>) -> Result<(), Fault>
    ensures { WritesReport B.Bench (facts_of facts.now) bench.old bench.new result }
{
    match write_report(bench, facts) {
        Ok(()) => Ok(()),
        Err(ReportFault::Sound) => Err(Fault::Output(OutputFile::Rendering)),
        Err(ReportFault::Report) => Err(Fault::Output(OutputFile::RenderReport)),
    }
}

/// What is reported of a rendering: so many frames, what of them was clipped, and how many blocks were marked before, where
/// it was gone on with.
#[derive(Clone, Copy)]
struct ReportedSound {
    frames: u64,
    clipping: Clipping,
    marked: Option<u32>,
}

/// Writes the report of a rendering of this list to this depth.
fn report_sound<'a, B: Bench>(
    list: &'a [u8],
    depth: Depth,
    report: RenderReport<'a>,
    sound: &ReportedSound,
    bench: &mut B,
) -> Result<(), Fault>
    ensures { WritesReport B.Bench (sound_facts (asked_of report.entry) list.entry.now depth sound.now.frames
        sound.now.clipping sound.now.marked) bench.old bench.new result }
{
    let facts = ReportFacts {
        program: report.program,
        version: report.version,
        list,
        depth,
        start: sound.clipping.start,
        frames: sound.frames,
        channels: sound.clipping.channels,
        clips: sound.clipping.clips,
        marked: sound.marked,
    };
    write_facts(bench, &facts)
}

/// Renders a list as `render_watched` does, and then writes `render.json` beside the file: a value of JSON (RFC 8259) in a
/// line, with the SHA-256 of `render.wav`, which is read once more for it, and of the list, the range, and what was
/// clipped. It takes no memory behind the first write. Where the device fails at one of the two files behind the
/// rendering the call ends at once (62); the rendering is finished then, and `resume_reported` writes the report.
pub fn render_reported<'a, S: Shelf, B: Bench, W: Watch>(
    alloc: Global,
    list: &'a [u8],
    asked: &ReportedChoice<'a>,
    shelf: &mut S,
    bench: &mut B,
    watch: &mut W,
) -> Result<RenderedSound, Fault>
    ensures { IsReportedRendering S.Shelf B.Bench (asked_of asked.now.report) asked.now.choice.jobs list.now
        (values_of asked.now.choice.options) shelf.old shelf.new bench.old bench.new
        (ok_map (λ made. made.rendered) result) }
{
    let ReportedChoice { choice, report } = *asked;
    match render_watched(alloc, list, &choice, shelf, bench, watch) {
        Ok(made) => {
            let sound = ReportedSound {
                frames: made.rendered.frames,
                clipping: made.clipping,
                marked: None,
            };
            match report_sound(list, choice.options.depth, report, &sound, bench) {
                Ok(()) => Ok(made),
                Err(fault) => Err(fault),
            }
        }
        Err(fault) => Err(fault),
    }
}

/// Goes on with a rendering as `resume_watched` does, and then writes `render.json` beside the file as `render_reported`
/// does. What it says of clipping is of the blocks that weren't marked before, and it says how many were.
pub fn resume_reported<'a, S: Shelf, B: Bench, W: Watch>(
    alloc: Global,
    list: &'a [u8],
    asked: &ReportedChoice<'a>,
    shelf: &mut S,
    bench: &mut B,
    watch: &mut W,
) -> Result<ResumedSound, Fault>
    ensures { IsReportedResuming S.Shelf B.Bench (asked_of asked.now.report) asked.now.choice.jobs list.now
        (values_of asked.now.choice.options) shelf.old shelf.new bench.old bench.new
        (ok_map (λ made. made.resumed) result) }
{
    let ReportedChoice { choice, report } = *asked;
    match resume_watched(alloc, list, &choice, shelf, bench, watch) {
        Ok(made) => {
            let sound = ReportedSound {
                frames: made.resumed.frames,
                clipping: made.clipping,
                marked: Some(made.resumed.marked),
            };
            match report_sound(list, choice.options.depth, report, &sound, bench) {
                Ok(()) => Ok(made),
                Err(fault) => Err(fault),
            }
        }
        Err(fault) => Err(fault),
    }
}
