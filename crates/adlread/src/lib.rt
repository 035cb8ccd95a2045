//! A reader for audio decision lists in the shape of AES31-3, by the profile that docs/LIST.md describes.
//!
//! The reader knows seven sections, which may be in any order, and cuts four of them into tokens. Names and
//! keywords match in any case. The sample rate is 48,000 Hz; times are read at 24, 25 or 30 frames a second.
#![tactic(auto)]

ghost use Rattle.std.specs.Prelude.{[], false, IfErr, IfOk, IsTrue, Ok, ◌≡◌};
ghost use Rattle.sampletime.specs.FrameRate.{frames_per_second};
ghost use Rattle.list_terms.specs.Project.{ListProject};
ghost use Rattle.list_terms.specs.Text.{nothing_read, read_from, text_value};
ghost use Rattle.list_terms.specs.Lines.{lines_of};
ghost use Rattle.list_terms.specs.WholeProject.{IsProject};
ghost use Rattle.work_terms.specs.Refusals.{Gives, is_memory};
ghost use Rattle.adlread.specs.Fault.{Reads, line_of, refusal};
ghost use Rattle.adlread.specs.FaultSpans.{IsAt, lines_span, text_span};
ghost use Rattle.adlread.specs.Spells.{Spells};

mod draft;
mod entry_lines;
mod fault;
mod faults;
mod fields;
mod header;
mod numbers;
mod outline;
mod rate;
mod reader;
mod sections;
mod tags;
mod taken;

pub use adlmodel::Project;
use adltoken::Lines;
pub use adltoken::Span;
use draft::Draft;
pub use fault::AdlFault;
use fault::{at_line, first_in};
pub use faults::Faults;
pub use list_terms::{Location, TextFault};
pub use rate::rate_of;
use sampletime::Rate;
use std::alloc::Global;

/// Reads the text of a list and returns the project that it spells.
///
/// Returns the fault of the first faulty line; if the line has several, the leftmost one. Anything after the line
/// `</ADL>` is ignored. Returns `AdlFault::Memory` if out of memory.
pub fn read(alloc: Global, text: &[u8]) -> Result<Project, AdlFault>
    ensures exact { Gives (λ project. project) refusal (λ r. r.number) result (text_value text.now) }
    ensures spelled { IfOk result (λ project. Spells text.now project) }
    ensures only { (project : ListProject) → Spells text.now project
        → Gives (λ p. p) refusal (λ r. r.number) result (Ok project) }
    ensures faulty { IfErr result (λ fault. is_memory (refusal fault).number ≡ false → (project : ListProject)
        → Spells text.now project → ⊥) }
    ensures span { IsAt (text_span text.now) result }
    ensures memory_line { IfErr result (λ fault. IsTrue (is_memory (refusal fault).number) → line_of fault ≡ 0) }
{
    let rate = rate_of(text);
    read_lines(alloc, text, rate)
}

/// Reads a list, line by line, at the given frame rate.
#[tactic(auto, unfolding(list_terms::specs::Text::read_from, crate::specs::FaultSpans::lines_span))]
fn read_lines(alloc: Global, text: &[u8], rate: Rate) -> Result<Project, AdlFault>
    ensures exact { Reads (λ project. project) result
        (read_from (frames_per_second rate) nothing_read 0 (lines_of text.now)) }
    ensures span { IsAt (lines_span (frames_per_second rate) nothing_read 0 [] (lines_of text.now)) result }
    ensures whole { IfOk result IsProject }
{
    let mut draft = Draft::new(alloc)?;
    let mut lines = Lines::new(text);
    let mut last: &[u8] = &[];
    'lines: while let Some(line) = lines.next_line() {
        draft.add(alloc, line, lines.number(), rate)?;
        if draft.is_behind() {
            return draft.finish(line, lines.number(), rate);
        }
        last = line;
    }
    Err(at_line(
        TextFault::SectionMismatch,
        lines.number().max(1),
        first_in(last),
    ))
}
