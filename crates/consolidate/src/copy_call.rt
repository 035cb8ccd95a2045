// Consolidates a list as it is asked for.
ghost use Rattle.std.specs.Prelude.{option_map};
ghost use Rattle.passes.specs.Left.{left_by};
ghost use Rattle.provenance.specs.Asked.{asked_of};
ghost use Rattle.consolidate.specs.Copied.{CopiesList, CopiesProject};

use crate::Fault;
use crate::choice::Keeping;
use crate::handing::hand_out;
use crate::media::execution_of;
use crate::open_call::open;
use crate::request::HandingOut;
use consolidation::{Consolidation, MediaChoice, Written};
use devices::{Bench, Shelf, Watch};
use job_terms::Progress;
use list_terms::Notice;
use opening::Opened;
use projectcheck::Checked;
use provenance::ReportOn;
use std::alloc::Global;

/// What is kept of a list, the report on it, where one is asked for, and how the pieces of its media are handed out.
#[derive(Drop)]
pub(crate) struct MediaRequest<'a> {
    pub keeping: Keeping,
    pub report: Option<ReportOn<'a>>,
    pub handing: HandingOut<'a>,
}

/// How far the pieces are, and what is written where all of them are done.
#[derive(Clone, Copy)]
pub(crate) struct Copied {
    pub progress: Progress,
    pub written: Written,
}

/// The same of a list, with what its user should know of.
#[derive(Drop)]
pub(crate) struct CopiedList {
    pub copied: Copied,
    pub notices: Vec<Notice>,
}

/// Consolidates an opened project.
fn copy_project<S: Shelf, B: Bench, W: Watch>(
    alloc: Global,
    checked: Checked,
    request: MediaRequest<'_>,
    shelf: &mut S,
    bench: &mut B,
    watch: &mut W,
) -> Result<Copied, Fault>
    ensures { CopiesProject S.Shelf B.Bench request.entry.handing
        (left_by (λ pass. looking pass) (λ pass. gives pass) request.entry.keeping.passes.items)
        checked.project checked.bound request.entry.keeping.handle (option_map asked_of request.entry.report)
        shelf.old shelf.new bench.old bench.new result }
{
    let MediaRequest {
        keeping,
        report,
        handing,
    } = request;
    let Keeping { handle, passes } = keeping;
    let choice = MediaChoice { handle, report };
    let consolidation = match Consolidation::plan(alloc, &checked, choice, passes, shelf, watch) {
        Ok(consolidation) => consolidation,
        Err(fault) => return Err(Fault::of_consolidation(checked, fault)),
    };
    let written = consolidation.outcome();
    let mut execution = match execution_of(alloc, consolidation) {
        Ok(execution) => execution,
        Err(fault) => return Err(fault),
    };
    match hand_out(&mut execution, handing, shelf, bench, watch) {
        Ok(progress) => return Ok(Copied { progress, written }),
        Err(cause) => return Err(Fault::of_media(written.media, report.is_some(), cause)),
    }
}

/// Consolidates a list over the sources of a shelf.
pub(crate) fn copy_list<S: Shelf, B: Bench, W: Watch>(
    alloc: Global,
    list: &[u8],
    request: MediaRequest<'_>,
    shelf: &mut S,
    bench: &mut B,
    watch: &mut W,
) -> Result<CopiedList, Fault>
    ensures { CopiesList S.Shelf B.Bench request.entry.handing
        (left_by (λ pass. looking pass) (λ pass. gives pass) request.entry.keeping.passes.items)
        list.now request.entry.keeping.handle (option_map asked_of request.entry.report)
        shelf.old shelf.new bench.old bench.new result }
{
    let Opened { checked, notices } = open(alloc, list, shelf)?;
    let copied = copy_project(alloc, checked, request, shelf, bench, watch)?;
    Ok(CopiedList { copied, notices })
}
