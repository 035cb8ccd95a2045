//! The calls of the product: check, consolidate, render, resume and compare audio decision lists over sound files.
//!
//! Proved: each call has one contract, a record of `specs/Commands.antt`, `Resuming.antt` or `Schedules.antt`, which
//! holds however the call ends; docs/PROVED.md lists its clauses with their premises. `consolidate` states it twice: for
//! any passes (`consolidated`) and for the standard ones (`standard`). `render`, `resume` and `run_schedule` have jobs
//! of one block of 4,096 frames; `render_watched`, `resume_watched` and `run_schedule_by` prove the same for jobs of the
//! requested `JobLength`.
//!
//! After the first write a call ends in one of four ways (`outcome`, by `Outcome` of `execution`): with 62 at the first
//! output that cannot be preallocated, with those before it preallocated, those after it unchanged and no job run; the
//! events ended early, because a job failed three times (66), a mark was not written (62), a worker was out of memory
//! (57, 60), or a schedule left jobs open; every job is done and what comes last failed (62); or everything is done. In
//! all but the first, board and files are those of a run of the board's relation over the events, from preallocated
//! files, or from the files as they are if `resume` finds marks. So a device that fails once or twice in a job does not
//! fail the call. Exactly the blocks of completed batches are marked; if writing marks failed, any of that batch may be.
//! What a watch is shown is not specified.
#![tactic(auto)]

mod check_call;
mod choice;
mod consolidate_call;
mod copy_call;
mod fault;
mod handing;
mod made;
mod marks;
mod media;
mod media_schedule;
mod open_call;
mod render_call;
mod render_schedule;
mod report;
mod request;
mod resume_call;
mod schedule_call;
mod with_report;

pub use check_call::{check_opened, check_project};
pub use choice::{
    Clipping, ConsolidateChoice, Keeping, RenderChoice, RenderReport, ReportedChoice,
};
pub use clipping::Clips;
pub use comparing::{CompareFault, Compared, ListFault, compare};
pub use comparison::{Comparison, Selection};
pub use consolidate_call::{Written, consolidate, consolidate_watched};
pub use consolidation::{LIST, REPORT, SUMS, Sizes};
pub use fault::{Fault, OutputFile};
pub use job_terms::{BoardEvent, Progress};
pub use list_terms::Notice;
pub use markfile::{MARKS, MarkFault, MarkedFile, SOUND};
pub use opening::{Accepted, AcceptedList};
pub use render_call::{Rendered, RenderedSound, render, render_watched};
pub use rendering::{Depth, JobLength, Options, Order};
pub use renderreport::RENDER_REPORT;
pub use report::ReportChoice;
pub use resume_call::{Resumed, ResumedSound, resume, resume_watched};
pub use schedule_call::{Work, run_schedule, run_schedule_by};
pub use with_report::{render_reported, resume_reported};
