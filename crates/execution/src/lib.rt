//! Executes a work: preallocates its outputs, runs its jobs with any number of workers, event by event, and writes what
//! comes last.
//!
//! A work implements `JobMaker`: `lay_out` makes every output at its full length, zero where jobs go, with fresh marks if
//! the work has any (`lays_out`); `finish` makes outputs and marks durable and writes the last files in order (`finishes`);
//! neither changes another file (`only_writes`). Jobs may be marked in groups (`group`, `groups`): `write` makes the bytes
//! of a group durable before it sets the group's marks, so between two events only groups that are done are marked
//! (`marks`).
//!
//! Proved: `execute` (rounds of one worker), `execute_events` (any events), `resume` and `resume_events` (outputs as they
//! are) end in one of the four ways of `Outcome` over honest stores and jobs that do not overlap (`executed`, `resumed`).
//! Over any stores they write only files of the work, a fault that names a file comes with a counted failure at that file,
//! and what comes last is unchanged until every job is done (`IsBounded`). Rounds that return `Ok` have done every job
//! (`finished`) and allocate nothing (`memory`, `job_memory`). After any events a done job has its bytes and stays done, and
//! a job that was given up failed at least three times (`KeepsLaws`). `new` and `with_done` start with exactly the requested
//! board (`board`, `rest`); `in_order_of` returns all jobs (`order`) with keys in ascending order (`sorted`). What a watch
//! is shown is not specified.
#![tactic(auto)]

mod action;
mod calls;
mod course;
mod events;
mod fault;
mod hands;
mod maker;
mod order;
mod performance;
mod steps;
mod worker;
mod workshop;

pub use calls::Execution;
pub use fault::{ExecutionFault, OutputFault, PlaceFault};
pub use maker::JobMaker;
pub use order::{in_order_of, in_turn};
