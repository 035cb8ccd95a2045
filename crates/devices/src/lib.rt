//! Files by name: sources that can be read at any position, and outputs whose writes a crash may tear.
//!
//! The traits `Shelf` and `Bench` specify what each call does to the stored bytes, that an error of the device raises the
//! count of failures and nothing else does, and at which file it failed (`only_reads`, `only_writes`). `Bench` also
//! specifies what a crash may leave, now and at every earlier moment (`crash`, `time`). Sequences of calls are relations
//! that compose: `OnlyReads`, `OnlyWrites` and `Appends` of `specs/Frame.antt`; `Reads`, `Writes` and `CrashesLeave` of
//! `specs/Views.antt`.
#![tactic(auto)]

mod bench;
mod fault;
mod source;
mod watch;

pub use bench::Bench;
pub use fault::{DeviceFault, ShelfFault};
pub use source::Shelf;
pub use watch::{Unwatched, Watch};
