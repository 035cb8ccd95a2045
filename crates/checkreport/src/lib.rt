//! The report of a check for scripts: one JSON value (RFC 8259), printed part by part.
//!
//! Proved: `put_accepted` and `put_refused` print exactly one JSON value as a line and return the status (`printed`,
//! `reported`): `accepted_data` of the project and its binding, or `refused_data` of the first fault and further ones
//! (`specs/Report.antt`), in the compact text of the toolchain's `serde_json`, with the invisible characters of strings
//! escaped (`specs/Printed.antt`). If the first fault of a refused list finds no memory, the value of refusal 18 is
//! printed; `put_unread` prints that of a list that cannot be read (`unread`). Further faults are those of a definition
//! (`AreOfList`): of the text (`AreFurther`), whatever the files are, or of files or entries (`AreAll`), over an honest
//! shelf. A report that says it is complete lists them all; any other lists the first of them, or none if the sources
//! cannot be read again. What `Explains` contributes is not specified, and that a report fits docs/report.schema.json is
//! only tested.
#![tactic(auto)]

mod accepted;
mod explained;
mod printed;
mod refused;
mod values;

pub use explained::{Explains, Member, PassedLine, Room, Value};
pub use printed::{put_accepted, put_no_memory, put_refused, put_unread};
