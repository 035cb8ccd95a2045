//! Opens the project of an audio decision list: reads its text, opens its files and checks its entries. For a refused list
//! it also finds further faults.
//!
//! Proved: `open_project` returns the project with its binding exactly if the list is accepted over the files (`accepted`),
//! otherwise the first fault of its text, of a file in index order, or of an entry; out of memory and device failures never
//! come after a fault that applies (`refusals`). A text with a fault is refused whatever the files are (`bad_text`), and a
//! fault of a file names a source that an entry uses, except 31 (`own`). Only sources are read, and a 22 names the file
//! (`only_reads`). `open_list` has the same refusals and returns the notices of the list and then of its files (`notices`).
//!
//! `further_faults` returns, after a fault of an entry, the other entries at fault, and after a fault of a file only faults
//! of other used files, up to a given number (`further`). If it returns none, a device failed and was counted, or the given
//! fault is not the first one (`untold`). That it finds every faulty file is not specified.
#![tactic(auto)]

mod accepted_list;
mod fault;
mod further;
mod open;

pub use accepted_list::{Accepted, AcceptedList, Opened, open_list};
pub use fault::Fault;
pub use further::{Further, Untold, further_faults};
pub use open::open_project;
