//! Opens the places named on the command line: the list, the folder of its sources and the output folder, which it locks;
//! and reports problems with them. It also draws the progress line.
//!
//! Proved: `read_to_end` returns exactly the bytes that a reader has left, if these are known and it does not fail. The
//! refusals of `ReadFault` and `OpenFault` have the number and place of their definitions (`number`, `location`).
//! `open_media` and `ShownShelf::open` are over the named folder and have not failed yet (`folder`, `failures`), and an
//! opened list is over the named folder (`open_list`, `open_inside`). `open_stores` opens the two named folders, lets files be
//! replaced only if that was requested, and prints nothing if it succeeds (`media`, `output`, `careful`, `quiet`).
//! Which folders are searched, and what is printed about it, is not specified.
#![tactic(auto)]

mod fault;
mod folder_asides;
mod full_disk;
mod head;
mod list_file;
mod media;
mod newer;
mod opened_list;
mod output;
mod progress;
mod session;
mod sources;
mod stores;
mod work_meter;

pub use fault::OpenFault;
pub use folder_asides::{FolderAsides, tell_all_further};
pub use full_disk::report_full_disk;
pub use head::{changed_position, report_change};
pub use list_file::{GivenList, ReadFault, read_given_list, read_list, read_to_end};
pub use media::{Manner, PLAIN, listed, open_media, report_found, tell_unlisted, unlisted_reason};
pub use newer::{newer_sources, report_newer};
pub use opened_list::{OpenedList, open_inside, open_list};
pub use output::{HeldFolder, Lock, Replaced, name_inside};
pub use progress::{Progress, ProgressLine};
pub use session::Session;
pub use sources::ShownShelf;
pub use stores::{OpenStores, open_stores};
pub use work_meter::WorkMeter;
