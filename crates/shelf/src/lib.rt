//! Stores of files by name: in memory, of zeros, and in a folder. They implement the traits of `devices`, which this crate
//! exports; tests make their calls fail.
//!
//! Proved: `MemoryShelf`, `MemoryBench` and `ZeroShelf` are honest and meet every clause of the traits. `MemoryBench`
//! records its calls, and what a crash may leave is a definition over that record (`MayLeave`), in which reads are one
//! outcome (`all`). `after_crash` returns one outcome as a bench (`outcome`) and says which (`left`).
//!
//! What a file in a folder holds is up to the file system, so `FolderShelf` and `FolderBench` are not proved honest. Proved
//! is that every device error raises the count and nothing else does, that no path is built from an unsafe name (`no_name`),
//! that each keeps at most 28 files open, and that no read or write goes past the end of the file as it was known
//! (`outside`), and that a file opened for writing is, by the identity read from its handle, none of the files that the
//! command was given, and has one name (`not_given`, `one_name`). At which file the device failed follows from the traits
//! only: each store allows any file.
#![tactic(auto)]

mod failures;
mod folder;
mod memory;
mod reason;
mod zeros;

pub use devices::{Bench, DeviceFault, Shelf, ShelfFault, Unwatched, Watch};
pub use folder::{
    FolderBench, FolderShelf, FolderStores, FoundBelow, FoundOutput, Overwrite, Unlisted,
};
pub use memory::{MemoryBench, MemoryShelf};
pub use reason::{Reason, Reasons};
pub use zeros::ZeroShelf;
