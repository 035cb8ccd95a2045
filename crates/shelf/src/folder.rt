// Files in a folder of the file system. No clause says what the folder contains or what a crash leaves of it.
mod bench;
mod failures;
mod found;
mod given;
mod handle;
mod identity;
mod open_files;
mod search;
mod sources;
mod state;
mod stores;

pub use bench::FolderBench;
pub use found::FoundOutput;
pub use open_files::Overwrite;
pub use search::{FoundBelow, Unlisted};
pub use sources::FolderShelf;
pub use stores::FolderStores;
