// In-memory stores for tests, whose calls can be made to fail.
mod bench;
mod call;
mod device;
mod files;
mod record;
mod sources;

pub use bench::MemoryBench;
pub use sources::MemoryShelf;
