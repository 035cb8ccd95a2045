// Stores: sources and outputs in memory, in folders, and of zeros.

use shelf::{
    Bench, DeviceFault, FolderBench, FolderShelf, MemoryBench, MemoryShelf, Overwrite, Shelf,
    ShelfFault, ZeroShelf,
};
use std::alloc::{AllocError, Global};
use std::fs::Files;
use std::os::unix::fs::FileExt;

/// Returns the length and the first byte of a source.
pub fn looked_at<S: Shelf>(shelf: &mut S, name: &str) -> Result<(u64, u8), ShelfFault> {
    let length = shelf.length(name)?;
    let mut bytes = [0; 1];
    shelf.read_at(name, 0, &mut bytes)?;
    Ok((length, bytes[0]))
}

/// Creates, extends, overwrites and syncs an output.
pub fn written<B: Bench>(bench: &mut B, name: &str) -> Result<(), DeviceFault> {
    bench.create(name)?;
    bench.append(name, b"abcd")?;
    bench.append_zeros(name, 4)?;
    bench.write_at(name, 1, b"x")?;
    bench.sync(name)?;
    Ok(())
}

/// Returns the length and the first byte of an output.
pub fn read_back<B: Bench>(bench: &mut B, name: &str) -> Result<(u64, u8), ShelfFault> {
    let length = bench.length(name)?;
    let mut bytes = [0; 1];
    bench.read_at(name, 0, &mut bytes)?;
    Ok((length, bytes[0]))
}

/// Creates sources in memory with two failing calls after the third.
pub fn memory_sources(alloc: Global, name: &str, bytes: &[u8]) -> Result<MemoryShelf, AllocError> {
    let shelf = MemoryShelf::new(alloc).with_file(name, bytes)?;
    Ok(shelf.failing(3, 2))
}

/// Creates outputs in memory after an interrupted call and a crash.
pub fn memory_outputs(alloc: Global) -> Result<MemoryBench, AllocError> {
    let bench = MemoryBench::new(alloc).failing(9, 1).stop_at(3, 2);
    bench.after_crash(1, 7)
}

/// Creates a source of zeros after a header.
pub fn zeros(name: String, head: Vec<u8>, length: u64) -> ZeroShelf {
    ZeroShelf::new(name, head, length)
}

/// Creates the sources of one folder and the outputs of another.
pub fn folders<R: Files + Drop, T: Files + Drop>(
    alloc: Global,
    sources: R,
    outputs: T,
) -> Result<(FolderShelf<R>, FolderBench<T>), AllocError>
where
    R::File: FileExt,
    T::File: FileExt,
{
    let shelf = FolderShelf::new(alloc, sources, "media")?;
    let bench = FolderBench::new(alloc, outputs, "out", Overwrite::Never)?;
    Ok((shelf, bench))
}
