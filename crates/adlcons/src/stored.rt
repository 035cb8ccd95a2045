// The stored run: the example over memory.
use crate::example;
use anyhow::{Context, Result};
use consolidate::{Depth, Options, Order, SOUND, render};
use shelf::{MemoryBench, MemoryShelf};

/// Renders the stored example, and prints the length of the file and the samples in it.
pub fn run_stored(rt: &(impl AllocGlobal + Print)) -> Result<()> {
    let alloc = rt.alloc();
    let mut shelf = MemoryShelf::new(alloc).with_file("A.wav", example::WAVE)?;
    let mut bench = MemoryBench::new(alloc);
    let options = Options {
        from: None,
        to: None,
        channels: None,
        depth: Depth::Sixteen,
        order: Order::ByTime,
    };
    render(alloc, example::LIST, &options, &mut shelf, &mut bench)?;
    let file = bench.bytes(SOUND).context("there is no file")?;
    print!(rt; "{} bytes:", file.len())?;
    let samples = file.get(example::SAMPLES_AT..).unwrap_or(&[]);
    for sample in samples.chunks_exact(2) {
        let number = i16::from_le_bytes([sample[0], sample[1]]);
        print!(rt; " {number}")?;
    }
    println!(rt; "")?;
    Ok(())
}
