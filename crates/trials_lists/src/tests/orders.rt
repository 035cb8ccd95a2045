// Runs with jobs in order of time and in order of source.
ghost use Rattle.rendering.specs.Rendering.{HaveChannels};

use crate::tests::works::round;
use consolidate::{Depth, Options, Order, Work, run_schedule};
use sampletime::SampleTime;
use shelf::{MemoryBench, MemoryShelf};
use std::alloc::Global;
use std::test::Fail;
use trials_projects::lists::list;
use trials_projects::media::{head, head_at};

/// Sample frames per block.
const BLOCK: usize = 4_096;

/// A list whose first entry plays the second block of `A.wav`, and whose second entry then plays
/// the first block.
const ENTRIES: &str = "(Entry) 1 (Cut) I 1 1 1 00.00.00.02/0256 00.00.00.00/0000 00.00.00.02/0256
(Entry) 2 (Cut) I 1 1 1 00.00.00.00/0000 00.00.00.02/0256 00.00.00.04/0512
";

/// A list whose only entry plays the first block of `A.wav` after a block of silence.
const LATE: &str = "(Entry) 1 (Cut) I 1 1 1 00.00.00.00/0000 00.00.00.02/0256 00.00.00.04/0512
";

/// Returns the options for the range from midnight on, at 16 bits.
fn by(order: Order) -> Options
    ensures { HaveChannels result }
{
    Options {
        from: Some(SampleTime::ZERO),
        to: None,
        channels: None,
        depth: Depth::Sixteen,
        order,
    }
}

/// Returns a mono file of two blocks, each of one repeated sample.
fn two_blocks(alloc: Global, samples: [u8; 2]) -> Result<Vec<u8>, Fail> {
    let mut file = head(alloc, 1, 8_192)?;
    for frame in 0..2 * BLOCK {
        file.extend_from_slice(&[samples[frame / BLOCK], 0])?;
    }
    Ok(file)
}

/// Renders a list over a file of ones by one round of one worker. Returns the numbers of open and
/// done jobs.
fn begun(
    alloc: Global,
    entries: &str,
    order: Order,
    bench: &mut MemoryBench,
) -> Result<(u32, u32), Fail> {
    let mut shelf = MemoryShelf::new(alloc).with_file(
        "A.wav",
        two_blocks(alloc, [1, 1])?.as_slice(),
    )?;
    let text = list(alloc, entries)?;
    let work = Work::Render {
        list: text.as_bytes(),
        options: by(order),
    };
    let progress = run_schedule(alloc, work, &round(1), &mut shelf, bench)?;
    Ok((progress.idle, progress.done))
}

#[test]
fn one_round_does_the_first_job_of_the_order(rt: HostRuntime) -> Result<(), Fail> {
    let alloc = rt.alloc();
    for (entries, order, samples) in [
        (ENTRIES, Order::ByTime, [1, 0]),
        (ENTRIES, Order::BySource, [0, 1]),
        (LATE, Order::BySource, [0, 1]),
    ] {
        let mut bench = MemoryBench::new(alloc);
        assert_eq!(rt; begun(alloc, entries, order, &mut bench)?, (1, 1));
        let wanted = two_blocks(alloc, samples)?;
        assert!(rt; bench.bytes("render.wav") == Some(wanted.as_slice()));
    }
    Ok(())
}

/// An entry that plays one sample of ten seconds.
const MOMENT: &str = "(Entry) 1 (Cut) I 1 1 1 00.00.05.00/0000 00.00.00.00/0000 00.00.00.00/0001
";

/// Consolidates the entry with a handle of ten samples, by one round.
fn consolidated(alloc: Global, order: Order) -> Result<MemoryBench, Fail> {
    let mut file = head(alloc, 1, 480_000)?;
    for _ in 0..480_000 {
        file.extend_from_slice(&[1, 0])?;
    }
    let mut shelf = MemoryShelf::new(alloc).with_file("A.wav", file.as_slice())?;
    let mut bench = MemoryBench::new(alloc);
    let text = list(alloc, MOMENT)?;
    let work = Work::Consolidate {
        list: text.as_bytes(),
        handle: 10,
        passes: Vec::new(alloc),
        order,
    };
    run_schedule(alloc, work, &round(1), &mut shelf, &mut bench)?;
    Ok(bench)
}

/// The list over the frames that are kept: ten before and ten after the frame that is played.
const KEPT: &[u8] = b"<ADL>\r
<SEQUENCE>\r
(SEQ_SAMPLE_RATE) S48000\r
(SEQ_FRAME_RATE) 25\r
</SEQUENCE>\r
<SOURCE_INDEX>\r
(Index) 0001 (F) \"URL:file://localhost/M00001.wav\" _ 00.00.04.24/1910 00.00.00.00/0021\r
</SOURCE_INDEX>\r
<EVENT_LIST>\r
(Entry) 0001 (Cut) I 0001 1 1 00.00.05.00/0000 00.00.00.00/0000 00.00.00.00/0001\r
</EVENT_LIST>\r
</ADL>\r
";

#[test]
fn both_orders_of_a_consolidation_are_one(rt: HostRuntime) -> Result<(), Fail> {
    let mut medium = head_at(rt.alloc(), 1, Depth::Sixteen, 21, 239_990)?;
    for _ in 0..21 {
        medium.extend_from_slice(&[1, 0])?;
    }
    for order in [Order::ByTime, Order::BySource] {
        let bench = consolidated(rt.alloc(), order)?;
        assert!(rt; bench.bytes("M00001.wav") == Some(medium.as_slice()));
        assert!(rt; bench.bytes("consolidated.adl") == Some(KEPT));
    }
    Ok(())
}
