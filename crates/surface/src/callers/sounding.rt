// Groups of pieces, and the effects of passes.
use anyhow::Result;
use interval::{Group, IntervalFault, Intervals, Piece, Pieces, Placed, Shape, group_pieces};
use passes::{DropSilent, JoinCuts, Pass, PassFault, Regroup, Samples, SplitFades, run, silent_of};
use sampletime::SampleTime;
use shelf::ShelfFault;
use std::alloc::{AllocError, Global};

/// Creates a list of one group: the first second of the first file, at midnight on the first
/// channel.
pub fn one_second(alloc: Global) -> Result<Intervals, AllocError> {
    let piece = Piece {
        start: 0,
        length: 48_000,
        frame: 0,
        file: 0,
        first: 1,
        dest: 1,
        width: 1,
        shape: Shape::Flat,
    };
    let groups = vec![in alloc; Group::alone(alloc, piece)]?;
    Ok(Intervals::of(groups))
}

/// Returns the pieces of the first group.
pub fn first_pieces(intervals: &Intervals) -> Option<Pieces> {
    let group = intervals.groups().first()?;
    Some(group_pieces(group))
}

/// Cuts groups at a time.
pub fn cut(intervals: Intervals, time: SampleTime) -> Result<Intervals, IntervalFault> {
    intervals.cut_at(time)
}

/// Returns the events of groups, or `None` if a fade is cut.
pub fn placed(intervals: &Intervals) -> Result<Option<Vec<Placed>>, IntervalFault> {
    if !intervals.whole() {
        return Ok(None);
    }
    let events = intervals.to_events()?;
    Ok(Some(events))
}

/// Returns whether the first second of a stereo file is silent.
pub fn begins_silent<P: Samples>(samples: &mut P) -> Result<bool, ShelfFault> {
    samples.all_zero(0, 1, 2, 0, 48_000)
}

/// Returns the silence flags of all pieces.
pub fn silences<P: Samples>(
    alloc: Global,
    intervals: &Intervals,
    samples: &mut P,
) -> Result<Vec<bool>, PassFault> {
    silent_of(alloc, intervals, samples)
}

/// Applies the standard passes.
pub fn after_passes<P: Samples>(
    alloc: Global,
    intervals: Intervals,
    samples: &mut P,
) -> Result<Intervals> {
    let splitting: Box<dyn Pass> = Box::new(alloc, SplitFades)?;
    let leaving_out: Box<dyn Pass> = Box::new(alloc, DropSilent)?;
    let joining: Box<dyn Pass> = Box::new(alloc, JoinCuts)?;
    let grouping: Box<dyn Pass> = Box::new(alloc, Regroup)?;
    let passes = vec![in alloc; splitting, leaving_out, joining, grouping]?;
    let left = run(alloc, passes, intervals, samples)?;
    Ok(left)
}

/// Applies a pass; also returns whether it needs the silence flags.
pub fn after_pass<P: Pass>(
    alloc: Global,
    pass: &mut P,
    intervals: Intervals,
    silent: &[bool],
) -> Result<(bool, Intervals), PassFault> {
    let looks = pass.looks();
    let groups = pass.apply(alloc, intervals, silent)?;
    Ok((looks, groups))
}
