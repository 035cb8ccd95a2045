// Pieces of runs.

/// A piece of a run: the run's position in the list, from 0, and `frames` sample frames from offset `from` in the
/// run.
#[derive(Clone, Copy, Debug, PartialEq, Eq)]
pub struct CopyJob {
    pub run: u32,
    pub from: u64,
    pub frames: u32,
}
