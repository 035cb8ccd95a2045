// Exact sums of the blocks of a plan, before any rounding.
ghost use Rattle.std.specs.Prelude.{◌≡◌, ◌+◌, ◌<◌, ◌≤◌, ℕ, pos, IsTrue, is_some, not};
ghost use Rattle.std.specs.List.{All};
ghost use Rattle.sampletime.specs.TimeCode.{day};
ghost use Rattle.sound_terms.specs.Mix.{Reading};
ghost use Rattle.sound_terms.specs.Groups.{sum_of};
ghost use Rattle.sound_terms.specs.Blocks.{BlockState, PlaysFull, block_count, block_frames, block_start, executed_all, program_of};
ghost use Rattle.renderplan.specs.Sources.{source_of};

use crate::Plan;

impl Plan {
    /// Returns the start time of block `k` in samples.
    pub fn start_of(&self, k: u64) -> u64
        requires { k < block_count self.now.range }
        ensures start { result ≡ block_start self.now.range k }
        ensures in_day { result ≤ day }
    {
        self.window_of(k).from
    }

    /// Returns whether none of the plan's pieces is audible in block `k`. All sums are zero then.
    pub fn is_silent(&self, k: u64) -> bool
        requires { k < block_count self.now.range }
        ensures found { is_some (source_of self.now.pieces self.now.range k) ≡ not result }
        ensures zero { IsTrue result → (reading : Reading) (i channel : ℕ) → i < block_frames self.now.range k
            → channel ≤ self.now.range.channels
            → sum_of reading self.now.pieces channel (block_start self.now.range k + i) ≡ pos 0 }
    {
        self.source_of(k).is_none()
    }

    /// States that the program of each block sums exactly the samples of its pieces. Has no effect
    /// at run time.
    pub fn sums_exactly(&self)
        ensures { (reading : Reading) (k : ℕ) → All (PlaysFull reading) (program_of self.now.pieces self.now.range k)
            → (start : BlockState) (i channel : ℕ) → i < block_frames self.now.range k
            → channel ≤ self.now.range.channels
            → (executed_all reading self.now.range.channels (program_of self.now.pieces self.now.range k) start).sums i
            channel ≡ sum_of reading self.now.pieces channel (block_start self.now.range k + i) }
    {
        let _ = self.format();
    }
}
