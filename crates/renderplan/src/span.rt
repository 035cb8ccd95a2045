// Programs for several blocks at once.
ghost use Rattle.std.specs.Prelude.{◌≡◌, ◌+◌, ◌<◌, ◌≤◌, ℕ, List};
ghost use Rattle.std.specs.List.{All};
ghost use Rattle.sound_terms.specs.Sounds.{SoundFacts};
ghost use Rattle.sound_terms.specs.Media.{IsPieceOf};
ghost use Rattle.sound_terms.specs.Depth.{bits_of};
ghost use Rattle.sound_terms.specs.Mix.{Reading};
ghost use Rattle.sound_terms.specs.Groups.{sum_of};
ghost use Rattle.sound_terms.specs.Blocks.{BlockState, IsBlockProgram, LiesInFiles, PlaysFull, block_samples, block_start, executed_all};
ghost use Rattle.renderplan.specs.Spans.{CanFill, IsSpan, program_of_span, span_frames};

use crate::Plan;
use crate::lines::Window;
use crate::plan::BLOCK_LENGTH;
use sound_terms::Program;

impl Plan {
    /// Returns the extent of the blocks from `first` to `last` (exclusive).
    fn window_between(&self, first: u64, last: u64) -> Window
        requires { IsSpan self.now.range first last }
        ensures from { result.from ≡ block_start self.now.range first }
        ensures frames { result.frames ≡ span_frames self.now.range first last }
        ensures channels { result.channels ≡ self.now.range.channels }
    {
        let from = self.from.get() + first * BLOCK_LENGTH;
        let to = self.to.get().min(self.from.get() + last * BLOCK_LENGTH);
        Window {
            from,
            frames: (to - from) as u32,
            channels: self.channels,
        }
    }

    /// Overwrites a program with one that emits all samples of the blocks from `first` to `last`
    /// (exclusive) at once; otherwise like `fill`. Returns the number of sample frames.
    pub fn fill_span(&self, first: u64, last: u64, program: &mut Program) -> u32
        requires { CanFill self.now first last program.old.room }
        ensures frames { result ≡ span_frames self.now.range first last }
        ensures program { program.new
            ≡ record program.old { lines = program_of_span self.now.pieces self.now.range first last } }
        ensures handed { (reading : Reading) → All (PlaysFull reading) program.new.lines → (start : BlockState)
            → (executed_all reading self.now.range.channels program.new.lines start).out
            ≡ block_samples (bits_of self.now.range.depth)
            (λ i channel. sum_of reading self.now.pieces channel (block_start self.now.range first + i))
            self.now.range.channels 0 (span_frames self.now.range first last) }
        ensures sums { (reading : Reading) → All (PlaysFull reading) program.new.lines → (start : BlockState)
            → (i channel : ℕ) → i < span_frames self.now.range first last → channel ≤ self.now.range.channels
            → (executed_all reading self.now.range.channels program.new.lines start).sums i channel
            ≡ sum_of reading self.now.pieces channel (block_start self.now.range first + i) }
        ensures formed { IsBlockProgram (span_frames self.now.range first last) self.now.range.channels
            self.now.range.depth program.new.lines }
        ensures inside { (sounds : List SoundFacts) → All (IsPieceOf sounds) self.now.pieces
            → All (LiesInFiles sounds) program.new.lines }
    {
        let window = self.window_between(first, last);
        self.write(window, program);
        window.frames
    }
}
