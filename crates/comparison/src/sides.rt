// Both sides of a comparison, block by block.
ghost use Rattle.std.specs.Prelude.{◌≡◌};

use crate::CompareFault;
use crate::block::BlockSums;
use crate::side::Side;
use crate::stored::{Files, Stored, sum_alike};
use devices::{Shelf, Watch};

/// Two sides with the same range, and the stored samples that were last read from their files.
#[derive(Drop)]
pub struct Sides<'a, 'b> {
    pub first: Side<'a>,
    pub second: Side<'b>,
    pub stored: Stored,
    ghost same: { second.work.planned.range ≡ first.work.planned.range },
}

impl<'a, 'b> Sides<'a, 'b> {
    ghost use Rattle.std.specs.Prelude.{◌+◌, IfOk, IsTrue, OnOk};
    ghost use Rattle.sound_terms.specs.Blocks.{block_frames, block_start};
    ghost use Rattle.comparison.specs.Alike.{AreAlike};
    ghost use Rattle.comparison.specs.Both.{AreKept, AreMatched, AreSummed, IsBlock, OfBoth};
    ghost use Rattle.comparison.specs.Side.{HasBlock};

    /// Sums block `k` of both sides. Returns `CompareFault::First` or `Second` if a file can't be
    /// read.
    pub fn sum<S: Shelf, T: Shelf>(
        &mut self,
        k: u64,
        first_shelf: &mut S,
        second_shelf: &mut T,
    ) -> Result<(), CompareFault>
        requires there { HasBlock self.old.first.work k }
        requires matched { AreMatched S.Shelf T.Shelf first_shelf.old second_shelf.old self.old }
        ensures summed { OfBoth S.Shelf T.Shelf first_shelf.old second_shelf.old self.old
            (λ mix other. OnOk result (AreSummed self.new k mix other)) }
        ensures kept { AreKept S.Shelf T.Shelf first_shelf.old first_shelf.new second_shelf.old second_shelf.new self.old
            self.new result }
    {
        match self.first.sum(k, first_shelf) {
            Ok(()) => {}
            Err(fault) => return Err(CompareFault::First(fault)),
        }
        match self.second.sum(k, second_shelf) {
            Ok(()) => Ok(()),
            Err(fault) => Err(CompareFault::Second(fault)),
        }
    }

    /// Returns whether block `k` is known to be equal without summing: neither side plays, or both
    /// add the same stored samples. Always false if `look` is false. Returns `CompareFault::First`
    /// or `Second` if a file of that side can't be read.
    pub fn are_alike<S: Shelf, T: Shelf>(
        &mut self,
        k: u64,
        look: bool,
        first_shelf: &mut S,
        second_shelf: &mut T,
    ) -> Result<bool, CompareFault>
        requires there { HasBlock self.old.first.work k }
        requires matched { AreMatched S.Shelf T.Shelf first_shelf.old second_shelf.old self.old }
        ensures alike { OfBoth S.Shelf T.Shelf first_shelf.old second_shelf.old self.old
            (λ mix other. IfOk result (λ alike. IsTrue alike → AreAlike
            (block_start self.old.first.work.planned.range k)
            (block_start self.old.first.work.planned.range k + block_frames self.old.first.work.planned.range k)
            self.old.first.work.planned.range.channels mix other)) }
        ensures kept { AreKept S.Shelf T.Shelf first_shelf.old first_shelf.new second_shelf.old second_shelf.new self.old
            self.new result }
    {
        if !look {
            return Ok(false);
        }
        if self.first.is_silent(k) && self.second.is_silent(k) {
            return Ok(true);
        }
        self.first.fill(k);
        self.second.fill(k);
        let files = Files {
            sounds: self.first.sounds(),
            others: self.second.sounds(),
        };
        let stored = &mut self.stored;
        sum_alike(
            self.first.lines(),
            self.second.lines(),
            &files,
            first_shelf,
            second_shelf,
            stored,
        )
    }

    /// Returns the sums of block `k` of both sides, which must have been summed last.
    pub fn sums(&self, k: u64) -> BlockSums<'_>
        requires { HasBlock self.now.first.work k }
        ensures { IsBlock self.now k result }
    {
        BlockSums {
            sums: self.first.sums(k),
            others: self.second.sums(k),
            frames: self.first.frames_of(k),
            channels: self.first.channels(),
            start: self.first.start_of(k),
        }
    }

    /// Reports the progress after block `k` to a watch.
    pub fn show_progress<W: Watch>(&self, k: u64, watch: &mut W) {
        let (done, whole) = self.first.progress_of(k);
        watch.reached(done, whole);
    }
}
