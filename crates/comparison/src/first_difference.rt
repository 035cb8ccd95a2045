// The search for the first difference between two sides.
ghost use Rattle.std.specs.Prelude.{◌+◌, IfOk};
ghost use Rattle.sound_terms.specs.Blocks.{block_frames, block_start};
ghost use Rattle.comparison.specs.Alike.{IsCompared};
ghost use Rattle.comparison.specs.Both.{AreKept, AreMatched, OfBoth};
ghost use Rattle.comparison.specs.Side.{HasBlock};

use crate::CompareFault;
use crate::difference::{Difference, first_difference};
use crate::sides::Sides;
use devices::{Shelf, Watch};

/// Returns the first difference in block `k`. Sums nothing if the sides are seen to be equal
/// without.
fn compare_block<S: Shelf, T: Shelf>(
    k: u64,
    sides: &mut Sides,
    first_shelf: &mut S,
    second_shelf: &mut T,
) -> Result<Option<Difference>, CompareFault>
    requires there { HasBlock sides.old.first.work k }
    requires matched { AreMatched S.Shelf T.Shelf first_shelf.old second_shelf.old sides.old }
    ensures compared { OfBoth S.Shelf T.Shelf first_shelf.old second_shelf.old sides.old
        (λ mix other. IfOk result (IsCompared
        (block_start sides.old.first.work.planned.range k)
        (block_start sides.old.first.work.planned.range k + block_frames sides.old.first.work.planned.range k)
        sides.old.first.work.planned.range.channels mix other)) }
    ensures kept { AreKept S.Shelf T.Shelf first_shelf.old first_shelf.new second_shelf.old second_shelf.new sides.old
        sides.new result }
{
    let alike = sides.are_alike(k, true, first_shelf, second_shelf)?;
    if alike {
        return Ok(None);
    }
    sides.sum(k, first_shelf, second_shelf)?;
    let block = sides.sums(k);
    Ok(first_difference(&block))
}

/// Returns the first difference between two sides, on the channels and samples of their common
/// range, or `None` if they sound the same. Compares block by block and stops after the first that
/// differs; reports progress to `watch` after each equal block. Returns `CompareFault::First` or
/// `Second` if a file of that side can't be read.
pub fn compare_sides<S: Shelf, T: Shelf, W: Watch>(
    sides: &mut Sides,
    first_shelf: &mut S,
    second_shelf: &mut T,
    watch: &mut W,
) -> Result<Option<Difference>, CompareFault>
    requires { AreMatched S.Shelf T.Shelf first_shelf.old second_shelf.old sides.old }
    ensures compared { OfBoth S.Shelf T.Shelf first_shelf.old second_shelf.old sides.old
        (λ mix other. IfOk result (IsCompared sides.old.first.work.planned.range.from
        sides.old.first.work.planned.range.to sides.old.first.work.planned.range.channels mix other)) }
    ensures kept { AreKept S.Shelf T.Shelf first_shelf.old first_shelf.new second_shelf.old second_shelf.new sides.old
        sides.new result }
{
    for k in 0..sides.first.blocks() {
        let found = compare_block(k, sides, first_shelf, second_shelf)?;
        if found.is_some() {
            return Ok(found);
        }
        sides.show_progress(k, watch);
    }
    Ok(None)
}
