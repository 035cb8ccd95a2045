// What passes leave of the pieces of the entries.
ghost use Rattle.std.specs.Prelude.{IfOk, IsTrue};
ghost use Rattle.list_terms.specs.Heard.{sounds_of};
ghost use Rattle.passes.specs.Left.{left_by};
ghost use Rattle.passes.specs.Silent.{IsDevice};
ghost use Rattle.devices.specs.Frame.{OnlyReads};
ghost use Rattle.silence.specs.Fault.{FailsAt};
ghost use Rattle.consolidation.specs.Planned.{AreEntries, AreLeft, SoundsAsGiven};

use devices::{Shelf, Watch};
use groups::Intervals;
use passes::{Pass, PassFault};
use projectcheck::Checked;
use silence::run;
use std::alloc::Global;

/// What passes leave of the pieces of the entries.
pub fn groups_left<S: Shelf, W: Watch>(
    alloc: Global,
    intervals: Intervals,
    checked: &Checked,
    passes: Vec<Box<dyn Pass>>,
    shelf: &mut S,
    watch: &mut W,
) -> Result<Intervals, PassFault>
    requires { AreEntries checked.now.project checked.now.bound intervals }
    ensures left { IfOk result (AreLeft checked.now.bound) }
    ensures given { IsTrue (S.honest shelf.old)
        → IfOk result (SoundsAsGiven (left_by (λ pass. looking pass) (λ pass. gives pass) passes.items)
        checked.now.project checked.now.bound (S.stored shelf.old)) }
    ensures only_reads { OnlyReads S.Shelf shelf.old shelf.new result IsDevice (FailsAt (sounds_of checked.now.bound)) }
{
    let left = run(
        alloc,
        passes,
        intervals,
        checked.bound().sounds(),
        shelf,
        watch,
    )?;
    // Its groups are known to be well formed from here on.
    let _ = left.groups();
    Ok(left)
}
