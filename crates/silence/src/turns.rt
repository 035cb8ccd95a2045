// Passes over opened sound files, in sequence.
ghost use Rattle.std.specs.Prelude.{◌≡◌, ℕ, [], false, IfOk, IsTrue, if◌then◌else◌};
ghost use Rattle.std.specs.List.{list_any};
ghost use Rattle.sound_terms.specs.Groups.{mix_of, reads};
ghost use Rattle.sound_terms.specs.Passes.{in_turn, silences, standard_groups};
ghost use Rattle.sound_terms.specs.Sounds.{reading_by};
ghost use Rattle.passes.specs.Keeping.{ReadsNoMore, StayWhole};
ghost use Rattle.passes.specs.Silent.{IsDevice};
ghost use Rattle.passes.specs.Standard.{AreStandard, reads_sounding};
ghost use Rattle.devices.specs.Frame.{OnlyReads};
ghost use Rattle.silence.specs.Fault.{FailsAt};

use crate::silences::silent_of;
use devices::{Shelf, Watch};
use groups::Intervals;
use passes::{Pass, PassFault, turn};
use std::alloc::Global;
use wavread::Sound;

/// Applies a pass, after a search for silence if the pass needs one.
fn asked<S: Shelf, W: Watch>(
    alloc: Global,
    pass: Box<dyn Pass>,
    intervals: Intervals,
    sounds: &[Sound],
    shelf: &mut S,
    watch: &mut W,
) -> Result<Intervals, PassFault>
    ensures given { IsTrue (S.honest shelf.old) → IfOk result (λ new. new ≡ gives pass intervals
        (if looking pass then silences (reading_by (S.stored shelf.old) sounds.now) intervals else [])) }
    ensures keeps_mix { IsTrue (S.honest shelf.old) → (channel time : ℕ)
        → IfOk result (λ new. mix_of (reading_by (S.stored shelf.old) sounds.now) new channel time
        ≡ mix_of (reading_by (S.stored shelf.old) sounds.now) intervals channel time) }
    ensures keeps_whole { IfOk result (StayWhole intervals) }
    ensures reads_no_more { ReadsNoMore intervals result }
    ensures only_reads { OnlyReads S.Shelf shelf.old shelf.new result IsDevice (FailsAt sounds.now) }
    ensures unasked { looking pass ≡ false → shelf.new ≡ shelf.old }
{
    if pass.looks() {
        let silent = silent_of(alloc, &intervals, sounds, shelf, watch)?;
        turn(alloc, pass, intervals, silent.as_slice())
    } else {
        turn(alloc, pass, intervals, &[])
    }
}

/// Applies passes to groups, one after the other, and returns the resulting groups. The files of the pieces are indexes
/// into `sounds`.
///
/// Silence is searched again before each pass that needs it, and its progress is reported to the watch. Each pass is
/// dropped after it was applied. Returns `Device` if a read fails, and `Memory` if out of memory.
pub fn run<S: Shelf, W: Watch>(
    alloc: Global,
    passes: Vec<Box<dyn Pass>>,
    intervals: Intervals,
    sounds: &[Sound],
    shelf: &mut S,
    watch: &mut W,
) -> Result<Intervals, PassFault>
    ensures given { IsTrue (S.honest shelf.old)
        → IfOk result (λ new. new ≡ in_turn (λ pass. looking pass) (λ pass. gives pass)
        (silences (reading_by (S.stored shelf.old) sounds.now)) passes.items intervals) }
    ensures standard { IsTrue (S.honest shelf.old)
        → AreStandard (λ pass. looking pass) (λ pass. gives pass) passes.items
        → IfOk result (λ new. new ≡ standard_groups (reading_by (S.stored shelf.old) sounds.now) intervals) }
    ensures sounding { IsTrue (S.honest shelf.old)
        → AreStandard (λ pass. looking pass) (λ pass. gives pass) passes.items → (file channel frame : ℕ)
        → IfOk result (λ new. reads new file channel frame
        ≡ reads_sounding (reading_by (S.stored shelf.old) sounds.now) intervals file channel frame) }
    ensures keeps_mix { IsTrue (S.honest shelf.old) → (channel time : ℕ)
        → IfOk result (λ new. mix_of (reading_by (S.stored shelf.old) sounds.now) new channel time
        ≡ mix_of (reading_by (S.stored shelf.old) sounds.now) intervals channel time) }
    ensures keeps_whole { IfOk result (StayWhole intervals) }
    ensures reads_no_more { ReadsNoMore intervals result }
    ensures only_reads { OnlyReads S.Shelf shelf.old shelf.new result IsDevice (FailsAt sounds.now) }
    ensures unasked { list_any (λ pass. looking pass) passes.items ≡ false → shelf.new ≡ shelf.old }
{
    let mut left = intervals;
    for pass in passes {
        left = asked(alloc, pass, left, sounds, shelf, watch)?;
    }
    Ok(left)
}
