// Sequences of passes.
ghost use Rattle.std.specs.Prelude.{◌≡◌, ℕ, [], false, IsTrue, IfErr, IfOk, if◌then◌else◌};
ghost use Rattle.std.specs.List.{list_any};
ghost use Rattle.sound_terms.specs.Groups.{SameMix, mix_of, reads};
ghost use Rattle.sound_terms.specs.Passes.{in_turn, silences, standard_groups};
ghost use Rattle.passes.specs.Fault.{WantsMemory};
ghost use Rattle.passes.specs.Keeping.{ReadsNoMore, StayWhole};
ghost use Rattle.passes.specs.Silent.{AsksFor};
ghost use Rattle.passes.specs.Standard.{AreStandard, reads_sounding};

use crate::{Pass, PassFault, Samples, silent_of};
use groups::Intervals;
use std::alloc::Global;

/// Applies a pass and drops it. `silent` has one flag per piece, in order. Returns
/// `PassFault::Memory` if out of memory.
pub fn turn(
    alloc: Global,
    mut pass: Box<dyn Pass>,
    intervals: Intervals,
    silent: &[bool],
) -> Result<Intervals, PassFault>
    ensures given { IfOk result (λ new. new ≡ gives pass intervals silent.now) }
    ensures keeps_mix { IfOk result (λ new. SameMix intervals silent.now new) }
    ensures keeps_whole { IfOk result (StayWhole intervals) }
    ensures reads_no_more { ReadsNoMore intervals result }
    ensures memory { IfErr result WantsMemory }
{
    pass.apply(alloc, intervals, silent)
}

/// Applies a pass; finds the silent pieces first if the pass needs them.
fn asked<P: Samples>(
    alloc: Global,
    pass: Box<dyn Pass>,
    intervals: Intervals,
    samples: &mut P,
) -> Result<Intervals, PassFault>
    ensures given { IsTrue (P.honest samples.old) → IfOk result (λ new.
        new ≡ gives pass intervals (if looking pass then silences (P.reading samples.old) intervals else [])) }
    ensures keeps_mix { IsTrue (P.honest samples.old) → (channel time : ℕ)
        → IfOk result (λ new. mix_of (P.reading samples.old) new channel time
        ≡ mix_of (P.reading samples.old) intervals channel time) }
    ensures keeps_whole { IfOk result (StayWhole intervals) }
    ensures reads_no_more { ReadsNoMore intervals result }
    ensures looks { AsksFor P.Samples samples.old samples.new result }
    ensures unasked { looking pass ≡ false → samples.new ≡ samples.old }
{
    if pass.looks() {
        let silent = silent_of(alloc, &intervals, samples)?;
        turn(alloc, pass, intervals, silent.as_slice())
    } else {
        turn(alloc, pass, intervals, &[])
    }
}

/// Applies passes in order. Silent pieces are determined again before each pass that needs them,
/// and each pass is dropped after use. Returns `PassFault::Memory` if out of memory, and
/// `PassFault::Device` if samples can't be read.
pub fn run<P: Samples>(
    alloc: Global,
    passes: Vec<Box<dyn Pass>>,
    intervals: Intervals,
    samples: &mut P,
) -> Result<Intervals, PassFault>
    ensures given { IsTrue (P.honest samples.old) → IfOk result (λ new.
        new ≡ in_turn (λ pass. looking pass) (λ pass. gives pass) (silences (P.reading samples.old)) passes.items intervals) }
    ensures keeps_mix { IsTrue (P.honest samples.old) → (channel time : ℕ)
        → IfOk result (λ new. mix_of (P.reading samples.old) new channel time
        ≡ mix_of (P.reading samples.old) intervals channel time) }
    ensures standard { IsTrue (P.honest samples.old)
        → AreStandard (λ pass. looking pass) (λ pass. gives pass) passes.items
        → IfOk result (λ new. new ≡ standard_groups (P.reading samples.old) intervals) }
    ensures sounding { IsTrue (P.honest samples.old)
        → AreStandard (λ pass. looking pass) (λ pass. gives pass) passes.items → (file channel frame : ℕ)
        → IfOk result (λ new. reads new file channel frame
        ≡ reads_sounding (P.reading samples.old) intervals file channel frame) }
    ensures keeps_whole { IfOk result (StayWhole intervals) }
    ensures reads_no_more { ReadsNoMore intervals result }
    ensures looks { AsksFor P.Samples samples.old samples.new result }
    ensures unasked { list_any (λ pass. looking pass) passes.items ≡ false → samples.new ≡ samples.old }
{
    let mut left = intervals;
    for pass in passes {
        left = asked(alloc, pass, left, samples)?;
    }
    Ok(left)
}
