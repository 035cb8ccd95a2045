// The trait of passes over groups.
ghost use Rattle.std.specs.Prelude.{◌≡◌, Bool, List, IfOk, IfErr, OnErr};
ghost use Rattle.sound_terms.specs.declared.piece.Piece.{Piece};
ghost use Rattle.sound_terms.specs.Groups.{SameMix};
ghost use Rattle.passes.specs.Fault.{WantsMemory};
ghost use Rattle.passes.specs.Keeping.{ReadsNoMore, StayWhole};

use crate::PassFault;
use groups::Intervals;
use std::alloc::Global;

/// A transformation of groups that keeps the sum on every channel at every time.
pub trait Pass: Drop {
    /// The groups that the pass produces from a list of groups and the flags of silent pieces.
    ghost gives: { Self → List (List Piece) → List Bool → List (List Piece) };

    /// Whether the pass needs the flags of silent pieces.
    ghost looking: { Self → Bool };

    /// Returns whether the pass needs the flags of silent pieces.
    fn looks(&self) -> bool
        ensures { result ≡ looking self.now };

    /// Transforms groups. `silent` has one flag per piece, in order over all groups; pieces past
    /// its end count as not silent. Returns `PassFault::Memory` if out of memory, and then leaves
    /// the pass unchanged.
    fn apply(
        &mut self,
        alloc: Global,
        intervals: Intervals,
        silent: &[bool],
    ) -> Result<Intervals, PassFault>
        ensures given { IfOk result (λ new. new ≡ gives self.old intervals silent.now) }
        ensures keeps_mix { IfOk result (λ new. SameMix intervals silent.now new) }
        ensures keeps_whole { IfOk result (StayWhole intervals) }
        ensures reads_no_more { ReadsNoMore intervals result }
        ensures memory { IfErr result WantsMemory }
        ensures unchanged { OnErr result (self.new ≡ self.old) };
}
