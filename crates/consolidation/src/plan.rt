// What a consolidation is to write.
ghost use Rattle.std.specs.Prelude.{◌≡◌, ◌<◌, IfOk, IsTrue, Ok, option_map};
ghost use Rattle.work_terms.specs.Disk.{Files};
ghost use Rattle.work_terms.specs.Refusals.{Answers};
ghost use Rattle.list_terms.specs.Bound.{binding_of};
ghost use Rattle.list_terms.specs.Heard.{sounds_of};
ghost use Rattle.passes.specs.Left.{left_by};
ghost use Rattle.devices.specs.Frame.{OnlyReads};
ghost use Rattle.provenance.specs.Asked.{asked_of};
ghost use Rattle.consolidation.specs.Consolidated.{IsWorkOf, Work, work_fault};
ghost use Rattle.consolidation.specs.Fault.{FailsAt, IsSource, refusal_of};
ghost use Rattle.consolidation.specs.Outputs.{FitsSources};
ghost use Rattle.consolidation.specs.Planned.{IsMediaPlan, IsPlanOf};
ghost use Rattle.consolidation.specs.There.{AreThere};

use crate::ConsolidationFault;
use crate::output_groups::groups_left;
use crate::plan_parts::plan_of;
use devices::{Shelf, Watch};
use interval::from_checked;
use mediaset::Runs;
use passes::Pass;
use projectcheck::Checked;
use provenance::{Report, ReportOn};
use sourceindex::Bound;
use std::alloc::Global;
use std::marker::Model;

/// What may be chosen of a consolidation beside its passes: how many frames are kept on either side of what is played,
/// and with what the report is asked for, if it is.
#[derive(Clone, Copy, Debug)]
pub struct MediaChoice<'v> {
    pub handle: u64,
    pub report: Option<ReportOn<'v>>,
}

/// A consolidation before its first write: the runs of bound files that become media, with the home of each file; how
/// many jobs the runs up to and with each have; the text of the list over the media, with so many entries; and the
/// report, where one is asked for.
#[derive(Drop)]
pub struct Consolidation<'a> {
    pub(crate) bound: &'a Bound,
    pub(crate) runs: Runs,
    pub(crate) ends: Vec<u32>,
    pub(crate) text: Vec<u8>,
    pub(crate) entries: u32,
    pub(crate) report: Option<Report>,
}

impl<'a> Model for Consolidation<'a> {
    ghost use Rattle.list_terms.specs.Heard.{sounds_of};
    ghost use Rattle.consolidation.specs.Ends.{AreEnds};
    ghost use Rattle.consolidation.specs.Planned as planned;

    ghost Value = { planned.MediaPlan };

    ghost view = { λ c. planned.plan_of (sounds_of c.bound.now) c.runs c.text.items c.entries c.report };

    ghost invariant = { λ c. planned.IsMediaPlan (planned.plan_of (sounds_of c.bound.now) c.runs c.text.items c.entries c.report)
        × AreEnds c.runs.runs c.ends.items };
}

impl<'a> Consolidation<'a> {
    /// Plans the consolidation of a project without a fault over the sources of a shelf. The passes go over the pieces
    /// of its entries, one after the other. Kept are the frames that the pieces play that they leave, and those at most
    /// the chosen number of frames away that can be addressed. Each run of kept frames becomes a medium of its own
    /// (`M00001.wav` and so on, Broadcast Wave, EBU Tech 3285), with the channels, the depth, the texts and the
    /// CodingHistory of its source and the time of its first frame as TimeReference; `consolidated.adl` is the list over
    /// these media. Whatever the passes, it sounds as the given project does, sample for sample.
    ///
    /// Where it is asked for, the report of all this and the checksums of all files are made here too, by one more
    /// reading of the frames that are kept; where the report has the digests of whole sources, by one of each of these,
    /// too.
    ///
    /// All memory that the consolidation needs is taken here. `Intervals`, `Pass`, `Runs` and `Relink`, in this turn; where
    /// no memory was left for where the jobs of the runs end, `Runs`, and for the report, `Relink`. The watch is told how far the
    /// looking for silence has come.
    #[tactic(auto, using(crate::proofs::Opened::bound_there))]
    pub fn plan<S: Shelf, W: Watch>(
        alloc: Global,
        checked: &'a Checked,
        choice: MediaChoice,
        passes: Vec<Box<dyn Pass>>,
        shelf: &mut S,
        watch: &mut W,
    ) -> Result<Self, ConsolidationFault>
        ensures planned { IfOk result (IsPlanOf (left_by (λ pass. looking pass) (λ pass. gives pass) passes.items)
            checked.now.project checked.now.bound choice.entry.handle
            (option_map asked_of choice.entry.report)
            (S.honest shelf.old) (S.stored shelf.old)) }
        ensures refusals { IsTrue (S.honest shelf.old) → (work : Work)
            → IsWorkOf (left_by (λ pass. looking pass) (λ pass. gives pass) passes.items)
            checked.now.project checked.now.bound choice.entry.handle (S.stored shelf.old) work
            → Answers refusal_of result (work_fault work) }
        ensures there { (sources : Files) → binding_of checked.now.project sources ≡ Ok checked.now.bound
            → AreThere sources (sounds_of checked.now.bound) }
        ensures fits { IfOk result FitsSources }
        ensures only_reads { OnlyReads S.Shelf shelf.old shelf.new result IsSource
            (FailsAt (sounds_of checked.now.bound)) }
    {
        let intervals = from_checked(alloc, checked)?;
        let left = groups_left(alloc, intervals, checked, passes, shelf, watch)?;
        plan_of(alloc, checked, choice, left, shelf)
    }
}
