// What a consolidation is once its outputs are whole.
ghost use Rattle.std.specs.Prelude.{◌≡◌, ◌≤◌, ℕ, List, Option, true};
ghost use Rattle.work_terms.specs.Disk.{Files};
ghost use Rattle.passes.specs.Left.{Leaving};
ghost use Rattle.list_terms.specs.Binding.{Binding};
ghost use Rattle.list_terms.specs.Heard.{IsAccepted};
ghost use Rattle.list_terms.specs.Project.{ListProject};
ghost use Rattle.execution.specs.Plan.{HoldJobs, HoldLast, IsForeign};
ghost use Rattle.provenance.specs.Asked.{AskedReport};
ghost use Rattle.consolidation.specs.Consolidated.{IsConsolidated};
ghost use Rattle.consolidation.specs.Outputs.{AreNamedOutputs, job_plan};
ghost use Rattle.consolidation.specs.Planned.{IsPlanOf};
ghost use Rattle.consolidation.specs.Sizes.{written_of};
ghost use Rattle.consolidation.specs.There.{AreThere};
ghost use Rattle.consolidation.specs.Work.{SoundsTheSame};

use crate::sizes::sizes_of;
use crate::{Consolidation, Written};

impl<'a> Consolidation<'a> {
    /// What is reported of it once each of its outputs is whole: those of its jobs, and those that come last. It may be
    /// asked before any of them is written.
    pub fn outcome(&self) -> Written
        ensures value { result ≡ written_of self.now }
        ensures same_sound { (text : List ℕ) (leave : Leaving) (project : ListProject) (binding : Binding) (handle : ℕ)
            (asked : Option AskedReport) (sources written : Files) → IsAccepted text sources project binding
            → IsPlanOf leave project binding handle asked true sources self.now → AreThere sources self.now.sounds
            → HoldJobs (job_plan self.now) sources written → HoldLast (job_plan self.now) sources written
            → SoundsTheSame text sources written }
        ensures consolidated { (leave : Leaving) (project : ListProject) (binding : Binding) (handle : ℕ)
            (asked : Option AskedReport) (sources old written : Files)
            → IsPlanOf leave project binding handle asked true sources self.now → AreThere sources self.now.sounds
            → HoldJobs (job_plan self.now) sources written → HoldLast (job_plan self.now) sources written
            → ((n : List ℕ) → IsForeign (job_plan self.now) n → written n ≡ old n)
            → IsConsolidated leave project binding handle asked sources old written result }
        ensures names { AreNamedOutputs self.now }
        ensures few { result.media ≤ 32767 }
    {
        // It is known to be a plan from here on.
        let _ = self.count();
        self.written()
    }

    fn written(&self) -> Written
        ensures { result ≡ written_of self.now }
    {
        Written {
            media: self.runs.len() as u32,
            entries: self.entries,
            sizes: sizes_of(self.bound.sounds(), self.runs.as_slice(), self.text.len()),
        }
    }
}
