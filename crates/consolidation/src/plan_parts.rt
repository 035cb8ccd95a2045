// Plans a consolidation.
ghost use Rattle.std.specs.Prelude.{◌≡◌, ◌<◌, ◌≤◌, ℕ, All, IfErr, IfOk, IsErrOf, IsTrue, List, Ok, OnOk, is_some, length, option_map};
ghost use Rattle.sound_terms.specs.declared.piece.Run as run;
ghost use Rattle.sound_terms.specs.Homes.{kept_of, place_by};
ghost use Rattle.sound_terms.specs.Kept.{AreRuns};
ghost use Rattle.sound_terms.specs.Media.{IsRunOf};
ghost use Rattle.devices.specs.Frame.{OnlyReads};
ghost use Rattle.work_terms.specs.Refusals.{Answers};
ghost use Rattle.list_terms.specs.BoundHomes.{homes_of};
ghost use Rattle.list_terms.specs.Heard.{sounds_of};
ghost use Rattle.list_terms.specs.Renewed.{consolidated_project};
ghost use Rattle.list_terms.specs.WrittenText.{text_of_project};
ghost use Rattle.provenance.specs.Asked.{asked_of};
ghost use Rattle.consolidation.specs.Consolidated.{Work, work_fault};
ghost use Rattle.consolidation.specs.Fault.{FailsAt, IsSource, refusal_of};
ghost use Rattle.consolidation.specs.Own.{IsOfLinking, IsOfReport};
ghost use Rattle.consolidation.specs.Planned.{AreAddressed, AreKeptRuns, AreLeft, IsAddressed, IsMediumRun, IsPlanned};
ghost use Rattle.consolidation.specs.Reported.{HasReport, told_of};
ghost use Rattle.consolidation.specs.Work.{IsLinked};

use crate::media::ends_of;
use crate::{Consolidation, ConsolidationFault, MediaChoice};
use adlmodel::Project;
use adlwrite::text_of;
use devices::Shelf;
use groups::Intervals;
use mediacopy::reads_back;
use mediaset::{RunFault, Runs};
use passes::PassFault;
use projectcheck::Checked;
use provenance::{Report, ReportFault, report_of};
use relink::{RelinkFault, relink_homed};
use sound_terms::{Homes, Run};
use std::alloc::Global;
use wavread::Sound;

/// The run can become a medium. It does nothing.
fn reads_back_at(sounds: &[Sound], homes: &Homes, run: &Run)
    requires { IsAddressed sounds.now homes.now run.now }
    ensures { IsMediumRun sounds.now homes.now run.now }
{
    let sound = &sounds[run.file as usize];
    reads_back(sound, homes.base(run.file), run);
}

/// All runs can become media. It changes nothing.
fn all_read_back(sounds: &[Sound], runs: &Runs)
    requires { AreAddressed sounds.now runs.now }
    ensures { All (IsMediumRun sounds.now runs.now.homes) runs.now.runs }
{
    let homes = runs.homes();
    let list = runs.as_slice();
    for run in list {
        reads_back_at(sounds, homes, run);
    }
}

/// The runs of kept frames round these groups. `TooManyRuns` or `Memory` where there are none.
fn kept_runs(
    alloc: Global,
    checked: &Checked,
    handle: u64,
    intervals: &Intervals,
) -> Result<Runs, RunFault>
    requires { AreLeft checked.now.bound intervals.now }
    ensures kept { IfOk result (AreKeptRuns checked.now.bound handle intervals.now) }
    ensures too_many { IsErrOf result RunFault.TooManyRuns → (runs : List run.Run)
        → AreRuns (kept_of intervals.now (homes_of checked.now.bound) handle) (place_by (homes_of checked.now.bound)) runs
        → 32767 < length runs }
{
    let bound = checked.bound();
    // The binding is known to be one from here on.
    let _ = bound.sounds();
    let Ok(homes) = bound.homes(alloc) else {
        return Err(RunFault::Memory);
    };
    match Runs::kept(alloc, intervals, homes, handle) {
        Ok(runs) => return Ok(runs),
        Err(fault) => return Err(fault),
    }
}

/// The list over the media of runs, and its text.
#[derive(Drop)]
struct Listed {
    project: Project,
    text: Vec<u8>,
}

/// The list over the media of these runs. The groups are let go before its text is written.
fn text_over(
    alloc: Global,
    checked: &Checked,
    intervals: Intervals,
    runs: &Runs,
) -> Result<Listed, ConsolidationFault>
    requires { (handle : ℕ) × AreKeptRuns checked.now.bound handle intervals runs.now }
    ensures text { IfOk result (λ list. list.text.items
        ≡ text_of_project (consolidated_project checked.now.project runs.now.homes intervals runs.now.runs)) }
    ensures project { IfOk result (λ list. list.project
        ≡ consolidated_project checked.now.project runs.now.homes intervals runs.now.runs) }
    ensures linked { OnOk result (IsLinked checked.now.project (sounds_of checked.now.bound)
        (homes_of checked.now.bound) intervals runs.now.runs) }
    ensures few_entries { OnOk result (length intervals ≤ 32767) }
    ensures own { IfErr result (IsOfLinking (length intervals)) }
{
    let renewed = relink_homed(alloc, &intervals, runs, checked.project())?;
    drop(intervals);
    let Ok(text) = text_of(alloc, &renewed) else {
        return Err(ConsolidationFault::Relink(RelinkFault::Memory));
    };
    Ok(Listed {
        project: renewed,
        text,
    })
}

/// The report of a consolidation to these runs, where it is asked for.
fn report_for<S: Shelf>(
    alloc: Global,
    checked: &Checked,
    runs: &Runs,
    list: &Listed,
    choice: MediaChoice,
    shelf: &mut S,
) -> Result<Option<Report>, ConsolidationFault>
    requires { All (IsRunOf (sounds_of checked.now.bound)) runs.now.runs }
    ensures report { IsTrue (S.honest shelf.old)
        → IfOk result (HasReport (option_map asked_of choice.entry.report) (S.stored shelf.old) (λ asked.
        record {
          project = checked.now.project;
          binding = checked.now.bound;
          kept = runs.now;
          events = list.now.project.events;
          text = list.now.text.items;
          handle = choice.entry.handle;
          asked = asked;
        })) }
    ensures is_asked { IfOk result
        (λ report. is_some report ≡ is_some (option_map asked_of choice.entry.report)) }
    ensures own { IfErr result IsOfReport }
    ensures only_reads { OnlyReads S.Shelf shelf.old shelf.new result IsSource (FailsAt (sounds_of checked.now.bound)) }
{
    let Some(asked) = choice.report else {
        return Ok(None);
    };
    match report_of(
        alloc,
        checked.project(),
        checked.bound(),
        runs,
        list.project.events(),
        &list.text,
        choice.handle,
        asked,
        shelf,
    ) {
        Ok(report) => Ok(Some(report)),
        Err(ReportFault::Device { file }) => {
            Err(ConsolidationFault::Pass(PassFault::Device { file }))
        }
        Err(ReportFault::Memory) => Err(ConsolidationFault::Relink(RelinkFault::Memory)),
    }
}

/// The plan for the groups that are left, with the report that is asked for. `Runs` and `Relink`, in this turn; `Pass`
/// where a source fails as it is read for the report.
pub fn plan_of<'a, S: Shelf>(
    alloc: Global,
    checked: &'a Checked,
    choice: MediaChoice,
    intervals: Intervals,
    shelf: &mut S,
) -> Result<Consolidation<'a>, ConsolidationFault>
    requires left { AreLeft checked.now.bound intervals }
    ensures planned { IfOk result (IsPlanned checked.now.project checked.now.bound choice.entry.handle
        intervals) }
    ensures refusals { (work : Work) → work.groups ≡ intervals
        → AreRuns (kept_of work.groups (homes_of checked.now.bound) choice.entry.handle)
        (place_by (homes_of checked.now.bound))
        work.runs
        → Answers refusal_of result (work_fault work) }
    ensures report { IsTrue (S.honest shelf.old)
        → IfOk result (λ plan. HasReport (option_map asked_of choice.entry.report) (S.stored shelf.old)
        (told_of checked.now.project checked.now.bound choice.entry.handle intervals plan.runs) plan.report) }
    ensures is_asked { IfOk result
        (λ plan. is_some plan.report ≡ is_some (option_map asked_of choice.entry.report)) }
    ensures only_reads { OnlyReads S.Shelf shelf.old shelf.new result IsSource (FailsAt (sounds_of checked.now.bound)) }
{
    let runs = kept_runs(alloc, checked, choice.handle, &intervals)?;
    let entries = intervals.groups().len() as u64;
    let list = text_over(alloc, checked, intervals, &runs)?;
    let bound = checked.bound();
    all_read_back(bound.sounds(), &runs);
    let Ok(ends) = ends_of(alloc, bound.sounds(), &runs) else {
        return Err(ConsolidationFault::Runs(RunFault::Memory));
    };
    let report = report_for(alloc, checked, &runs, &list, choice, shelf)?;
    Ok(Consolidation {
        bound,
        runs,
        ends,
        text: list.text,
        entries: entries as u32,
        report,
    })
}
