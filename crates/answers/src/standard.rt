// Answers with the standard passes.
ghost use Rattle.std.specs.Prelude.{◌≡◌, ◌≢◌, ◌≤◌, ℕ, Err, IfOk, OnErr};
ghost use Rattle.clap.specs.Walk.{Text};
ghost use Rattle.commandline.specs.declared.choice.MediaReport as choice;
ghost use Rattle.commandline.specs.CommandLine as asked;
ghost use Rattle.commandline.specs.Request.{asked_of};
ghost use Rattle.consolidate.specs.Commands.{IsConsolidation};
ghost use Rattle.sound_terms.specs.Passes.{standard_groups};
ghost use Rattle.console.specs.Printing.{Prints};
ghost use Rattle.list_terms.specs.Text.{rate_of as rate_at};
ghost use Rattle.rendering.specs.declared.job_length.JobLength.TheVariants.{Longer};
ghost use Rattle.answers.specs.Answers.{IsAnswered, MayBeMistaken, RendersBy, ResumesBy, asking, rendered_lines, resumed_lines, written_lines};
ghost use Rattle.asides.specs.Terminals.{GivesBack};
ghost use Rattle.verdicts.specs.Times.{bad_time_line};
ghost use Rattle.answers.specs.Times.{values_of};

use crate::requests::{Command, answer_request};
use asides::{Asides, Meter, Terminal};
use commandline::Request;
use console::Console;
use consolidate::JobLength;
use passes::{DropSilent, JoinCuts, Pass, Regroup, SplitFades};
use shelf::{Bench, Reasons, Shelf};
use std::alloc::{AllocError, Global};

/// Answers a request as `answer_request` does, a rendering in longer jobs, and a consolidation with the standard
/// passes: each fade becomes a piece of its own, what is silent is left out, cuts are joined, and pieces that continue
/// one another are groups again.
pub fn answer_standard<
    S: Shelf + Reasons,
    B: Bench + Reasons,
    O: Console,
    E: Console,
    M: Meter,
    A: Asides,
>(
    alloc: Global,
    request: Request<'_>,
    list: &[u8],
    shelf: &mut S,
    bench: &mut B,
    terminal: &mut Terminal<O, E, M, A>,
) -> Result<u8, AllocError>
    ensures consoles { GivesBack terminal.old terminal.new }
    ensures rendered { (path media target : Text) (chosen : asked.Chosen)
        → asked_of request.entry ≡ asked.Render path media target chosen → IfOk result (λ status. status ≢ 2
        → IsAnswered (RendersBy S.Shelf B.Bench Longer chosen list.now shelf.old shelf.new bench.old bench.new)
        rendered_lines O.Console terminal.old.out.now terminal.new.out.now status) }
    ensures resumed { (path media target : Text) (chosen : asked.Chosen)
        → asked_of request.entry ≡ asked.Resume path media target chosen → IfOk result (λ status. status ≢ 2
        → IsAnswered (ResumesBy S.Shelf B.Bench Longer chosen list.now shelf.old shelf.new bench.old bench.new)
        resumed_lines O.Console terminal.old.out.now terminal.new.out.now status) }
    ensures consolidated { (path media target : Text) (handle : ℕ) (report : choice.MediaReport)
        → asked_of request.entry ≡ asked.Consolidate path media target handle report
        → IfOk result (λ status. IsAnswered (IsConsolidation S.Shelf B.Bench standard_groups list.now handle
        (asking report list.now) shelf.old shelf.new bench.old bench.new)
        written_lines O.Console terminal.old.out.now terminal.new.out.now status) }
    // It names a time that can't be read.
    ensures bad_time { (path media target : Text) (chosen : asked.Chosen) (option : Text)
        → asked_of request.entry ≡ asked.Render path media target chosen
        → values_of (rate_at list.now) chosen ≡ Err option → IfOk result
        (λ status. (status ≡ 2)
        × Prints E.contents E.failures terminal.old.err.now terminal.new.err.now (bad_time_line option)) }
    ensures bad_time_resumed { (path media target : Text) (chosen : asked.Chosen) (option : Text)
        → asked_of request.entry ≡ asked.Resume path media target chosen
        → values_of (rate_at list.now) chosen ≡ Err option → IfOk result
        (λ status. (status ≡ 2)
        × Prints E.contents E.failures terminal.old.err.now terminal.new.err.now (bad_time_line option)) }
    ensures statuses { IfOk result (λ status. status ≤ 2) }
    ensures mistake { IfOk result (λ status. status ≡ 2
        → MayBeMistaken E.Console terminal.old.err.now terminal.new.err.now (rate_at list.now)
        (asked_of request.entry)) }
    ensures two { IfOk result (λ status. status ≡ 2
        → (shelf.new ≡ shelf.old) × (bench.new ≡ bench.old) × (terminal.new.out.now ≡ terminal.old.out.now)) }
    ensures nothing { OnErr result (terminal.new.out.now ≡ terminal.old.out.now) }
    ensures untouched { OnErr result ((shelf.new ≡ shelf.old) × (bench.new ≡ bench.old)) }
{
    // for speed
    let jobs = JobLength::Longer;
    match request {
        Request::Consolidate(_, _, _) => {
            let splitting: Box<dyn Pass> = Box::new(alloc, SplitFades)?;
            let leaving_out: Box<dyn Pass> = Box::new(alloc, DropSilent)?;
            let joining: Box<dyn Pass> = Box::new(alloc, JoinCuts)?;
            let grouping: Box<dyn Pass> = Box::new(alloc, Regroup)?;
            let passes = vec![in alloc; splitting, leaving_out, joining, grouping]?;
            let command = Command {
                request,
                passes,
                jobs,
            };
            Ok(answer_request(alloc, command, list, shelf, bench, terminal))
        }
        Request::Check(_, _)
        | Request::Report(_, _)
        | Request::Render(_, _)
        | Request::Resume(_, _)
        | Request::Compare(_, _)
        | Request::Show(_, _, _, _)
        | Request::Explain(_)
        | Request::ExplainNotice(_) => {
            let command = Command {
                request,
                passes: Vec::new(alloc),
                jobs,
            };
            Ok(answer_request(alloc, command, list, shelf, bench, terminal))
        }
    }
}
