// The program's answer to a request.
ghost use Rattle.std.specs.Prelude.{◌≡◌, ◌≢◌, ◌≤◌, ◌↔◌, ℕ, Err, IsTrue, List, Ok, Option, false, option_map, true};
ghost use Rattle.clap.specs.Walk.{Text};
ghost use Rattle.clap.specs.Words.{kind_of};
ghost use Rattle.clap.specs.declared.error.ErrorKind.TheVariants.{OutOfMemory};
ghost use Rattle.consolidate.specs.Asked.{asked_on};
ghost use Rattle.consolidate.specs.Commands.{IsConsolidation};
ghost use Rattle.passes.specs.Left.{left_by};
ghost use Rattle.passes.specs.Standard.{AreStandard};
ghost use Rattle.sound_terms.specs.Passes.{standard_groups};
ghost use Rattle.rendering.specs.Rendering as rendering;
ghost use Rattle.commandline.specs.declared.choice.MediaReport as choice;
ghost use Rattle.commandline.specs.CommandLine as asked;
ghost use Rattle.commandline.specs.CommandLine.{is_shown};
ghost use Rattle.commandline.specs.Request.{asked_of, chosen_of};
ghost use Rattle.console.specs.Printing.{Prints};
ghost use Rattle.list_terms.specs.Steps.{ok_map};
ghost use Rattle.list_terms.specs.Text.{rate_of as rate_at};
ghost use Rattle.answers.specs.Answers.{IsAnswered, IsChecked, IsReportPrinted, MayBeMistaken, RendersAs, RendersBy, ResumesAs, ResumesBy, accepted_lines, asking, rendered_lines, resumed_lines, written_lines};
ghost use Rattle.asides.specs.Terminals.{GivesBack};
ghost use Rattle.answers.specs.Mistaken.{no_memory_line};
ghost use Rattle.answers.specs.Requests.{AnswersAsked};
ghost use Rattle.checkreport.specs.Reported.{IsReported};
ghost use Rattle.verdicts.specs.Times.{bad_time_line};
ghost use Rattle.verdicts.specs.Verdicts.{NamesBadTime};
ghost use Rattle.answers.specs.Times.{part_of, values_of};

use crate::check_report::answer_report;
use crate::chosen::options_of;
use crate::drawing::{Drawing, answer_picture};
use crate::explained::explanation_of;
use crate::refusal::{given_up_at, refuse, tell_others};
use crate::report::{tell_clipping, tell_done};
use crate::saved::Saved;
use adlread::rate_of;
use asides::{
    Asides, DEFAULT_HANDLE, Meter, Terminal, report_room, room_of, tell_changed, tell_meanings,
};
use clap::Error;
use clap::error::ErrorKind;
use commandline::{Chosen, MediaReport, Request, VERSION};
use console::{Console, Counts};
use consolidate::{
    AcceptedList, ConsolidateChoice, Fault, JobLength, Keeping, RenderChoice, RenderReport,
    RenderedSound, ReportChoice, ReportedChoice, ResumedSound, check_opened, consolidate_watched,
    render_reported, render_watched, resume_reported, resume_watched,
};
use devices::Watch;
use findings::{PrintedLines, meanings_of, notice_meanings_of};
use passes::Pass;
use remarks::Rendering;
use shelf::{Bench, Reasons, Shelf};
use std::alloc::Global;
use verdicts::{DONE, MISTAKE, REFUSED, refuse_time};

/// A request, and how it is carried out: a rendering in jobs of this length, and a consolidation by these passes over
/// the pieces of the entries.
#[derive(Drop)]
pub struct Command<'a> {
    pub request: Request<'a>,
    pub passes: Vec<Box<dyn Pass>>,
    pub jobs: JobLength,
}

/// Runs the command that is asked for over the list, the shelf and the bench, prints the notices and one line, and
/// answers the status: 0 done, 1 refused, 2 where a time can't be read, which is told on standard error. A refusal is
/// explained on standard error too, in a line of its own; behind that of a check stand the list's further faults. What
/// numbers mean is printed on standard output, with 0, or with 2 where nothing has the number. A comparison is a
/// mistake here (2): it is of two lists, and `answer_compare` answers it.
pub fn answer_request<
    S: Shelf + Reasons,
    B: Bench + Reasons,
    O: Console,
    E: Console,
    M: Meter,
    A: Asides,
>(
    alloc: Global,
    command: Command<'_>,
    list: &[u8],
    shelf: &mut S,
    bench: &mut B,
    terminal: &mut Terminal<O, E, M, A>,
) -> u8
    ensures consoles { GivesBack terminal.old terminal.new }
    // A command was called over the list, and its answer is printed.
    ensures checked { (path media : Text) → asked_of command.entry.request ≡ asked.Check path media
        → IsAnswered (IsChecked S.Shelf list.now shelf.old shelf.new)
        accepted_lines O.Console terminal.old.out.now terminal.new.out.now result }
    ensures reported { (path media : Text) → asked_of command.entry.request ≡ asked.Report path media
        → IsTrue (S.honest shelf.old) → IsReported list.now (S.stored shelf.old)
        O.Console terminal.old.out.now terminal.new.out.now result }
    ensures report_printed { (path media : Text) → asked_of command.entry.request ≡ asked.Report path media
        → IsReportPrinted (S.honest shelf.old) list.now (S.stored shelf.old)
        O.Console terminal.old.out.now terminal.new.out.now result }
    ensures rendered { (path media target : Text) (chosen : asked.Chosen)
        → asked_of command.entry.request ≡ asked.Render path media target chosen → result ≢ 2
        → IsAnswered (RendersBy S.Shelf B.Bench command.entry.jobs chosen list.now
        shelf.old shelf.new bench.old bench.new)
        rendered_lines O.Console terminal.old.out.now terminal.new.out.now result }
    ensures resumed { (path media target : Text) (chosen : asked.Chosen)
        → asked_of command.entry.request ≡ asked.Resume path media target chosen → result ≢ 2
        → IsAnswered (ResumesBy S.Shelf B.Bench command.entry.jobs chosen list.now
        shelf.old shelf.new bench.old bench.new)
        resumed_lines O.Console terminal.old.out.now terminal.new.out.now result }
    ensures consolidated { (path media target : Text) (handle : ℕ) (report : choice.MediaReport)
        → asked_of command.entry.request ≡ asked.Consolidate path media target handle report
        → IsAnswered (IsConsolidation S.Shelf B.Bench
        (left_by (λ pass. looking pass) (λ pass. gives pass) command.entry.passes.items)
        list.now handle (asking report list.now) shelf.old shelf.new bench.old bench.new)
        written_lines O.Console terminal.old.out.now terminal.new.out.now result }
    ensures standard { AreStandard (λ pass. looking pass) (λ pass. gives pass) command.entry.passes.items
        → (path media target : Text) (handle : ℕ) (report : choice.MediaReport)
        → asked_of command.entry.request ≡ asked.Consolidate path media target handle report → IsAnswered
        (IsConsolidation S.Shelf B.Bench standard_groups list.now handle (asking report list.now) shelf.old shelf.new bench.old
        bench.new)
        written_lines O.Console terminal.old.out.now terminal.new.out.now result }
    // It names a time that can't be read.
    ensures bad_time { (path media target : Text) (chosen : asked.Chosen) (option : Text)
        → asked_of command.entry.request ≡ asked.Render path media target chosen
        → values_of (rate_at list.now) chosen ≡ Err option
        → (result ≡ 2)
        × Prints E.contents E.failures terminal.old.err.now terminal.new.err.now (bad_time_line option) }
    ensures bad_time_resumed { (path media target : Text) (chosen : asked.Chosen) (option : Text)
        → asked_of command.entry.request ≡ asked.Resume path media target chosen
        → values_of (rate_at list.now) chosen ≡ Err option
        → (result ≡ 2)
        × Prints E.contents E.failures terminal.old.err.now terminal.new.err.now (bad_time_line option) }
    ensures explained { (number : Option Text) → asked_of command.entry.request ≡ asked.Explain number
        → (result ≢ 1) × (shelf.new ≡ shelf.old) × (bench.new ≡ bench.old) }
    ensures explained_notice { (number : Option Text) → asked_of command.entry.request ≡ asked.ExplainNotice number
        → (result ≢ 1) × (shelf.new ≡ shelf.old) × (bench.new ≡ bench.old) }
    ensures statuses { result ≤ 2 }
    ensures mistake { result ≡ 2
        → MayBeMistaken E.Console terminal.old.err.now terminal.new.err.now (rate_at list.now)
        (asked_of command.entry.request) }
    ensures two { result ≡ 2
        → (shelf.new ≡ shelf.old) × (bench.new ≡ bench.old) × (terminal.new.out.now ≡ terminal.old.out.now) }
    ensures check_writes_nothing { (path media : Text) → asked_of command.entry.request ≡ asked.Check path media
        → bench.new ≡ bench.old }
    ensures report_writes_nothing { (path media : Text) → asked_of command.entry.request ≡ asked.Report path media
        → bench.new ≡ bench.old }
    ensures bad_time_shown { (path media : Text) (handle : ℕ) (drawn : asked.Drawn) (option : Text)
        → asked_of command.entry.request ≡ asked.Show path media handle drawn
        → part_of (rate_at list.now) drawn ≡ Err option
        → (result ≡ 2)
        × Prints E.contents E.failures terminal.old.err.now terminal.new.err.now (bad_time_line option) }
    ensures picture_writes_nothing { (path media : Text) (handle : ℕ) (drawn : asked.Drawn)
        → asked_of command.entry.request ≡ asked.Show path media handle drawn → bench.new ≡ bench.old }
{
    carry_out(alloc, command, list, shelf, bench, terminal)
}

/// Runs the command that is asked for, and answers by what that is.
fn carry_out<S: Shelf + Reasons, B: Bench + Reasons, O: Console, E: Console, M: Meter, A: Asides>(
    alloc: Global,
    command: Command<'_>,
    list: &[u8],
    shelf: &mut S,
    bench: &mut B,
    terminal: &mut Terminal<O, E, M, A>,
) -> u8
    ensures consoles { GivesBack terminal.old terminal.new }
    ensures answered { AnswersAsked S.Shelf B.Bench O.Console E.Console command.entry.jobs
        (left_by (λ pass. looking pass) (λ pass. gives pass) command.entry.passes.items) list.now
        (record {
          shelf_old = shelf.old;
          shelf_new = shelf.new;
          bench_old = bench.old;
          bench_new = bench.new;
          out_old = terminal.old.out.now;
          out_new = terminal.new.out.now;
          err_old = terminal.old.err.now;
          err_new = terminal.new.err.now;
        }) result (asked_of command.entry.request) }
    ensures statuses { result ≤ 2 }
    ensures mistake { result ≡ 2
        → MayBeMistaken E.Console terminal.old.err.now terminal.new.err.now (rate_at list.now)
        (asked_of command.entry.request) }
    ensures two { result ≡ 2
        → (shelf.new ≡ shelf.old) × (bench.new ≡ bench.old) × (terminal.new.out.now ≡ terminal.old.out.now) }
{
    let Command {
        request,
        passes,
        jobs,
    } = command;
    match request {
        Request::Check(_, _) => answer_check(alloc, list, shelf, terminal),
        Request::Report(_, _) => answer_report(alloc, list, shelf, terminal),
        Request::Render(_, chosen) => {
            answer_chosen_render(alloc, list, chosen, jobs, shelf, bench, terminal)
        }
        Request::Resume(_, chosen) => {
            answer_chosen_resume(alloc, list, chosen, jobs, shelf, bench, terminal)
        }
        Request::Consolidate(_, handle, report) => {
            let wanted = WantedMedia {
                handle,
                passes,
                report: asked_for(report),
            };
            answer_consolidate(alloc, list, wanted, shelf, bench, terminal)
        }
        Request::Compare(_, _) => refuse_two_lists(terminal.err),
        Request::Show(path, _, handle, drawn) => {
            let drawing = Drawing {
                path,
                handle,
                drawn,
            };
            answer_picture(alloc, list, drawing, shelf, terminal)
        }
        Request::Explain(number) => explain(number, terminal.out, terminal.err),
        Request::ExplainNotice(number) => explain_notice(number, terminal.out, terminal.err),
    }
}

/// Checks the list, and prints what came of it; on standard error, how much its outputs would take. After a refusal its
/// further faults are looked for, and printed there.
fn answer_check<S: Shelf + Reasons, O: Console, E: Console, M: Meter, A: Asides>(
    alloc: Global,
    list: &[u8],
    shelf: &mut S,
    terminal: &mut Terminal<O, E, M, A>,
) -> u8
    ensures consoles { GivesBack terminal.old terminal.new }
    ensures answered { IsAnswered (IsChecked S.Shelf list.now shelf.old shelf.new)
        accepted_lines O.Console terminal.old.out.now terminal.new.out.now result }
    ensures statuses { result ≤ 1 }
{
    let outcome = check_opened(alloc, list, shelf);
    tell_changed(alloc, shelf, terminal.err);
    match outcome {
        Ok(AcceptedList { accepted, checked }) => {
            let words = Counts {
                before: "accepted ",
                between: " entries ",
                after: " indexes",
            };
            let notices = accepted.notices.as_slice();
            tell_done(
                terminal.out,
                notices,
                words,
                u64::from(accepted.entries),
                u64::from(accepted.indexes),
            );
            tell_meanings(notices, list, terminal.err);
            report_room(room_of(alloc, &checked, DEFAULT_HANDLE), terminal.err);
            DONE
        }
        Err(fault) => {
            let explanation = explanation_of(&fault, list, shelf.reason(), None);
            refuse(alloc, list, &fault, explanation, terminal);
            let asides = &terminal.asides;
            tell_others(alloc, list, shelf, &fault, asides, terminal.err);
            REFUSED
        }
    }
}

/// A rendering that is asked for, and whether a report of it is.
#[derive(Drop)]
struct WantedSound {
    choice: RenderChoice,
    is_reported: bool,
}

/// The media that are asked for: with handles of so many frames, by these passes, and with a report where one is
/// wanted.
#[derive(Drop)]
struct WantedMedia<'a> {
    handle: u64,
    passes: Vec<Box<dyn Pass>>,
    report: Option<ReportChoice<'a>>,
}

/// Renders the list, and then writes its report, where one is asked for.
fn render_as<S: Shelf, B: Bench, W: Watch>(
    alloc: Global,
    list: &[u8],
    wanted: &WantedSound,
    shelf: &mut S,
    bench: &mut B,
    watch: &mut W,
) -> Result<RenderedSound, Fault>
    ensures { RendersAs S.Shelf B.Bench wanted.now.is_reported wanted.now.choice.jobs list.now
        (rendering.values_of wanted.now.choice.options) shelf.old shelf.new bench.old bench.new
        (ok_map (λ made. made.rendered) result) }
{
    let choice = &wanted.choice;
    if wanted.is_reported {
        let report = RenderReport {
            program: "adlcons",
            version: VERSION,
        };
        let asked = ReportedChoice {
            choice: *choice,
            report,
        };
        render_reported(alloc, list, &asked, shelf, bench, watch)
    } else {
        render_watched(alloc, list, choice, shelf, bench, watch)
    }
}

/// Goes on with the rendering of the list, and then writes its report, where one is asked for.
fn resume_as<S: Shelf, B: Bench, W: Watch>(
    alloc: Global,
    list: &[u8],
    wanted: &WantedSound,
    shelf: &mut S,
    bench: &mut B,
    watch: &mut W,
) -> Result<ResumedSound, Fault>
    ensures { ResumesAs S.Shelf B.Bench wanted.now.is_reported wanted.now.choice.jobs list.now
        (rendering.values_of wanted.now.choice.options) shelf.old shelf.new bench.old bench.new
        (ok_map (λ made. made.resumed) result) }
{
    let choice = &wanted.choice;
    if wanted.is_reported {
        let report = RenderReport {
            program: "adlcons",
            version: VERSION,
        };
        let asked = ReportedChoice {
            choice: *choice,
            report,
        };
        resume_reported(alloc, list, &asked, shelf, bench, watch)
    } else {
        resume_watched(alloc, list, choice, shelf, bench, watch)
    }
}

/// Renders the list by what the words choose, and prints what came of it, or that a time can't be read.
#[tactic(auto, using(crate::proofs::Rates::answered_by))]
fn answer_chosen_render<
    S: Shelf + Reasons,
    B: Bench + Reasons,
    O: Console,
    E: Console,
    M: Meter,
    A: Asides,
>(
    alloc: Global,
    list: &[u8],
    chosen: Chosen<'_>,
    jobs: JobLength,
    shelf: &mut S,
    bench: &mut B,
    terminal: &mut Terminal<O, E, M, A>,
) -> u8
    ensures consoles { GivesBack terminal.old terminal.new }
    ensures rendered { result ≢ 2 → IsAnswered (RendersBy S.Shelf B.Bench jobs (chosen_of chosen.entry) list.now
        shelf.old shelf.new bench.old bench.new)
        rendered_lines O.Console terminal.old.out.now terminal.new.out.now result }
    ensures bad_time { (option : Text) → values_of (rate_at list.now) (chosen_of chosen.entry) ≡ Err option
        → (result ≡ 2)
        × Prints E.contents E.failures terminal.old.err.now terminal.new.err.now (bad_time_line option) }
    ensures statuses { result ≤ 2 }
    ensures mistake { result ≡ 2 → NamesBadTime E.Console terminal.old.err.now terminal.new.err.now
        (values_of (rate_at list.now) (chosen_of chosen.entry)) }
    ensures two { result ≡ 2
        → (shelf.new ≡ shelf.old) × (bench.new ≡ bench.old) × (terminal.new.out.now ≡ terminal.old.out.now) }
{
    match options_of(chosen, rate_of(list)) {
        Ok(options) => {
            let wanted = WantedSound {
                choice: RenderChoice { options, jobs },
                is_reported: chosen.report,
            };
            answer_render(alloc, list, &wanted, shelf, bench, terminal)
        }
        Err(bad) => refuse_time(bad, terminal.err),
    }
}

/// Goes on with the rendering of the list by what the words choose, likewise.
#[tactic(auto, using(crate::proofs::Rates::resumed_by))]
fn answer_chosen_resume<
    S: Shelf + Reasons,
    B: Bench + Reasons,
    O: Console,
    E: Console,
    M: Meter,
    A: Asides,
>(
    alloc: Global,
    list: &[u8],
    chosen: Chosen<'_>,
    jobs: JobLength,
    shelf: &mut S,
    bench: &mut B,
    terminal: &mut Terminal<O, E, M, A>,
) -> u8
    ensures consoles { GivesBack terminal.old terminal.new }
    ensures resumed { result ≢ 2 → IsAnswered (ResumesBy S.Shelf B.Bench jobs (chosen_of chosen.entry) list.now
        shelf.old shelf.new bench.old bench.new)
        resumed_lines O.Console terminal.old.out.now terminal.new.out.now result }
    ensures bad_time { (option : Text) → values_of (rate_at list.now) (chosen_of chosen.entry) ≡ Err option
        → (result ≡ 2)
        × Prints E.contents E.failures terminal.old.err.now terminal.new.err.now (bad_time_line option) }
    ensures statuses { result ≤ 2 }
    ensures mistake { result ≡ 2 → NamesBadTime E.Console terminal.old.err.now terminal.new.err.now
        (values_of (rate_at list.now) (chosen_of chosen.entry)) }
    ensures two { result ≡ 2
        → (shelf.new ≡ shelf.old) × (bench.new ≡ bench.old) × (terminal.new.out.now ≡ terminal.old.out.now) }
{
    match options_of(chosen, rate_of(list)) {
        Ok(options) => {
            let wanted = WantedSound {
                choice: RenderChoice { options, jobs },
                is_reported: chosen.report,
            };
            answer_resume(alloc, list, &wanted, shelf, bench, terminal)
        }
        Err(bad) => refuse_time(bad, terminal.err),
    }
}

/// Renders the list, and prints what came of it.
fn answer_render<
    S: Shelf + Reasons,
    B: Bench + Reasons,
    O: Console,
    E: Console,
    M: Meter,
    A: Asides,
>(
    alloc: Global,
    list: &[u8],
    wanted: &WantedSound,
    shelf: &mut S,
    bench: &mut B,
    terminal: &mut Terminal<O, E, M, A>,
) -> u8
    ensures consoles { GivesBack terminal.old terminal.new }
    ensures answered { IsAnswered
        (RendersAs S.Shelf B.Bench wanted.now.is_reported wanted.now.choice.jobs list.now
        (rendering.values_of wanted.now.choice.options) shelf.old shelf.new bench.old bench.new)
        rendered_lines O.Console terminal.old.out.now terminal.new.out.now result }
    ensures statuses { result ≤ 1 }
{
    let outcome = render_as(alloc, list, wanted, shelf, bench, &mut terminal.meter);
    terminal.meter.clear();
    tell_changed(alloc, shelf, terminal.err);
    match outcome {
        Ok(made) => {
            let rendered = made.rendered;
            let words = Counts {
                before: "rendered ",
                between: " frames ",
                after: " channels",
            };
            let notices = rendered.notices.as_slice();
            let channels = u64::from(rendered.channels);
            tell_done(terminal.out, notices, words, rendered.frames, channels);
            tell_meanings(notices, list, terminal.err);
            tell_clipping(made.clipping, Rendering::Whole, list, terminal.err);
            DONE
        }
        Err(fault) => {
            let failed = given_up_at(alloc, &fault, shelf);
            let explanation = explanation_of(&fault, list, shelf.reason(), bench.reason());
            let explanation = explanation.of_rendering().with_file(failed.as_deref());
            refuse(alloc, list, &fault, explanation, terminal);
            REFUSED
        }
    }
}

/// Goes on with a rendering of the list that was stopped, and prints what came of it.
fn answer_resume<
    S: Shelf + Reasons,
    B: Bench + Reasons,
    O: Console,
    E: Console,
    M: Meter,
    A: Asides,
>(
    alloc: Global,
    list: &[u8],
    wanted: &WantedSound,
    shelf: &mut S,
    bench: &mut B,
    terminal: &mut Terminal<O, E, M, A>,
) -> u8
    ensures consoles { GivesBack terminal.old terminal.new }
    ensures answered { IsAnswered
        (ResumesAs S.Shelf B.Bench wanted.now.is_reported wanted.now.choice.jobs list.now
        (rendering.values_of wanted.now.choice.options) shelf.old shelf.new bench.old bench.new)
        resumed_lines O.Console terminal.old.out.now terminal.new.out.now result }
    ensures statuses { result ≤ 1 }
{
    let outcome = resume_as(alloc, list, wanted, shelf, bench, &mut terminal.meter);
    terminal.meter.clear();
    tell_changed(alloc, shelf, terminal.err);
    match outcome {
        Ok(made) => {
            let resumed = made.resumed;
            let words = Counts {
                before: "resumed ",
                between: " frames ",
                after: " blocks were marked",
            };
            let notices = resumed.notices.as_slice();
            let marked = u64::from(resumed.marked);
            tell_done(terminal.out, notices, words, resumed.frames, marked);
            tell_meanings(notices, list, terminal.err);
            tell_clipping(made.clipping, Rendering::Resumed, list, terminal.err);
            DONE
        }
        Err(fault) => {
            let failed = given_up_at(alloc, &fault, shelf);
            let explanation = explanation_of(&fault, list, shelf.reason(), bench.reason());
            let explanation = explanation.of_rendering().with_file(failed.as_deref());
            refuse(alloc, list, &fault, explanation, terminal);
            REFUSED
        }
    }
}

/// The report that this program asks for, where one is wanted.
fn asked_for(report: MediaReport) -> Option<ReportChoice<'static>>
    ensures { (list : List ℕ) → option_map (asked_on list) result ≡ asking report list }
{
    let digests = match report {
        MediaReport::NoReport => return None,
        MediaReport::Plain => false,
        MediaReport::WithDigests => true,
    };
    Some(ReportChoice {
        program: "adlcons",
        version: VERSION,
        digests,
    })
}

/// Consolidates the list, with the report that is asked for, and prints what came of it; on
/// standard error, how much was saved.
fn answer_consolidate<
    S: Shelf + Reasons,
    B: Bench + Reasons,
    O: Console,
    E: Console,
    M: Meter,
    A: Asides,
>(
    alloc: Global,
    list: &[u8],
    wanted: WantedMedia<'_>,
    shelf: &mut S,
    bench: &mut B,
    terminal: &mut Terminal<O, E, M, A>,
) -> u8
    ensures consoles { GivesBack terminal.old terminal.new }
    ensures answered { IsAnswered (IsConsolidation S.Shelf B.Bench
        (left_by (λ pass. looking pass) (λ pass. gives pass) wanted.entry.passes.items)
        list.now wanted.entry.handle (option_map (asked_on list.now) wanted.entry.report)
        shelf.old shelf.new bench.old bench.new)
        written_lines O.Console terminal.old.out.now terminal.new.out.now result }
    ensures statuses { result ≤ 1 }
{
    let choice = ConsolidateChoice {
        keeping: Keeping {
            handle: wanted.handle,
            passes: wanted.passes,
        },
        report: wanted.report,
    };
    let outcome = consolidate_watched(alloc, list, choice, shelf, bench, &mut terminal.meter);
    terminal.meter.clear();
    tell_changed(alloc, shelf, terminal.err);
    match outcome {
        Ok(written) => {
            let words = Counts {
                before: "written ",
                between: " media ",
                after: " entries",
            };
            let notices = written.notices.as_slice();
            tell_done(
                terminal.out,
                notices,
                words,
                u64::from(written.media),
                u64::from(written.entries),
            );
            terminal.err.print_line(Saved(written.sizes));
            tell_meanings(notices, list, terminal.err);
            DONE
        }
        Err(fault) => {
            let failed = given_up_at(alloc, &fault, shelf).or(given_up_at(alloc, &fault, bench));
            let explanation = explanation_of(&fault, list, shelf.reason(), bench.reason());
            let explanation = explanation.with_file(failed.as_deref());
            refuse(alloc, list, &fault, explanation, terminal);
            REFUSED
        }
    }
}

/// Prints that two lists are compared, of which one was given, and answers the status.
pub fn refuse_two_lists<E: Console>(err: &mut E) -> u8
    ensures { result ≡ 2 }
{
    err.print_line("two lists are compared, each over its sources");
    MISTAKE
}

/// Prints what this number means, or all of them, and answers the status: 2 where no refusal has the number, which is
/// told on `err`.
pub fn explain<O: Console, E: Console>(number: Option<&str>, out: &mut O, err: &mut E) -> u8
    ensures shown { result ≢ 1 }
    ensures statuses { result ≤ 2 }
    ensures two { result ≡ 2 → out.new ≡ out.old }
{
    match meanings_of(number) {
        Ok(rows) => {
            out.print(rows);
            DONE
        }
        Err(unknown) => {
            err.print_line(unknown);
            MISTAKE
        }
    }
}

/// Prints what this number of a notice means, or all of them, and answers the status: 2 where no notice has the number,
/// which is told on `err`.
pub fn explain_notice<O: Console, E: Console>(number: Option<&str>, out: &mut O, err: &mut E) -> u8
    ensures shown { result ≢ 1 }
    ensures statuses { result ≤ 2 }
    ensures two { result ≡ 2 → out.new ≡ out.old }
{
    match notice_meanings_of(number) {
        Ok(rows) => {
            out.print(rows);
            DONE
        }
        Err(unknown) => {
            err.print_line(unknown);
            MISTAKE
        }
    }
}

/// Prints why words ask for no command, and answers the status: 2 for a mistake and where memory ran out, which stand on
/// `err`, and 0 for help and the version, on `out`.
pub fn answer_error<O: Console, E: Console>(
    alloc: Global,
    error: Error,
    out: &mut O,
    err: &mut E,
) -> u8
    ensures mistake { is_shown (kind_of error) ≡ false → result ≡ 2 }
    ensures help { is_shown (kind_of error) ≡ true → result ≡ 0 }
    ensures ran_out { kind_of error ≡ OutOfMemory
        → Prints E.contents E.failures err.old err.new no_memory_line }
    ensures shown { result ≢ 1 }
    ensures statuses { result ≤ 2 }
    ensures two { result ≡ 2 → out.new ≡ out.old }
{
    if is_out_of_memory(&error) {
        return refuse_words(err);
    }
    if error.use_stderr() {
        tell_mistake(alloc, error, err);
        MISTAKE
    } else {
        out.print(error);
        DONE
    }
}

/// Whether no memory was left to read the words.
fn is_out_of_memory(error: &Error) -> bool
    ensures { IsTrue result ↔ (kind_of error.now ≡ OutOfMemory) }
{
    matches!(error.kind(), ErrorKind::OutOfMemory)
}

/// Prints that no memory was left to read the words, and answers the status.
fn refuse_words<E: Console>(err: &mut E) -> u8
    ensures status { result ≡ 2 }
    ensures printed { Prints E.contents E.failures err.old err.new no_memory_line }
{
    err.put(b"error: out of memory");
    err.end_line();
    MISTAKE
}

/// Prints a mistake in the words, whose control characters are escaped.
fn tell_mistake<E: Console>(alloc: Global, error: Error, err: &mut E) {
    match format!(in alloc; "{error}") {
        Ok(text) => err.print(PrintedLines(text.as_str())),
        Err(_) => err.print_line("error: out of memory"),
    }
}
