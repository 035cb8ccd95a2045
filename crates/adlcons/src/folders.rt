// The program over the file system.
ghost use Rattle.std.specs.Prelude.{◌≡◌, ◌≢◌, ◌≤◌, ◌⊎◌, ◌++◌, ◌∷◌, [], ℕ, List, None, Some, Err, Ok, true, false, IfOk, OnErr, OnOk};
ghost use Rattle.clap.specs.Walk.{Text, texts};
ghost use Rattle.consolidate.specs.Commands.{IsConsolidation};
ghost use Rattle.commandline.specs.declared.choice.MediaReport as choice;
ghost use Rattle.commandline.specs.CommandLine as asked;
ghost use Rattle.commandline.specs.CommandLine.{asks_for_help, request_of, verifies};
ghost use Rattle.commandline.specs.Request.{asked_of};
ghost use Rattle.console.specs.Lines.{refusal_text};
ghost use Rattle.console.specs.Places.{where_of};
ghost use Rattle.console.specs.Printing.{Prints};
ghost use Rattle.sound_terms.specs.Passes.{standard_groups};
ghost use Rattle.rendering.specs.declared.job_length.JobLength.TheVariants.{Longer};
ghost use Rattle.answers.specs.Answers.{RendersBy, ResumesBy, asking, rendered_lines, resumed_lines, written_lines};
ghost use Rattle.list_terms.specs.Text.{rate_of};
ghost use Rattle.answers.specs.Answers.{MayBeMistaken};
ghost use Rattle.answers.specs.Mistaken.{AreMistaken};
ghost use Rattle.adlcons.specs.Openings.{AnswersInFolders, AnswersWriting, CantBeDone, ChecksFolder, ComparesFolders, IsKeptOut, IsOneUnread, IsReportUnread, IsUnread, ReportsFolder, VerifiesInFolders, WorksInFolders, overwrite_for};
ghost use Rattle.shelf.specs.Folder.{folder_named};
ghost use Rattle.shelf.specs.declared.Overwrite.TheVariants as overwrite;

use crate::looks::{report_folder, show_folder};
use crate::two_lists::compare_folders;
use crate::verification::verify_in_folders;
use answers::{
    Command, Drawing, MISTAKE, REFUSED, Terminal, answer_error, answer_request, answer_standard,
    can_be_timed, explain, explain_notice,
};
use commandline::{MediaReport, Places, Request, parse};
use console::{Console, Refusal, put_refusal};
use consolidate::{JobLength, MARKS, RENDER_REPORT, SOUND};
use explanations::{Explanation, FoundFolder};
use places::{
    FolderAsides, HeldFolder, Lock, Manner, OpenFault, OpenStores, Progress, ReadFault, Replaced,
    Session, ShownShelf, WorkMeter, changed_position, name_inside, newer_sources, open_stores,
    read_given_list, read_list, report_change, report_found, report_full_disk, report_newer,
    tell_all_further, tell_unlisted, unlisted_reason,
};
use shelf::{FolderBench, MemoryBench, Overwrite};
use std::fs::Files;
use std::os::unix::fs::FileExt;

/// Answers the words over the list, the media and the output that they name, with a status. Where they ask for no
/// command, or there is no memory to read them, no file is looked at.
pub fn answer_words<R, O: Console, E: Console, L: Progress>(
    rt: &R,
    words: &[&str],
    out: &mut O,
    err: &mut E,
    line: &L,
) -> u8
where
    R: Files + Input + AllocGlobal + Clone + Drop,
    R::File: FileExt + Lock,
    // A command was called over a list and folders, and its answer is printed; or what kept it from them is.
    ensures checked { (list media : Text) → request_of (texts words.now) ≡ Some (asked.Check list media) → result ≢ 2
        → IsUnread O.Console list out.old out.new result
        ⊎ (text : List ℕ)
        × ChecksFolder ⟦<ShownShelf<'static, R, L> as devices::Shelf>⟧ O.Console text media out.old out.new result }
    ensures reported { (list media : Text) → request_of (texts words.now) ≡ Some (asked.Report list media) → result ≢ 2
        → IsReportUnread O.Console list out.old out.new result
        ⊎ (text : List ℕ)
        × ReportsFolder ⟦<ShownShelf<'static, R, L> as devices::Shelf>⟧ O.Console text media out.old out.new result }
    ensures rendered { (list media target : Text) (chosen : asked.Chosen)
        → request_of (texts words.now) ≡ Some (asked.Render list media target chosen) → result ≢ 2
        → IsKeptOut O.Console list target out.old out.new result
        ⊎ WorksInFolders overwrite.Never
        (RendersBy ⟦<ShownShelf<'static, R, L> as devices::Shelf>⟧ ⟦<FolderBench<R> as devices::Bench>⟧ Longer chosen)
        rendered_lines O.Console media target out.old out.new result }
    ensures resumed { (list media target : Text) (chosen : asked.Chosen)
        → request_of (texts words.now) ≡ Some (asked.Resume list media target chosen) → result ≢ 2
        → IsKeptOut O.Console list target out.old out.new result
        ⊎ WorksInFolders overwrite.Files
        (ResumesBy ⟦<ShownShelf<'static, R, L> as devices::Shelf>⟧ ⟦<FolderBench<R> as devices::Bench>⟧ Longer chosen)
        resumed_lines O.Console media target out.old out.new result }
    ensures consolidated { (list media target : Text) (handle : ℕ) (report : choice.MediaReport)
        → request_of (texts words.now) ≡ Some (asked.Consolidate list media target handle report)
        → verifies (texts words.now) ≡ false → result ≢ 2
        → IsKeptOut O.Console list target out.old out.new result
        ⊎ WorksInFolders overwrite.Never
        (λ list. IsConsolidation ⟦<ShownShelf<'static, R, L> as devices::Shelf>⟧ ⟦<FolderBench<R> as devices::Bench>⟧ standard_groups
        list handle (asking report list))
        written_lines O.Console media target out.old out.new result }
    // Such a consolidation is done only where the written list sounds the same. Where no memory remains for its lines that
    // is reported as if there were none for its stores.
    ensures verified { (list media target : Text) (handle : ℕ) (report : choice.MediaReport)
        → request_of (texts words.now) ≡ Some (asked.Consolidate list media target handle report)
        → verifies (texts words.now) ≡ true → result ≢ 2
        → IsKeptOut O.Console list target out.old out.new result
        ⊎ VerifiesInFolders ⟦<ShownShelf<'static, R, L> as devices::Shelf>⟧ ⟦<FolderBench<R> as devices::Bench>⟧ O.Console handle
        report media target out.old out.new result }
    ensures compared { (list media other other_media : Text) (selected : asked.Selected)
        → request_of (texts words.now) ≡ Some (asked.Compare list media other other_media selected) → result ≢ 2
        → IsOneUnread O.Console list other out.old out.new result
        ⊎ ComparesFolders ⟦<ShownShelf<'static, R, L> as devices::Shelf>⟧ O.Console selected media other_media out.old out.new
        result }
    ensures statuses { result ≤ 2 }
    ensures help { asks_for_help (texts words.now) ≡ true → result ≢ 1 }
    ensures refused_words { request_of (texts words.now) ≡ None → asks_for_help (texts words.now) ≡ false → result ≡ 2 }
    // The words ask for nothing, a time can't be read, a number is unknown, or no memory was left to read them. The last and
    // a time are all that standard error has then.
    ensures mistake { result ≡ 2 → AreMistaken (CantBeDone E.Console err.old err.new) (texts words.now)
        E.Console err.old err.new }
    ensures two { result ≡ 2 → out.new ≡ out.old }
{
    let parsed = match parse(rt.alloc(), words) {
        Ok(parsed) => parsed,
        Err(error) => return answer_error(rt.alloc(), error, out, err),
    };
    let manner = Manner {
        tells_all: parsed.tells_all,
        searches: parsed.searches,
        verifies: parsed.verifies,
    };
    let session = &Session { rt, manner, line };
    answer_parsed(session, parsed.request, out, err)
}

/// Answers the request over the list and the folders that it names, with a status.
fn answer_parsed<R, O: Console, E: Console, L: Progress>(
    session: &Session<'_, R, L>,
    request: Request<'_>,
    out: &mut O,
    err: &mut E,
) -> u8
where
    R: Files + Input + AllocGlobal + Clone + Drop,
    R::File: FileExt + Lock,
    ensures answered { AnswersInFolders ⟦<ShownShelf<'static, R, L> as devices::Shelf>⟧
        ⟦<FolderBench<R> as devices::Bench>⟧ O.Console session.now.manner.verifies out.old out.new result
        (asked_of request.entry) }
    ensures statuses { result ≤ 2 }
    ensures mistake { result ≡ 2 → CantBeDone E.Console err.old err.new (asked_of request.entry) }
    ensures two { result ≡ 2 → out.new ≡ out.old }
{
    match request {
        Request::Explain(number) => explain(number, out, err),
        Request::ExplainNotice(number) => explain_notice(number, out, err),
        Request::Check(list, media) => check_folder(session, list, media, out, err),
        Request::Report(list, media) => report_folder(session, list, media, out, err),
        Request::Compare(places, selected) => compare_folders(session, places, selected, out, err),
        Request::Show(path, media, handle, drawn) => {
            let drawing = Drawing {
                path,
                handle,
                drawn,
            };
            show_folder(session, media, drawing, out, err)
        }
        Request::Render(places, chosen) => {
            let request = Request::Render(places, chosen);
            work_in_folders(session, request, places, out, err)
        }
        Request::Resume(places, chosen) => {
            let request = Request::Resume(places, chosen);
            work_in_folders(session, request, places, out, err)
        }
        Request::Consolidate(places, handle, report) => {
            consolidate_folders(session, places, handle, report, out, err)
        }
    }
}

/// Consolidates a list over these folders, and compares it with what was written where that is asked for.
fn consolidate_folders<R, O: Console, E: Console, L: Progress>(
    session: &Session<'_, R, L>,
    places: Places<'_>,
    handle: u64,
    report: MediaReport,
    out: &mut O,
    err: &mut E,
) -> u8
where
    R: Files + Input + AllocGlobal + Clone + Drop,
    R::File: FileExt + Lock,
    ensures answered { AnswersInFolders ⟦<ShownShelf<'static, R, L> as devices::Shelf>⟧
        ⟦<FolderBench<R> as devices::Bench>⟧ O.Console session.now.manner.verifies out.old out.new result
        (asked.Consolidate places.entry.list.now places.entry.media.now places.entry.out.now handle report) }
    ensures statuses { result ≤ 1 }
{
    if session.manner.verifies {
        return verify_in_folders(session, places, handle, report, out, err);
    }
    let request = Request::Consolidate(places, handle, report);
    work_in_folders(session, request, places, out, err)
}

/// The status of a command over this list that writes to this folder and doesn't come to its stores. Why is printed,
/// and what lies in the folder.
pub fn keep_out<O: Console, E: Console>(
    fault: OpenFault,
    list: &str,
    folder: &str,
    inside: Option<&str>,
    out: &mut O,
    err: &mut E,
) -> u8
    ensures { IsKeptOut O.Console list.now folder.now out.old out.new result }
{
    let refusal = fault.refusal(list, folder);
    let explanation = explanation_of(fault, refusal.number, inside);
    refuse_early(refusal, explanation, out, err)
}

/// The status of a command that writes nothing and doesn't come to this list or its sources. Why is printed.
pub fn keep_unread<O: Console, E: Console>(
    fault: ReadFault,
    list: &str,
    out: &mut O,
    err: &mut E,
) -> u8
    ensures { IsUnread O.Console list.now out.old out.new result }
{
    let refusal = fault.refusal(list);
    let explanation = Explanation::by(refusal.number, fault.reason(), None);
    refuse_early(refusal, explanation, out, err)
}

/// Prints a refusal and what explains it, and answers the status.
fn refuse_early<O: Console, E: Console>(
    refusal: Refusal<'_>,
    explanation: Explanation<'_>,
    out: &mut O,
    err: &mut E,
) -> u8
    ensures status { result ≡ 1 }
    ensures printed { Prints O.contents O.failures out.old out.new
        (refusal_text refusal.entry.number (where_of refusal.entry.location) ++ 10 ∷ []) }
{
    put_refusal(out, refusal);
    out.end_line();
    err.print_line(explanation);
    REFUSED
}

/// What is told of such a refusal beside its line.
fn explanation_of(fault: OpenFault, number: u8, inside: Option<&str>) -> Explanation<'_> {
    let explanation = Explanation::by(number, fault.reason(), inside);
    match fault {
        OpenFault::Busy => explanation.with_folder(FoundFolder::Busy),
        OpenFault::Media => explanation.with_folder(FoundFolder::Media),
        OpenFault::Shared => explanation.with_folder(FoundFolder::Shared),
        _ => explanation,
    }
}

/// Checks the list of this path over this folder, and answers the status.
fn check_folder<R, O: Console, E: Console, L: Progress>(
    session: &Session<'_, R, L>,
    path: &str,
    media: &str,
    out: &mut O,
    err: &mut E,
) -> u8
where
    R: Files + Input + AllocGlobal + Clone + Drop,
    R::File: FileExt,
    ensures answered { IsUnread O.Console path.now out.old out.new result
        ⊎ (text : List ℕ)
        × ChecksFolder ⟦<ShownShelf<'static, R, L> as devices::Shelf>⟧ O.Console text media.now out.old out.new result }
    ensures statuses { result ≤ 1 }
{
    let list = match read_list(session.rt, path) {
        Ok(list) => list,
        Err(fault) => return keep_unread(fault, path, out, err),
    };
    match try_check(session, path, &list, media, out, err) {
        Ok(status) => status,
        Err(fault) => keep_unread(fault, path, out, err),
    }
}

/// Checks this list over this folder, where it can be opened.
fn try_check<R, O: Console, E: Console, L: Progress>(
    session: &Session<'_, R, L>,
    path: &str,
    list: &[u8],
    media: &str,
    out: &mut O,
    err: &mut E,
) -> Result<u8, ReadFault>
where
    R: Files + Input + AllocGlobal + Clone + Drop,
    R::File: FileExt,
    ensures answered { IfOk result
        (λ status. ChecksFolder ⟦<ShownShelf<'static, R, L> as devices::Shelf>⟧ O.Console list.now media.now out.old out.new
        status) }
    ensures statuses { IfOk result (λ status. status ≤ 1) }
    ensures nothing { OnErr result (out.new ≡ out.old) }
{
    let (rt, manner) = (session.rt, session.manner);
    let mut shelf = ShownShelf::open(session, media)?;
    let mut bench = MemoryBench::new(rt.alloc());
    let unlisted = unlisted_reason(rt, media);
    let command = Command {
        request: Request::Check(path, media),
        passes: Vec::new(rt.alloc()),
        jobs: JobLength::Longer,
    };
    let mut terminal = Terminal {
        out,
        err,
        meter: WorkMeter::new(session.line),
        asides: FolderAsides::new(rt, media, manner),
    };
    let status = answer_request(
        rt.alloc(),
        command,
        list,
        &mut shelf,
        &mut bench,
        &mut terminal,
    );
    report_found(shelf.sources(), manner, err);
    tell_unlisted(media, unlisted, err);
    Ok(status)
}

/// Answers a request for a command that writes, over these places, with a status.
fn work_in_folders<R, O: Console, E: Console, L: Progress>(
    session: &Session<'_, R, L>,
    request: Request<'_>,
    places: Places<'_>,
    out: &mut O,
    err: &mut E,
) -> u8
where
    R: Files + Input + AllocGlobal + Clone + Drop,
    R::File: FileExt + Lock,
    ensures rendered { (list media target : Text) (chosen : asked.Chosen)
        → asked_of request.entry ≡ asked.Render list media target chosen → result ≢ 2
        → IsKeptOut O.Console places.entry.list.now places.entry.out.now out.old out.new result
        ⊎ WorksInFolders overwrite.Never
        (RendersBy ⟦<ShownShelf<'static, R, L> as devices::Shelf>⟧ ⟦<FolderBench<R> as devices::Bench>⟧ Longer chosen)
        rendered_lines O.Console places.entry.media.now places.entry.out.now out.old out.new result }
    ensures resumed { (list media target : Text) (chosen : asked.Chosen)
        → asked_of request.entry ≡ asked.Resume list media target chosen → result ≢ 2
        → IsKeptOut O.Console places.entry.list.now places.entry.out.now out.old out.new result
        ⊎ WorksInFolders overwrite.Files
        (ResumesBy ⟦<ShownShelf<'static, R, L> as devices::Shelf>⟧ ⟦<FolderBench<R> as devices::Bench>⟧ Longer chosen)
        resumed_lines O.Console places.entry.media.now places.entry.out.now out.old out.new result }
    ensures consolidated { (list media target : Text) (handle : ℕ) (report : choice.MediaReport)
        → asked_of request.entry ≡ asked.Consolidate list media target handle report
        → IsKeptOut O.Console places.entry.list.now places.entry.out.now out.old out.new result
        ⊎ WorksInFolders overwrite.Never
        (λ list. IsConsolidation ⟦<ShownShelf<'static, R, L> as devices::Shelf>⟧ ⟦<FolderBench<R> as devices::Bench>⟧ standard_groups
        list handle (asking report list))
        written_lines O.Console places.entry.media.now places.entry.out.now out.old out.new result }
    ensures statuses { result ≤ 2 }
    ensures mistake { result ≡ 2 → (list : List ℕ)
        × MayBeMistaken E.Console err.old err.new (rate_of list) (asked_of request.entry) }
    ensures two { result ≡ 2 → out.new ≡ out.old }
{
    match try_places(session, request, places, out, err) {
        Ok(status) => status,
        Err(fault) => {
            let inside = name_inside(session.rt, fault, places.out);
            let inside = inside.as_ref().map(|name| name.as_str());
            keep_out(fault, places.list, places.out, inside, out, err)
        }
    }
}

/// A request over its places and the list that was read, and where a rendering that it goes on with was changed, if it was.
#[derive(Clone, Copy)]
struct Work<'a> {
    request: Request<'a>,
    places: Places<'a>,
    list: &'a [u8],
    changed: Option<u64>,
}

/// Answers such a request where its places can be opened. A list that can't be read is refused first, then an output
/// at which another command is at work, or that isn't an empty folder, or where a rendering is gone on with, that is the
/// folder of the media or has a file that is given too.
fn try_places<R, O: Console, E: Console, L: Progress>(
    session: &Session<'_, R, L>,
    request: Request<'_>,
    places: Places<'_>,
    out: &mut O,
    err: &mut E,
) -> Result<u8, OpenFault>
where
    R: Files + Input + AllocGlobal + Clone + Drop,
    R::File: FileExt + Lock,
    ensures works { IfOk result (λ status. AnswersWriting ⟦<ShownShelf<'static, R, L> as devices::Shelf>⟧
        ⟦<FolderBench<R> as devices::Bench>⟧ O.Console (asked_of request.entry) places.entry.media.now places.entry.out.now
        out.old out.new status) }
    ensures statuses { IfOk result (λ status. status ≤ 2) }
    ensures mistake { IfOk result (λ status. status ≡ 2
        → (list : List ℕ)
        × MayBeMistaken E.Console err.old err.new (rate_of list) (asked_of request.entry)) }
    ensures two { IfOk result (λ status. status ≡ 2 → out.new ≡ out.old) }
    ensures nothing { OnErr result (out.new ≡ out.old) }
{
    let given = read_given_list(session.rt, places.list)?;
    let list = given.text.as_slice();
    let replaced = replaced_by(&request);
    let stores = open_stores(session, places, &given, replaced, err)?;
    warn_unlocked(&stores.held, request, list, places.out, err);
    try_stores(session, request, places, list, stores, out, err)
}

/// Answers it over this list between the folders of the media and of the output, which are open.
fn try_stores<R, O: Console, E: Console, L: Progress>(
    session: &Session<'_, R, L>,
    request: Request<'_>,
    places: Places<'_>,
    list: &[u8],
    stores: OpenStores<'_, R, L>,
    out: &mut O,
    err: &mut E,
) -> Result<u8, OpenFault>
where
    R: Files + Input + AllocGlobal + Clone + Drop,
    R::File: FileExt,
    requires media { stores.shelf.folder ≡ folder_named places.media.now }
    requires output { stores.bench.folder ≡ folder_named places.out.now }
    requires careful { stores.bench.overwrite ≡ overwrite_for (asked_of request) }
    ensures works { IfOk result (λ status. AnswersWriting ⟦<ShownShelf<'static, R, L> as devices::Shelf>⟧
        ⟦<FolderBench<R> as devices::Bench>⟧ O.Console (asked_of request.entry) places.entry.media.now places.entry.out.now
        out.old out.new status) }
    ensures statuses { IfOk result (λ status. status ≤ 2) }
    ensures mistake { IfOk result (λ status. status ≡ 2
        → MayBeMistaken E.Console err.old err.new (rate_of list.now) (asked_of request.entry)) }
    ensures two { IfOk result (λ status. status ≡ 2 → out.new ≡ out.old) }
    ensures nothing { OnErr result (out.new ≡ out.old) }
{
    let rt = session.rt;
    let OpenStores {
        held: _held,
        mut shelf,
        mut bench,
    } = stores;
    let work = Work {
        request,
        places,
        list,
        changed: changed_position(rt, request, list),
    };
    let newer = newer_sources(rt, request, list);
    let newer = newer.as_ref().map(|names| names.as_slice());
    work_between(session, work, newer, &mut shelf, &mut bench, out, err)
}

/// Answers it between these folders, and tells what was found in both; `newer` are sources written to after the marks.
fn work_between<R, O: Console, E: Console, L: Progress>(
    session: &Session<'_, R, L>,
    work: Work<'_>,
    newer: Option<&[String]>,
    shelf: &mut ShownShelf<'_, R, L>,
    bench: &mut FolderBench<R>,
    out: &mut O,
    err: &mut E,
) -> Result<u8, OpenFault>
where
    R: Files + Input + AllocGlobal + Clone + Drop,
    R::File: FileExt,
    requires media { shelf.old.folder ≡ folder_named work.places.media.now }
    requires output { bench.old.folder ≡ folder_named work.places.out.now }
    requires careful { bench.old.overwrite ≡ overwrite_for (asked_of work.request) }
    ensures works { IfOk result (λ status. AnswersWriting ⟦<ShownShelf<'static, R, L> as devices::Shelf>⟧
        ⟦<FolderBench<R> as devices::Bench>⟧ O.Console (asked_of work.entry.request) work.entry.places.media.now work.entry.places.out.now
        out.old out.new status) }
    ensures statuses { IfOk result (λ status. status ≤ 2) }
    ensures mistake { IfOk result (λ status. status ≡ 2
        → MayBeMistaken E.Console err.old err.new (rate_of work.entry.list.now) (asked_of work.entry.request)) }
    ensures two { IfOk result (λ status. status ≡ 2 → out.new ≡ out.old) }
    ensures nothing { OnErr result (out.new ≡ out.old) }
{
    let Work {
        request,
        places,
        list,
        changed,
    } = work;
    let (rt, manner) = (session.rt, session.manner);
    let unlisted = unlisted_reason(rt, places.media);
    let status = answer_between(session, work, shelf, bench, out, err)?;
    if status == MISTAKE {
        return Ok(status);
    }
    if status == REFUSED && manner.tells_all {
        tell_all_further(rt, list, places.media, manner, err);
    }
    report_full_disk(session, request, list, status == REFUSED, bench, err);
    if let (0, Some(position)) = (status, changed) {
        report_change(places.out, position, err);
    }
    if let (0, Some(names)) = (status, newer) {
        report_newer(names, err);
    }
    report_found(shelf.sources(), manner, err);
    tell_unlisted(places.media, unlisted, err);
    Ok(status)
}

/// Answers it between these folders.
fn answer_between<R, O: Console, E: Console, L: Progress>(
    session: &Session<'_, R, L>,
    work: Work<'_>,
    shelf: &mut ShownShelf<'_, R, L>,
    bench: &mut FolderBench<R>,
    out: &mut O,
    err: &mut E,
) -> Result<u8, OpenFault>
where
    R: Files + Input + AllocGlobal + Clone + Drop,
    R::File: FileExt,
    requires media { shelf.old.folder ≡ folder_named work.places.media.now }
    requires output { bench.old.folder ≡ folder_named work.places.out.now }
    requires careful { bench.old.overwrite ≡ overwrite_for (asked_of work.request) }
    ensures works { IfOk result (λ status. AnswersWriting ⟦<ShownShelf<'static, R, L> as devices::Shelf>⟧
        ⟦<FolderBench<R> as devices::Bench>⟧ O.Console (asked_of work.entry.request) work.entry.places.media.now work.entry.places.out.now
        out.old out.new status) }
    ensures statuses { IfOk result (λ status. status ≤ 2) }
    ensures mistake { IfOk result (λ status. status ≡ 2
        → MayBeMistaken E.Console err.old err.new (rate_of work.entry.list.now) (asked_of work.entry.request)) }
    ensures two { IfOk result (λ status. status ≡ 2 → out.new ≡ out.old) }
    ensures nothing { OnErr result (out.new ≡ out.old) }
{
    let rt = session.rt;
    let mut terminal = Terminal {
        out,
        err,
        meter: WorkMeter::of_request(session.line, work.request),
        asides: FolderAsides::new(rt, work.places.media, session.manner),
    };
    let answered = answer_standard(
        rt.alloc(),
        work.request,
        work.list,
        shelf,
        bench,
        &mut terminal,
    );
    let Ok(status) = answered else {
        return Err(OpenFault::Passes);
    };
    Ok(status)
}

/// Returns what a request may replace in its output: the files of the rendering that it resumes.
fn replaced_by(request: &Request<'_>) -> Replaced<'static>
    ensures { result.overwrite ≡ overwrite_for (asked_of request.now) }
{
    match request {
        Request::Resume(_, chosen) if chosen.report => Replaced {
            overwrite: Overwrite::Files,
            files: &[SOUND, MARKS, RENDER_REPORT],
        },
        Request::Resume(_, _) => Replaced {
            overwrite: Overwrite::Files,
            files: &[SOUND, MARKS],
        },
        _ => Replaced {
            overwrite: Overwrite::Never,
            files: &[],
        },
    }
}

/// Prints that others aren't kept from the folder of the output, where they aren't. A time that can't be read is all that is
/// printed.
fn warn_unlocked<F: Drop, E: Console>(
    held: &HeldFolder<F>,
    request: Request<'_>,
    list: &[u8],
    folder: &str,
    err: &mut E,
)
    ensures { (last : E) → MayBeMistaken E.Console err.new last (rate_of list.now) (asked_of request.entry)
        → MayBeMistaken E.Console err.old last (rate_of list.now) (asked_of request.entry) }
{
    if !can_be_timed(request, list) {
        return;
    }
    held.tell_unlocked(folder, err);
}
