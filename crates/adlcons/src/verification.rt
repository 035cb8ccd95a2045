// A consolidation over folders that is compared with what it was made from, before its line is printed.
ghost use Rattle.std.specs.Prelude.{◌≡◌, ◌≢◌, ◌≤◌, ◌⊎◌, codes, IfOk, OnErr};
ghost use Rattle.shelf.specs.Folder.{folder_named};
ghost use Rattle.shelf.specs.declared.Overwrite.TheVariants.{Never};
ghost use Rattle.console.specs.Printing.{Prints};
ghost use Rattle.console.specs.declared.lines.ListOfTwo.TheVariants.{Second};
ghost use Rattle.adlcons.specs.Openings.{ComparesWritten, IsKeptOut, IsListUnread, VerifiesInFolders};

use crate::folders::keep_out;
use crate::two_lists::keep_list_unread;
use answers::{
    AsidesOfTwo, BothLists, HeldLines, REFUSED, Terminal, answer_standard, answer_verified,
    put_lines,
};
use commandline::{MediaReport, Places, Request};
use console::{Console, ListOfTwo};
use consolidate::LIST;
use places::{
    FolderAsides, Lock, OpenFault, OpenStores, OpenedList, PLAIN, Progress, Replaced, Session,
    ShownShelf, WorkMeter, name_inside, open_inside, open_stores, read_given_list, report_found,
    report_full_disk, tell_all_further, tell_unlisted, unlisted_reason,
};
use shelf::{FolderBench, Overwrite};
use std::fs::Files;
use std::os::unix::fs::FileExt;

/// A consolidation that is asked for between these places, over this list.
#[derive(Clone, Copy)]
struct Consolidating<'a> {
    places: Places<'a>,
    handle: u64,
    report: MediaReport,
    list: &'a [u8],
}

/// A consolidation between these places: what was answered, over which list, and the lines that are held of it.
#[derive(Clone, Copy)]
struct Consolidated<'a> {
    places: Places<'a>,
    answer: u8,
    list: &'a [u8],
    lines: &'a [u8],
}

/// Consolidates a list over these folders and compares it with what was written, which is opened as any project is. The
/// line of the consolidation is printed where both sound the same, and else where they differ first, or why they can't
/// be compared. A refusal of the consolidation is printed as ever. Where no memory remains for its lines nothing is
/// compared.
pub fn verify_in_folders<R, O: Console, E: Console, L: Progress>(
    session: &Session<'_, R, L>,
    places: Places<'_>,
    handle: u64,
    report: MediaReport,
    out: &mut O,
    err: &mut E,
) -> u8
where
    R: Files + Input + AllocGlobal + Clone + Drop,
    R::File: FileExt + Lock,
    ensures answered { IsKeptOut O.Console places.entry.list.now places.entry.out.now out.old out.new result
        ⊎ VerifiesInFolders ⟦<ShownShelf<'static, R, L> as devices::Shelf>⟧ ⟦<FolderBench<R> as devices::Bench>⟧ O.Console handle
        report places.entry.media.now places.entry.out.now out.old out.new result }
    ensures statuses { result ≤ 1 }
{
    match try_verified(session, places, handle, report, out, err) {
        Ok(status) => status,
        Err(fault) => {
            let inside = name_inside(session.rt, fault, places.out);
            let inside = inside.as_ref().map(|name| name.as_str());
            keep_out(fault, places.list, places.out, inside, out, err)
        }
    }
}

/// Does so where the places can be opened, and memory remains for the lines.
fn try_verified<R, O: Console, E: Console, L: Progress>(
    session: &Session<'_, R, L>,
    places: Places<'_>,
    handle: u64,
    report: MediaReport,
    out: &mut O,
    err: &mut E,
) -> Result<u8, OpenFault>
where
    R: Files + Input + AllocGlobal + Clone + Drop,
    R::File: FileExt + Lock,
    ensures answered { IfOk result (λ status. VerifiesInFolders
        ⟦<ShownShelf<'static, R, L> as devices::Shelf>⟧ ⟦<FolderBench<R> as devices::Bench>⟧ O.Console handle report
        places.entry.media.now places.entry.out.now out.old out.new status) }
    ensures statuses { IfOk result (λ status. status ≤ 1) }
    ensures nothing { OnErr result (out.new ≡ out.old) }
{
    let given = read_given_list(session.rt, places.list)?;
    let replaced = Replaced {
        overwrite: Overwrite::Never,
        files: &[],
    };
    let stores = open_stores(session, places, &given, replaced, err)?;
    let OpenStores {
        held,
        mut shelf,
        mut bench,
    } = stores;
    held.tell_unlocked(places.out, err);
    let work = Consolidating {
        places,
        handle,
        report,
        list: given.text.as_slice(),
    };
    verify_between(session, work, &mut shelf, &mut bench, out, err)
}

/// Does so between these folders, where memory remains for the lines.
fn verify_between<R, O: Console, E: Console, L: Progress>(
    session: &Session<'_, R, L>,
    work: Consolidating<'_>,
    shelf: &mut ShownShelf<'_, R, L>,
    bench: &mut FolderBench<R>,
    out: &mut O,
    err: &mut E,
) -> Result<u8, OpenFault>
where
    R: Files + Input + AllocGlobal + Clone + Drop,
    R::File: FileExt,
    requires media { shelf.old.folder ≡ folder_named work.places.media.now }
    requires output { bench.old.folder ≡ folder_named work.places.out.now }
    requires careful { bench.old.overwrite ≡ Never }
    ensures answered { IfOk result (λ status. VerifiesInFolders
        ⟦<ShownShelf<'static, R, L> as devices::Shelf>⟧ ⟦<FolderBench<R> as devices::Bench>⟧ O.Console
        work.entry.handle work.entry.report work.entry.places.media.now work.entry.places.out.now out.old out.new status) }
    ensures statuses { IfOk result (λ status. status ≤ 1) }
    ensures nothing { OnErr result (out.new ≡ out.old) }
{
    let (rt, manner) = (session.rt, session.manner);
    let (places, list) = (work.places, work.list);
    let unlisted = unlisted_reason(rt, places.media);
    let mut lines = HeldLines::new(rt.alloc());
    let request = Request::Consolidate(places, work.handle, work.report);
    let mut terminal = Terminal {
        out: &mut lines,
        err,
        meter: WorkMeter::new(session.line),
        asides: FolderAsides::new(rt, places.media, manner),
    };
    let answered = answer_standard(rt.alloc(), request, list, shelf, bench, &mut terminal);
    let Ok(answer) = answered else {
        return Err(OpenFault::Passes);
    };
    let Some(held) = lines.text() else {
        return Err(OpenFault::Memory);
    };
    let consolidated = Consolidated {
        places,
        answer,
        list,
        lines: held,
    };
    let status = put_answer(session, consolidated, shelf, out, err);
    report_full_disk(session, request, list, answer == REFUSED, bench, err);
    report_found(shelf.sources(), manner, err);
    tell_unlisted(places.media, unlisted, err);
    Ok(status)
}

/// Prints the lines of a consolidation that was refused; compares a list that was consolidated with the one that was
/// written for it into the output, and prints what came of it.
fn put_answer<R, O: Console, E: Console, L: Progress>(
    session: &Session<'_, R, L>,
    consolidated: Consolidated<'_>,
    shelf: &mut ShownShelf<'_, R, L>,
    out: &mut O,
    err: &mut E,
) -> u8
where
    R: Files + Input + AllocGlobal + Clone + Drop,
    R::File: FileExt,
    ensures refused { consolidated.entry.answer ≡ 1
        → (result ≡ 1) × Prints O.contents O.failures out.old out.new consolidated.entry.lines.now }
    ensures done { consolidated.entry.answer ≢ 1
        → IsListUnread O.Console Second (codes "consolidated.adl") out.old out.new result
        ⊎ ComparesWritten ⟦<ShownShelf<'static, R, L> as devices::Shelf>⟧ O.Console
        consolidated.entry.list.now consolidated.entry.lines.now consolidated.entry.places.out.now
        shelf.old out.old out.new result }
    ensures statuses { result ≤ 1 }
{
    let places = consolidated.places;
    if consolidated.answer == REFUSED {
        let manner = session.manner;
        if manner.tells_all {
            tell_all_further(session.rt, consolidated.list, places.media, manner, err);
        }
        put_lines(consolidated.lines, out);
        return REFUSED;
    }
    match open_inside(session, places.out, LIST) {
        Ok(written) => put_verified(session, consolidated, shelf, written, out, err),
        Err(fault) => keep_list_unread(ListOfTwo::Second, fault, LIST, out, err),
    }
}

/// Compares a list with the one that was written for it, opened over the output, and prints what came of it.
fn put_verified<R, O: Console, E: Console, L: Progress>(
    session: &Session<'_, R, L>,
    consolidated: Consolidated<'_>,
    shelf: &mut ShownShelf<'_, R, L>,
    written: OpenedList<'_, R, L>,
    out: &mut O,
    err: &mut E,
) -> u8
where
    R: Files + Input + AllocGlobal + Clone + Drop,
    R::File: FileExt,
    requires { written.shelf.folder ≡ folder_named consolidated.places.out.now }
    ensures compared { ComparesWritten ⟦<ShownShelf<'static, R, L> as devices::Shelf>⟧ O.Console
        consolidated.entry.list.now consolidated.entry.lines.now consolidated.entry.places.out.now
        shelf.old out.old out.new result }
    ensures statuses { result ≤ 1 }
{
    let (rt, places) = (session.rt, consolidated.places);
    let OpenedList {
        text,
        shelf: mut written_shelf,
        ..
    } = written;
    let lists = BothLists {
        first: consolidated.list,
        second: &text,
    };
    let asides = AsidesOfTwo {
        first: FolderAsides::new(rt, places.media, session.manner),
        second: FolderAsides::new(rt, places.out, PLAIN),
    };
    let mut terminal = Terminal {
        out,
        err,
        meter: WorkMeter::new(session.line),
        asides,
    };
    answer_verified(
        rt.alloc(),
        lists,
        consolidated.lines,
        shelf,
        &mut written_shelf,
        &mut terminal,
    )
}
