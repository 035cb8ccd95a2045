// Reports and pictures of a list over the folder of its media.
ghost use Rattle.std.specs.Prelude.{◌≡◌, ◌≤◌, ◌⊎◌, ℕ, List, IfOk, OnErr};
ghost use Rattle.commandline.specs.Request.{drawn_of};
ghost use Rattle.list_terms.specs.Text.{rate_of};
ghost use Rattle.verdicts.specs.Verdicts.{NamesBadTime};
ghost use Rattle.answers.specs.Times.{part_of};
ghost use Rattle.adlcons.specs.Openings.{IsReportUnread, ReportsFolder};

use crate::folders::keep_unread;
use answers::{Drawing, MISTAKE, REFUSED, Terminal, answer_picture, answer_report};
use asides::explained_unread;
use checkreport::{put_no_memory, put_unread};
use console::{Console, Place};
use explanations::Explanation;
use places::{
    FolderAsides, Progress, ReadFault, Session, ShownShelf, WorkMeter, read_list, report_found,
    tell_all_further, tell_unlisted, unlisted_reason,
};
use std::alloc::Global;
use std::fs::Files;
use std::os::unix::fs::FileExt;

/// Prints the report of the list of this path over this folder, and answers the status. All that is at fault may stand on
/// `err`.
pub fn report_folder<R, O: Console, E: Console, L: Progress>(
    session: &Session<'_, R, L>,
    path: &str,
    media: &str,
    out: &mut O,
    err: &mut E,
) -> u8
where
    R: Files + Input + AllocGlobal + Clone + Drop,
    R::File: FileExt,
    ensures reported { IsReportUnread O.Console path.now out.old out.new result
        ⊎ (text : List ℕ)
        × ReportsFolder ⟦<ShownShelf<'static, R, L> as devices::Shelf>⟧ O.Console text media.now out.old out.new result }
    ensures statuses { result ≤ 1 }
{
    let list = match read_list(session.rt, path) {
        Ok(list) => list,
        Err(fault) => return report_unread(session.rt.alloc(), fault, path, out, err),
    };
    match try_report(session, &list, media, out, err) {
        Ok(status) => status,
        Err(fault) => report_unread(session.rt.alloc(), fault, path, out, err),
    }
}

/// Prints the report of the list of this path, which isn't read, and answers the status.
fn report_unread<O: Console, E: Console>(
    alloc: Global,
    fault: ReadFault,
    path: &str,
    out: &mut O,
    err: &mut E,
) -> u8
    ensures { IsReportUnread O.Console path.now out.old out.new result }
{
    let refusal = fault.refusal(path);
    let explanation = Explanation::by(refusal.number, fault.reason(), None);
    err.print_line(explanation);
    let Place::File(name) = refusal.location else {
        return put_no_memory(out);
    };
    match String::from_str(alloc, name) {
        Ok(path) => {
            let (cause, meaning) = (explanation.cause(), explanation.meaning());
            let explained = explained_unread(alloc, cause, meaning, explanation.remedy());
            put_unread(refusal.number, path, explained, out)
        }
        Err(_) => put_no_memory(out),
    }
}

/// Prints the report of this list where the folder can be opened.
fn try_report<R, O: Console, E: Console, L: Progress>(
    session: &Session<'_, R, L>,
    list: &[u8],
    media: &str,
    out: &mut O,
    err: &mut E,
) -> Result<u8, ReadFault>
where
    R: Files + Input + AllocGlobal + Clone + Drop,
    R::File: FileExt,
    ensures reported { IfOk result
        (λ status. ReportsFolder ⟦<ShownShelf<'static, R, L> as devices::Shelf>⟧ O.Console list.now media.now out.old out.new
        status) }
    ensures statuses { IfOk result (λ status. status ≤ 1) }
    ensures nothing { OnErr result (out.new ≡ out.old) }
{
    let (rt, manner) = (session.rt, session.manner);
    let mut shelf = ShownShelf::open(session, media)?;
    let unlisted = unlisted_reason(rt, media);
    let mut terminal = Terminal {
        out,
        err,
        meter: WorkMeter::new(session.line),
        asides: FolderAsides::new(rt, media, manner),
    };
    let status = answer_report(rt.alloc(), list, &mut shelf, &mut terminal);
    if status == REFUSED && manner.tells_all {
        tell_all_further(rt, list, media, manner, err);
    }
    report_found(shelf.sources(), manner, err);
    tell_unlisted(media, unlisted, err);
    Ok(status)
}

/// Prints this picture of a list over this folder, and answers the status. All that is at fault may stand on `err`.
pub fn show_folder<R, O: Console, E: Console, L: Progress>(
    session: &Session<'_, R, L>,
    media: &str,
    drawing: Drawing<'_>,
    out: &mut O,
    err: &mut E,
) -> u8
where
    R: Files + Input + AllocGlobal + Clone + Drop,
    R::File: FileExt,
    ensures statuses { result ≤ 2 }
    ensures mistake { result ≡ 2 → (list : List ℕ)
        × NamesBadTime E.Console err.old err.new (part_of (rate_of list) (drawn_of drawing.entry.drawn)) }
    ensures two { result ≡ 2 → out.new ≡ out.old }
{
    match try_show(session, media, drawing, out, err) {
        Ok(status) => status,
        Err(fault) => keep_unread(fault, drawing.path, out, err),
    }
}

/// Prints this picture where the list and the folder can be opened.
fn try_show<R, O: Console, E: Console, L: Progress>(
    session: &Session<'_, R, L>,
    media: &str,
    drawing: Drawing<'_>,
    out: &mut O,
    err: &mut E,
) -> Result<u8, ReadFault>
where
    R: Files + Input + AllocGlobal + Clone + Drop,
    R::File: FileExt,
    ensures statuses { IfOk result (λ status. status ≤ 2) }
    ensures mistake { IfOk result (λ status. status ≡ 2 → (list : List ℕ)
        × NamesBadTime E.Console err.old err.new (part_of (rate_of list) (drawn_of drawing.entry.drawn))) }
    ensures two { IfOk result (λ status. status ≡ 2 → out.new ≡ out.old) }
    ensures nothing { OnErr result (out.new ≡ out.old) }
{
    let text = read_list(session.rt, drawing.path)?;
    let mut shelf = ShownShelf::open(session, media)?;
    Ok(show_opened(session, media, drawing, &text, &mut shelf, out, err))
}

/// Prints this picture of this list over the folder, which was opened.
fn show_opened<R, O: Console, E: Console, L: Progress>(
    session: &Session<'_, R, L>,
    media: &str,
    drawing: Drawing<'_>,
    list: &[u8],
    shelf: &mut ShownShelf<'_, R, L>,
    out: &mut O,
    err: &mut E,
) -> u8
where
    R: Files + Input + AllocGlobal + Clone + Drop,
    R::File: FileExt,
    ensures statuses { result ≤ 2 }
    ensures mistake { result ≡ 2
        → NamesBadTime E.Console err.old err.new (part_of (rate_of list.now) (drawn_of drawing.entry.drawn)) }
    ensures two { result ≡ 2 → out.new ≡ out.old }
{
    let (rt, manner) = (session.rt, session.manner);
    let unlisted = unlisted_reason(rt, media);
    let mut terminal = Terminal {
        out,
        err,
        meter: WorkMeter::new(session.line),
        asides: FolderAsides::new(rt, media, manner),
    };
    let status = answer_picture(rt.alloc(), list, drawing, shelf, &mut terminal);
    if status == MISTAKE {
        return status;
    }
    if status == REFUSED && manner.tells_all {
        tell_all_further(rt, list, media, manner, err);
    }
    report_found(shelf.sources(), manner, err);
    tell_unlisted(media, unlisted, err);
    status
}
