// A comparison of two lists, each over the folder of its media.
ghost use Rattle.std.specs.Prelude.{◌≡◌, ◌≢◌, ◌≤◌, ◌⊎◌, ℕ, List, IfOk, OnErr};
ghost use Rattle.list_terms.specs.Text.{rate_of};
ghost use Rattle.verdicts.specs.Verdicts.{NamesBadTime};
ghost use Rattle.verdicts.specs.Times.{selection_of};
ghost use Rattle.shelf.specs.Folder.{folder_named};
ghost use Rattle.commandline.specs.Request.{selected_of};
ghost use Rattle.adlcons.specs.Openings.{ComparesFolders, IsListUnread, IsOneUnread, path_of};

use answers::{AsidesOfTwo, BothLists, MISTAKE, REFUSED, Terminal, answer_compare};
use commandline::{BothPlaces, Selected};
use console::{Console, ListOfTwo, put_in_list, put_refusal};
use explanations::Explanation;
use places::{
    FolderAsides, OpenedList, Progress, ReadFault, Session, ShownShelf, WorkMeter, open_list,
    report_found, tell_all_further, tell_unlisted,
};
use remarks::NamedList;
use std::fs::Files;
use std::os::unix::fs::FileExt;

/// Why a comparison didn't come to the sources of one of two lists.
#[derive(Clone, Copy, Debug)]
struct Unread {
    list: ListOfTwo,
    fault: ReadFault,
}

/// Compares these lists over these folders at what the words choose, and answers the status. What kept it from a list is
/// printed.
pub fn compare_folders<R, O: Console, E: Console, L: Progress>(
    session: &Session<'_, R, L>,
    places: BothPlaces<'_>,
    selected: Selected<'_>,
    out: &mut O,
    err: &mut E,
) -> u8
where
    R: Files + Input + AllocGlobal + Clone + Drop,
    R::File: FileExt,
    ensures answered { result ≢ 2
        → IsOneUnread O.Console places.entry.list.now places.entry.other_list.now out.old out.new result
        ⊎ ComparesFolders ⟦<ShownShelf<'static, R, L> as devices::Shelf>⟧ O.Console (selected_of selected.entry)
        places.entry.media.now places.entry.other_media.now out.old out.new result }
    ensures statuses { result ≤ 2 }
    ensures mistake { result ≡ 2 → (list : List ℕ)
        × NamesBadTime E.Console err.old err.new (selection_of (rate_of list) (selected_of selected.entry)) }
    ensures two { result ≡ 2 → out.new ≡ out.old }
{
    match try_compare(session, places, selected, out, err) {
        Ok(status) => status,
        Err(unread) => keep_one_unread(unread, places, out, err),
    }
}

/// The status of a comparison that doesn't come to the sources of one of its lists. Why is printed.
fn keep_one_unread<O: Console, E: Console>(
    unread: Unread,
    places: BothPlaces<'_>,
    out: &mut O,
    err: &mut E,
) -> u8
    ensures { IsOneUnread O.Console places.entry.list.now places.entry.other_list.now out.old out.new result }
{
    let path = path_of(unread.list, places);
    keep_list_unread(unread.list, unread.fault, path, out, err)
}

/// The status of a command that doesn't come to the sources of this one of two lists, which has this path. Why is
/// printed.
pub fn keep_list_unread<O: Console, E: Console>(
    list: ListOfTwo,
    fault: ReadFault,
    path: &str,
    out: &mut O,
    err: &mut E,
) -> u8
    ensures { IsListUnread O.Console list path.now out.old out.new result }
{
    let refusal = fault.refusal(path);
    put_refusal(out, refusal);
    put_in_list(out, list);
    out.end_line();
    let explanation = Explanation::by(refusal.number, fault.reason(), None);
    let list = NamedList(list);
    err.print_line(format_args!("{list}: {explanation}"));
    REFUSED
}

/// The path of one of both lists.
fn path_of<'a>(list: ListOfTwo, places: BothPlaces<'a>) -> &'a str
    ensures { result.now ≡ path_of list places.entry.list.now places.entry.other_list.now }
{
    match list {
        ListOfTwo::First => places.list,
        ListOfTwo::Second => places.other_list,
    }
}

/// Compares these lists, where both can be read: the first one is read first.
fn try_compare<R, O: Console, E: Console, L: Progress>(
    session: &Session<'_, R, L>,
    places: BothPlaces<'_>,
    selected: Selected<'_>,
    out: &mut O,
    err: &mut E,
) -> Result<u8, Unread>
where
    R: Files + Input + AllocGlobal + Clone + Drop,
    R::File: FileExt,
    ensures answered { IfOk result (λ status. status ≢ 2
        → ComparesFolders ⟦<ShownShelf<'static, R, L> as devices::Shelf>⟧ O.Console (selected_of selected.entry)
        places.entry.media.now places.entry.other_media.now out.old out.new status) }
    ensures statuses { IfOk result (λ status. status ≤ 2) }
    ensures mistake { IfOk result (λ status. status ≡ 2
        → (list : List ℕ)
        × NamesBadTime E.Console err.old err.new (selection_of (rate_of list) (selected_of selected.entry))) }
    ensures two { IfOk result (λ status. status ≡ 2 → out.new ≡ out.old) }
    ensures nothing { OnErr result (out.new ≡ out.old) }
{
    let mut first = open_one(session, ListOfTwo::First, places.list, places.media)?;
    let mut second = open_one(
        session,
        ListOfTwo::Second,
        places.other_list,
        places.other_media,
    )?;
    Ok(compare_opened(session, places, selected, &mut first, &mut second, out, err))
}

/// Compares these lists, which were opened.
fn compare_opened<R, O: Console, E: Console, L: Progress>(
    session: &Session<'_, R, L>,
    places: BothPlaces<'_>,
    selected: Selected<'_>,
    first: &mut OpenedList<'_, R, L>,
    second: &mut OpenedList<'_, R, L>,
    out: &mut O,
    err: &mut E,
) -> u8
where
    R: Files + Input + AllocGlobal + Clone + Drop,
    R::File: FileExt,
    requires media { first.old.shelf.folder ≡ folder_named places.media.now }
    requires other_media { second.old.shelf.folder ≡ folder_named places.other_media.now }
    ensures answered { result ≢ 2
        → ComparesFolders ⟦<ShownShelf<'static, R, L> as devices::Shelf>⟧ O.Console (selected_of selected.entry)
        places.entry.media.now places.entry.other_media.now out.old out.new result }
    ensures statuses { result ≤ 2 }
    ensures mistake { result ≡ 2 → (list : List ℕ)
        × NamesBadTime E.Console err.old err.new (selection_of (rate_of list) (selected_of selected.entry)) }
    ensures two { result ≡ 2 → out.new ≡ out.old }
{
    let (rt, manner) = (session.rt, session.manner);
    let lists = BothLists {
        first: &first.text,
        second: &second.text,
    };
    let asides = AsidesOfTwo {
        first: FolderAsides::new(rt, places.media, manner),
        second: FolderAsides::new(rt, places.other_media, manner),
    };
    let mut terminal = Terminal {
        out,
        err,
        meter: WorkMeter::new(session.line),
        asides,
    };
    let status = answer_compare(
        rt.alloc(),
        selected,
        lists,
        &mut first.shelf,
        &mut second.shelf,
        &mut terminal,
    );
    if status == MISTAKE {
        return status;
    }
    if status == REFUSED && manner.tells_all {
        report_further(session, places, lists, err);
    }
    report_found(first.shelf.sources(), manner, err);
    report_found(second.shelf.sources(), manner, err);
    tell_unlisted(places.media, first.unlisted, err);
    tell_unlisted(places.other_media, second.unlisted, err);
    status
}

/// Opens one of two lists over this folder.
fn open_one<'a, R, L: Progress>(
    session: &Session<'a, R, L>,
    list: ListOfTwo,
    path: &str,
    media: &str,
) -> Result<OpenedList<'a, R, L>, Unread>
where
    R: Files + Input + AllocGlobal + Clone + Drop,
    R::File: FileExt,
    ensures { IfOk result (λ opened. opened.shelf.folder ≡ folder_named media.now) }
{
    match open_list(session, path, media) {
        Ok(opened) => Ok(opened),
        Err(fault) => Err(Unread { list, fault }),
    }
}

/// Prints the further faults of the first list that has one.
fn report_further<R, E: Console, L: Progress>(
    session: &Session<'_, R, L>,
    places: BothPlaces<'_>,
    lists: BothLists<'_>,
    err: &mut E,
)
where
    R: Files + Input + AllocGlobal + Clone + Drop,
    R::File: FileExt,
{
    let (rt, manner) = (session.rt, session.manner);
    if !tell_all_further(rt, lists.first, places.media, manner, err) {
        tell_all_further(rt, lists.second, places.other_media, manner, err);
    }
}
