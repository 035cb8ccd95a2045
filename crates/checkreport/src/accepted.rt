// Reports of accepted lists.
ghost use Rattle.std.specs.Prelude.{◌≡◌, ◌++◌, ◌||◌, codes, decimal, false, map, option_map, slice_get};
ghost use Rattle.serde_json.specs.View.{items_of};
ghost use Rattle.serde_json.specs.Written as written;
ghost use Rattle.checkreport.specs.Printed.{printed_items, printed_text};
ghost use Rattle.console.specs.Printing.{Prints};
ghost use Rattle.checkreport.specs.Report as spec;
ghost use Rattle.report_terms.specs.Report.{notice_data};
ghost use Rattle.checkreport.specs.Report.{Beside, accepted_data, index_of_file};
ghost use Rattle.checkreport.specs.Parts.{after_commas, beside_text, index_text, listed, notice_text};

use crate::explained::{Explains, put_all_passed, put_room};
use crate::values::{FORM, put_string, put_text};
use console::{Console, put_counted};
use list_terms::Notice;
use projectcheck::Checked;
use sound_terms::BoundIndex;
use std::alloc::Global;
use wavread::Sound;

/// Prints the report of a list without faults as one JSON value.
pub fn put_report<X: Explains, O: Console>(
    alloc: Global,
    checked: &Checked,
    explains: &mut X,
    out: &mut O,
)
    ensures { (beside : Beside) × Prints O.contents O.failures out.old out.new
        (printed_text (accepted_data checked.now.project checked.now.bound beside)) }
{
    let project = checked.project();
    let bound = checked.bound();
    put_counted(
        out,
        "{\"accepted\":true,\"entry_count\":",
        project.events().len() as u64,
    );
    put_counted(out, ",\"form\":", FORM);
    out.put(b",\"indexes\":[");
    put_indexes(out, bound.indexes(), bound.sounds(), bound.notices());
    put_beside(alloc, checked, explains, out);
    out.put(b",\"notices\":[");
    put_notices(out, project.notices(), bound.notices());
    let rate = u64::from(project.rate().frames_per_second());
    put_counted(out, ",\"rate\":", rate);
    out.put(b"}");
}

/// Prints the error of listing the media folder, if any, the size of the outputs, and the lines that aren't fully
/// honoured.
fn put_beside<X: Explains, O: Console>(
    alloc: Global,
    checked: &Checked,
    explains: &mut X,
    out: &mut O,
)
    ensures { (beside : Beside) × Prints O.contents O.failures out.old out.new (beside_text beside) }
{
    let media_error = explains.media_error(alloc);
    out.put(b",\"media_error\":");
    put_text(out, &media_error);
    let room = explains.room(alloc, checked);
    out.put(b",\"most_bytes\":");
    put_room(out, room);
    out.put(b",\"not_honoured\":[");
    put_all_passed(alloc, explains, out);
}

/// Prints the notices of the list and of its files, and the end of the array.
fn put_notices<O: Console>(out: &mut O, list: &[Notice], files: &[Notice])
    ensures { Prints O.contents O.failures out.old out.new
        (printed_items false (items_of (map notice_data (list.now ++ files.now)))) }
{
    match list.split_first() {
        Some((first, rest)) => {
            put_notice(out, first);
            put_further_notices(out, rest);
            put_further_notices(out, files);
            out.put(b"]");
        }
        None => put_notices_of_files(out, files),
    }
}

/// Prints the notices and the end of the array.
fn put_notices_of_files<O: Console>(out: &mut O, notices: &[Notice])
    ensures { Prints O.contents O.failures out.old out.new
        (printed_items false (items_of (map notice_data notices.now))) }
{
    match notices.split_first() {
        Some((first, rest)) => {
            put_notice(out, first);
            put_further_notices(out, rest);
            out.put(b"]");
        }
        None => out.put(b"]"),
    }
}

/// Prints the notices, each after a comma.
fn put_further_notices<O: Console>(out: &mut O, notices: &[Notice])
    ensures { Prints O.contents O.failures out.old out.new (after_commas notice_text notices.now) }
{
    for notice in notices {
        out.put(b",");
        put_notice(out, notice);
    }
}

/// Prints the number of a notice and its line or index.
#[tactic(auto, unfolding(crate::specs::Parts::notice_text, json::specs::Print::escape_byte))]
fn put_notice<O: Console>(out: &mut O, notice: &Notice)
    ensures { Prints O.contents O.failures out.old out.new (notice_text notice.now) }
{
    if notice.kind <= 2 {
        put_notice_at(out, "{\"line\":", notice);
    } else {
        put_notice_at(out, "{\"index\":", notice);
    }
}

/// Prints a notice; `words` is the JSON text before its line or index.
fn put_notice_at<O: Console>(out: &mut O, words: &str, notice: &Notice)
    ensures { Prints O.contents O.failures out.old out.new (words.now
        ++ (decimal notice.now.at ++ (codes ",\"notice\":" ++ (decimal notice.now.kind ++ codes "}")))) }
{
    put_counted(out, words, notice.at);
    put_counted(out, ",\"notice\":", u64::from(notice.kind));
    out.put(b"}");
}

/// Prints the indexes and the end of the array.
fn put_indexes<O: Console>(
    out: &mut O,
    indexes: &[BoundIndex],
    sounds: &[Sound],
    notices: &[Notice],
)
    ensures { Prints O.contents O.failures out.old out.new
        (printed_items false (items_of (map (spec.index_data sounds.now notices.now) indexes.now))) }
{
    match indexes.split_first() {
        Some((first, rest)) => {
            put_index(out, first, sounds, notices);
            put_further_indexes(out, rest, sounds, notices);
            out.put(b"]");
        }
        None => out.put(b"]"),
    }
}

/// Prints the indexes, each after a comma.
fn put_further_indexes<O: Console>(
    out: &mut O,
    indexes: &[BoundIndex],
    sounds: &[Sound],
    notices: &[Notice],
)
    ensures { Prints O.contents O.failures out.old out.new
        (after_commas (index_text sounds.now notices.now) indexes.now) }
{
    for index in indexes {
        out.put(b",");
        put_index(out, index, sounds, notices);
    }
}

/// Prints an index, or null if its file is unknown.
#[tactic(auto, unfolding(crate::specs::Parts::index_text))]
fn put_index<O: Console>(out: &mut O, index: &BoundIndex, sounds: &[Sound], notices: &[Notice])
    ensures { Prints O.contents O.failures out.old out.new (index_text sounds.now notices.now index.now) }
{
    match sound_at(sounds, index.file) {
        Some(sound) => put_index_of(out, index, sound, notices),
        None => out.put(b"null"),
    }
}

fn sound_at(sounds: &[Sound], position: u32) -> Option<&Sound>
    ensures { option_map (λ sound. sound.now) result ≡ slice_get sounds.now position }
{
    sounds.get(position as usize)
}

/// Prints an index whose file is `sound`.
fn put_index_of<O: Console>(out: &mut O, index: &BoundIndex, sound: &Sound, notices: &[Notice])
    ensures { Prints O.contents O.failures out.old out.new
        (printed_text (index_of_file notices.now index.now sound.now)) }
{
    put_counted(out, "{\"base\":", index.base);
    put_counted(out, ",\"channels\":", u64::from(sound.channels()));
    put_counted(out, ",\"depth\":", u64::from(sound.depth().bits()));
    out.put(b",\"file\":");
    put_string(out, sound.name());
    put_counted(out, ",\"frames\":", sound.frames());
    put_counted(out, ",\"index\":", u64::from(index.number));
    out.put(b",\"notices\":[");
    put_kinds(out, index.number, notices);
    out.put(b"]}");
}

/// Prints the numbers of the notices of an index, separated by commas.
fn put_kinds<O: Console>(out: &mut O, index: u32, notices: &[Notice])
    ensures { Prints O.contents O.failures out.old out.new (listed false (spec.kinds_of index notices.now)) }
{
    let mut is_later = false;
    for notice in notices {
        is_later = put_kind(out, index, notice, is_later);
    }
}

/// Prints the number of the notice if it belongs to the index, after a comma if `is_later`. Returns whether the next
/// number needs a comma.
fn put_kind<O: Console>(out: &mut O, index: u32, notice: &Notice, is_later: bool) -> bool
    ensures printed { Prints O.contents O.failures out.old out.new (listed is_later (spec.kind_at index notice.now)) }
    ensures later { result ≡ is_later || spec.is_of_index index notice.now }
{
    if !is_of_index(index, notice) {
        return is_later;
    }
    put_counted(out, comma_if(is_later), u64::from(notice.kind));
    true
}

/// Returns a comma if another value precedes.
fn comma_if(is_later: bool) -> &'static str
    ensures { result.now ≡ written.comma_if is_later }
{
    if is_later { "," } else { "" }
}

/// Returns whether the notice belongs to the index.
fn is_of_index(index: u32, notice: &Notice) -> bool
    ensures { result ≡ spec.is_of_index index notice.now }
{
    notice.kind > 2 && notice.at == u64::from(index)
}
