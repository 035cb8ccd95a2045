// Information printed after a command is done: the meanings of its notices, and the sources that changed.
use crate::changed::ChangedSources;
use console::Console;
use findings::{NOTICES, PassedWords};
use list_terms::Notice;
use shelf::Reasons;
use std::alloc::Global;

/// Prints the meaning of each kind of notice once, and the parts of the list that are ignored without a notice.
pub fn tell_meanings<E: Console>(notices: &[Notice], list: &[u8], err: &mut E) {
    for meaning in &NOTICES {
        if has_kind(notices, meaning.kind) {
            err.print_line(*meaning);
        }
    }
    err.print(PassedWords(list));
}

/// Prints the meaning of each kind of notice of two lists once, and the parts of either list that are ignored without a
/// notice.
pub fn tell_meanings_of_two<E: Console>(
    notices: &[Notice],
    others: &[Notice],
    list: &[u8],
    other: &[u8],
    err: &mut E,
) {
    for meaning in &NOTICES {
        if has_kind(notices, meaning.kind) || has_kind(others, meaning.kind) {
            err.print_line(*meaning);
        }
    }
    err.print(PassedWords(list));
    err.print(PassedWords(other));
}

/// Returns whether one of the notices is of this kind.
fn has_kind(notices: &[Notice], kind: u8) -> bool {
    notices.iter().any(|notice| notice.kind == kind)
}

/// Prints the sources that were changed or removed since they were opened.
pub fn tell_changed<S: Reasons, E: Console>(alloc: Global, shelf: &S, err: &mut E) {
    if let Ok(names) = shelf.changed(alloc) {
        err.print(ChangedSources(names.as_slice()));
    }
}
