// Checks a list without writing anything.
ghost use Rattle.std.specs.Prelude.{IfOk, IsTrue};
ghost use Rattle.adlread.specs.Spells.{Spells};
ghost use Rattle.list_terms.specs.Heard.{IsAccepted};
ghost use Rattle.list_terms.specs.Steps.{ok_map};
ghost use Rattle.consolidate.specs.Commands.{IsChecking};

use crate::Fault;
use crate::open_call::open;
use devices::Shelf;
use opening::{Accepted, AcceptedList};
use std::alloc::Global;

/// Checks a list over the sources of a shelf: its text, then the files that it uses in the order of the source index,
/// then its entries in their order. The first fault is reported; else the list's notices, and how many entries and bound
/// indexes it has.
pub fn check_project<S: Shelf>(alloc: Global, list: &[u8], shelf: &mut S) -> Result<Accepted, Fault>
    ensures { IsChecking S.Shelf list.now shelf.old shelf.new result }
{
    Ok(check_opened(alloc, list, shelf)?.accepted)
}

/// The same, with the project of a list that is accepted.
pub fn check_opened<S: Shelf>(
    alloc: Global,
    list: &[u8],
    shelf: &mut S,
) -> Result<AcceptedList, Fault>
    ensures checking { IsChecking S.Shelf list.now shelf.old shelf.new (ok_map (λ list. list.accepted) result) }
    ensures spelled { IfOk result (λ opened. Spells list.now opened.checked.project) }
    ensures project { IsTrue (S.honest shelf.old)
        → IfOk result (λ opened. IsAccepted list.now (S.stored shelf.old) opened.checked.project opened.checked.bound) }
{
    Ok(open(alloc, list, shelf)?.into_accepted())
}
