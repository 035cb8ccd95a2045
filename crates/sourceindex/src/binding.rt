// Binding a project to its files.
ghost use Rattle.std.specs.Prelude.{◌≡◌, IsTrue, IfErr};
ghost use Rattle.work_terms.specs.Refusals.{Gives};
ghost use Rattle.devices.specs.Frame.{OnlyReads};
ghost use Rattle.list_terms.specs.Bound.{binding_of};
ghost use Rattle.sourceindex.specs.Fault.{refusal_of};
ghost use Rattle.sourceindex.specs.Own.{ComesFirst, HoldsOfFile, IsOfProject};

use crate::binder::Binder;
use crate::used_numbers::UsedNumbers;
use crate::{BindFault, Bound};
use adlmodel::Project;
use devices::Shelf;
use std::alloc::Global;

/// Binds each index that an entry names, in the order of SOURCE_INDEX. Each file is opened once, even if several
/// indexes name it; other files aren't opened.
///
/// Returns `SameName` if an earlier index names the file by another path, and `Media` if the file isn't accepted,
/// if the device fails or if out of memory.
pub fn bind<S: Shelf>(alloc: Global, project: &Project, shelf: &mut S) -> Result<Bound, BindFault>
    ensures exact { IsTrue (S.honest shelf.old)
        → Gives (λ bound. bound) refusal_of (λ refusal. refusal.number) result
        (binding_of project.now (S.stored shelf.old)) }
    ensures in_turn { IsTrue (S.honest shelf.old) → IfErr result (ComesFirst project.now (S.stored shelf.old)) }
    ensures own { IfErr result (IsOfProject project.now) }
    ensures only_reads { OnlyReads S.Shelf shelf.old shelf.new result
        (λ fault. (refusal_of fault).number ≡ 22)
        (λ fault failed. HoldsOfFile failed (refusal_of fault).location) }
{
    let sources = project.sources().as_slice();
    let used = UsedNumbers::new(alloc, project.events());
    let mut binder = Binder::new(alloc);
    for source in sources {
        if let Err(fault) = binder.take(alloc, source, &used, shelf) {
            return Err(fault.of_index(source.number()));
        }
    }
    Ok(Bound::of(binder))
}
