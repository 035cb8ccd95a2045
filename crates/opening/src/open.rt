// Opening of the project of a list.
ghost use Rattle.std.specs.Prelude.{◌≡◌, ◌≤◌, Err, Ok, IsTrue, IfOk, IfErr, MatchBool, ⊤};
ghost use Rattle.work_terms.specs.Disk.{Files};
ghost use Rattle.work_terms.specs.Refusals.{Answers, is_excused, turn_of};
ghost use Rattle.list_terms.specs.Bound.{binding_of};
ghost use Rattle.list_terms.specs.Heard.{IsAccepted, project_fault};
ghost use Rattle.list_terms.specs.Project.{ListProject};
ghost use Rattle.list_terms.specs.Text.{text_value};
ghost use Rattle.adlread.specs.Spells.{Spells};
ghost use Rattle.sourceindex.specs.Fault as binding;
ghost use Rattle.sourceindex.specs.Own as binding_own;
ghost use Rattle.sourceindex.specs.Own.{IsOfProject};
ghost use Rattle.opening.specs.Commands.{ReadsSources, RefusesBadText};
ghost use Rattle.opening.specs.Faults.{IsEarly, refusal_of};
ghost use Rattle.opening.specs.Own.{ComesFirst, IsFirst, IsOfBinding, IsOfOpening, IsTextOf};

use crate::Fault;
use adlmodel::Project;
use adlread::read;
use devices::Shelf;
use projectcheck::{Checked, check};
use sourceindex::{BindFault, Bound, bind};
use std::alloc::Global;

fn read_list(alloc: Global, list: &[u8]) -> Result<Project, Fault>
    ensures spelt { IfOk result (IsTextOf list.now) }
    ensures spelled { IfOk result (Spells list.now) }
    ensures refused { IfErr result (λ fault.
        MatchBool (is_excused (refusal_of fault).number) ⊤ (text_value list.now ≡ Err (refusal_of fault))) }
    ensures first { IfErr result (λ fault. (refusal_of fault).number ≤ 18) }
    ensures early { IfErr result IsEarly }
    ensures own { IfErr result (IsOfOpening list.now) }
    ensures in_turn { (files : Files) → IfErr result (IsFirst list.now files) }
{
    match read(alloc, list) {
        Ok(project) => Ok(project),
        Err(fault) => Err(Fault::List(fault)),
    }
}

/// Converts a fault of binding.
fn told_of(fault: BindFault) -> Fault
    ensures refusal { refusal_of result ≡ binding.refusal_of fault }
    ensures own { (project : ListProject) → IsOfProject project fault → IsOfBinding project result }
    ensures in_turn { (project : ListProject) → (files : Files) → binding_own.ComesFirst project files fault
        → ComesFirst project files result }
{
    match fault {
        BindFault::SameName { index } => Fault::SameName { index },
        BindFault::Media { index, name, fault } => Fault::Media { index, name, fault },
    }
}

fn bind_project<S: Shelf>(
    alloc: Global,
    project: Project,
    shelf: &mut S,
) -> Result<(Project, Bound), Fault>
    ensures same { IfOk result (λ bound. bound.0 ≡ project) }
    ensures bound { IsTrue (S.honest shelf.old)
        → IfOk result (λ bound. binding_of project (S.stored shelf.old) ≡ Ok bound.1) }
    ensures refused { IsTrue (S.honest shelf.old)
        → IfErr result (λ fault. MatchBool (is_excused (refusal_of fault).number) ⊤
        (binding_of project (S.stored shelf.old) ≡ Err (refusal_of fault))) }
    ensures second { IfErr result (λ fault. turn_of (refusal_of fault) ≡ 2) }
    ensures own { IfErr result (IsOfBinding project) }
    ensures in_turn { IsTrue (S.honest shelf.old) → IfErr result (ComesFirst project (S.stored shelf.old)) }
    ensures only_reads { ReadsSources S.Shelf shelf.old shelf.new result }
{
    match bind(alloc, &project, shelf) {
        Ok(bound) => Ok((project, bound)),
        Err(fault) => Err(told_of(fault)),
    }
}

/// Reads the list, binds the indexes that its entries use, and checks the entries.
///
/// Returns the first fault of the text, else of a file, in the order of the source index, else of an entry, in the
/// order of the list.
pub fn open_project<S: Shelf>(alloc: Global, list: &[u8], shelf: &mut S) -> Result<Checked, Fault>
    ensures accepted { IsTrue (S.honest shelf.old)
        → IfOk result (λ checked. IsAccepted list.now (S.stored shelf.old) checked.project checked.bound) }
    ensures spelt { IfOk result (λ checked. text_value list.now ≡ Ok checked.project) }
    ensures spelled { IfOk result (λ checked. Spells list.now checked.project) }
    ensures refusals { IsTrue (S.honest shelf.old)
        → Answers refusal_of result (project_fault list.now (S.stored shelf.old)) }
    ensures bad_text { RefusesBadText list.now result }
    ensures own { IfErr result (IsOfOpening list.now) }
    ensures in_turn { IsTrue (S.honest shelf.old) → IfErr result (IsFirst list.now (S.stored shelf.old)) }
    ensures only_reads { ReadsSources S.Shelf shelf.old shelf.new result }
{
    let project = read_list(alloc, list)?;
    let (project, bound) = bind_project(alloc, project, shelf)?;
    match check(project, bound) {
        Ok(checked) => Ok(checked),
        Err(fault) => Err(Fault::Entry(fault)),
    }
}
