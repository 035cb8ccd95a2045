// Accepted lists and the report of them.
ghost use Rattle.std.specs.Prelude.{◌≡◌, ◌++◌, Ok, IsTrue, IfOk, IfErr, length};
ghost use Rattle.work_terms.specs.Refusals.{Answers};
ghost use Rattle.list_terms.specs.Heard.{IsAccepted, project_fault};
ghost use Rattle.list_terms.specs.Text.{text_value};
ghost use Rattle.adlread.specs.Spells.{Spells};
ghost use Rattle.opening.specs.Commands.{ReadsSources, RefusesBadText};
ghost use Rattle.opening.specs.Faults.{refusal_of};
ghost use Rattle.opening.specs.Own.{IsFirst, IsOfOpening};

use crate::Fault;
use crate::open::open_project;
use adlread::AdlFault;
use devices::Shelf;
use list_terms::Notice;
use projectcheck::Checked;
use std::alloc::{AllocError, Global};

/// The report of an accepted list: its notices and the numbers of entries and bound indexes.
#[derive(Debug, Drop)]
pub struct Accepted {
    pub notices: Vec<Notice>,
    pub entries: u32,
    pub indexes: u32,
}

/// A project without faults, and the notices of its list followed by the notices of its files.
#[derive(Drop)]
pub struct Opened {
    pub checked: Checked,
    pub notices: Vec<Notice>,
}

/// An accepted list: its report and its project.
#[derive(Drop)]
pub struct AcceptedList {
    pub accepted: Accepted,
    pub checked: Checked,
}

impl Opened {
    /// Separates the project from its report.
    pub fn into_accepted(self) -> AcceptedList
        ensures same { result.checked ≡ self.checked }
        ensures notices { result.accepted.notices ≡ self.notices }
        ensures entries { result.accepted.entries ≡ length self.checked.project.events }
        ensures indexes { result.accepted.indexes ≡ length self.checked.bound.indexes }
    {
        let Opened { checked, notices } = self;
        let entries = checked.project().events().len() as u32;
        let indexes = checked.bound().indexes().len() as u32;
        let accepted = Accepted {
            notices,
            entries,
            indexes,
        };
        AcceptedList { accepted, checked }
    }
}

/// Returns the notices of the list, followed by the notices of its files.
fn notices_of(alloc: Global, checked: &Checked) -> Result<Vec<Notice>, AllocError>
    ensures { IfOk result (λ notices. notices.items ≡ checked.now.project.notices ++ checked.now.bound.notices) }
{
    let mut notices = Vec::from_slice(alloc, checked.project().notices())?;
    notices.extend_from_slice(checked.bound().notices())?;
    Ok(notices)
}

/// Opens the project of a list over the sources of a shelf, with its notices.
///
/// Returns the errors of `open_project`, and 18 if there is no memory for the notices.
pub fn open_list<S: Shelf>(alloc: Global, list: &[u8], shelf: &mut S) -> Result<Opened, Fault>
    ensures accepted { IsTrue (S.honest shelf.old)
        → IfOk result (λ opened. IsAccepted list.now (S.stored shelf.old) opened.checked.project opened.checked.bound) }
    ensures spelt { IfOk result (λ opened. text_value list.now ≡ Ok opened.checked.project) }
    ensures spelled { IfOk result (λ opened. Spells list.now opened.checked.project) }
    ensures notices { IfOk result (λ opened. opened.notices.items
        ≡ opened.checked.project.notices ++ opened.checked.bound.notices) }
    ensures refusals { IsTrue (S.honest shelf.old)
        → Answers refusal_of result (project_fault list.now (S.stored shelf.old)) }
    ensures bad_text { RefusesBadText list.now result }
    ensures own { IfErr result (IsOfOpening list.now) }
    ensures in_turn { IsTrue (S.honest shelf.old) → IfErr result (IsFirst list.now (S.stored shelf.old)) }
    ensures only_reads { ReadsSources S.Shelf shelf.old shelf.new result }
{
    let checked = open_project(alloc, list, shelf)?;
    match notices_of(alloc, &checked) {
        Ok(notices) => Ok(Opened { checked, notices }),
        Err(_) => Err(Fault::List(AdlFault::Memory)),
    }
}
