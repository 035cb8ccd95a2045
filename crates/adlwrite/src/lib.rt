//! A writer for audio decision lists in the shape of AES31-3.
//!
//! Lines end with CR LF, and one space separates tokens. The header sections that exist come first, with their kept
//! lines, then SOURCE_INDEX and EVENT_LIST.
#![tactic(auto)]

ghost use Rattle.std.specs.Prelude.{◌≡◌, ◌≢◌, ℕ, List, Ok, Err, IfOk, IsTrue, OnErr, OnOk, ⊤, length};
ghost use Rattle.list_terms.specs.Text.{text_value};
ghost use Rattle.list_terms.specs.WholeProject.{without_notices};
ghost use Rattle.list_terms.specs.WrittenText.{text_of_project};
ghost use Rattle.work_terms.specs.Disk.{Changes, Follows, IsAppended, IsGrown, IsTornBehind, LeavesOnly, end_of};
ghost use Rattle.devices.specs.Frame.{OnlyWrites};
ghost use Rattle.devices.specs.Frame.{MayBeTorn};

mod fault;
mod parts;
mod text_file;

use adlmodel::Project;
use devices::Bench;
pub use fault::WriteFault;
use parts::put_list;
use std::alloc::{AllocError, Global};
use text_file::TextFile;

/// States that the text written for a project is read as that project.
fn is_read_again(project: &Project)
    ensures { text_value (text_of_project project.now) ≡ Ok (without_notices project.now) }
{
    let _ = project.header();
}

/// Returns the text of a project. Reading it gives the same project, without its notices.
///
/// Returns `AllocError` if out of memory.
pub fn text_of(alloc: Global, project: &Project) -> Result<Vec<u8>, AllocError>
    ensures text { IfOk result (λ text. text.items ≡ text_of_project project.now) }
    ensures reads_back { text_value (text_of_project project.now) ≡ Ok (without_notices project.now) }
{
    is_read_again(project);
    let mut file = TextFile {
        text: Vec::new(alloc),
    };
    match put_list(&mut file, "", project) {
        Ok(()) => Ok(file.text),
        Err(_) => Err(AllocError),
    }
}

/// Appends the text of a project to an existing file, without allocating memory.
///
/// Returns `WriteFault::Device` if the device fails; the file may then have part of the text.
pub fn write<B: Bench>(project: &Project, bench: &mut B, name: &str) -> Result<(), WriteFault>
    ensures written { IsTrue (B.honest bench.old) → OnOk result
        (Changes (IsAppended (text_of_project project.now)) name.now (B.stored bench.old) (B.stored bench.new)) }
    ensures unfinished { IsTrue (B.honest bench.old) → OnErr result
        (Changes (IsGrown (length (text_of_project project.now))) name.now (B.stored bench.old) (B.stored bench.new)) }
    ensures crash { IsTrue (B.honest bench.old) → Follows
        (Changes (IsTornBehind (end_of (B.stored bench.old name.now)) (length (text_of_project project.now))) name.now)
        (B.may_leave bench.old) (B.may_leave bench.new) }
    ensures moments { LeavesOnly B.moment B.left_since bench.old bench.new
        (MayBeTorn B.Bench name.now (text_of_project project.now) bench.old) }
    ensures only_writes { OnlyWrites B.Bench (λ n. n ≢ name.now) bench.old bench.new result (λ _. ⊤)
        (λ _ failed. failed name.now) }
    ensures reads_back { text_value (text_of_project project.now) ≡ Ok (without_notices project.now) }
{
    is_read_again(project);
    put_list(bench, name, project)?;
    Ok(())
}
