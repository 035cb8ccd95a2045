// Syncing of both files of a rendering.
ghost use Rattle.std.specs.Prelude.{◌≡◌, IsTrue, IfErr, IfOk, OnOk, option_map, length, ⊤};
ghost use Rattle.work_terms.specs.Disk.{Files, ReadsTo};
ghost use Rattle.markfile.specs.Fault.{ReadsMarks, number_of};
ghost use Rattle.markfile.specs.Format.{marks_name, sound_name};
ghost use Rattle.markfile.specs.Opened.{AreSettled, IsSettledAs, Settles};

use crate::{MARKS, MarkFault, MarkedFile, SOUND};
use devices::{Bench, DeviceFault, ShelfFault};

/// Syncs a file if it exists and returns its length.
fn settle<B: Bench>(bench: &mut B, name: &str) -> Result<Option<u64>, DeviceFault>
    ensures size { IsTrue (B.honest bench.old)
        → IfOk result (λ size. size ≡ option_map length (B.stored bench.old name.now)) }
    ensures settled { IsTrue (B.honest bench.old) → OnOk result ((c : Files) → B.may_leave bench.new c
        → IsSettledAs (B.stored bench.new name.now) (c name.now)) }
    ensures untouched { Settles B.Bench bench.old bench.new }
    ensures only_reads { ReadsTo B.stored B.honest B.failures B.failed_at bench.old bench.new result (λ _. ⊤)
        (λ _ failed. failed name.now) }
{
    let size = match bench.length(name) {
        Ok(size) => size,
        Err(ShelfFault::NotFound) => return Ok(None),
        Err(ShelfFault::Device) => return Err(DeviceFault),
    };
    match bench.sync(name) {
        Ok(()) => return Ok(Some(size)),
        Err(fault) => return Err(fault),
    }
}

/// The lengths of the two files of a rendering, or `None` for a file that doesn't exist.
#[derive(Clone, Copy)]
pub struct Sizes {
    pub sound: Option<u64>,
    pub marks: Option<u64>,
}

/// Syncs the rendered file and the marks, if they exist, and returns their lengths. Returns `Device` if a sync fails.
pub fn settle_both<B: Bench>(bench: &mut B) -> Result<Sizes, MarkFault>
    ensures sound { IsTrue (B.honest bench.old)
        → IfOk result (λ sizes. sizes.sound ≡ option_map length (B.stored bench.old sound_name)) }
    ensures marks { IsTrue (B.honest bench.old)
        → IfOk result (λ sizes. sizes.marks ≡ option_map length (B.stored bench.old marks_name)) }
    ensures settled { IsTrue (B.honest bench.old) → OnOk result ((c : Files) → B.may_leave bench.new c
        → AreSettled (B.stored bench.new) c) }
    ensures device { IfErr result (λ fault. number_of fault ≡ 62) }
    ensures untouched { Settles B.Bench bench.old bench.new }
    ensures only_reads { ReadsMarks B.Bench bench.old bench.new result }
{
    let sound = match settle(bench, SOUND) {
        Ok(size) => size,
        Err(_) => return Err(MarkFault::Device {
            file: MarkedFile::Sound,
        }),
    };
    match settle(bench, MARKS) {
        Ok(marks) => return Ok(Sizes { sound, marks }),
        Err(_) => return Err(MarkFault::Device {
            file: MarkedFile::Marks,
        }),
    }
}
