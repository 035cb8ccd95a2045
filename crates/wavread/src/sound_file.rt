// Opening of sound files.
ghost use Rattle.std.specs.Prelude.{◌≡◌, IsTrue, IfOk, IfErr, string_bytes};
ghost use Rattle.work_terms.specs.Refusals.{Gives};
ghost use Rattle.devices.specs.Frame.{OnlyReads};
ghost use Rattle.riff.specs.Fault.{number_of};
ghost use Rattle.wavread.specs.Facts.{sound_of_file};

use crate::Sound;
use crate::bext_chunk::read_told;
use crate::format_chunk::read_format;
use devices::Shelf;
use riff::{MediaFault, walk_indexed};
use std::alloc::Global;

fn copy_of(alloc: Global, name: &str) -> Result<String, MediaFault>
    ensures same { IfOk result (λ copy. string_bytes copy ≡ name.now) }
    ensures memory { IfErr result (λ fault. fault ≡ MediaFault.Memory) }
{
    String::from_str(alloc, name).map_err(|_| MediaFault::Memory)
}

/// Opens a sound file (EBU Tech 3285, EBU Tech 3306): reads its format, the position and number of its sample frames,
/// its `bext` fields and up to 65,536 bytes of its CodingHistory. Samples aren't read.
///
/// Returns the errors of [`riff::walk_indexed`], then `BadFormat` or `WrongRate` if the format isn't supported. Returns
/// `Device` if a read fails, and `Memory` if out of memory.
pub fn open<S: Shelf>(alloc: Global, shelf: &mut S, name: &str) -> Result<Sound, MediaFault>
    ensures exact { IsTrue (S.honest shelf.old)
        → Gives (λ sound. sound) (λ fault. fault) number_of result
        (sound_of_file name.now (S.stored shelf.old name.now)) }
    ensures named { IfOk result (λ sound. sound.name ≡ name.now) }
    ensures only_reads { OnlyReads S.Shelf shelf.old shelf.new result (λ fault. fault ≡ MediaFault.Device)
        (λ _ failed. failed name.now) }
{
    let chunks = walk_indexed(alloc, shelf, name)?;
    let format = read_format(shelf, name, chunks.format)?;
    let texts = read_told(alloc, shelf, name, chunks.bext)?;
    let name = copy_of(alloc, name)?;
    Ok(Sound::of(name, format, chunks.sound, texts, chunks.others))
}
