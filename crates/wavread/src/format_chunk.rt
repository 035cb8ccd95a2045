// Reading of the `fmt ` chunk.
ghost use Rattle.std.specs.Prelude.{◌≡◌, ℕ, List, Some, IsTrue, IfOk, IsErrOf};
ghost use Rattle.sound_terms.specs.Sounds.{bytes_of_span};
ghost use Rattle.sound_terms.specs.Formats.{format_of};
ghost use Rattle.work_terms.specs.Refusals.{Gives};
ghost use Rattle.devices.specs.Frame.{OnlyReads};
ghost use Rattle.riff.specs.Channels.{HasFewChannels};
ghost use Rattle.riff.specs.Fault.{number_of, as_media};

use devices::Shelf;
use riff::{Format, MediaFault, read_fmt};
use sound_terms::Span;

/// The maximum number of bytes of a `fmt ` chunk that are read: the length of WAVE_FORMAT_EXTENSIBLE.
const FORMAT_LENGTH: usize = 40;

/// Reads the format from a `fmt ` chunk with these contents (RIFF WAVE). Returns `BadFormat` or `WrongRate` if the
/// format isn't supported, and `Device` if the read fails.
pub fn read_format<S: Shelf>(
    shelf: &mut S,
    name: &str,
    contents: Span,
) -> Result<Format, MediaFault>
    ensures exact { IsTrue (S.honest shelf.old) → (file : List ℕ) → S.stored shelf.old name.now ≡ Some file
        → Gives (λ format. format) (λ fault. fault) number_of result
        (as_media (format_of (bytes_of_span file contents))) }
    ensures channels { IfOk result HasFewChannels }
    ensures only_reads { OnlyReads S.Shelf shelf.old shelf.new result (λ fault. fault ≡ MediaFault.Device)
        (λ _ failed. failed name.now) }
{
    let mut buffer = [0u8; FORMAT_LENGTH];
    let length = contents.length.min(FORMAT_LENGTH as u64) as usize;
    let bytes = &mut buffer[..length];
    shelf.read_at(name, contents.at, bytes)?;
    let format = read_fmt(bytes)?;
    Ok(format)
}
