// Reading of the `bext` chunk (EBU Tech 3285, 2.3).
ghost use Rattle.std.specs.Prelude.{◌≡◌, ◌≤◌, ◌<◌, ◌+◌, ◌^◌, ℕ, List, Some, IsTrue, IfOk, IfErr, IfSome, length, take, drop, vec_len};
ghost use Rattle.sound_terms.specs.Bext.{bext_of};
ghost use Rattle.devices.specs.Fault.{IsThere};
ghost use Rattle.devices.specs.Frame.{OnlyReads};
ghost use Rattle.riff.specs.Fault.{IsExcused};
ghost use Rattle.wavread.specs.Told.{TellsAll, contents_of};

use crate::told::Told;
use bext::read_bext;
use devices::{Shelf, ShelfFault};
use riff::MediaFault;
use sound_terms::{Bext, Span};
use std::alloc::Global;

/// The length of the text fields and the time reference.
const FIELDS_LENGTH: u64 = 346;

/// The offset of the CodingHistory.
const HISTORY: u64 = 602;

/// The maximum number of bytes of a CodingHistory that are kept.
const HISTORY_LIMIT: u64 = 65_536;

/// Reads the fields of a `bext` chunk whose contents start at `at`.
fn read_fields<S: Shelf>(shelf: &mut S, name: &str, at: u64) -> Result<Option<Bext>, ShelfFault>
    ensures fields { IsTrue (S.honest shelf.old) → (file : List ℕ) → S.stored shelf.old name.now ≡ Some file
        → IfOk result (λ bext. bext ≡ bext_of (take 346 (drop at file))) }
    ensures not_missing { IsThere result }
    ensures only_reads { OnlyReads S.Shelf shelf.old shelf.new result (λ fault. fault ≡ ShelfFault.Device)
        (λ _ failed. failed name.now) }
{
    let mut fields = [0u8; 346];
    shelf.read_at(name, at, &mut fields)?;
    Ok(read_bext(&fields))
}

/// Reads `count` bytes from `at` on.
fn read_history<S: Shelf>(
    alloc: Global,
    shelf: &mut S,
    name: &str,
    at: u64,
    count: usize,
) -> Result<Vec<u8>, MediaFault>
    requires { count ≤ 65536 }
    ensures history { IsTrue (S.honest shelf.old) → (file : List ℕ) → S.stored shelf.old name.now ≡ Some file
        → IfOk result (λ history. history.items ≡ take count (drop at file)) }
    ensures few { IfOk result (λ history. vec_len history ≡ count) }
    ensures excused { IfErr result IsExcused }
    ensures only_reads { OnlyReads S.Shelf shelf.old shelf.new result (λ fault. fault ≡ MediaFault.Device)
        (λ _ failed. failed name.now) }
{
    let mut history = Vec::new(alloc);
    history.resize(count, 0).map_err(|_| MediaFault::Memory)?;
    shelf.read_at(name, at, history.as_mut_slice())?;
    Ok(history)
}

/// Reads a `bext` chunk with these contents.
fn read_whole<S: Shelf>(
    alloc: Global,
    shelf: &mut S,
    name: &str,
    contents: Span,
) -> Result<Told, MediaFault>
    requires { contents.at + contents.length < 2 ^ 64 }
    ensures texts { IsTrue (S.honest shelf.old) → (file : List ℕ) → S.stored shelf.old name.now ≡ Some file
        → contents.at + contents.length ≤ length file
        → IfOk result (TellsAll (Some contents) (contents_of file (Some contents))) }
    ensures excused { IfErr result IsExcused }
    ensures only_reads { OnlyReads S.Shelf shelf.old shelf.new result (λ fault. fault ≡ MediaFault.Device)
        (λ _ failed. failed name.now) }
{
    if contents.length < FIELDS_LENGTH {
        return Ok(Told {
            bext: None,
            history: Vec::new(alloc),
            short: true,
            cut: false,
        });
    }
    let bext = read_fields(shelf, name, contents.at)?;
    if contents.length <= HISTORY {
        return Ok(Told {
            bext,
            history: Vec::new(alloc),
            short: false,
            cut: false,
        });
    }
    let length = contents.length - HISTORY;
    let count = length.min(HISTORY_LIMIT) as usize;
    let history = read_history(alloc, shelf, name, contents.at + HISTORY, count)?;
    Ok(Told {
        bext,
        history,
        short: false,
        cut: length > HISTORY_LIMIT,
    })
}

/// Reads the `bext` chunk of a file; a file without one gives empty fields. Returns `Device` if a read fails, and
/// `Memory` if out of memory.
pub fn read_told<S: Shelf>(
    alloc: Global,
    shelf: &mut S,
    name: &str,
    contents: Option<Span>,
) -> Result<Told, MediaFault>
    requires { IfSome contents (λ span. span.at + span.length < 2 ^ 64) }
    ensures texts { IsTrue (S.honest shelf.old) → (file : List ℕ) → S.stored shelf.old name.now ≡ Some file
        → IfSome contents (λ span. span.at + span.length ≤ length file)
        → IfOk result (TellsAll contents (contents_of file contents)) }
    ensures excused { IfErr result IsExcused }
    ensures only_reads { OnlyReads S.Shelf shelf.old shelf.new result (λ fault. fault ≡ MediaFault.Device)
        (λ _ failed. failed name.now) }
{
    match contents {
        Some(contents) => read_whole(alloc, shelf, name, contents),
        None => Ok(Told {
            bext: None,
            history: Vec::new(alloc),
            short: false,
            cut: false,
        }),
    }
}
