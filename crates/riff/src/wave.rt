// The walk over the chunks of a sound file.
ghost use Rattle.std.specs.Prelude.{◌≡◌, ◌≤◌, ◌<◌, ◌+◌, ◌*◌, ◌-◌, ◌^◌, ℕ, List, Some, Option, length, IsTrue, IfOk, IsErrOf};
ghost use Rattle.devices.specs.Frame.{OnlyReads};
ghost use Rattle.work_terms.specs.Refusals.{Gives};
ghost use Rattle.sound_terms.specs.Walks.{walked};
ghost use Rattle.riff.specs.Fault.{number_of, as_media};
ghost use Rattle.riff.specs.Form.{IsLaid};
ghost use Rattle.riff.specs.Found.{IsAhead, IsWalked, IsInside, EndInside, WalksOn, heads_of};
ghost use Rattle.riff.specs.Sizes.{IsIndexOf};
ghost use Rattle.riff.specs.Walk.{MediaWalksOn, chunks_view, chunk_count, walked_file};

use crate::MediaFault;
use crate::form::{Form, read_form};
use crate::found::Found;
use crate::head::{HEAD_LENGTH, Head};
use crate::index::{Index, index_of};
use crate::sizes::{Size, size_of, told_size};
use crate::zeros::zero_heads;
use devices::Shelf;
use sound_terms::{Ds64, SoundFault, Span};
use std::alloc::Global;

/// Number of chunks in a row that must be close together before bytes are read ahead.
const MANY: u32 = 64;

/// Two chunks are close together if at most this many bytes are between their heads.
const CLOSE: u64 = 1024;

/// Number of bytes read ahead in a long run of chunks that are close together.
const AHEAD: usize = 16_384;

/// Where the chunks that count stand in a sound file (EBU Tech 3285 and 3306), without their heads, in bytes.
#[derive(Clone, Copy, Debug, PartialEq, Eq)]
pub struct Chunks {
    /// The first `fmt `.
    pub format: Span,
    /// The first `data`: the samples.
    pub sound: Span,
    /// The first `bext`, where there is one.
    pub bext: Option<Span>,
    /// Some other chunk is none of `JUNK` and, in the place of `ds64`, no `ds64`.
    pub others: bool,
    /// How many heads of chunks the file has.
    pub seen: u64,
}

/// Takes in the chunks whose heads stand in these bytes, with which the last `first` bytes of the file begin, up to
/// one whose size stands in the table of `ds64`; heads that are all zeros many at a time. Answers how many bytes are left
/// behind them.
fn walk_ahead(
    found: &mut Found,
    sizes: &Option<Ds64>,
    index: &Option<Index>,
    bytes: &[u8],
    end: u64,
    first: u64,
) -> Result<u64, SoundFault>
    requires head { 8 ≤ length bytes.now }
    requires within { length bytes.now ≤ first }
    requires inside { IsInside end first found.old }
    ensures walked { (file : List ℕ) → IsIndexOf file sizes.now index.now → IsAhead file (end - first) bytes.now
        → IsWalked file sizes.now end first found.old
        → WalksOn file sizes.now end found.new result }
    ensures inside { IfOk result (λ left. IsInside end left found.new) }
    ensures less { IfOk result (λ left. left ≤ first) }
{
    let last = bytes.len() as u64 - HEAD_LENGTH;
    let mut left = first;
    while first - left <= last {
        let ahead = &bytes[(first - left) as usize..];
        let zeros = zero_heads(ahead);
        if zeros > 0 {
            left = found.take_in_zeros(zeros, end, left);
            continue;
        }
        let head = Head::of(ahead);
        let Size::Told(size) = size_of(sizes, index, &head) else {
            break;
        };
        left = found.take_in(&head, size, end, left)?;
    }
    Ok(left)
}

/// Takes in some more chunks, of those that begin the last `left` bytes of the file, over one read of its bytes.
/// Answers how many bytes are left behind them.
fn walk_on<S: Shelf>(
    shelf: &mut S,
    name: &str,
    found: &mut Found,
    sizes: &Option<Ds64>,
    index: &Option<Index>,
    end: u64,
    left: u64,
    ahead: &mut [u8],
) -> Result<u64, MediaFault>
    requires head { 8 ≤ left }
    requires room { 8 ≤ length ahead.old }
    requires inside { IsInside end left found.old }
    ensures walked { IsTrue (S.honest shelf.old) → (file : List ℕ) → S.stored shelf.old name.now ≡ Some file
        → IsIndexOf file sizes.now index.now → IsWalked file sizes.now end left found.old
        → MediaWalksOn file sizes.now end found.new result }
    ensures inside { IfOk result (λ rest. IsInside end rest found.new) }
    ensures less { IfOk result (λ rest. rest < left) }
    ensures no_memory { IsErrOf result MediaFault.Memory → ⊥ }
    ensures only_reads { OnlyReads S.Shelf shelf.old shelf.new result (λ fault. fault ≡ MediaFault.Device)
        (λ _ failed. failed name.now) }
{
    let count = left.min(ahead.len() as u64) as usize;
    let bytes = &mut ahead[..count];
    shelf.read_at(name, end - left, bytes)?;
    let rest = walk_ahead(found, sizes, index, bytes, end, left)?;
    if rest < left {
        return Ok(rest);
    }
    let head = Head::of(bytes);
    let size = told_size(shelf, name, sizes, index, &head)?;
    let rest = found.take_in(&head, size, end, left)?;
    Ok(rest)
}

/// Walks over all chunks behind the head of the form.
fn walk_form<S: Shelf>(
    shelf: &mut S,
    name: &str,
    form: &Form,
    index: &Option<Index>,
    end: u64,
) -> Result<Chunks, MediaFault>
    requires few { 8 * heads_of form.now.sizes + form.now.left + 12 ≤ end }
    ensures exact { IsTrue (S.honest shelf.old) → (file : List ℕ) → S.stored shelf.old name.now ≡ Some file
        → length file ≡ end → IsLaid file end form.now.sizes form.now.left → IsIndexOf file form.now.sizes index.now
        → Gives chunks_view (λ fault. fault) number_of result (as_media (walked file)) }
    ensures seen { IsTrue (S.honest shelf.old) → (file : List ℕ) → S.stored shelf.old name.now ≡ Some file
        → length file ≡ end → IsLaid file end form.now.sizes form.now.left → IsIndexOf file form.now.sizes index.now
        → IfOk result (λ chunks. chunks.seen ≡ chunk_count file) }
    ensures few { IfOk result (λ chunks. 8 * chunks.seen + 12 ≤ end) }
    ensures ends { IfOk result (λ chunks. EndInside end (chunks_view chunks)) }
    ensures no_memory { IsErrOf result MediaFault.Memory → ⊥ }
    ensures only_reads { OnlyReads S.Shelf shelf.old shelf.new result (λ fault. fault ≡ MediaFault.Device)
        (λ _ failed. failed name.now) }
{
    let mut ahead = [0u8; AHEAD];
    // Only the next head is read, and none of the samples that may follow it, until many chunks were close together.
    let mut count = HEAD_LENGTH as usize;
    let mut close = 0;
    let mut found = Found::nothing(form.heads());
    let mut left = form.left;
    while left >= HEAD_LENGTH {
        let rest = walk_on(
            shelf,
            name,
            &mut found,
            &form.sizes,
            index,
            end,
            left,
            &mut ahead[..count],
        )?;
        close = if left - rest <= count as u64 + CLOSE {
            MANY.min(close + 1)
        } else {
            0
        };
        count = if close < MANY {
            HEAD_LENGTH as usize
        } else {
            AHEAD
        };
        left = rest;
    }
    let chunks = found.chunks()?;
    Ok(Chunks {
        format: chunks.format,
        sound: chunks.sound,
        bext: chunks.bext,
        others: chunks.others,
        seen: found.seen,
    })
}

/// Finds the chunks that count in a file of RIFF WAVE or RF64 (EBU Tech 3285, 3306): the first `fmt `, `bext` and
/// `data`. It reads the head of each chunk, 8 bytes, and no samples. Only after 64 chunks in a row that are close
/// together does it read 16,384 bytes at a time, which may include samples, until two chunks are further apart. A chunk
/// of another kind that passes the end of the file ends the walk, as fewer than 8 bytes do.
///
/// In turn: `NotFound` where no file has the name, `NotWave` for a file that is neither; `BadDs64` where RF64 has no
/// whole `ds64` at byte 12; for the chunks from the left `Truncated` where one that counts passes the end, `BadDs64`
/// where `ds64` has no size that it has to tell; `NoFormat`, `NoData`. `Device` where a read fails.
pub fn walk<S: Shelf>(shelf: &mut S, name: &str) -> Result<Chunks, MediaFault>
    ensures exact { IsTrue (S.honest shelf.old)
        → Gives chunks_view (λ fault. fault) number_of result (walked_file (S.stored shelf.old name.now)) }
    ensures seen { IsTrue (S.honest shelf.old) → (file : List ℕ) → S.stored shelf.old name.now ≡ Some file
        → IfOk result (λ chunks. chunks.seen ≡ chunk_count file) }
    ensures few { IsTrue (S.honest shelf.old) → (file : List ℕ) → S.stored shelf.old name.now ≡ Some file
        → IfOk result (λ chunks. 8 * chunks.seen + 12 ≤ length file) }
    ensures inside { IsTrue (S.honest shelf.old) → (file : List ℕ) → S.stored shelf.old name.now ≡ Some file
        → IfOk result (λ chunks. EndInside (length file) (chunks_view chunks)) }
    ensures ends { IfOk result (λ chunks. (end : ℕ) × (end < 2 ^ 64) × EndInside end (chunks_view chunks)) }
    ensures no_memory { IsErrOf result MediaFault.Memory → ⊥ }
    ensures only_reads { OnlyReads S.Shelf shelf.old shelf.new result (λ fault. fault ≡ MediaFault.Device)
        (λ _ failed. failed name.now) }
{
    let end = shelf.length(name)?;
    let form = read_form(shelf, name, end)?;
    walk_form(shelf, name, &form, &None, end)
}

/// Finds the chunks that count, as [`walk`] does, over an index of the table of `ds64`: each entry is read once, however
/// many chunks have their size there. `Memory` where no memory was left.
pub fn walk_indexed<S: Shelf>(
    alloc: Global,
    shelf: &mut S,
    name: &str,
) -> Result<Chunks, MediaFault>
    ensures exact { IsTrue (S.honest shelf.old)
        → Gives chunks_view (λ fault. fault) number_of result (walked_file (S.stored shelf.old name.now)) }
    ensures seen { IsTrue (S.honest shelf.old) → (file : List ℕ) → S.stored shelf.old name.now ≡ Some file
        → IfOk result (λ chunks. chunks.seen ≡ chunk_count file) }
    ensures few { IsTrue (S.honest shelf.old) → (file : List ℕ) → S.stored shelf.old name.now ≡ Some file
        → IfOk result (λ chunks. 8 * chunks.seen + 12 ≤ length file) }
    ensures inside { IsTrue (S.honest shelf.old) → (file : List ℕ) → S.stored shelf.old name.now ≡ Some file
        → IfOk result (λ chunks. EndInside (length file) (chunks_view chunks)) }
    ensures ends { IfOk result (λ chunks. (end : ℕ) × (end < 2 ^ 64) × EndInside end (chunks_view chunks)) }
    ensures only_reads { OnlyReads S.Shelf shelf.old shelf.new result (λ fault. fault ≡ MediaFault.Device)
        (λ _ failed. failed name.now) }
{
    let end = shelf.length(name)?;
    let form = read_form(shelf, name, end)?;
    let index = Some(index_of(alloc, shelf, name, &form.sizes)?);
    walk_form(shelf, name, &form, &index, end)
}
