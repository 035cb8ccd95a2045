// Header of a sound file: RIFF, or RF64 with its `ds64` chunk (EBU Tech 3306).
ghost use Rattle.std.specs.Prelude.{◌≡◌, ◌≤◌, ◌+◌, ◌*◌, ◌↔◌, ℕ, List, Some, true, false, codes, length, IsTrue, IfOk, IsErrOf};
ghost use Rattle.sound_terms.specs.Walks.{is_riff, is_rf64};
ghost use Rattle.devices.specs.Fault.{IsThere};
ghost use Rattle.devices.specs.Frame.{OnlyReads};
ghost use Rattle.riff.specs.Found.{HasHead, heads_of};
ghost use Rattle.riff.specs.Form.{OpensAs};

use crate::MediaFault;
use crate::head::{HEAD_LENGTH, Head};
use devices::{Shelf, ShelfFault};
use rf64::read_ds64;
use sound_terms::Ds64;

/// The length of a form header: `RIFF` or `RF64`, a size that is ignored, and `WAVE`.
const FORM_LENGTH: u64 = 12;

/// The length of `ds64` without its table.
const DS64_LENGTH: u32 = 28;

/// The layout of a file: the fields of `ds64` (none in RIFF), and the number of bytes after the form header and `ds64`.
#[derive(Clone, Copy)]
pub struct Form {
    pub sizes: Option<Ds64>,
    pub left: u64,
}

impl Form {
    /// Returns the number of chunk headers before the first chunk: 1 in RF64, for `ds64`.
    pub fn heads(&self) -> u64
        ensures { result ≡ heads_of self.now.sizes }
    {
        match self.sizes {
            Some(_) => 1,
            None => 0,
        }
    }
}

/// Returns true if the file starts as RIFF of the form WAVE.
fn is_riff(form: &[u8; 12]) -> bool
    ensures { result ≡ is_riff form.now }
{
    form.starts_with(b"RIFF") && form.ends_with(b"WAVE")
}

/// Returns true if the file starts as RF64 of the form WAVE.
fn is_rf64(form: &[u8; 12]) -> bool
    ensures { result ≡ is_rf64 form.now }
{
    form.starts_with(b"RF64") && form.ends_with(b"WAVE")
}

/// Reads the chunk header at this offset.
fn head_at<S: Shelf>(shelf: &mut S, name: &str, at: u64) -> Result<Head, ShelfFault>
    ensures head { IsTrue (S.honest shelf.old) → (file : List ℕ) → S.stored shelf.old name.now ≡ Some file
        → IfOk result (HasHead file at) }
    ensures not_missing { IsThere result }
    ensures only_reads { OnlyReads S.Shelf shelf.old shelf.new result (λ fault. fault ≡ ShelfFault.Device)
        (λ _ failed. failed name.now) }
{
    let mut bytes = [0u8; 8];
    shelf.read_at(name, at, &mut bytes)?;
    Ok(Head::of(&bytes))
}

/// Returns true if this is the header of a `ds64` chunk that has all its fields and fits the `left` bytes after it.
fn holds_fields(head: &Head, left: u64) -> bool
    ensures { IsTrue result ↔ ((head.now.id ≡ codes "ds64") × (head.now.size ≤ left) × (28 ≤ head.now.size)) }
{
    head.id == *b"ds64" && u64::from(head.size) <= left && head.size >= DS64_LENGTH
}

/// Reads the `ds64` chunk of an RF64 file of length `end`.
fn read_sizes<S: Shelf>(shelf: &mut S, name: &str, end: u64) -> Result<Form, MediaFault>
    ensures opens { IsTrue (S.honest shelf.old) → (file : List ℕ) → S.stored shelf.old name.now ≡ Some file
        → length file ≡ end
        → is_riff file ≡ false → is_rf64 file ≡ true → OpensAs file end result }
    ensures few { IfOk result (λ form. 8 * heads_of form.sizes + form.left + 12 ≤ end) }
    ensures only_reads { OnlyReads S.Shelf shelf.old shelf.new result (λ fault. fault ≡ MediaFault.Device)
        (λ _ failed. failed name.now) }
    ensures no_memory { IsErrOf result MediaFault.Memory → ⊥ }
{
    if end < FORM_LENGTH + HEAD_LENGTH {
        return Err(MediaFault::BadDs64);
    }
    let head = head_at(shelf, name, FORM_LENGTH)?;
    let rest = end - FORM_LENGTH - HEAD_LENGTH;
    if !holds_fields(&head, rest) {
        return Err(MediaFault::BadDs64);
    }
    let mut fields = [0u8; 28];
    shelf.read_at(name, FORM_LENGTH + HEAD_LENGTH, &mut fields)?;
    let ds64 = read_ds64(&fields, head.size).ok_or(MediaFault::BadDs64)?;
    let size = u64::from(head.size);
    Ok(Form {
        sizes: Some(ds64),
        left: rest.saturating_sub(size + size % 2),
    })
}

/// Reads the form header of a file of length `end`, and the `ds64` chunk of RF64.
pub fn read_form<S: Shelf>(shelf: &mut S, name: &str, end: u64) -> Result<Form, MediaFault>
    ensures opens { IsTrue (S.honest shelf.old) → (file : List ℕ) → S.stored shelf.old name.now ≡ Some file
        → length file ≡ end → OpensAs file end result }
    ensures few { IfOk result (λ form. 8 * heads_of form.sizes + form.left + 12 ≤ end) }
    ensures only_reads { OnlyReads S.Shelf shelf.old shelf.new result (λ fault. fault ≡ MediaFault.Device)
        (λ _ failed. failed name.now) }
    ensures no_memory { IsErrOf result MediaFault.Memory → ⊥ }
{
    if end < FORM_LENGTH {
        return Err(MediaFault::NotWave);
    }
    let mut form = [0u8; 12];
    shelf.read_at(name, 0, &mut form)?;
    if is_riff(&form) {
        return Ok(Form {
            sizes: None,
            left: end - FORM_LENGTH,
        });
    }
    if !is_rf64(&form) {
        return Err(MediaFault::NotWave);
    }
    read_sizes(shelf, name, end)
}
