// Chunks found by a walk.
ghost use Rattle.std.specs.Prelude.{◌≡◌, ◌≤◌, ◌<◌, ◌+◌, ◌*◌, ◌-◌, ◌^◌, ◌++◌, ℕ, List, [], ◌∷◌, Option, Some, None, is_some, IfOk, IfErr, OnOk, OnErr};
ghost use Rattle.std.specs.Option.{option_or};
ghost use Rattle.sound_terms.specs.Chunks.{Chunk};
ghost use Rattle.sound_terms.specs.Walks.{first_chunk_fault, found_in};
ghost use Rattle.sound_terms.specs.declared.Ds64.{Ds64};
ghost use Rattle.riff.specs.Found.{IsFoundIn, IsWalked, WalksOn, HasHead, HasZeroHeads, IsInside, EndsInside, EndInside, chunk_at, layout_by};

use crate::head::{HEAD_LENGTH, Head};
use sound_terms::{Chunks, SoundFault, Span};

/// The recognised chunks found so far, the first of each id, and the number of chunk headers seen.
#[derive(Clone, Copy)]
pub struct Found {
    pub format: Option<Span>,
    pub bext: Option<Span>,
    pub sound: Option<Span>,
    pub others: bool,
    pub seen: u64,
}

impl Found {
    /// Creates the state before the first chunk, after `seen` headers.
    pub fn nothing(seen: u64) -> Found
        ensures found { (end : ℕ) → IsFoundIn end [] result }
        ensures ends { (end : ℕ) → EndsInside end result }
        ensures seen { result.seen ≡ seen }
    {
        Found {
            format: None,
            bext: None,
            sound: None,
            others: false,
            seen,
        }
    }

    /// Adds a chunk that has `left` bytes of the file after its header. Returns `Truncated` if the chunk is recognised
    /// and longer than that.
    fn add(&mut self, id: [u8; 4], contents: Span, left: u64) -> Result<(), SoundFault>
        ensures added { (chunks : List Chunk) → IsFoundIn (contents.at + left) chunks self.old
            → OnOk result (IsFoundIn (contents.at + left) (chunks ++ chunk_at id contents ∷ []) self.new) }
        ensures refused { (chunks : List Chunk) → IsFoundIn (contents.at + left) chunks self.old
            → OnErr result (first_chunk_fault (contents.at + left) [] (chunks ++ chunk_at id contents ∷ [])
            ≡ Some SoundFault.Truncated) }
        ensures cut { IfErr result (λ fault. fault ≡ SoundFault.Truncated) }
        ensures seen { self.new.seen ≡ self.old.seen }
        ensures ends { EndsInside (contents.at + left) self.old
            → OnOk result (EndsInside (contents.at + left) self.new) }
    {
        if id == *b"fmt " {
            self.others |= claim(&mut self.format, contents, left)?;
        } else if id == *b"bext" {
            self.others |= claim(&mut self.bext, contents, left)?;
        } else if id == *b"data" {
            self.others |= claim(&mut self.sound, contents, left)?;
        } else if id != *b"JUNK" {
            self.others = true;
        }
        Ok(())
    }

    /// Adds the chunk whose header starts the last `left` bytes of a file of length `end`. Returns the number of bytes
    /// after the chunk and its pad byte.
    pub fn take_in(
        &mut self,
        head: &Head,
        size: u64,
        end: u64,
        left: u64,
    ) -> Result<u64, SoundFault>
        requires room { 8 ≤ left }
        requires inside { IsInside end left self.old }
        ensures walked { (file : List ℕ) (sizes : Option Ds64) → IsWalked file sizes end left self.old
            → HasHead file (end - left) head.now → (layout_by file sizes).size_of head.now.id head.now.size ≡ Some size
            → WalksOn file sizes end self.new result }
        ensures inside { IfOk result (λ rest. IsInside end rest self.new) }
        ensures less { IfOk result (λ rest. rest + 8 ≤ left) }
    {
        let rest = left - HEAD_LENGTH;
        let contents = Span {
            at: end - rest,
            length: size,
        };
        self.add(head.id, contents, rest)?;
        self.seen += 1;
        Ok(rest.saturating_sub(size).saturating_sub(size % 2))
    }

    /// Adds `count` consecutive chunk headers of id 0 and size 0, which start the last `left` bytes of the file.
    /// Returns the number of bytes after them.
    pub fn take_in_zeros(&mut self, count: u64, end: u64, left: u64) -> u64
        requires some { 0 < count }
        requires room { 8 * count ≤ left }
        requires inside { IsInside end left self.old }
        ensures walked { (file : List ℕ) (sizes : Option Ds64) → IsWalked file sizes end left self.old
            → HasZeroHeads file (end - left) count → IsWalked file sizes end result self.new }
        ensures inside { IsInside end result self.new }
        ensures less { result < left }
    {
        self.others = true;
        self.seen += count;
        left - HEAD_LENGTH * count
    }

    /// Returns the recognised chunks, or an error if `fmt ` or `data` is missing.
    pub fn chunks(self) -> Result<Chunks, SoundFault>
        ensures exact { (end : ℕ) (chunks : List Chunk) → IsFoundIn end chunks self → result ≡ found_in chunks }
        ensures ends { (end : ℕ) → EndsInside end self → IfOk result (EndInside end) }
    {
        let format = self.format.ok_or(SoundFault::NoFormat)?;
        let sound = self.sound.ok_or(SoundFault::NoData)?;
        Ok(Chunks {
            format,
            sound,
            bext: self.bext,
            others: self.others,
        })
    }
}

/// Stores the contents in an empty slot, and returns true if the slot was taken. Returns `Truncated` if the contents
/// were to be stored and exceed the bytes left.
fn claim(slot: &mut Option<Span>, contents: Span, left: u64) -> Result<bool, SoundFault>
    ensures first { OnOk result (slot.new ≡ option_or slot.old (Some contents)) }
    ensures taken { IfOk result (λ taken. taken ≡ is_some slot.old) }
    ensures inside { OnOk result (slot.old ≡ None → contents.length ≤ left) }
    ensures cut { IfErr result (λ fault. (fault ≡ SoundFault.Truncated) × (slot.old ≡ None)
        × (left < contents.length)) }
{
    if slot.is_some() {
        return Ok(true);
    }
    if contents.length > left {
        return Err(SoundFault::Truncated);
    }
    *slot = Some(contents);
    Ok(false)
}
