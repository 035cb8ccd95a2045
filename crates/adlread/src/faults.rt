// Further faults of a text, after its first one.
ghost use Rattle.std.specs.Prelude.{◌≡◌, ◌+◌, ◌∷◌, ◌||◌, ℕ, Bool, Err, IfOk, IfSome, List, false, true};
ghost use Rattle.sampletime.specs.FrameRate.{frames_per_second};
ghost use Rattle.work_terms.specs.Refusals.{Refusal};
ghost use Rattle.list_terms.specs.Lines.{lines_of};
ghost use Rattle.list_terms.specs.Text.{nothing_passed, with_line};
ghost use Rattle.list_terms.specs.Text as text;
ghost use Rattle.adlread.specs.Context.{context_of};
ghost use Rattle.adlread.specs.Fault.{Reads};
ghost use Rattle.adlread.specs.Further.{AreFaults, AreFurther, IsFirstOf, IsLeft, IsNext, is_of_one_line, left, rate_beside};
ghost use Rattle.adlread.specs.Further as spec;
ghost use Rattle.adlread.specs.declared.fault.AdlFault.TheVariants.{Memory};

use crate::draft::Draft;
use crate::fault::{AdlFault, at_line, first_in};
use crate::header::is_tag;
use crate::outline::{Outline, UNTOLD};
use adltoken::{Lines, Tokens};
use list_terms::{Location, TextFault};
use sampletime::Rate;
use std::alloc::{AllocError, Global};

/// An iteration over the faults of a text after the first one.
///
/// Each of them is the first fault that would be found if the faulty lines before it were empty; if one of these is
/// an `(Entry)` line, the lines of its entry are treated as empty too. Times are read at the frame rate that the
/// list has without misplaced lines (lines that aren't allowed in their place). The iteration stops after a fault
/// of a section, the header or a rate, because later lines can't be judged without it.
#[derive(Drop)]
pub struct Faults<'a> {
    draft: Draft<'a>,
    lines: Lines<'a>,
    /// The last line read.
    last: &'a [u8],
    /// The number of the line with the first fault.
    first: u64,
    rate: Rate,
    /// Whether the current lines belong to an entry whose `(Entry)` line is faulty.
    is_in_faulty_entry: bool,
    is_over: bool,
    /// Whether the iteration stopped although there may be more faults.
    is_cut_short: bool,
}

impl<'a> Faults<'a> {
    /// Starts after the first fault of the text, as returned by [`crate::read`]. If later lines can't be judged,
    /// the iteration is over at once. Returns `AllocError` if out of memory.
    pub fn after(alloc: Global, text: &'a [u8], first: AdlFault) -> Result<Self, AllocError>
        ensures further { IfOk result (λ faults. (rest : List Refusal) × (complete : Bool)
            × AreFurther text.now first rest complete × IsLeft faults rest complete) }
    {
        let is_over = !is_of_its_own(first);
        let rate = if is_over {
            UNTOLD
        } else {
            rate_beside_faults(text)
        };
        let draft = Draft::new(alloc)?;
        Ok(Faults {
            draft,
            lines: Lines::new(text),
            last: &[],
            first: first.line(),
            rate,
            is_in_faulty_entry: false,
            is_over,
            is_cut_short: is_over,
        })
    }

    /// Stops the iteration, although there may be more faults.
    fn cut_short(&mut self)
        ensures over { self.new.is_over ≡ true }
        ensures cut { self.new.is_cut_short ≡ true }
        ensures lines { self.new.lines ≡ self.old.lines }
    {
        self.is_over = true;
        self.is_cut_short = true;
    }

    /// Returns whether the iteration stopped although there may be more faults: after a fault of a section, the
    /// header or a rate, or if out of memory.
    pub fn is_cut_short(&self) -> bool
        ensures { result ≡ self.now.is_cut_short }
    {
        self.is_cut_short
    }

    /// Returns the next fault, or `None` after the last one or if out of memory.
    pub fn next_fault(&mut self, alloc: Global) -> Option<AdlFault>
        ensures further { (faults : List Refusal) (complete : Bool) → IsLeft self.old faults complete
            → IsNext result faults complete self.new }
    {
        if self.is_over {
            return None;
        }
        'lines: while let Some(line) = self.lines.next_line() {
            self.last = line;
            let fault = self.fault_of(alloc, line);
            if fault.is_some() || self.is_over {
                return fault;
            }
        }
        self.cut_short();
        let number = self.lines.number().max(1);
        Some(at_line(TextFault::SectionMismatch, number, first_in(self.last)))
    }

    /// Reads a line and returns its fault, if any. At `</ADL>` the iteration is over, and the fault is a missing
    /// section or rate.
    fn fault_of(&mut self, alloc: Global, line: &'a [u8]) -> Option<AdlFault>
        ensures next { (before : ℕ) (further : List Refusal) (complete : Bool) → self.old.is_over ≡ false
            → before + 1 ≡ self.old.lines.number
            → AreFaults (frames_per_second self.old.rate) (context_of self.old.draft) before
            (left self.old.first self.old.is_in_faulty_entry before (line.now ∷ self.old.lines.lines)) further complete
            → IsFirstOf result further complete self.new }
        ensures lines { self.new.lines ≡ self.old.lines }
    {
        let number = self.lines.number();
        let line = left_of(line, number, self.first, &mut self.is_in_faulty_entry);
        if let Err(fault) = self.draft.add(alloc, line, number, self.rate) {
            return self.passed(alloc, line, number, fault);
        }
        if !self.draft.is_behind() {
            return None;
        }
        let missing = self.draft.missing(line, number);
        self.is_over = true;
        self.is_cut_short = missing.is_some();
        missing
    }

    /// Handles a faulty line: treats it as empty, or stops the iteration if later lines can't be judged without it.
    /// Returns the fault.
    fn passed(
        &mut self,
        alloc: Global,
        line: &'a [u8],
        number: u64,
        fault: AdlFault,
    ) -> Option<AdlFault>
        ensures next { (before : ℕ) (further : List Refusal) (complete : Bool) → self.old.is_over ≡ false
            → before + 1 ≡ number → number ≡ self.old.lines.number
            → Reads {X = Unit {0}} (λ _. context_of self.old.draft) (Err fault)
            (with_line (frames_per_second self.old.rate) (context_of self.old.draft) number line.now)
            → AreFaults (frames_per_second self.old.rate) (context_of self.old.draft) before
            (line.now ∷ left self.old.first self.old.is_in_faulty_entry number self.old.lines.lines) further complete
            → IsFirstOf result further complete self.new }
        ensures lines { self.new.lines ≡ self.old.lines }
    {
        if !is_of_its_own(fault) {
            self.cut_short();
            return unless_memory(fault);
        }
        self.is_in_faulty_entry |= opens_entry(line);
        if let Err(_) = self.draft.add(alloc, &[], number, self.rate) {
            // An empty line is never faulty here, so this is out of memory.
            self.cut_short();
        }
        Some(fault)
    }
}

/// Returns the line, or an empty line if it has the first fault or belongs to a faulty entry.
fn left_of<'a>(line: &'a [u8], number: u64, first: u64, is_in_faulty_entry: &mut bool) -> &'a [u8]
    ensures { (before : ℕ) (lines : List (List ℕ)) → before + 1 ≡ number
        → left first is_in_faulty_entry.old before (line.now ∷ lines)
        ≡ result.now ∷ left first is_in_faulty_entry.new number lines }
{
    if number == first {
        *is_in_faulty_entry |= opens_entry(line);
        return &[];
    }
    *is_in_faulty_entry &= !ends_entry(line);
    if *is_in_faulty_entry { &[] } else { line }
}

/// Returns the frame rate of a list with faulty lines: the rate [`crate::rate_of`] returns for the list without
/// misplaced lines.
#[tactic(auto, unfolding(crate::specs::Further::rate_beside))]
fn rate_beside_faults(text: &[u8]) -> Rate
    ensures { frames_per_second result ≡ rate_beside nothing_passed (lines_of text.now) }
{
    let mut outline = Outline::new();
    let mut lines = Lines::new(text);
    'lines: while let Some(line) = lines.next_line() {
        if let Some(rate) = outline.rate_in(line) {
            return rate;
        }
        if let Some(next) = outline.passed(line) {
            outline = next;
        }
    }
    UNTOLD
}

/// Returns the fault, or `None` if out of memory.
fn unless_memory(fault: AdlFault) -> Option<AdlFault>
    ensures { IfSome result (λ told. (told ≡ fault) × (fault ≡ Memory → ⊥)) }
{
    match fault {
        AdlFault::Memory => None,
        AdlFault::Text { .. } => Some(fault),
    }
}

/// Returns whether later lines can be judged without the faulty line.
fn is_of_its_own(fault: AdlFault) -> bool
    ensures { result ≡ is_of_one_line fault }
{
    let AdlFault::Text {
        fault,
        location,
        ..
    } = fault
    else {
        return false;
    };
    match location {
        Location::Entry { .. } | Location::Index { .. } => is_of_a_line(fault),
        Location::Line { .. } => is_of_any_line(fault),
    }
}

/// Returns whether a fault without an entry or index number concerns only its line: something unsupported, a line
/// before the first entry, or a bad entry or index number.
fn is_of_any_line(fault: TextFault) -> bool
    ensures { result ≡ spec.is_of_any_line fault }
{
    match fault {
        TextFault::Unsupported | TextFault::BadNumber | TextFault::Unplaced => true,
        _ => false,
    }
}

/// Returns whether a fault concerns only its line, not a section, the header or a rate.
fn is_of_a_line(fault: TextFault) -> bool
    ensures { result ≡ spec.is_of_a_line fault }
{
    match fault {
        TextFault::SectionMismatch
        | TextFault::MissingSection
        | TextFault::RepeatedSection
        | TextFault::MissingSequence
        | TextFault::WrongSequence
        | TextFault::TooMany => false,
        _ => true,
    }
}

/// Returns whether the line ends the entry before it.
fn ends_entry(line: &[u8]) -> bool
    ensures { result ≡ (text.is_tag line.now || spec.opens_entry line.now) }
{
    is_tag(line) || opens_entry(line)
}

/// Returns whether the line is an `(Entry)` line.
fn opens_entry(line: &[u8]) -> bool
    ensures { result ≡ spec.opens_entry line.now }
{
    match Tokens::new(line).cut_next() {
        Ok(Some(token)) => token.is_keyword(b"Entry"),
        _ => false,
    }
}
