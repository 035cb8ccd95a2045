// Faults of an entry of a bound project.
ghost use Rattle.std.specs.Prelude.{◌≡◌, option_map};
ghost use Rattle.list_terms.specs.Accepted as list;
ghost use Rattle.projectcheck.specs.Fault.{number_of};

use crate::EntryFault;
use sound_terms::{BoundIndex, Event};
use sourceindex::Bound;
use wavread::Sound;

/// Returns the fault of an entry, or `None` if it has none. Of several faults the first one in this order is
/// returned:
/// - 41: its index isn't bound.
/// - 42: it ends before it starts.
/// - 43: its fades are longer than the entry.
/// - 44: its file has no such channel.
/// - 46: its index can't address all samples that it plays.
pub fn fault_of(bound: &Bound, event: &Event) -> Option<EntryFault>
    ensures { option_map number_of result ≡ list.entry_fault bound.now event.now }
{
    match bound.index(event.index) {
        Some(index) => span_fault(index, &bound.sounds()[index.file as usize], event),
        None => Some(EntryFault::UnknownIndex),
    }
}

fn span_fault(index: BoundIndex, sound: &Sound, event: &Event) -> Option<EntryFault>
    ensures { option_map number_of result ≡ list.span_fault index sound.now event.now }
{
    let (from, to) = (event.dest_in.get(), event.dest_out.get());
    if to < from {
        return Some(EntryFault::EndBeforeStart);
    }
    if to - from < event.rise.length.get() + event.fall.length.get() {
        return Some(EntryFault::FadesTooLong);
    }
    if sound.channels() < event.source.last {
        return Some(EntryFault::SourceChannel);
    }
    if is_outside(index, event) {
        return Some(EntryFault::SpanOutside);
    }
    None
}

/// Returns whether an entry plays a sample frame that its index can't address.
fn is_outside(index: BoundIndex, event: &Event) -> bool
    ensures { result ≡ list.is_outside index event.now }
{
    let from = event.source_in.get();
    let length = event.dest_out.get().saturating_sub(event.dest_in.get());
    length > 0 && (from < index.base || index.addressable < from - index.base + length)
}
