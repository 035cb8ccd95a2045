// Groups of entries: fade-in, middle and fade-out.
ghost use Rattle.std.specs.Prelude.{ℕ, IsTrue, Some, ◌≡◌, ◌≤◌, MatchOption, IfSome, []};
ghost use Rattle.std.specs.List.{All, list_all};
ghost use Rattle.sound_terms.specs.Mix.{Reading, contribution_at};
ghost use Rattle.sound_terms.specs.Groups.{IsGroup, IsPiece, is_whole, sum_of};
ghost use Rattle.sound_terms.specs.Entries as entries;
ghost use Rattle.sound_terms.specs.Entries.{IsPlayable};
ghost use Rattle.groups.specs.Packed.{pieces_in};
ghost use Rattle.sampletime.specs.TimeCode.{day};

use crate::Group;
use crate::packed::{Packed, Ramp};
use sound_terms::{BoundIndex, Event};
use std::alloc::Global;

/// An event with the index of its source, checked to be playable.
#[derive(Clone, Copy)]
struct Entry<'a> {
    index: &'a BoundIndex,
    event: &'a Event,
    ghost playable: { IsPlayable index.now event.now },
}

/// Returns an uncut fade of the given number of samples.
fn whole_ramp(samples: u64) -> Ramp
    requires { samples ≤ day }
    ensures { (result.length ≡ samples) × (result.offset ≡ 0) × (result.den ≡ samples) }
{
    let length = samples as u32;
    Ramp {
        length,
        offset: 0,
        den: length,
    }
}

/// Returns the pieces of an entry, packed.
fn parts_of(entry: &Entry) -> Packed
    ensures { pieces_in result ≡ entries.parts_of entry.now.index.now entry.now.event.now }
{
    let index = entry.index;
    let event = entry.event;
    let length = event.dest_out.get() - event.dest_in.get();
    let rise = event.rise.length.get();
    let fall = event.fall.length.get();
    let middle = length - fall - rise;
    Packed {
        start: event.dest_in.get() as u32,
        frame: event.source_in.get().saturating_sub(index.base) as u32,
        file: index.file,
        rise: whole_ramp(rise),
        middle: middle as u32,
        fall: whole_ramp(fall),
        first: event.source.first,
        dest: event.dest.first,
        width: event.dest.last + 1 - event.dest.first,
    }
}

/// Returns the group of an event: its fade-in, its middle and its fade-out, or `None` if it has no
/// samples.
pub fn group_of(alloc: Global, index: &BoundIndex, event: &Event) -> Option<Group>
    requires { IsPlayable index.now event.now }
    ensures parts { MatchOption result (entries.parts_of index.now event.now ≡ []) (λ group. group
        ≡ entries.parts_of index.now event.now) }
    ensures formed { IfSome result (λ group. IsGroup group × All IsPiece group) }
    ensures same_sum { (reading : Reading) (channel time : ℕ)
        → sum_of reading (entries.parts_of index.now event.now) channel time
        ≡ contribution_at reading (Some index.now) event.now channel time }
    ensures whole { IsTrue (list_all is_whole (entries.parts_of index.now event.now)) }
{
    Group::from_packed(alloc, parts_of(&Entry { index, event }))
}
