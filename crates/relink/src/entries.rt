// Entries for groups.
ghost use Rattle.std.specs.Prelude.{◌≡◌, ◌≤◌, ◌+◌, ◌-◌, IfOk, length};
ghost use Rattle.std.specs.List.{All};
ghost use Rattle.list_terms.specs.Renewed.{numbered, run_event};
ghost use Rattle.relink.specs.Linked.{IsLinkable};

use crate::indexes::time_of;
use crate::search::number_of;
use mediaset::Runs;
use sound_terms::{Channels, Event, Fade, Placed};
use std::alloc::{AllocError, Global};

/// Returns a run of `width` channels.
fn channels_from(first: u8, width: u8) -> Channels
    requires wide { 1 ≤ width }
    requires to_64 { first + width ≤ 65 }
    ensures { result ≡ record { first = first; last = (first + width) - 1 } }
{
    Channels {
        first,
        last: first + width - 1,
    }
}

/// Returns the entry of a group, which plays the run that contains the group's first sample frame.
fn entry_of(runs: &Runs, number: u32, placed: &Placed) -> Event
    requires { IsLinkable runs.now.homes runs.now.runs placed.now }
    ensures { result ≡ run_event runs.now.homes runs.now.runs number placed.now }
{
    let index = number_of(runs, placed.file, placed.frame);
    let base = runs.homes().base(placed.file);
    Event {
        number,
        index,
        source: channels_from(placed.first, placed.width),
        dest: channels_from(placed.dest, placed.width),
        source_in: time_of(base + placed.frame),
        dest_in: time_of(placed.start),
        dest_out: time_of(placed.start + placed.length),
        rise: Fade {
            length: time_of(placed.rise),
        },
        fall: Fade {
            length: time_of(placed.fall),
        },
    }
}

/// Returns the entries of the groups, numbered from 1.
pub(crate) fn entries_of(
    alloc: Global,
    runs: &Runs,
    groups: &[Placed],
) -> Result<Vec<Event>, AllocError>
    requires few { length groups.now ≤ 32767 }
    requires linkable { All (IsLinkable runs.now.homes runs.now.runs) groups.now }
    ensures { IfOk result (λ events. events.items
        ≡ numbered (run_event runs.now.homes runs.now.runs) 1 groups.now) }
{
    let mut events = Vec::with_capacity(alloc, groups.len())?;
    for (position, placed) in groups.iter().enumerate() {
        let event = entry_of(runs, position as u32 + 1, placed);
        events.push(event)?;
    }
    Ok(events)
}
