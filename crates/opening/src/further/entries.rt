// Faults of entries, each checked independently.
ghost use Rattle.std.specs.Prelude.{◌≡◌, [], IfOk, false, map, option_map};
ghost use Rattle.std.specs.List.{cons_option};
ghost use Rattle.opening.specs.Faults.{refusal_of};
ghost use Rattle.opening.specs.Further.{fault_beside, faults_beside, names_device};

use crate::Fault;
use projectcheck::{EventFault, fault_of};
use sound_terms::Event;
use sourceindex::Bound;
use std::alloc::{AllocError, Global};

/// Returns the fault of an entry, unless it is the entry already reported.
fn entry_fault(bound: &Bound, event: &Event, reported: u32) -> Option<Fault>
    ensures beside { option_map refusal_of result ≡ fault_beside bound.now reported event.now }
    ensures devices { names_device (cons_option result []) ≡ false }
{
    if event.number == reported {
        return None;
    }
    let fault = fault_of(bound, event)?;
    Some(Fault::Entry(EventFault {
        entry: event.number,
        fault,
    }))
}

/// Returns the faults of these entries in order, without the entry already reported.
pub fn entry_faults(
    alloc: Global,
    bound: &Bound,
    events: &[Event],
    reported: u32,
) -> Result<Vec<Fault>, AllocError>
    ensures beside { IfOk result (λ faults. map refusal_of faults.items
        ≡ faults_beside bound.now reported events.now) }
    ensures devices { IfOk result (λ faults. names_device faults.items ≡ false) }
{
    let mut faults = Vec::new(alloc);
    for event in events {
        if let Some(fault) = entry_fault(bound, event, reported) {
            faults.push(fault)?;
        }
    }
    Ok(faults)
}
