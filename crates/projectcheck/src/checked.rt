// Checked projects.
ghost use Rattle.std.specs.Prelude.{◌≡◌, IfOk, IsSome, None, Some, slice_get, string_bytes};
ghost use Rattle.work_terms.specs.Refusals.{Answers};
ghost use Rattle.sound_terms.specs.Sounds.{SoundFacts};
ghost use Rattle.list_terms.specs.Accepted.{event_fault};
ghost use Rattle.list_terms.specs.Heard.{sounds_of};
ghost use Rattle.projectcheck.specs.Fault.{refusal_of};

use crate::{EventFault, fault_of};
use adlmodel::Project;
use sound_terms::Event;
use sourceindex::Bound;

/// A project and its binding, without a faulty entry.
pub struct Checked {
    project: Project,
    bound: Bound,
    ghost accepted: { event_fault bound project.events ≡ None },
}

// Written by hand so that callers drop it with a single call.
impl Drop for Checked {
    fn drop(self) {
        let Checked { project, bound } = self;
        drop(project);
        drop(bound);
    }
}

impl Checked {
    /// Returns the project.
    pub fn project(&self) -> &Project
        ensures lent { result.now ≡ self.now.project }
        ensures accepted { event_fault self.now.bound self.now.project.events ≡ None }
    {
        &self.project
    }

    /// Returns the name of the file at this position among the opened files, without copying.
    pub fn into_name(self, file: u32) -> String
        requires there { IsSome (slice_get (sounds_of self.bound) file) }
        ensures { (facts : SoundFacts) → slice_get (sounds_of self.bound) file ≡ Some facts
            → string_bytes result ≡ facts.name }
    {
        let Checked { project, bound } = self;
        drop(project);
        bound.into_name(file)
    }

    /// Returns the binding.
    pub fn bound(&self) -> &Bound
        ensures { result.now ≡ self.now.bound }
    {
        &self.bound
    }
}

/// Checks the entries in order and returns the first fault.
fn check_entries(bound: &Bound, events: &[Event]) -> Result<(), EventFault>
    ensures { Answers refusal_of result (event_fault bound.now events.now) }
{
    for event in events {
        if let Some(fault) = fault_of(bound, event) {
            return Err(EventFault {
                entry: event.number,
                fault,
            });
        }
    }
    Ok(())
}

/// Checks each entry of a project against its binding. Returns the fault of the first faulty entry, in list order.
pub fn check(project: Project, bound: Bound) -> Result<Checked, EventFault>
    ensures exact { Answers refusal_of result (event_fault bound project.events) }
    ensures lends { IfOk result (λ checked. (checked.project ≡ project) × (checked.bound ≡ bound)) }
{
    check_entries(&bound, project.events())?;
    Ok(Checked { project, bound })
}
