// Groups as events.
ghost use Rattle.std.specs.Prelude.{◌≡◌, ℕ, IsTrue, IfOk, map};
ghost use Rattle.sound_terms.specs.Mix.{Reading};
ghost use Rattle.sound_terms.specs.Groups.{are_whole, sum_of};
ghost use Rattle.sound_terms.specs.Entries.{placed_of, placed_part};

use crate::{IntervalFault, Intervals, Placed};
use std::alloc::AllocError;

impl Intervals {
    /// Returns the events of the groups, in order.
    fn events(&self) -> Result<Vec<Placed>, AllocError>
        ensures { IfOk result (λ events. events.items ≡ placed_of self.now) }
    {
        let mut events = Vec::with_capacity(self.allocator(), self.groups().len())?;
        for group in self.groups() {
            events.push(group.placed())?;
        }
        Ok(events)
    }

    /// Returns one event per group, in order, that adds the same samples as the group. Every fade
    /// must be uncut. Returns `IntervalFault::Memory` if out of memory.
    #[tactic(auto, using(sound_terms::specs::PlacedLaws::events_add))]
    pub fn to_events(&self) -> Result<Vec<Placed>, IntervalFault>
        requires { IsTrue (are_whole self.now) }
        ensures each { IfOk result (λ events. events.items ≡ placed_of self.now) }
        ensures same_parts { IfOk result (λ events. (reading : Reading) (channel time : ℕ)
            → map (λ event. placed_part reading event channel time) events.items
            ≡ map (λ group. sum_of reading group channel time) self.now) }
    {
        // Brings the invariant (groups in order) into scope.
        let _ = self.groups();
        Ok(self.events()?)
    }
}
