// The time range and the channels of a project.
ghost use Rattle.std.specs.Prelude.{◌≡◌, ◌≤◌, max};
ghost use Rattle.list_terms.specs.Accepted.{greatest_of, least_of};

use crate::Project;
use sampletime::SampleTime;

impl Project {
    /// Returns the earliest destination in of the entries, in samples after midnight, or 0 without entries.
    pub fn first_in(&self) -> SampleTime
        ensures { result ≡ least_of (λ event. event.dest_in) self.now.events }
    {
        let events = self.events();
        let Some((first, others)) = events.split_first() else {
            return SampleTime::ZERO;
        };
        let mut least = first.dest_in;
        for event in others {
            least = least.min(event.dest_in);
        }
        least
    }

    /// Returns the latest destination out of the entries, in samples after midnight, or 0 without entries.
    pub fn last_out(&self) -> SampleTime
        ensures { result ≡ greatest_of (λ event. event.dest_out) self.now.events }
    {
        let events = self.events();
        let mut greatest = SampleTime::ZERO;
        for event in events {
            greatest = greatest.max(event.dest_out);
        }
        greatest
    }

    /// Returns the highest destination channel of the entries, from 1 to 64; 1 without entries.
    pub fn last_channel(&self) -> u8
        ensures value { result ≡ max 1 (greatest_of (λ event. event.dest.last) self.now.events) }
        ensures few { result ≤ 64 }
    {
        let events = self.events();
        let mut greatest = 1;
        for event in events {
            greatest = greatest.max(event.dest.last);
        }
        greatest
    }
}
