// Extent of the entries of a list.
use sampletime::SampleTime;
use sound_terms::Event;

/// The extent of a list: the time of the first start, if there is an entry, the time of the last end, or 0, and the
/// highest destination channel, at least 1.
#[derive(Clone, Copy)]
pub struct Reach {
    first_in: Option<SampleTime>,
    pub last_out: SampleTime,
    pub last_channel: u8,
}

impl Reach {
    /// Creates the extent of an empty list.
    pub fn new() -> Self {
        Reach {
            first_in: None,
            last_out: SampleTime::ZERO,
            last_channel: 1,
        }
    }

    /// Returns the extent of these entries.
    pub fn of(events: &[Event]) -> Self {
        let mut reach = Self::new();
        for event in events {
            reach.take_in(event);
        }
        reach
    }

    /// Adds an entry.
    pub fn take_in(&mut self, event: &Event) {
        self.first_in = match self.first_in {
            Some(first_in) => Some(first_in.min(event.dest_in)),
            None => Some(event.dest_in),
        };
        self.last_out = self.last_out.max(event.dest_out);
        self.last_channel = self.last_channel.max(event.dest.last);
    }

    /// Returns the time of the first start, or 0 without an entry.
    pub fn first_in(&self) -> SampleTime {
        self.first_in.unwrap_or(SampleTime::ZERO)
    }
}
