// Selection of the part of the timeline to draw.
use sampletime::SampleTime;
use sound_terms::Event;

/// A part of the timeline, `from` to `to` (exclusive). By default it runs from the first In to the
/// last Out.
#[derive(Clone, Copy, Debug, PartialEq, Eq)]
pub struct Part {
    pub from: Option<SampleTime>,
    pub to: Option<SampleTime>,
}

impl Part {
    /// The whole timeline.
    pub const ALL: Part = Part {
        from: None,
        to: None,
    };

    /// Returns whether a time was selected.
    pub fn is_chosen(&self) -> bool {
        self.from.is_some() || self.to.is_some()
    }

    /// Returns whether a time was selected and the part is empty.
    pub fn is_empty(&self, events: &[Event]) -> bool {
        let (from, to) = self.span(events);
        self.is_chosen() && to <= from
    }

    /// Returns start and end of the part in samples.
    pub fn span(&self, events: &[Event]) -> (u64, u64) {
        let (first, last) = whole_of(events);
        let from = match self.from {
            Some(from) => from.get(),
            None => first,
        };
        let to = match self.to {
            Some(to) => to.get(),
            None => last,
        };
        (from, to)
    }
}

/// Returns the samples from the first In to the last Out, or an empty span if there are no entries.
fn whole_of(events: &[Event]) -> (u64, u64) {
    let mut span = (u64::MAX, 0);
    for event in events {
        span.0 = span.0.min(event.dest_in.get());
        span.1 = span.1.max(event.dest_out.get());
    }
    if span.1 < span.0 { (0, 0) } else { span }
}
