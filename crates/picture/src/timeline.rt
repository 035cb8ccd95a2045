// The entries over time, in a lane for each channel.
use crate::escaped::Escaped;
use crate::hatch::put_missing;
use crate::part::Part;
use crate::ruler::{TimeCode, put_ruler};
use crate::scale::{DRAWN, LEFT, Scale, Tenths};
use crate::shown::Shown;
use sound_terms::Event;
use std::fmt;

/// Top of the lanes, height of a lane, and height of an entry within it, in pixels.
const TOP: u64 = 58;

const LANE: u64 = 48;

const HIGH: u64 = 44;

/// Minimum width of an entry to show its number, and additional width per byte to show its file
/// name, in tenths of a pixel.
const NUMBERED: u64 = 260;

const LETTER: u64 = 75;

/// Number of text rows per lane and their height in pixels, so that labels of simultaneous entries
/// don't overlap.
const ROWS: u64 = 3;

const ROW: u64 = 12;

/// Number of preceding entries checked for overlap.
const BEFORE: usize = 8;

/// The timeline: a span of samples, from the first In to the last Out or a part of that, and the
/// range of channels used.
#[derive(Clone, Copy)]
pub struct Timeline<'a> {
    shown: Shown<'a>,
    is_part: bool,
    pub span: (u64, u64),
    pub channels: (u8, u8),
}

impl<'a> Timeline<'a> {
    /// Creates the timeline for a part of a project.
    pub fn of(shown: Shown<'a>, part: Part) -> Timeline<'a> {
        let events = shown.project.events();
        let mut channels = (u8::MAX, 0);
        for event in events {
            channels.0 = channels.0.min(event.dest.first);
            channels.1 = channels.1.max(event.dest.last);
        }
        if channels.1 < channels.0 {
            channels = (1, 1);
        }
        Timeline {
            shown,
            is_part: part.is_chosen(),
            span: part.span(events),
            channels,
        }
    }

    /// Returns whether the entry is drawn: always, or if it reaches into the selected part.
    fn draws(self, event: &Event) -> bool {
        let (from, to) = self.span;
        !self.is_part || (event.dest_in.get() < to && from < event.dest_out.get())
    }

    /// Returns the number of entries drawn.
    pub fn count(self) -> u64 {
        let mut count: u64 = 0;
        for event in self.shown.project.events() {
            if self.draws(event) {
                count = count.saturating_add(1);
            }
        }
        count
    }

    /// Returns the top of a channel's lane, in pixels.
    fn lane(self, channel: u8) -> u64 {
        TOP + u64::from(channel.saturating_sub(self.channels.0)) * LANE
    }

    /// Returns the bottom of the last lane, in pixels.
    pub fn bottom(self) -> u64 {
        self.lane(self.channels.1).saturating_add(LANE)
    }

    /// Writes the time code, the lanes and the entries.
    pub fn put<W: fmt::Write>(self, f: &mut fmt::Formatter<W>) -> fmt::Result {
        put_ruler(f, self.shown.project, self.span, self.bottom())?;
        self.put_lanes(f)?;
        writeln!(f, "<g fill-opacity='.15' stroke='#000'>")?;
        for event in self.shown.project.events() {
            if self.draws(event) {
                self.put_entry(f, event)?;
            }
        }
        writeln!(f, "</g>")?;
        self.put_all_missing(f)?;
        self.put_names(f)
    }

    /// Writes the name of each lane, and a line below it.
    fn put_lanes<W: fmt::Write>(self, f: &mut fmt::Formatter<W>) -> fmt::Result {
        let edge = LEFT - 8;
        let right = LEFT + DRAWN;
        for channel in self.channels.0..=self.channels.1 {
            let text = self.lane(channel).saturating_add(26);
            let line = self.lane(channel).saturating_add(HIGH + 2);
            writeln!(
                f,
                "<text x='{edge}' y='{text}' text-anchor='end'>channel {channel}</text>"
            )?;
            write!(f, "<line x1='{LEFT}' y1='{line}' x2='{right}' y2='{line}'")?;
            writeln!(f, " stroke='#000' stroke-width='.5'/>")?;
        }
        Ok(())
    }

    /// Writes an entry: in each lane a shape that follows its fades, with a title that names the
    /// source.
    fn put_entry<W: fmt::Write>(self, f: &mut fmt::Formatter<W>, event: &Event) -> fmt::Result {
        let project = self.shown.project;
        let from = TimeCode {
            project,
            samples: event.dest_in.get(),
        };
        let to = TimeCode {
            project,
            samples: event.dest_out.get(),
        };
        let name = Escaped(self.name_of(event));
        let (number, index) = (event.number, event.index);
        match self.shown.refusal_of(event) {
            Some(refusal) => write!(
                f,
                "<g stroke-width='2.5' stroke-dasharray='6 3'><title>entry {number}, refused {refusal}"
            )?,
            None => write!(f, "<g><title>entry {number}")?,
        }
        writeln!(f, ": index {index}, {name}, {from} to {to}</title>")?;
        for channel in event.dest.first..=event.dest.last {
            self.put_shape(f, event, self.lane(channel))?;
        }
        writeln!(f, "</g>")
    }

    /// Hatches the missing samples of all entries.
    fn put_all_missing<W: fmt::Write>(self, f: &mut fmt::Formatter<W>) -> fmt::Result {
        for event in self.shown.project.events() {
            if self.draws(event) {
                self.put_missing_of(f, event)?;
            }
        }
        Ok(())
    }

    /// Hatches the missing samples of an entry in each of its lanes.
    fn put_missing_of<W: fmt::Write>(
        self,
        f: &mut fmt::Formatter<W>,
        event: &Event,
    ) -> fmt::Result {
        let missing = self.shown.missing(event);
        for channel in event.dest.first..=event.dest.last {
            put_missing(f, self.span, event, missing, self.lane(channel), HIGH)?;
        }
        Ok(())
    }

    /// Writes the shape of an entry in the lane at `top`.
    fn put_shape<W: fmt::Write>(
        self,
        f: &mut fmt::Formatter<W>,
        event: &Event,
        top: u64,
    ) -> fmt::Result {
        let scale = Scale::new(self.span.0, self.span.1);
        let (start, end) = (event.dest_in.get(), event.dest_out.get());
        if start < self.span.0 || self.span.1 < end {
            return put_cut(f, self.span, event, top);
        }
        let from = scale.position(start);
        let risen = scale.position(start.saturating_add(event.rise.length.get()));
        let falling = scale.position(end.saturating_sub(event.fall.length.get()));
        let to = scale.position(end);
        let bottom = top.saturating_add(HIGH);
        writeln!(
            f,
            "<polygon points='{from},{bottom} {risen},{top} {falling},{top} {to},{bottom}'/>"
        )
    }

    /// Writes the labels of the entries over all shapes, with a white outline.
    fn put_names<W: fmt::Write>(self, f: &mut fmt::Formatter<W>) -> fmt::Result {
        writeln!(
            f,
            "<g text-anchor='middle' stroke='#fff' stroke-width='3' stroke-linejoin='round' paint-order='stroke'>"
        )?;
        let events = self.shown.project.events();
        for (position, event) in events.iter().enumerate() {
            let before = events
                .get(position.saturating_sub(BEFORE)..position)
                .unwrap_or(&[]);
            if self.draws(event) {
                self.put_name(f, event, row_of(event, before))?;
            }
        }
        writeln!(f, "</g>")
    }

    /// Writes the number of an entry and its file name, if they fit, in a row of its first lane.
    fn put_name<W: fmt::Write>(
        self,
        f: &mut fmt::Formatter<W>,
        event: &Event,
        row: u64,
    ) -> fmt::Result {
        let scale = Scale::new(self.span.0, self.span.1);
        let Tenths(from) = scale.position(event.dest_in.get());
        let Tenths(to) = scale.position(event.dest_out.get());
        let width = to.saturating_sub(from);
        if width < NUMBERED {
            return Ok(());
        }
        let at = Tenths(from.saturating_add(width / 2));
        let line = self
            .lane(event.dest.first)
            .saturating_add(row.saturating_mul(ROW))
            .saturating_add(ROW);
        let number = event.number;
        write!(f, "<text x='{at}' y='{line}'>{number}")?;
        let name = self.name_of(event);
        let letters = (name.len() as u64).saturating_mul(LETTER);
        if letters.saturating_add(2 * NUMBERED) <= width {
            let name = Escaped(name);
            write!(f, " {name}")?;
        }
        writeln!(f, "</text>")
    }

    fn name_of(self, event: &Event) -> &'a str {
        let Some(bound) = self.shown.bound else {
            return "";
        };
        let Some(index) = bound.index(event.index) else {
            return "";
        };
        match bound.sounds().get(index.file as usize) {
            Some(sound) => sound.name(),
            None => "",
        }
    }
}

/// Writes the shape of an entry in the lane at `top`, cut at the edges of the span.
fn put_cut<W: fmt::Write>(
    f: &mut fmt::Formatter<W>,
    span: (u64, u64),
    event: &Event,
    top: u64,
) -> fmt::Result {
    let scale = Scale::new(span.0, span.1);
    let from = event.dest_in.get().max(span.0);
    let to = event.dest_out.get().min(span.1);
    let risen = event.dest_in.get().saturating_add(event.rise.length.get());
    let falling = event.dest_out.get().saturating_sub(event.fall.length.get());
    let bottom = top.saturating_add(HIGH);
    let left = scale.position(from);
    write!(f, "<polygon points='{left},{bottom}")?;
    for sample in [from, risen, falling, to] {
        if from <= sample && sample <= to {
            let at = scale.position(sample);
            let high = Tenths(
                bottom
                    .saturating_mul(10)
                    .saturating_sub(height_at(event, sample)),
            );
            write!(f, " {at},{high}")?;
        }
    }
    let right = scale.position(to);
    writeln!(f, " {right},{bottom}'/>")
}

/// Returns the height of an entry's shape at a sample, in tenths of a pixel.
fn height_at(event: &Event, sample: u64) -> u64 {
    let whole = HIGH * 10;
    let risen = sample.saturating_sub(event.dest_in.get());
    let left = event.dest_out.get().saturating_sub(sample);
    let up = share_of(whole, risen, event.rise.length.get());
    let down = share_of(whole, left, event.fall.length.get());
    up.min(down)
}

/// Returns the height after the given number of samples of a fade.
fn share_of(whole: u64, samples: u64, length: u64) -> u64 {
    let share = samples.min(length).saturating_mul(whole);
    share.checked_div(length).unwrap_or(whole)
}

/// Returns the text row of an entry: one further down for each of the preceding entries that
/// overlaps it.
fn row_of(event: &Event, before: &[Event]) -> u64 {
    let mut together: u64 = 0;
    for other in before {
        if sound_together(event, other) {
            together = together.saturating_add(1);
        }
    }
    together % ROWS
}

/// Returns whether two entries sound at the same time on the first channel of the first one.
fn sound_together(event: &Event, other: &Event) -> bool {
    let channel = event.dest.first;
    other.dest.first <= channel
        && channel <= other.dest.last
        && event.dest_in.get() < other.dest_out.get()
        && other.dest_in.get() < event.dest_out.get()
}
