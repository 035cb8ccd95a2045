// The time code along the top of the picture.
use crate::scale::{DRAWN, LEFT, Scale};
use adlmodel::Project;
use sampletime::{SampleTime, text_of};
use std::{fmt, str};

/// Samples per second.
const SECOND: u64 = 48_000;

/// Maximum number of intervals between marks.
const MOST: u64 = 9;

/// A time as written in the list, without the samples after the frame.
#[derive(Clone, Copy)]
pub struct TimeCode<'a> {
    pub project: &'a Project,
    pub samples: u64,
}

impl fmt::Display for TimeCode<'_> {
    fn fmt<W: fmt::Write>(&self, f: &mut fmt::Formatter<W>) -> fmt::Result {
        let time = SampleTime::new(self.samples).unwrap_or(SampleTime::DAY);
        let text = text_of(time, self.project.separators(), self.project.rate());
        f.write_str(str::from_utf8(&text[..11]).unwrap_or(""))
    }
}

/// Returns the interval between marks for a span: a number of frames, seconds, minutes or hours, in
/// samples.
fn step_of(length: u64, frame: u64) -> u64 {
    let frames = [1, 2, 5, 10];
    let seconds = [
        1, 2, 5, 10, 15, 30, 60, 120, 300, 600, 900, 1800, 3600, 7200,
    ];
    let most = length / MOST;
    for count in frames {
        let step = frame.saturating_mul(count);
        if most <= step {
            return step;
        }
    }
    for count in seconds {
        let step = SECOND.saturating_mul(count);
        if most <= step {
            return step;
        }
    }
    SECOND * 14_400
}

/// Writes the marks of a span, with lines down to `bottom` pixels.
pub fn put_ruler<W: fmt::Write>(
    f: &mut fmt::Formatter<W>,
    project: &Project,
    span: (u64, u64),
    bottom: u64,
) -> fmt::Result {
    let (from, to) = span;
    let scale = Scale::new(from, to);
    let step = step_of(
        to.saturating_sub(from),
        u64::from(project.rate().samples_per_frame()),
    );
    writeln!(f, "<g stroke-opacity='.25' stroke='#000'>")?;
    for count in 0..=MOST {
        let samples = first_of(from, step).saturating_add(count.saturating_mul(step));
        if samples > to {
            break;
        }
        let at = scale.position(samples);
        writeln!(f, "<line x1='{at}' y1='52' x2='{at}' y2='{bottom}'/>")?;
    }
    writeln!(f, "</g>")?;
    put_times(f, project, span, step)
}

/// Returns the first multiple of `step` at or after `from`.
fn first_of(from: u64, step: u64) -> u64 {
    let before = from.checked_div(step).unwrap_or(0).saturating_mul(step);
    if before < from {
        before.saturating_add(step)
    } else {
        before
    }
}

/// Writes the time code of each mark.
fn put_times<W: fmt::Write>(
    f: &mut fmt::Formatter<W>,
    project: &Project,
    span: (u64, u64),
    step: u64,
) -> fmt::Result {
    let (from, to) = span;
    let scale = Scale::new(from, to);
    let rate = project.rate().frames_per_second();
    let edge = LEFT + DRAWN;
    writeln!(f, "<g font-family='monospace' text-anchor='middle'>")?;
    writeln!(
        f,
        "<text x='{edge}' y='22' text-anchor='end'>{rate} frames/s</text>"
    )?;
    for count in 0..=MOST {
        let samples = first_of(from, step).saturating_add(count.saturating_mul(step));
        if samples > to {
            break;
        }
        let at = scale.position(samples);
        let time = TimeCode { project, samples };
        writeln!(f, "<text x='{at}' y='46'>{time}</text>")?;
    }
    writeln!(f, "</g>")
}
