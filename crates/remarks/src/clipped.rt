// The line about clipped samples of a rendering.
use clipping::Clips;
use sampletime::{Rate, SampleTime, Separators, text_of};
use std::fmt;
use std::fmt::Display;

/// The part of a rendering that the line is about: all of it, or only the part rendered by a
/// resume.
#[derive(Clone, Copy, Debug, PartialEq, Eq)]
pub enum Rendering {
    Whole,
    Resumed,
}

/// A line with the number of clipped samples, their channels, the time and channel of the first
/// one, and the excess of the loudest sum over full scale in decibels. Empty if no sample was
/// clipped.
#[derive(Clone, Copy)]
pub struct ClippedLine {
    /// Clipping statistics of the exact sums, which are interleaved, starting with channel 1.
    pub clips: Clips,
    /// Time of the first sample.
    pub start: SampleTime,
    pub channels: u8,
    pub rendering: Rendering,
    pub rate: Rate,
}

fn time_text(time: SampleTime, rate: Rate) -> [u8; 16] {
    text_of(time, Separators::DEFAULT, rate)
}

impl ClippedLine {
    /// Returns the time of a sample, by its index among the interleaved samples.
    fn time_of(&self, sample: u64) -> SampleTime {
        let frame = sample / u64::from(self.channels.max(1));
        let time = self.start.get().saturating_add(frame);
        SampleTime::new(time).unwrap_or(SampleTime::ZERO)
    }

    /// Returns the channel (from 1) of a sample, by its index among the interleaved samples.
    fn channel_of(&self, sample: u64) -> u64 {
        sample % u64::from(self.channels.max(1)) + 1
    }

    /// Writes the channels with clipped samples, separated by commas and a final `and`.
    fn fmt_channels<W: fmt::Write>(&self, f: &mut fmt::Formatter<W>) -> fmt::Result {
        let all = self.clips.channels;
        let mut left = all.count_ones();
        f.write_str(if left == 1 { "channel" } else { "channels" })?;
        let mut before = " ";
        for channel in 0..64u32 {
            if all >> channel & 1 == 1 {
                write!(f, "{before}{}", channel + 1)?;
                left = left.saturating_sub(1);
                before = if left == 1 { " and " } else { ", " };
            }
        }
        Ok(())
    }
}

impl fmt::Display for ClippedLine {
    fn fmt<W: fmt::Write>(&self, f: &mut fmt::Formatter<W>) -> fmt::Result {
        let clips = self.clips;
        let Some(first) = clips.first else {
            return Ok(());
        };
        let samples = if clips.samples == 1 {
            "sample"
        } else {
            "samples"
        };
        write!(f, "clipped: {} {samples} on ", clips.samples)?;
        self.fmt_channels(f)?;
        f.write_str(", the first at ")?;
        for byte in time_text(self.time_of(first), self.rate) {
            write!(f, "{}", char::from(byte))?;
        }
        write!(f, " on channel {}", self.channel_of(first))?;
        let tenths = tenths_above(clips.peak);
        write!(
            f,
            "; the loudest sum is {}.{} dB above full scale",
            tenths / 10,
            tenths % 10
        )?;
        match self.rendering {
            Rendering::Whole => writeln!(f),
            Rendering::Resumed => writeln!(f, " (of the blocks that were rendered now)"),
        }
    }
}

/// Full scale of an exact sum.
const FULL_SCALE: u128 = 1 << 47;

/// The maximum excess of a 64-bit sum over full scale, in tenths of a decibel: 16 bits.
const MOST_TENTHS: u64 = 964;

/// Returns the excess of a magnitude over full scale in tenths of a decibel, rounded; 0 if there is
/// none.
fn tenths_above(peak: u64) -> u64 {
    // Half a step and then one step of a tenth of a decibel: 10 ^ (1 / 400) and 10 ^ (1 / 200), in
    // units of 2 ^ -32.
    let mut limit = FULL_SCALE * 4_319_762_413 >> 32;
    for tenths in 0..MOST_TENTHS {
        if u128::from(peak) < limit {
            return tenths;
        }
        limit = limit * 4_344_700_673 >> 32;
    }
    MOST_TENTHS
}
