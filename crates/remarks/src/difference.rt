// Text about the first difference of two lists.
use console::ListOfTwo;
use sampletime::{Rate, SampleTime, Separators, text_of};
use sound_terms::Event;
use std::fmt;
use std::fmt::Display;

/// Maximum number of entries named.
const MOST: usize = 20;

/// Maximum number of digits after the point.
const DIGITS: u32 = 24;

/// The bits of an exact sum below a 24-bit sample.
const FRACTION: u64 = 0xFF_FFFF;

/// The name of one of two lists: `list 1` or `list 2`.
#[derive(Clone, Copy)]
pub struct NamedList(pub ListOfTwo);

impl fmt::Display for NamedList {
    fn fmt<W: fmt::Write>(&self, f: &mut fmt::Formatter<W>) -> fmt::Result {
        f.write_str(match self.0 {
            ListOfTwo::First => "list 1",
            ListOfTwo::Second => "list 2",
        })
    }
}

/// An exact sum (full scale 2^47) as a 24-bit sample in decimal, with all digits of its fraction.
#[derive(Clone, Copy)]
pub struct ExactSample(pub i64);

impl fmt::Display for ExactSample {
    fn fmt<W: fmt::Write>(&self, f: &mut fmt::Formatter<W>) -> fmt::Result {
        if self.0 < 0 {
            f.write_str("-")?;
        }
        let magnitude = self.0.unsigned_abs();
        let whole = magnitude >> 24;
        write!(f, "{whole}")?;
        fmt_fraction(magnitude & FRACTION, f)
    }
}

/// Writes a fraction, in units of 2^-24, as a point and digits; nothing if it is zero.
fn fmt_fraction<W: fmt::Write>(fraction: u64, f: &mut fmt::Formatter<W>) -> fmt::Result {
    let mut rest = fraction;
    if rest == 0 {
        return Ok(());
    }
    f.write_str(".")?;
    for _ in 0..DIGITS {
        if rest == 0 {
            return Ok(());
        }
        let tenfold = rest.saturating_mul(10);
        let digit = tenfold >> 24;
        write!(f, "{digit}")?;
        rest = tenfold & FRACTION;
    }
    Ok(())
}

/// Writes the number of an entry, unless the maximum number of entries has been named.
fn fmt_entry<W: fmt::Write>(number: u32, before: usize, f: &mut fmt::Formatter<W>) -> fmt::Result {
    if before >= MOST {
        return Ok(());
    }
    let comma = if before == 0 { "" } else { ", " };
    write!(f, "{comma}entry {number}")
}

/// The entries of a list that may sound at a time on a channel, by number: their span includes the
/// time, and their channels include the channel. Names at most 20 of them and the number of further
/// ones.
#[derive(Clone, Copy)]
pub struct SoundingEntries<'a> {
    pub events: &'a [Event],
    pub at: SampleTime,
    pub channel: u8,
}

impl SoundingEntries<'_> {
    /// Returns whether an entry is one of them.
    pub fn has(&self, event: &Event) -> bool {
        event.dest_in <= self.at
            && self.at < event.dest_out
            && event.dest.first <= self.channel
            && self.channel <= event.dest.last
    }
}

impl fmt::Display for SoundingEntries<'_> {
    fn fmt<W: fmt::Write>(&self, f: &mut fmt::Formatter<W>) -> fmt::Result {
        let mut count: usize = 0;
        for event in self.events {
            if self.has(event) {
                fmt_entry(event.number, count, f)?;
                count = count.saturating_add(1);
            }
        }
        match count.checked_sub(MOST) {
            None if count == 0 => f.write_str("no entry"),
            None | Some(0) => Ok(()),
            Some(more) => write!(f, " and {more} more"),
        }
    }
}

/// The number of differing samples per channel, from channel 1 on, in the whole range compared or
/// in the first hour after the first difference. Omits channels without differences.
#[derive(Clone, Copy)]
pub struct DifferingSamples<'a> {
    pub counts: &'a [u32],
    pub is_part: bool,
}

impl fmt::Display for DifferingSamples<'_> {
    fn fmt<W: fmt::Write>(&self, f: &mut fmt::Formatter<W>) -> fmt::Result {
        f.write_str(if self.is_part {
            "samples that differ in the hour from then on"
        } else {
            "samples that differ"
        })?;
        let mut mark = ":";
        let mut channel: u8 = 0;
        for count in self.counts {
            channel = channel.saturating_add(1);
            if *count > 0 {
                write!(f, "{mark} {count} on channel {channel}")?;
                mark = ",";
            }
        }
        Ok(())
    }
}

/// The length for which two lists are equal before they differ, and its start, by the times of the
/// first list.
#[derive(Clone, Copy)]
pub struct Agreement {
    pub from: SampleTime,
    pub to: SampleTime,
    pub rate: Rate,
    pub separators: Separators,
}

impl fmt::Display for Agreement {
    fn fmt<W: fmt::Write>(&self, f: &mut fmt::Formatter<W>) -> fmt::Result {
        let samples = self.to.get().saturating_sub(self.from.get());
        let Some(length) = SampleTime::new(samples) else {
            return Ok(());
        };
        if samples == 0 {
            return f.write_str("they differ from the first sample on");
        }
        f.write_str("before it they are the same, from ")?;
        fmt_time(self.from, self.rate, self.separators, f)?;
        let counted = if samples == 1 { "sample" } else { "samples" };
        write!(f, " on: {samples} {counted} (")?;
        fmt_time(length, self.rate, self.separators, f)?;
        f.write_str(")")
    }
}

/// Writes a time with the given frame rate and separators.
pub fn fmt_time<W: fmt::Write>(
    time: SampleTime,
    rate: Rate,
    separators: Separators,
    f: &mut fmt::Formatter<W>,
) -> fmt::Result {
    for byte in text_of(time, separators, rate) {
        let character = char::from(byte);
        write!(f, "{character}")?;
    }
    Ok(())
}
