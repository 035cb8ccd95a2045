// The JSON report of a comparison.
use crate::difference::{SoundingEntries, fmt_time};
use comparison::Comparison;
use list_terms::Notice;
use sampletime::{Rate, SampleTime, Separators};
use sound_terms::Event;
use std::fmt;

/// Result of comparing two lists as one JSON value without a line feed, in the format of
/// `docs/REPORT.md`.
#[derive(Clone, Copy)]
pub struct ComparisonReport<'a> {
    pub comparison: Comparison,
    /// Frame rate and separators of the times of the first list.
    pub rate: Rate,
    pub separators: Separators,
    pub first_notices: &'a [Notice],
    pub second_notices: &'a [Notice],
    /// Entries of the first list.
    pub events: &'a [Event],
    /// Entries of the second list.
    pub other_events: &'a [Event],
    /// Start of the comparison, if known.
    pub from: Option<SampleTime>,
    /// Number of differing samples per channel; empty if they couldn't be counted.
    pub counts: &'a [u32],
    /// Whether the counts cover only a part of the range compared.
    pub is_part: bool,
}

impl fmt::Display for ComparisonReport<'_> {
    fn fmt<W: fmt::Write>(&self, f: &mut fmt::Formatter<W>) -> fmt::Result {
        match self.comparison {
            Comparison::Same { frames, channels } => self.fmt_same(frames, channels, f),
            Comparison::Differs {
                at,
                channel,
                first,
                second,
            } => {
                self.fmt_first(at, channel, f)?;
                self.fmt_differing(f)?;
                f.write_str(",\"first\":")?;
                let entries = sounding(self.events, at, channel);
                fmt_side(&entries, self.first_notices, first, f)?;
                f.write_str(",\"form\":6,\"same\":false,\"same_before\":")?;
                self.fmt_same_before(at, f)?;
                f.write_str(",\"second\":")?;
                let entries = sounding(self.other_events, at, channel);
                fmt_side(&entries, self.second_notices, second, f)?;
                f.write_str("}")
            }
        }
    }
}

impl ComparisonReport<'_> {
    /// Writes the numbers of equal samples and channels.
    fn fmt_same<W: fmt::Write>(
        &self,
        frames: u64,
        channels: u8,
        f: &mut fmt::Formatter<W>,
    ) -> fmt::Result {
        write!(f, "{{\"channels\":{channels},\"first\":{{")?;
        fmt_notices(self.first_notices, f)?;
        write!(
            f,
            "}},\"form\":6,\"frames\":{frames},\"same\":true,\"second\":{{"
        )?;
        fmt_notices(self.second_notices, f)?;
        f.write_str("}}")
    }

    /// Writes the first difference, up to the name of the next member.
    fn fmt_first<W: fmt::Write>(
        &self,
        at: SampleTime,
        channel: u8,
        f: &mut fmt::Formatter<W>,
    ) -> fmt::Result {
        let samples = at.get();
        write!(
            f,
            "{{\"difference\":{{\"at\":{samples},\"channel\":{channel},\"time\":\""
        )?;
        fmt_time(at, self.rate, self.separators, f)?;
        f.write_str("\"},\"differing\":")
    }

    /// Writes the number of differing samples per channel, and whether all samples were counted.
    fn fmt_differing<W: fmt::Write>(&self, f: &mut fmt::Formatter<W>) -> fmt::Result {
        if self.counts.is_empty() {
            return f.write_str("null");
        }
        f.write_str("{\"samples\":[")?;
        fmt_counts(self.counts, f)?;
        let is_whole = !self.is_part;
        write!(f, "],\"complete\":{is_whole}}}")
    }

    /// Writes the number of equal samples before a time.
    fn fmt_same_before<W: fmt::Write>(
        &self,
        at: SampleTime,
        f: &mut fmt::Formatter<W>,
    ) -> fmt::Result {
        match self.from {
            Some(from) => {
                let samples = at.get().saturating_sub(from.get());
                write!(f, "{samples}")
            }
            None => f.write_str("null"),
        }
    }
}

/// Writes numbers, separated by commas.
fn fmt_counts<W: fmt::Write>(counts: &[u32], f: &mut fmt::Formatter<W>) -> fmt::Result {
    let mut comma = "";
    for count in counts {
        write!(f, "{comma}{count}")?;
        comma = ",";
    }
    Ok(())
}

fn sounding(events: &[Event], at: SampleTime, channel: u8) -> SoundingEntries<'_> {
    SoundingEntries {
        events,
        at,
        channel,
    }
}

/// Writes the object of a list: its entries that sound at the first difference, its notices, and
/// its sum there.
fn fmt_side<W: fmt::Write>(
    entries: &SoundingEntries<'_>,
    notices: &[Notice],
    sum: i64,
    f: &mut fmt::Formatter<W>,
) -> fmt::Result {
    f.write_str("{\"entries\":[")?;
    let mut comma = "";
    for event in entries.events {
        if entries.has(event) {
            let number = event.number;
            write!(f, "{comma}{number}")?;
            comma = ",";
        }
    }
    f.write_str("],")?;
    fmt_notices(notices, f)?;
    write!(f, ",\"sum\":{sum}}}")
}

/// Writes the member with the notices.
fn fmt_notices<W: fmt::Write>(notices: &[Notice], f: &mut fmt::Formatter<W>) -> fmt::Result {
    f.write_str("\"notices\":[")?;
    let mut comma = "";
    for notice in notices {
        let Notice { kind, at } = *notice;
        let of = if kind <= 2 { "line" } else { "index" };
        write!(f, "{comma}{{\"{of}\":{at},\"notice\":{kind}}}")?;
        comma = ",";
    }
    f.write_str("]")
}
