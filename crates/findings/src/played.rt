// The span or channel that an invalid entry plays, compared with its file.
use crate::names::PrintedName;
use projectcheck::EntryFault;
use sound_terms::Event;
use sourceindex::Bound;
use std::alloc::Global;
use std::fmt;
use std::fmt::Display;

/// The file of an index.
///
/// `base` is the time of its first sample; `addressable` is the number of samples whose time is before the end of the
/// day. Lengths are in samples per channel.
#[derive(Drop)]
pub struct PlayedFile {
    pub name: String,
    pub frames: u64,
    pub channels: u8,
    base: u64,
    addressable: u64,
}

/// An invalid entry, and the file of its index, if the index exists.
#[derive(Drop)]
pub struct Played {
    event: Event,
    fault: EntryFault,
    pub file: Option<PlayedFile>,
}

/// The way in which an entry leaves its file: the number of samples before the first one, the number after the last
/// one, or past the end of the day.
#[derive(Clone, Copy, PartialEq, Eq)]
pub enum Outside {
    Before(u64),
    After(u64),
    BehindDay,
}

impl PlayedFile {
    /// Returns the file of the index of an entry.
    fn of(alloc: Global, bound: &Bound, event: &Event) -> Option<PlayedFile> {
        let index = bound.index(event.index)?;
        let sound = bound.sounds().get(index.file as usize)?;
        Some(PlayedFile {
            name: String::from_str(alloc, sound.name()).ok()?,
            frames: sound.frames(),
            channels: sound.channels(),
            base: index.base,
            addressable: index.addressable,
        })
    }

    /// Returns how a span of `length` samples that starts at time `from` leaves the file.
    fn outside(&self, from: u64, length: u64) -> Outside {
        let Some(first) = from.checked_sub(self.base) else {
            return Outside::Before(self.base.saturating_sub(from));
        };
        match first.saturating_add(length).checked_sub(self.frames) {
            None | Some(0) => Outside::BehindDay,
            Some(after) => Outside::After(after),
        }
    }
}

impl Played {
    /// Creates the details of an entry of a bound project with this fault.
    pub fn of(alloc: Global, bound: &Bound, event: &Event, fault: EntryFault) -> Played {
        Played {
            event: *event,
            fault,
            file: PlayedFile::of(alloc, bound, event),
        }
    }

    /// Returns the index that the entry plays.
    pub fn index(&self) -> u32 {
        self.event.index
    }

    /// Returns how the entry leaves its file, if that is its fault.
    pub fn outside(&self) -> Option<Outside> {
        let file = self.file.as_ref()?;
        if self.fault == EntryFault::SpanOutside {
            Some(file.outside(self.event.source_in.get(), self.length()))
        } else {
            None
        }
    }

    /// Returns the length of the entry in samples.
    fn length(&self) -> u64 {
        let event = &self.event;
        event.dest_out.get().saturating_sub(event.dest_in.get())
    }

    /// Writes the span that the entry plays and its file lacks.
    fn fmt_span<W: fmt::Write>(&self, file: &PlayedFile, f: &mut fmt::Formatter<W>) -> fmt::Result {
        let entry = self.event.number;
        let name = PrintedName(file.name.as_str());
        let frames = file.frames;
        match file.outside(self.event.source_in.get(), self.length()) {
            Outside::Before(before) => write!(
                f,
                "entry {entry} begins {before} frames before the first one of {name}, which has {frames}"
            ),
            Outside::After(after) => {
                let end = frames.saturating_add(after);
                write!(
                    f,
                    "entry {entry} plays {name} up to frame {end}; the file has {frames} ({after} too many)"
                )
            }
            Outside::BehindDay => {
                let timed = file.addressable;
                write!(
                    f,
                    "entry {entry} plays {name} past the end of the day, up to which it has {timed} frames of {frames}"
                )
            }
        }
    }

    /// Writes the span or channel that the file lacks.
    fn fmt_file<W: fmt::Write>(&self, file: &PlayedFile, f: &mut fmt::Formatter<W>) -> fmt::Result {
        if self.fault == EntryFault::SpanOutside {
            return self.fmt_span(file, f);
        }
        let entry = self.event.number;
        let channel = self.event.source.last;
        let name = PrintedName(file.name.as_str());
        let channels = file.channels;
        write!(
            f,
            "entry {entry} plays channel {channel} of {name}, which has {channels}"
        )
    }
}

/// Displays the fault of the entry with its numbers.
impl fmt::Display for Played {
    fn fmt<W: fmt::Write>(&self, f: &mut fmt::Formatter<W>) -> fmt::Result {
        let event = &self.event;
        let entry = event.number;
        match (self.fault, &self.file) {
            (EntryFault::SourceChannel | EntryFault::SpanOutside, Some(file)) => {
                self.fmt_file(file, f)
            }
            (EntryFault::EndBeforeStart, _) => {
                let before = event.dest_in.get().saturating_sub(event.dest_out.get());
                write!(f, "entry {entry} ends {before} samples before it starts")
            }
            (EntryFault::FadesTooLong, _) => {
                let fades = event
                    .rise
                    .length
                    .get()
                    .saturating_add(event.fall.length.get());
                let length = self.length();
                write!(
                    f,
                    "the fades of entry {entry} have {fades} samples, and the entry has {length}"
                )
            }
            _ => {
                let index = event.index;
                write!(
                    f,
                    "entry {entry} plays index {index}, which SOURCE_INDEX doesn't have"
                )
            }
        }
    }
}
