// Sizes of the outputs of a list.
use crate::kept::{Kept, KeptFrames};
use crate::reach::Reach;
use adlmodel::Project;
use checkreport::Room;
use commandline::Chosen;
use console::Console;
use job_terms::Order;
use projectcheck::Checked;
use sampletime::{Rate, SampleTime, parse_time};
use sound_terms::Depth;
use std::alloc::Global;
use wavread::Sound;
use wavwrite::{Bext, SoundInfo, data_length, fits, header};

/// Default handle of a consolidation, in samples.
pub const DEFAULT_HANDLE: u64 = 48_000;

/// Maximum number of bytes before the samples of a medium, without its CodingHistory but with the pad byte of that.
const HEAD: u64 = 691;

/// Number of bytes before the block marks in a marks file, and number of samples per channel in a block.
const FRONT: u64 = 44;

const BLOCK: u64 = 4096;

/// Returns upper bounds for the media of an accepted list with this handle and for a full rendering. Passes over the
/// entries once.
pub fn room_of(alloc: Global, checked: &Checked, handle: u64) -> Room {
    let whole = Chosen {
        from: None,
        to: None,
        channels: None,
        depth: Depth::TwentyFour,
        order: Order::ByTime,
        report: false,
    };
    let project = checked.project();
    let bound = checked.bound();
    let mut kept = KeptFrames::new(alloc, bound, handle);
    let mut reach = Reach::new();
    for event in project.events() {
        kept.take_in(event);
        reach.take_in(event);
    }
    Room {
        media: size_of_media(alloc, bound.sounds(), &mut kept),
        rendering: size_of_rendering(alloc, info_of(alloc, project.rate(), reach, whole)),
    }
}

/// Prints the sizes that are known.
pub fn report_room<E: Console>(room: Room, err: &mut E) {
    if let Some(media) = room.media {
        err.print_line(format_args!("consolidate would write at most {media} bytes of media"));
    }
    if let Some(rendering) = room.rendering {
        err.print_line(format_args!("render would write {rendering} bytes"));
    }
}

/// Returns the size in bytes of a rendering with its marks, or `None` if it is unknown.
pub fn rendering_size(alloc: Global, project: &Project, chosen: Chosen<'_>) -> Option<u64> {
    size_of_rendering(alloc, rendering_info(alloc, project, chosen))
}

/// Returns the size in bytes of a rendering with this header, including its marks.
fn size_of_rendering(alloc: Global, info: Option<SoundInfo>) -> Option<u64> {
    let info = info?;
    if info.frames() == 0 || !fits(&info) {
        return None;
    }
    let head = header(alloc, &info).ok()?;
    let samples = data_length(&info);
    let sound = (head.len() as u64)
        .saturating_add(samples)
        .saturating_add(samples % 2);
    let marks = FRONT.saturating_add(info.frames().saturating_add(BLOCK - 1) / BLOCK);
    Some(sound.saturating_add(marks))
}

/// Returns the maximum size in bytes of the media of a list with this handle, or `None` if it is unknown.
pub fn media_size(alloc: Global, checked: &Checked, handle: u64) -> Option<u64> {
    let bound = checked.bound();
    let mut kept = KeptFrames::new(alloc, bound, handle);
    for event in checked.project().events() {
        kept.take_in(event);
    }
    size_of_media(alloc, bound.sounds(), &mut kept)
}

/// Returns the maximum size in bytes of the media for these samples.
///
/// Counts all samples, as if none were silent, and one header for each entry, since an entry that is silent between its
/// fades may need two media.
fn size_of_media(alloc: Global, sounds: &[Sound], kept: &mut KeptFrames<'_>) -> Option<u64> {
    let mut size: u64 = 0;
    for kept in kept.joined(alloc)?.as_slice() {
        let sound = sounds.get(kept.file as usize)?;
        let heads = head_size(sound).saturating_mul(kept.entries);
        size = size
            .saturating_add(heads)
            .saturating_add(medium_size(sound, kept.frames()));
    }
    Some(size)
}

/// Returns the maximum size in bytes of a medium with `frames` samples per channel of this file.
fn medium_size(sound: &Sound, frames: u64) -> u64 {
    let bits = u64::from(sound.channels()).saturating_mul(u64::from(sound.depth().bits()));
    let samples = frames.saturating_mul(bits / 8);
    head_size(sound)
        .saturating_add(samples)
        .saturating_add(samples % 2)
}

/// Returns the maximum number of bytes before the samples of a medium.
fn head_size(sound: &Sound) -> u64 {
    HEAD.saturating_add(sound.history().len() as u64)
}

/// Returns the header data of a rendering, or `None` if a time can't be parsed.
pub fn rendering_info(alloc: Global, project: &Project, chosen: Chosen<'_>) -> Option<SoundInfo> {
    info_of(alloc, project.rate(), Reach::of(project.events()), chosen)
}

/// Returns the header data of a rendering of entries with this extent.
fn info_of(alloc: Global, rate: Rate, reach: Reach, chosen: Chosen<'_>) -> Option<SoundInfo> {
    let from = time_or(chosen.from, rate, reach.first_in())?;
    let to = time_or(chosen.to, rate, reach.last_out)?;
    let frames = to.get().checked_sub(from.get())?;
    let channels = match chosen.channels {
        Some(channels) => channels,
        None => reach.last_channel,
    };
    let bext = Bext {
        text: [0; 338],
        time_reference: from.get(),
    };
    SoundInfo::new(channels, chosen.depth, frames, bext, Vec::new(alloc))
}

/// Parses a time, or returns `otherwise` if there is no text.
fn time_or(text: Option<&str>, rate: Rate, otherwise: SampleTime) -> Option<SampleTime> {
    match text {
        None => Some(otherwise),
        Some(text) => Some(parse_time(text.as_bytes(), rate)?.0),
    }
}
