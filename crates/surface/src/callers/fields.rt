// The fields of argument and result types, each read once.
use adlmodel::{Event, Header, KeptLines, Project, Source};
use consolidate::{Accepted, Progress, Rendered, Resumed, Written};
use interval::{Piece, Placed, Shape};
use list_terms::Notice;
use markfile::RunId;
use mediacopy::CopyJob;
use mediaset::Run;
use rf64::Ds64;
use riff::{Chunks, Format};
use sampletime::{Rate, SampleTime, Separators};
use sourceindex::BoundIndex;
use wavread::{Depth, Sound};
use workboard::Ticket;

/// Returns the header of a project, and the frame rate and separators of its times.
pub fn of_project(project: &Project) -> (&Header, Rate, Separators) {
    (project.header(), project.rate(), project.separators())
}

/// Returns the number of lines kept of a section, if it exists.
fn kept_in(section: &Option<KeptLines>) -> Option<usize> {
    match section {
        Some(lines) => Some(lines.as_slice().len()),
        None => None,
    }
}

/// Returns the numbers of lines kept of VERSION, PROJECT, SYSTEM, SEQUENCE and TRACKLIST.
pub fn of_header(header: &Header) -> [Option<usize>; 5] {
    [
        kept_in(&header.version),
        kept_in(&header.project),
        kept_in(&header.system),
        kept_in(&header.sequence),
        kept_in(&header.track_list),
    ]
}

/// Returns number, URL, identifier, start and length of a source.
pub fn of_source(source: &Source) -> (u32, &[u8], &[u8], [Option<SampleTime>; 2]) {
    (
        source.number(),
        source.url(),
        source.uid(),
        [source.start(), source.length()],
    )
}

/// Returns number, index, channels, times and fades of an entry.
pub fn of_event(event: &Event) -> ([u32; 2], [u8; 4], [SampleTime; 5]) {
    (
        [event.number, event.index],
        [
            event.source.first,
            event.source.last,
            event.dest.first,
            event.dest.last,
        ],
        [
            event.source_in,
            event.dest_in,
            event.dest_out,
            event.rise.length,
            event.fall.length,
        ],
    )
}

/// Returns the kind of a notice, and the line or index that it is about.
pub fn of_notice(notice: &Notice) -> (u8, u64) {
    let Notice { kind, at } = *notice;
    (kind, at)
}

/// Returns the positions of the chunks `fmt `, `data` and `bext` (if present), whether there are
/// others, and the number of chunk headers.
pub fn of_chunks(chunks: &Chunks) -> ([u64; 4], Option<(u64, u64)>, bool, u64) {
    let bext = match chunks.bext {
        Some(bext) => Some((bext.at, bext.length)),
        None => None,
    };
    (
        [
            chunks.format.at,
            chunks.format.length,
            chunks.sound.at,
            chunks.sound.length,
        ],
        bext,
        chunks.others,
        chunks.seen,
    )
}

/// Returns the channels and the depth of a format.
pub fn of_format(format: Format) -> (u8, Depth) {
    let Format { channels, depth } = format;
    (channels, depth)
}

/// Returns the fields of `ds64`.
pub fn of_sizes(sizes: Ds64) -> ([u64; 3], u32) {
    let Ds64 {
        riff_size,
        data_size,
        samples,
        entries,
    } = sizes;
    ([riff_size, data_size, samples], entries)
}

/// Returns channels, depth, length, CodingHistory and notice flags of a sound file.
pub fn of_sound(sound: &Sound) -> (u8, Depth, u64, &[u8], [bool; 4]) {
    (
        sound.channels(),
        sound.depth(),
        sound.frames(),
        sound.history(),
        [
            sound.bext().is_some(),
            sound.short_bext(),
            sound.history_cut(),
            sound.others(),
        ],
    )
}

/// Returns the name of a sound file.
pub fn name_of(sound: &Sound) -> &str {
    sound.name()
}

/// Returns number, file, base and addressable length of a bound index.
pub fn of_bound_index(index: &BoundIndex) -> ([u32; 2], [u64; 2]) {
    let BoundIndex {
        number,
        file,
        base,
        addressable,
    } = *index;
    ([number, file], [base, addressable])
}

/// Returns times, file, channels and shape of a piece.
pub fn of_piece(piece: &Piece) -> ([u64; 3], u32, [u8; 3], Option<(u64, u64)>) {
    let Piece {
        start,
        length,
        frame,
        file,
        first,
        dest,
        width,
        shape,
    } = *piece;
    let ramp = match shape {
        Shape::Flat => None,
        Shape::Rise { offset, den } | Shape::Fall { offset, den } => Some((offset, den)),
    };
    ([start, length, frame], file, [first, dest, width], ramp)
}

/// Returns times, file, channels and fades of a group's event.
pub fn of_placed(placed: &Placed) -> ([u64; 5], u32, [u8; 3]) {
    let Placed {
        start,
        length,
        frame,
        file,
        first,
        dest,
        width,
        rise,
        fall,
    } = *placed;
    (
        [start, length, frame, rise, fall],
        file,
        [first, dest, width],
    )
}

/// Returns file, first sample and length of a run, and the job that copies all of it if it isn't
/// too long.
pub fn of_run(place: u32, run: &Run) -> (u32, u64, CopyJob) {
    let Run {
        file,
        first,
        length,
    } = *run;
    let job = CopyJob {
        run: place,
        from: 0,
        frames: length.min(65_536) as u32,
    };
    (file, first, job)
}

/// Returns digest, number of blocks and file length of a rendering.
pub fn of_run_id(run: &RunId) -> ([u8; 32], u32, u64) {
    let RunId {
        digest,
        blocks,
        length,
    } = *run;
    (digest, blocks, length)
}

/// Returns job and serial number of a ticket.
pub fn of_ticket(ticket: Ticket) -> [u32; 2] {
    let Ticket { job, serial } = ticket;
    [job, serial]
}

/// Returns the progress of a schedule.
pub fn of_progress(progress: Progress) -> ([u32; 3], u64, bool) {
    let Progress {
        idle,
        out,
        done,
        stale,
        finished,
    } = progress;
    ([idle, out, done], stale, finished)
}

/// Returns the numbers of entries and indexes of an accepted list, and its notices.
pub fn of_accepted(accepted: &Accepted) -> (u32, u32, &[Notice]) {
    (
        accepted.entries,
        accepted.indexes,
        accepted.notices.as_slice(),
    )
}

/// Returns the numbers of media and entries of a consolidation, and its notices.
pub fn of_written(written: &Written) -> (u32, u32, &[Notice]) {
    (written.media, written.entries, written.notices.as_slice())
}

/// Returns the numbers of sample frames and channels of a rendering, and its notices.
pub fn of_rendered(rendered: &Rendered) -> (u64, u32, &[Notice]) {
    (
        rendered.frames,
        rendered.channels,
        rendered.notices.as_slice(),
    )
}

/// Returns the numbers of sample frames and of previously marked blocks of a resumed rendering, and
/// its notices.
pub fn of_resumed(resumed: &Resumed) -> (u64, u32, &[Notice]) {
    (resumed.frames, resumed.marked, resumed.notices.as_slice())
}
