// Entries as groups of pieces, and cut groups.
ghost use Rattle.std.specs.Prelude.{◌≡◌, ◌≤◌, ◌+◌, IfOk};
ghost use Rattle.sampletime.specs.TimeCode.{day};
ghost use Rattle.sound_terms.specs.Entries.{IsPlayable};

use groups::{Intervals, Piece, Shape, group_of, group_pieces};
use sampletime::SampleTime;
use sound_terms::{BoundIndex, Channels, Depth, Event, Fade};
use soundlaw::{contribution, finish, widen};
use std::test::Fail;

/// A file whose first sample is at midnight.
pub(crate) const MIDNIGHT: BoundIndex = BoundIndex {
    number: 1,
    file: 0,
    base: 0,
    addressable: 100,
};

fn time(samples: u64) -> Result<SampleTime, Fail>
    ensures { IfOk result (λ time. time ≡ samples) }
{
    match SampleTime::new(samples) {
        Some(time) => Ok(time),
        None => Err("no time".into()),
    }
}

/// Returns an entry of `length` samples from midnight on, on channels 1 to `last`, with fades of
/// the given lengths.
fn entry_of(last: u8, length: u64, rise: u64, fall: u64) -> Result<Event, Fail>
    requires channels { 1 ≤ last }
    requires channels_to_64 { last ≤ 64 }
    requires in_day { length ≤ day }
    requires fades { rise + fall ≤ length }
    ensures { IfOk result (λ event. IsPlayable MIDNIGHT event) }
{
    let channels = Channels { first: 1, last };
    Ok(Event {
        number: 1,
        index: 1,
        source: channels,
        dest: channels,
        source_in: SampleTime::ZERO,
        dest_in: SampleTime::ZERO,
        dest_out: time(length)?,
        rise: Fade {
            length: time(rise)?,
        },
        fall: Fade {
            length: time(fall)?,
        },
    })
}

/// Returns an entry of 12 stereo sample frames from midnight on, with a fade-in and a fade-out of
/// four each.
pub(crate) fn entry() -> Result<Event, Fail>
    ensures { IfOk result (λ event. IsPlayable MIDNIGHT event) }
{
    entry_of(2, 12, 4, 4)
}

/// Returns the groups of one entry.
pub(crate) fn intervals(rt: &HostRuntime, event: &Event) -> Result<Intervals, Fail>
    requires { IsPlayable MIDNIGHT event.now }
{
    let alloc = rt.alloc();
    let mut groups = Vec::new(alloc);
    if let Some(group) = group_of(alloc, &MIDNIGHT, event) {
        groups.push(group)?;
    }
    Ok(Intervals::ordered(groups)?)
}

/// The first two samples of a fade-in of four.
pub(crate) const RAMP: Piece = Piece {
    start: 0,
    length: 2,
    frame: 0,
    file: 0,
    first: 1,
    dest: 1,
    width: 1,
    shape: Shape::Rise { offset: 0, den: 4 },
};

/// The other two samples, which continue the fade.
const REST: Piece = Piece {
    start: 2,
    frame: 2,
    shape: Shape::Rise { offset: 2, den: 4 },
    ..RAMP
};

/// Returns the fade-in, cut at its third sample.
fn cut_in_fade(rt: &HostRuntime) -> Result<Intervals, Fail> {
    let given = intervals(rt, &entry_of(1, 4, 4, 0)?)?;
    if !given.whole() {
        return Err("a cut entry".into());
    }
    Ok(given.cut_at(time(2)?)?)
}

/// Returns the 16-bit output for `num` quarters of a sample of 1,000.
fn quarters(num: u64) -> i32
    requires { num ≤ 4 }
{
    finish(
        contribution(widen(1000, Depth::Sixteen), num, 4),
        Depth::Sixteen,
    )
}

/// Returns the 16-bit output for two such samples at the start of a piece of a fade-in of four.
fn finished(piece: &Piece) -> Option<[i32; 2]> {
    match piece.shape {
        Shape::Rise { offset, den: 4 } if offset <= 2 => Some([
            quarters(offset),
            quarters(offset + 1),
        ]),
        _ => None,
    }
}

#[test]
fn an_in_fade_that_is_cut_goes_on_where_it_was(rt: HostRuntime) -> Result<(), Fail> {
    let cut = cut_in_fade(&rt)?;
    assert!(rt; !cut.whole());
    assert_eq!(rt; cut.groups().len(), 2);
    for (group, (piece, samples)) in cut
        .groups()
        .iter()
        .zip([(RAMP, [0, 250]), (REST, [500, 750])])
    {
        let pieces = group_pieces(group);
        assert_eq!(rt; pieces.as_slice(), [piece].as_slice());
        assert_eq!(rt; pieces.as_slice().first().and_then(finished), Some(samples));
    }
    Ok(())
}
