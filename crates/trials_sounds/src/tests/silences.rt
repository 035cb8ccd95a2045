// Silence in open files: each stretch of a file is read once, however many pieces play it.
ghost use Rattle.std.specs.Prelude.{◌≤◌};
ghost use Rattle.sound_terms.specs.Groups.{IsPiece};

use groups::{Group, Intervals, Piece, Shape};
use shelf::{MemoryShelf, Watch};
use silence::silent_of;
use std::alloc::Global;
use std::test::Fail;
use trials_projects::recorded::Recorded;
use wavread::open;

/// Returns a 16-bit mono file of 10,000 samples, all zero except for one.
fn file(alloc: Global, sounding: usize) -> Result<Recorded, Fail> {
    let mut file = b"RIFF\x44\x4e\0\0WAVE\
        fmt \x10\0\0\0\x01\0\x01\0\x80\xbb\0\0\0\x77\x01\0\x02\0\x10\0data\x20\x4e\0\0"
        .to_vec(alloc)?;
    let head = file.len() as u64;
    for frame in 0..10_000 {
        let sample: i16 = if frame == sounding { 100 } else { 0 };
        file.extend_from_slice(&sample.to_le_bytes())?;
    }
    let shelf = MemoryShelf::new(alloc).with_file("A.wav", &file)?;
    Ok(Recorded::new(shelf, head))
}

/// Returns a piece of `length` samples of the file from `frame` on, at time `start`.
fn piece(start: u64, frame: u64, length: u64) -> Piece
    requires start { start ≤ 10000 }
    requires frame { frame ≤ 10000 }
    requires some { 1 ≤ length }
    requires length { length ≤ 10000 }
    ensures { IsPiece result }
{
    Piece {
        start,
        length,
        frame,
        file: 0,
        first: 1,
        dest: 1,
        width: 1,
        shape: Shape::Flat,
    }
}

/// Returns ten pieces, with starts `apart` samples apart in the file.
fn ten(alloc: Global, apart: u64) -> Result<Intervals, Fail>
    requires { apart ≤ 500 }
{
    let mut groups = Vec::new(alloc);
    for number in 0..10 {
        groups.push(Group::alone(alloc, piece(number, number * apart, 5000)))?;
    }
    Ok(Intervals::ordered(groups)?)
}

/// The last progress of a search for silence, the number of reports, and whether the progress ever
/// decreased.
#[derive(Default, Drop)]
struct Told {
    done: u64,
    whole: u64,
    times: u64,
    fell: bool,
}

impl Watch for Told {
    fn reached(&mut self, _done: u64, _whole: u64) {}

    fn looked(&mut self, done: u64, whole: u64) {
        self.fell = self.fell || done < self.done;
        self.done = done;
        self.whole = whole;
        self.times = self.times.saturating_add(1);
    }
}

/// Returns the silence flags of ten pieces, `apart` samples apart, in a file with one audible
/// sample; and the bytes read.
fn asked(
    rt: &HostRuntime,
    sounding: usize,
    apart: u64,
    watch: &mut Told,
) -> Result<(Vec<bool>, u64), Fail>
    requires { apart ≤ 500 }
{
    let alloc = rt.alloc();
    let mut shelf = file(alloc, sounding)?;
    let sounds = [open(alloc, &mut shelf, "A.wav")?];
    let intervals = ten(alloc, apart)?;
    let silent = silent_of(alloc, &intervals, &sounds, &mut shelf, watch)?;
    Ok((silent, shelf.bytes()))
}

/// The audible sample, the distance of the pieces, whether they are silent, and the number of bytes
/// read.
const ASKED: [(usize, u64, bool, u64); 3] = [
    (9000, 0, true, 10_240),
    (9999, 500, true, 20_000),
    (4999, 500, false, 10_240),
];

#[test]
fn each_stretch_is_read_once(rt: HostRuntime) -> Result<(), Fail> {
    for (sounding, apart, is_silent, bytes) in ASKED {
        if apart > 500 {
            return Err("too far apart".into());
        }
        let (silent, read) = asked(&rt, sounding, apart, &mut Told::default())?;
        assert_eq!(rt; silent.as_slice(), [is_silent; 10].as_slice());
        assert_eq!(rt; read, bytes);
    }
    Ok(())
}

#[test]
fn a_watch_is_told_of_each_block_and_each_piece(rt: HostRuntime) -> Result<(), Fail> {
    let mut told = Told::default();
    asked(&rt, 9000, 0, &mut told)?;
    assert_eq!(rt;
        (told.done, told.whole, told.times, told.fell),
        (50_000, 50_000, 12, false)
    );
    Ok(())
}
