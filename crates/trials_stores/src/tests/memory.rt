// The stores in memory and of zeros, and a function over any output.
ghost use Rattle.std.specs.Prelude.{IsTrue, OnOk};
ghost use Rattle.work_terms.specs.Disk.{Changes, IsDurable};
ghost use Rattle.shelf.specs.Files.{IsPut};

use crate::tests::calls::{Call, Row, made, reads};
use shelf::{Bench, DeviceFault, MemoryBench, MemoryShelf, Shelf, ShelfFault, ZeroShelf};
use std::test::Fail;

/// Creates a file with the given content and syncs it.
fn put_file<B: Bench>(bench: &mut B, name: &str, bytes: &[u8]) -> Result<(), DeviceFault>
    ensures put { IsTrue (B.honest bench.old)
        → OnOk result (Changes (IsPut bytes.now) name.now (B.stored bench.old) (B.stored bench.new)) }
    ensures durable { IsTrue (B.honest bench.old)
        → OnOk result (IsDurable name.now (B.stored bench.new) (B.may_leave bench.new)) }
{
    bench.create(name)?;
    bench.append(name, bytes)?;
    bench.sync(name)
}

/// Expected reads from a file with the bytes 10 to 15.
const READ: [Row; 6] = [
    ("A.wav", 2, Ok([12, 13, 14, 15])),
    ("A.wav", 0, Ok([10, 11, 12, 13])),
    ("B.wav", 0, Err(ShelfFault::Device)),
    ("A.wav", 3, Err(ShelfFault::Device)),
    ("A.wav", 7, Err(ShelfFault::Device)),
    ("A.wav", u64::MAX, Err(ShelfFault::Device)),
];

#[test]
fn a_file_in_memory_is_read(rt: HostRuntime) -> Result<(), Fail> {
    let mut shelf = MemoryShelf::new(rt.alloc()).with_file("A.wav", &[10, 11, 12, 13, 14, 15])?;
    reads(&rt, &mut shelf, &READ);
    let lengths = [shelf.length("A.wav"), shelf.length("B.wav")];
    assert_eq!(rt; lengths, [Ok(6), Err(ShelfFault::NotFound)]);
    assert_eq!(rt; shelf.failures(), 4);
    Ok(())
}

#[test]
fn a_later_file_replaces_an_earlier_one_and_chosen_calls_fail(rt: HostRuntime) -> Result<(), Fail> {
    let mut shelf = MemoryShelf::new(rt.alloc())
        .with_file("A.wav", &[10])?
        .with_file("A.wav", &[2, 3])?
        .failing(1, 2);
    for want in [
        Ok(2),
        Err(ShelfFault::Device),
        Err(ShelfFault::Device),
        Ok(2),
    ] {
        assert_eq!(rt; shelf.length("A.wav"), want);
    }
    assert_eq!(rt; shelf.failures(), 2);
    Ok(())
}

/// The length of a file too long for memory.
const LONG: u64 = 10_000_000_000_000;

/// Expected reads from a file of this length that begins with the bytes 10 to 15.
const ZEROS: [Row; 8] = [
    ("A.wav", 0, Ok([10, 11, 12, 13])),
    ("A.wav", 2, Ok([12, 13, 14, 15])),
    ("A.wav", 4, Ok([14, 15, 0, 0])),
    ("A.wav", 6, Ok([0; 4])),
    ("A.wav", LONG - 4, Ok([0; 4])),
    ("B.wav", 0, Err(ShelfFault::Device)),
    ("A.wav", LONG - 3, Err(ShelfFault::Device)),
    ("A.wav", u64::MAX, Err(ShelfFault::Device)),
];

#[test]
fn zeros_follow_the_first_bytes(rt: HostRuntime) -> Result<(), Fail> {
    let head = [10, 11, 12, 13, 14, 15].to_vec(rt.alloc())?;
    let mut shelf = ZeroShelf::new(String::from_str(rt.alloc(), "A.wav")?, head, LONG);
    reads(&rt, &mut shelf, &ZEROS);
    let lengths = [shelf.length("A.wav"), shelf.length("B.wav")];
    assert_eq!(rt; lengths, [Ok(LONG), Err(ShelfFault::NotFound)]);
    assert_eq!(rt; shelf.failures(), 3);
    Ok(())
}

#[test]
fn a_head_longer_than_its_file_is_the_file(rt: HostRuntime) -> Result<(), Fail> {
    let head = [1, 2, 3, 4, 5].to_vec(rt.alloc())?;
    let mut shelf = ZeroShelf::new(String::from_str(rt.alloc(), "A.wav")?, head, 3);
    reads(&rt, &mut shelf, &[("A.wav", 1, Ok([2, 3, 4, 5]))]);
    assert_eq!(rt; shelf.length("A.wav"), Ok(5));
    Ok(())
}

/// Calls that extend and overwrite a file.
const WRITTEN: [Call; 3] = [
    Call::Append("A.wav", &[4, 5]),
    Call::Zeros("A.wav", 2),
    Call::Write("A.wav", 1, &[20, 30]),
];

/// Calls on a missing file, or outside of an existing one.
const OUTSIDE: [Call; 5] = [
    Call::Append("B.wav", &[1]),
    Call::Zeros("B.wav", 1),
    Call::Write("B.wav", 0, &[]),
    Call::Write("A.wav", 6, &[7, 8]),
    Call::Sync("B.wav"),
];

#[test]
fn a_chosen_call_of_a_bench_fails(rt: HostRuntime) -> Result<(), Fail> {
    let mut bench = MemoryBench::new(rt.alloc()).failing(1, 1);
    assert!(rt; put_file(&mut bench, "A.wav", &[1]) == Err(DeviceFault));
    assert_eq!(rt; DeviceFault.number(), 22);
    assert!(rt; bench.bytes("A.wav") == Some([].as_slice()));
    assert!(rt; put_file(&mut bench, "A.wav", &[1]).is_ok() & (bench.failures() == 1));
    Ok(())
}

#[test]
fn a_bench_keeps_what_is_written_inside_its_files(rt: HostRuntime) -> Result<(), Fail> {
    let mut bench = MemoryBench::new(rt.alloc());
    put_file(&mut bench, "A.wav", &[1, 2, 3])?;
    let counts = (
        made(&mut bench, &WRITTEN),
        made(&mut bench, &OUTSIDE),
        bench.failures(),
    );
    assert_eq!(rt; counts, (3, 0, 5));
    assert!(rt; bench.bytes("A.wav") == Some([1, 20, 30, 4, 5, 0, 0].as_slice()));
    assert!(rt; bench.bytes("B.wav").is_none());
    Ok(())
}

#[test]
fn a_bench_is_read(rt: HostRuntime) -> Result<(), Fail> {
    let mut bench = MemoryBench::new(rt.alloc());
    put_file(&mut bench, "A.wav", &[1, 2, 3])?;
    let mut two = [0; 2];
    let read = bench.read_at("A.wav", 1, &mut two);
    assert_eq!(rt; (read, two), (Ok(()), [2, 3]));
    assert_eq!(rt;
        bench.read_at("A.wav", 2, &mut two),
        Err(ShelfFault::Device)
    );
    let lengths = [bench.length("A.wav"), bench.length("B.wav")];
    assert_eq!(rt; lengths, [Ok(3), Err(ShelfFault::NotFound)]);
    Ok(())
}
