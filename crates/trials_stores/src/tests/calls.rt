// Calls of stores as data, and functions that make them on any store.
ghost use Rattle.std.specs.Prelude.{IsTrue, IfOk};
ghost use Rattle.work_terms.specs.Disk.{IsRange};

use shelf::{Bench, DeviceFault, Shelf, ShelfFault};
use std::process::Abort;

/// A call that changes or syncs an output.
#[derive(Clone, Copy)]
pub(crate) enum Call {
    Create(&'static str),
    Append(&'static str, &'static [u8]),
    Zeros(&'static str, u64),
    Write(&'static str, u64, &'static [u8]),
    Sync(&'static str),
}

fn make(bench: &mut impl Bench, call: Call) -> Result<(), DeviceFault> {
    match call {
        Call::Create(name) => bench.create(name),
        Call::Append(name, bytes) => bench.append(name, bytes),
        Call::Zeros(name, count) => bench.append_zeros(name, count),
        Call::Write(name, at, bytes) => bench.write_at(name, at, bytes),
        Call::Sync(name) => bench.sync(name),
    }
}

/// Makes calls in order and returns the number of successes.
pub(crate) fn made(bench: &mut impl Bench, calls: &[Call]) -> usize {
    let mut count = 0usize;
    for call in calls {
        if make(bench, *call).is_ok() {
            count = count.saturating_add(1);
        }
    }
    count
}

/// Returns four bytes from an offset on.
pub(crate) fn four_bytes<S: Shelf>(
    shelf: &mut S,
    name: &str,
    at: u64,
) -> Result<[u8; 4], ShelfFault>
    ensures { IsTrue (S.honest shelf.old) → IfOk result (IsRange (S.stored shelf.old name.now) at) }
{
    let mut bytes = [0; 4];
    shelf.read_at(name, at, &mut bytes)?;
    Ok(bytes)
}

/// The name of a source, an offset, and the expected four bytes.
pub(crate) type Row = (&'static str, u64, Result<[u8; 4], ShelfFault>);

/// Checks bytes of sources.
pub(crate) fn reads(rt: &impl Abort, shelf: &mut impl Shelf, rows: &[Row]) {
    for (name, at, want) in rows {
        assert_eq!(rt; four_bytes(shelf, name, *at), *want, "{name} at {at}");
    }
}
