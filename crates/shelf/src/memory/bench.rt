// Outputs in memory.
ghost use Rattle.std.specs.Prelude.{◌≡◌, ◌≢◌, ◌+◌, ◌≤◌, ◌↔◌, ℕ, true, None, List, [], IfOk, IsErr, IsTrue, IsSomeAnd, OnOk, option_copied, option_map, length, replicate, ⊤};
ghost use Rattle.work_terms.specs.Disk.{Changes, Files, IsEmptyOrAbsent};
ghost use Rattle.shelf.specs.Crashes.{IsChange, counts_now, gone_held, only_now, reads_held};
ghost use Rattle.shelf.specs.History.{LeftSince, MayLeave, Note, crashed, noted, read_of, step};
ghost use Rattle.shelf.specs.Memory.{CountsFault, bench_failures, bench_files, bench_history, bench_part, bench_stretch, fails_now};
ghost use Rattle.shelf.specs.declared.memory.call.Kind.TheVariants.{Sync};

use super::call::{Call, Kind};
use super::device::Device;
use super::record::Record;
use devices::{Bench, DeviceFault, ShelfFault};
use std::alloc::{AllocError, Global};

/// Outputs in memory with a record of the calls that changed them, which determines the files that a crash may leave at
/// each moment. Reads need no memory.
pub struct MemoryBench {
    record: Record,
    device: Device,
    /// Number of bytes that the next failing call writes.
    part: u64,
}

// Written out so that dropping a bench is a single call.
impl Drop for MemoryBench {
    fn drop(self) {
        let MemoryBench {
            record,
            device: _,
            part: _,
        } = self;
        drop(record);
    }
}

impl MemoryBench {
    /// Creates an output folder without files, whose calls don't fail.
    pub fn new(alloc: Global) -> Self
        ensures empty { (name : List ℕ) → bench_files result name ≡ None }
        ensures failures { bench_failures result ≡ 0 }
        ensures stretch { bench_stretch result ≡ (0, 0) }
        ensures part { bench_part result ≡ 0 }
    {
        MemoryBench {
            record: Record::new(alloc),
            device: Device::new(),
            part: 0,
        }
    }

    /// Lets the next `from` calls succeed and the `count` calls after them fail. The failing calls write nothing.
    pub fn failing(mut self, from: u64, count: u64) -> Self
        ensures history { bench_history result ≡ bench_history self }
        ensures failures { bench_failures result ≡ bench_failures self }
        ensures stretch { bench_stretch result ≡ (from, count) }
        ensures part { bench_part result ≡ 0 }
    {
        self.device.fail_later(from, count);
        self.part = 0;
        self
    }

    /// Lets the next `from` calls succeed and all calls after them fail, as if the program were killed.
    ///
    /// The first failing call still writes its first `part` bytes, or all if it has fewer. If it is a create, it
    /// creates its file unless `part` is 0.
    pub fn stop_at(mut self, from: u64, part: u64) -> Self
        ensures history { bench_history result ≡ bench_history self }
        ensures failures { bench_failures result ≡ bench_failures self }
        ensures stretch { bench_stretch result ≡ (from, 18446744073709551615) }
        ensures part { bench_part result ≡ part }
    {
        self.device.fail_later(from, u64::MAX);
        self.part = part;
        self
    }

    /// Simulates a crash. Returns the files it leaves as a new bench without pending calls or failures.
    ///
    /// Each call since the last sync of its file leaves its first `kept` bytes as written and `fill` in place of the
    /// others. A create since the last sync has no effect if `kept` is 0. Returns `AllocError` if out of memory.
    pub fn after_crash(self, kept: u64, fill: u8) -> Result<Self, AllocError>
        ensures left { IfOk result (λ bench. (name : List ℕ) → bench_files bench name
            ≡ crashed kept fill (bench_history self).start (bench_history self).notes name) }
        ensures outcome { IfOk result (λ bench. MayLeave (bench_history self) (bench_files bench)) }
        ensures settled { IfOk result (λ bench. (c : Files) → MayLeave (bench_history bench) c
            → (name : List ℕ) → c name ≡ bench_files bench name) }
        ensures failures { IfOk result (λ bench. bench_failures bench ≡ 0) }
        ensures stretch { IfOk result (λ bench. bench_stretch bench ≡ (0, 0)) }
    {
        let MemoryBench {
            record,
            device: _,
            part: _,
        } = self;
        Ok(MemoryBench {
            record: record.after_crash(kept, fill)?,
            device: Device::new(),
            part: 0,
        })
    }

    /// Returns the contents of the file, or `None` if it doesn't exist. Doesn't count as a call of the device.
    pub fn bytes(&self, name: &str) -> Option<&[u8]>
        ensures { option_copied result ≡ bench_files self.now name.now }
    {
        self.record.files.get(name)
    }

    /// Returns the number of calls that changed or synced a file, at least in part.
    ///
    /// After one more such call other than a sync, a crash may leave any result that the step of the call allows; if
    /// reads find no file, it leaves none or an empty one.
    pub fn calls(&self) -> usize
        ensures count { result ≡ length (bench_history self.now).notes }
        ensures all { (note : Note) → note.kind ≢ Sync → (d c : Files) → MayLeave (bench_history self.now) d
            → Changes (step note) note.name d c
            → (read_of (noted note (bench_history self.now)) note.name ≡ None → IsEmptyOrAbsent (c note.name))
            → MayLeave (noted note (bench_history self.now)) c }
    {
        self.record.calls.len()
    }

    /// Returns the number of failed calls.
    pub fn failures(&self) -> u64
        ensures { result ≡ bench_failures self.now }
    {
        self.device.failures
    }

    /// Returns the length of the file in bytes, or `None` if it doesn't exist.
    fn length_of(&self, name: &str) -> Option<u64>
        ensures { result ≡ option_map (λ bytes. length bytes) (bench_files self.now name.now) }
    {
        self.record.files.length(name)
    }

    /// Returns whether the file exists and contains the `count` bytes from offset `at` on.
    fn has_range(&self, name: &str, at: u64, count: usize) -> bool
        ensures { IsTrue result → IsSomeAnd (bench_files self.now name.now) (λ file. at + count ≤ length file) }
    {
        self.record.files.has_range(name, at, count)
    }

    /// Begins a call that writes nothing.
    fn begin(&mut self) -> Result<(), DeviceFault>
        ensures fails { IsErr result ↔ IsTrue (fails_now (bench_stretch self.old)) }
        ensures history { bench_history self.new ≡ bench_history self.old }
        ensures cause { CountsFault self.old self.new result }
    {
        match self.device.begin() {
            Ok(()) => return Ok(()),
            Err(fault) => {
                self.part = 0;
                return Err(fault);
            }
        }
    }

    /// Makes a call fail that can't be performed.
    fn refused(&mut self) -> Result<(), DeviceFault>
        ensures history { bench_history self.new ≡ bench_history self.old }
        ensures fails { IsErr result }
        ensures cause { CountsFault self.old self.new result }
    {
        match self.begin() {
            Ok(()) => return self.device.counted(Err(DeviceFault)),
            Err(fault) => return Err(fault),
        }
    }

    /// Performs the first `part` bytes of a call and records it.
    fn note(
        &mut self,
        name: &str,
        kind: Kind,
        at: u64,
        bytes: &[u8],
        part: u64,
    ) -> Result<(), DeviceFault>
        ensures done { OnOk result (bench_history self.new ≡ noted (record {
          name = name.now;
          kind = kind;
          at = at;
          bytes = bytes.now;
          part = part;
        }) (bench_history self.old)) }
        ensures change { IsChange (record {
          name = name.now;
          kind = kind;
          at = at;
          bytes = bytes.now;
          part = part;
        }) (bench_history self.old) (bench_history self.new) }
        ensures failures { bench_failures self.new ≡ bench_failures self.old }
    {
        let call = match Call::new(self.record.alloc, name, kind, at, bytes, part) {
            Ok(call) => call,
            Err(_) => return Err(DeviceFault),
        };
        match self.record.note(call) {
            Ok(()) => return Ok(()),
            Err(_) => return Err(DeviceFault),
        }
    }

    /// Performs a call completely (`whole` bytes), or only its first `self.part` bytes if the device fails.
    fn change(
        &mut self,
        name: &str,
        kind: Kind,
        at: u64,
        bytes: &[u8],
        whole: u64,
    ) -> Result<(), DeviceFault>
        ensures done { OnOk result (bench_history self.new ≡ noted (record {
          name = name.now;
          kind = kind;
          at = at;
          bytes = bytes.now;
          part = whole;
        }) (bench_history self.old)) }
        ensures change { (part : ℕ) × IsChange (record {
          name = name.now;
          kind = kind;
          at = at;
          bytes = bytes.now;
          part = part;
        }) (bench_history self.old) (bench_history self.new) }
        ensures torn { IsTrue (fails_now (bench_stretch self.old)) → IsChange (record {
          name = name.now;
          kind = kind;
          at = at;
          bytes = bytes.now;
          part = bench_part self.old;
        }) (bench_history self.old) (bench_history self.new) }
        ensures cause { CountsFault self.old self.new result }
    {
        let part = self.part;
        match self.begin() {
            Ok(()) => {
                let noted = self.note(name, kind, at, bytes, whole);
                return self.device.counted(noted);
            }
            Err(fault) => {
                let _ = self.note(name, kind, at, bytes, part);
                return Err(fault);
            }
        }
    }
}

fn zeros_of(alloc: Global, count: u64) -> Result<Vec<u8>, AllocError>
    ensures { IfOk result (λ zeros. zeros.items ≡ replicate count 0) }
{
    vec![in alloc; 0; count as usize]
}

impl Bench for MemoryBench {
    ghost stored = { bench_files };

    ghost honest = { λ _. true };

    ghost failures = { bench_failures };

    /// No file name is recorded.
    ghost failed_at = { λ _ _. ⊤ };

    ghost may_leave = { λ bench. MayLeave (bench_history bench) };

    /// Each recorded call is one moment.
    ghost moment = { λ bench. length (bench_history bench).notes };

    ghost left_since = { λ bench. LeftSince (bench_history bench).start (bench_history bench).notes };

    ghost counts_now = { λ bench t c _ left. counts_now (bench_history bench) t c left };

    ghost reads_now = { λ bench _ name. reads_held (bench_history bench).start (bench_history bench).notes name };

    ghost only_now = { λ bench c since. only_now (bench_history bench).start (bench_history bench).notes c since };

    ghost absent = { λ bench name c _ none left.
        gone_held (bench_history bench).start (bench_history bench).notes name (c name) none (left name) };

    fn create(&mut self, name: &str) -> Result<(), DeviceFault> {
        match self.change(name, Kind::Create, 0, &[], 1) {
            Ok(()) => return Ok(()),
            Err(fault) => return Err(fault),
        }
    }

    fn append(&mut self, name: &str, bytes: &[u8]) -> Result<(), DeviceFault> {
        let Some(at) = self.length_of(name) else {
            return self.refused();
        };
        match self.change(name, Kind::Append, at, bytes, bytes.len() as u64) {
            Ok(()) => return Ok(()),
            Err(fault) => return Err(fault),
        }
    }

    /// Appends all zeros as a single call; if it is interrupted, only the first zeros are written.
    fn append_zeros(&mut self, name: &str, count: u64) -> Result<(), DeviceFault> {
        let Ok(zeros) = zeros_of(self.record.alloc, count) else {
            return self.refused();
        };
        match self.append(name, &zeros) {
            Ok(()) => return Ok(()),
            Err(fault) => return Err(fault),
        }
    }

    fn write_at(&mut self, name: &str, at: u64, bytes: &[u8]) -> Result<(), DeviceFault> {
        if !self.has_range(name, at, bytes.len()) {
            return self.refused();
        }
        match self.change(name, Kind::Write, at, bytes, bytes.len() as u64) {
            Ok(()) => return Ok(()),
            Err(fault) => return Err(fault),
        }
    }

    fn length(&mut self, name: &str) -> Result<u64, ShelfFault> {
        self.begin()?;
        self.record.files.length(name).ok_or(ShelfFault::NotFound)
    }

    fn read_at(&mut self, name: &str, at: u64, buffer: &mut [u8]) -> Result<(), ShelfFault> {
        self.begin()?;
        let outcome = self.record.files.read_at(name, at, buffer);
        Ok(self.device.counted(outcome)?)
    }

    fn sync(&mut self, name: &str) -> Result<(), DeviceFault> {
        if self.length_of(name).is_none() {
            return self.refused();
        }
        match self.begin() {
            Ok(()) => {}
            Err(fault) => return Err(fault),
        }
        match self.note(name, Kind::Sync, 0, &[], 0) {
            Ok(()) => return Ok(()),
            Err(fault) => return self.device.counted(Err(fault)),
        }
    }
}
