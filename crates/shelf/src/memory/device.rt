// The failure count of a device, and the calls that fail on purpose.
ghost use Rattle.std.specs.Prelude.{◌≡◌, ◌↔◌, IsTrue, IsOk, IsErr, OnOk, OnErr};
ghost use Rattle.shelf.specs.Memory.{stretch_of, fails_now, after_call};
ghost use Rattle.work_terms.specs.Disk.{HasCause, Rises};

use crate::failures::counted;
use devices::DeviceFault;

/// The failure count of a device, and its schedule of failures.
#[derive(Clone, Copy)]
pub struct Device {
    /// Number of failures; saturates.
    pub failures: u64,
    /// Number of calls that still succeed.
    well: u64,
    /// Number of calls after those that fail.
    failing: u64,
}

impl Device {
    /// Creates a device without failures.
    pub fn new() -> Self
        ensures failures { result.failures ≡ 0 }
        ensures stretch { stretch_of result ≡ (0, 0) }
    {
        Device {
            failures: 0,
            well: 0,
            failing: 0,
        }
    }

    /// Lets the next `from` calls succeed and the `count` calls after them fail.
    pub fn fail_later(&mut self, from: u64, count: u64)
        ensures { self.new ≡ record self.old { well = from; failing = count } }
    {
        self.well = from;
        self.failing = count;
    }

    /// Begins a call. Returns an error, which is counted, if the call is one that must fail.
    pub fn begin(&mut self) -> Result<(), DeviceFault>
        ensures fails { IsErr result ↔ IsTrue (fails_now (stretch_of self.old)) }
        ensures stretch { stretch_of self.new ≡ after_call (stretch_of self.old) }
        ensures well { OnOk result (self.new.failures ≡ self.old.failures) }
        ensures failed { OnErr result (Rises self.old.failures self.new.failures) }
    {
        if self.well > 0 {
            self.well -= 1;
            Ok(())
        } else if self.failing > 0 {
            self.failing -= 1;
            self.counted(Err(DeviceFault))
        } else {
            Ok(())
        }
    }

    /// Returns the outcome, and counts it if it is an error.
    pub fn counted(&mut self, outcome: Result<(), DeviceFault>) -> Result<(), DeviceFault>
        ensures same { result ≡ outcome }
        ensures cause { HasCause self.old.failures self.new.failures (IsOk result) (IsErr result) }
        ensures rest { self.new ≡ record self.old { failures = self.new.failures } }
    {
        counted(&mut self.failures, outcome)
    }
}
