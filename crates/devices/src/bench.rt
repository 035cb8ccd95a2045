// Outputs: files that are written, and what a crash may leave of them.
ghost use Rattle.std.specs.Prelude.{◌≡◌, ◌≢◌, ◌≤◌, ℕ, Bool, Some, None, List, length, replicate, IsTrue, IfOk, OnOk, OnErr, IsSome, IsErrOf, ⊤};
ghost use Rattle.work_terms.specs.Disk.{Files, IsRange, IsEmptyOrAbsent, end_of, Changes, IsCreated, MayBeCreated, IsPending, IsWritten, IsTorn, IsAppended, IsGrown, IsTornBehind, Follows, IsDurable, Elapses, HasAppended, ReadsTo, WritesTo};
ghost use Rattle.devices.specs.Fault.{IsThere};

use crate::{DeviceFault, ShelfFault};

/// Files by name, to write and to read. Each call may fail by its device. Until a sync a crash may leave any bytes
/// in the ranges that were written since.
pub trait Bench {
    /// The bytes of each file, as reads give them.
    ghost stored: { Self → Files };

    /// Whether what is read are the bytes that were written.
    ghost honest: { Self → Bool };

    /// How often the device has failed, in 64 bits: at the last value a call may fail without a rise.
    ghost failures: { Self → ℕ };

    /// The device has failed at the file of this name.
    ghost failed_at: { Self → List ℕ → Type 0 };

    /// What a crash at this moment may leave.
    ghost may_leave: { Self → Files → Type 0 };

    /// The moment, as a number that doesn't fall.
    ghost moment: { Self → ℕ };

    /// What a crash at some moment from that one on might have left, during a call or between two.
    ghost left_since: { Self → ℕ → Files → Type 0 };

    /// Makes an empty file of the name, or empties the one that is there.
    fn create(&mut self, name: &str) -> Result<(), DeviceFault>
        ensures created { IsTrue (honest self.old)
            → OnOk result (Changes IsCreated name.now (stored self.old) (stored self.new)) }
        ensures unsure { IsTrue (honest self.old)
            → OnErr result (Changes MayBeCreated name.now (stored self.old) (stored self.new)) }
        ensures crash { Follows (Changes IsPending name.now) (may_leave self.old) (may_leave self.new) }
        ensures time { Elapses (moment self.old) (moment self.new) (left_since self.old) (left_since self.new)
            (may_leave self.new) }
        ensures only_writes { WritesTo stored honest failures failed_at may_leave (λ n. n ≢ name.now)
            self.old self.new result (λ _. ⊤) (λ _ failed. failed name.now) };

    /// Adds the bytes at the end of the file, which has to be there.
    fn append(&mut self, name: &str, bytes: &[u8]) -> Result<(), DeviceFault>
        ensures appended { IsTrue (honest self.old)
            → OnOk result (Changes (IsAppended bytes.now) name.now (stored self.old) (stored self.new)) }
        ensures grown { IsTrue (honest self.old)
            → OnErr result (Changes (IsGrown (length bytes.now)) name.now (stored self.old) (stored self.new)) }
        ensures crash { Follows (Changes (IsTornBehind (end_of (stored self.old name.now)) (length bytes.now)) name.now)
            (may_leave self.old) (may_leave self.new) }
        ensures time { Elapses (moment self.old) (moment self.new) (left_since self.old) (left_since self.new)
            (may_leave self.new) }
        ensures only_writes { WritesTo stored honest failures failed_at may_leave (λ n. n ≢ name.now)
            self.old self.new result (λ _. ⊤) (λ _ failed. failed name.now) };

    /// Adds so many zeros at the end of the file, which has to be there. By itself it appends them piece by piece.
    fn append_zeros(&mut self, name: &str, count: u64) -> Result<(), DeviceFault>
        ensures appends { HasAppended stored honest failures failed_at may_leave moment left_since name.now
            (replicate count 0) self.old self.new result }
        ensures there { IsTrue (honest self.old) → OnOk result (IsSome (stored self.old name.now)) }
    {
        let zeros = [0; 4096];
        let part = count % 4096;
        self.append(name, &zeros[..part as usize])?;
        for _piece in 0..count / 4096 {
            self.append(name, &zeros)?;
        }
        Ok(())
    }

    /// Writes the bytes over those from `at` on. They have to lie inside the file.
    fn write_at(&mut self, name: &str, at: u64, bytes: &[u8]) -> Result<(), DeviceFault>
        ensures written { IsTrue (honest self.old)
            → OnOk result (Changes (IsWritten at bytes.now) name.now (stored self.old) (stored self.new)) }
        ensures torn { IsTrue (honest self.old)
            → OnErr result (Changes (IsTorn at (length bytes.now)) name.now (stored self.old) (stored self.new)) }
        ensures crash { Follows (Changes (IsTorn at (length bytes.now)) name.now) (may_leave self.old)
            (may_leave self.new) }
        ensures time { Elapses (moment self.old) (moment self.new) (left_since self.old) (left_since self.new)
            (may_leave self.new) }
        ensures only_writes { WritesTo stored honest failures failed_at may_leave (λ n. n ≢ name.now)
            self.old self.new result (λ _. ⊤) (λ _ failed. failed name.now) };

    /// How many bytes the file has. `NotFound` where no file has the name.
    fn length(&mut self, name: &str) -> Result<u64, ShelfFault>
        ensures found { IsTrue (honest self.old)
            → IfOk result (λ n. (bytes : List ℕ) × (stored self.old name.now ≡ Some bytes) × (length bytes ≡ n)) }
        ensures missing { IsTrue (honest self.old) → IsErrOf result ShelfFault.NotFound
            → stored self.old name.now ≡ None }
        ensures crash { (c : Files) → may_leave self.new c → may_leave self.old c }
        ensures time { Elapses (moment self.old) (moment self.new) (left_since self.old) (left_since self.new)
            (may_leave self.new) }
        ensures only_reads { ReadsTo stored honest failures failed_at self.old self.new result
            (λ fault. fault ≡ ShelfFault.Device) (λ _ failed. failed name.now) };

    /// Fills the buffer with the file's bytes from `at` on. A range that isn't inside the file is a failure of the
    /// device, and so is a file that isn't there. After a fault the buffer holds any bytes.
    fn read_at(&mut self, name: &str, at: u64, buffer: &mut [u8]) -> Result<(), ShelfFault>
        ensures read { IsTrue (honest self.old) → OnOk result (IsRange (stored self.old name.now) at buffer.new) }
        ensures not_missing { IsThere result }
        ensures crash { (c : Files) → may_leave self.new c → may_leave self.old c }
        ensures time { Elapses (moment self.old) (moment self.new) (left_since self.old) (left_since self.new)
            (may_leave self.new) }
        ensures only_reads { ReadsTo stored honest failures failed_at self.old self.new result
            (λ fault. fault ≡ ShelfFault.Device) (λ _ failed. failed name.now) };

    /// After it a crash leaves this file as it is read. The file has to be there.
    fn sync(&mut self, name: &str) -> Result<(), DeviceFault>
        ensures durable { IsTrue (honest self.old)
            → OnOk result (IsDurable name.now (stored self.new) (may_leave self.new)) }
        ensures there { IsTrue (honest self.old) → OnOk result (IsSome (stored self.old name.now)) }
        ensures crash { (c : Files) → may_leave self.new c → may_leave self.old c }
        ensures time { Elapses (moment self.old) (moment self.new) (left_since self.old) (left_since self.new)
            (may_leave self.new) }
        ensures only_reads { ReadsTo stored honest failures failed_at self.old self.new result (λ _. ⊤)
            (λ _ failed. failed name.now) };

    /// This moment is one of those since an earlier one.
    ghost counts_now: { (bench : Self) (t : ℕ) (c : Files) → t ≤ moment bench → may_leave bench c
        → left_since bench t c };

    /// What is read is one of the outcomes.
    ghost reads_now: { (bench : Self) → IsTrue (honest bench) → may_leave bench (stored bench) };

    /// Since this moment there is no other.
    ghost only_now: { (bench : Self) (c : Files) → left_since bench (moment bench) c → may_leave bench c };

    /// Nothing takes a file away: where reads find none, a crash leaves none, or an empty one.
    ghost absent: { (bench : Self) (name : List ℕ) (c : Files) → IsTrue (honest bench) → stored bench name ≡ None
        → may_leave bench c → IsEmptyOrAbsent (c name) };
}
