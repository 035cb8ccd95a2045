// Sources: files that are read at any place.
ghost use Rattle.std.specs.Prelude.{◌≡◌, ℕ, Bool, Some, None, List, length, IsTrue, IfOk, OnOk, IsErrOf};
ghost use Rattle.work_terms.specs.Disk.{Files, IsRange, ReadsTo};
ghost use Rattle.devices.specs.Fault.{IsThere};

use crate::ShelfFault;

/// Files by name, to read from. Each call may fail by its device.
pub trait Shelf {
    /// The bytes of each file.
    ghost stored: { Self → Files };

    /// Whether what is read are the stored bytes.
    ghost honest: { Self → Bool };

    /// How often the device has failed, in 64 bits: at the last value a call may fail without a rise.
    ghost failures: { Self → ℕ };

    /// The device has failed at the file of this name.
    ghost failed_at: { Self → List ℕ → Type 0 };

    /// How many bytes the file has. `NotFound` where no file has the name.
    fn length(&mut self, name: &str) -> Result<u64, ShelfFault>
        ensures found { IsTrue (honest self.old)
            → IfOk result (λ n. (bytes : List ℕ) × (stored self.old name.now ≡ Some bytes) × (length bytes ≡ n)) }
        ensures missing { IsTrue (honest self.old) → IsErrOf result ShelfFault.NotFound
            → stored self.old name.now ≡ None }
        ensures only_reads { ReadsTo stored honest failures failed_at self.old self.new result
            (λ fault. fault ≡ ShelfFault.Device) (λ _ failed. failed name.now) };

    /// Fills the buffer with the file's bytes from `at` on. A range that isn't inside the file is a failure of the
    /// device, and so is a file that isn't there. After a fault the buffer holds any bytes.
    fn read_at(&mut self, name: &str, at: u64, buffer: &mut [u8]) -> Result<(), ShelfFault>
        ensures read { IsTrue (honest self.old) → OnOk result (IsRange (stored self.old name.now) at buffer.new) }
        ensures not_missing { IsThere result }
        ensures only_reads { ReadsTo stored honest failures failed_at self.old self.new result
            (λ fault. fault ≡ ShelfFault.Device) (λ _ failed. failed name.now) };
}
