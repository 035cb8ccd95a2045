// Source samples, as passes query them.
ghost use Rattle.std.specs.Prelude.{◌≡◌, ℕ, Bool, IsTrue, IfOk};
ghost use Rattle.sound_terms.specs.Mix.{Reading};
ghost use Rattle.sound_terms.specs.Passes.{are_zero};
ghost use Rattle.devices.specs.Fault.{IsThere};
ghost use Rattle.passes.specs.Looks.{LooksTo};

use devices::ShelfFault;

/// Access to the samples of files, by file number. Calls may fail because of the file's device.
pub trait Samples {
    /// Samples at full scale by file, channel (from 1) and sample position; zero elsewhere.
    ghost reading: { Self → Reading };

    /// Whether the results of calls are true of these samples.
    ghost honest: { Self → Bool };

    /// Number of device failures, in 64 bits; at the maximum a failure isn't counted any more.
    ghost failures: { Self → ℕ };

    /// Whether a device has failed on the file of this number.
    ghost failed_at: { Self → ℕ → Type 0 };

    /// Returns whether the samples of `width` channels from channel `first` (from 1) on are all
    /// zero in the `length` samples from position `from` on. Returns `ShelfFault::Device` if they
    /// can't be read, or if the range is not in the file.
    fn all_zero(
        &mut self,
        file: u32,
        first: u8,
        width: u8,
        from: u64,
        length: u64,
    ) -> Result<bool, ShelfFault>
        ensures answer { IsTrue (honest self.old)
            → IfOk result (λ zero. zero ≡ are_zero (reading self.old) file first width from length) }
        ensures not_missing { IsThere result }
        ensures looks { LooksTo reading honest failures failed_at self.old self.new result
            (λ fault. fault ≡ ShelfFault.Device) (λ _ failed. failed file) };
}
