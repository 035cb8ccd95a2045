// The samples of a stereo file as a table, with a contract on the results of queries.
ghost use Rattle.std.specs.Prelude.{◌≡◌, ◌≤◌, ◌<◌, ◌+◌, ◌^◌, ℕ, Err, get_or, pos, true, ⊤};
ghost use Rattle.std.specs.Ordering.{int_eq};
ghost use Rattle.sound_terms.specs.Mix.{Reading};
ghost use Rattle.sound_terms.specs.Passes.{is_zero_channel};
ghost use Rattle.trials_sounds.specs.Table.{table_reading};

use passes::Samples;
use shelf::ShelfFault;

/// Number of sample frames.
const FRAMES: u64 = 12;

/// The samples of a stereo file, and the number of queries.
#[derive(Drop)]
pub(crate) struct Table {
    pub(crate) left: [u16; 12],
    pub(crate) right: [u16; 12],
    pub(crate) asked: u64,
    pub(crate) failures: u64,
}

impl Samples for Table {
    ghost reading = { λ table. table_reading table.left table.right };

    ghost honest = { λ _. true };

    ghost failures = { λ table. table.failures };

    ghost failed_at = { λ _ _. ⊤ };

    fn all_zero(
        &mut self,
        file: u32,
        first: u8,
        width: u8,
        from: u64,
        length: u64,
    ) -> Result<bool, ShelfFault> {
        self.asked = self.asked.saturating_add(1);
        if FRAMES < from || FRAMES - from < length {
            return self.failed();
        }
        match (file, first, width) {
            (0, 1, 1) => Ok(is_silent(&self.left, from, length)),
            (0, 2, 1) => Ok(is_silent(&self.right, from, length)),
            (0, 1, 2) => {
                let left = is_silent(&self.left, from, length);
                let right = is_silent(&self.right, from, length);
                Ok(left & right)
            }
            _ => self.failed(),
        }
    }
}

impl Table {
    /// Counts a failure.
    fn failed(&mut self) -> Result<bool, ShelfFault>
        ensures fault { result ≡ Err ShelfFault.Device }
        ensures left { self.new.left ≡ self.old.left }
        ensures right { self.new.right ≡ self.old.right }
        ensures rises { self.old.failures + 1 < 2 ^ 64 → self.new.failures ≡ self.old.failures + 1 }
        ensures later { self.old.failures ≤ self.new.failures }
    {
        self.failures = self.failures.saturating_add(1);
        Err(ShelfFault::Device)
    }
}

/// Returns whether `length` samples of a channel from `from` on are zero.
fn is_silent(row: &[u16; 12], from: u64, length: u64) -> bool
    requires { from + length ≤ 12 }
    ensures { (reading : Reading) (file channel : ℕ)
        → ((frame : ℕ) → reading file channel frame ≡ pos (get_or row.now frame 0))
        → result ≡ is_zero_channel reading file channel from length }
{
    for frame in from..from + length {
        if !is_zero(row[frame as usize]) {
            return false;
        }
    }
    true
}

fn is_zero(sample: u16) -> bool
    ensures { result ≡ int_eq (pos sample) (pos 0) }
{
    sample == 0
}
