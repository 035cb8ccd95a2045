// A bench with one append-only file in memory.
ghost use Rattle.std.specs.Prelude.{◌≡◌, ◌==◌, ◌^◌, ⊤, None, Some, if◌then◌else◌, length, true};
ghost use Rattle.adlwrite.specs.LeftText.{IsLeftText, left_nothing, left_whole};

use devices::{Bench, DeviceFault, ShelfFault};

/// A bench with one file in memory, whose name is empty. Appending to it fails only if out of memory; every other
/// call fails.
#[derive(Drop)]
pub struct TextFile {
    pub text: Vec<u8>,
}

impl Bench for TextFile {
    ghost stored = { λ file name. if length name == 0 then Some file.text.items else None };

    ghost honest = { λ _. true };

    ghost failures = { λ _. 2 ^ 64 };

    ghost failed_at = { λ _ _. ⊤ };

    /// The file is never synced, so a crash may leave any text that is no longer.
    ghost may_leave = { λ file. IsLeftText file.text.items };

    ghost moment = { λ _. 0 };

    /// The file only grows, so an earlier crash could have left the same.
    ghost left_since = { λ file _. IsLeftText file.text.items };

    fn create(&mut self, _: &str) -> Result<(), DeviceFault> {
        Err(DeviceFault)
    }

    fn append(&mut self, name: &str, bytes: &[u8]) -> Result<(), DeviceFault> {
        if name.len() != 0 {
            return Err(DeviceFault);
        }
        match self.text.extend_from_slice(bytes) {
            Ok(()) => Ok(()),
            Err(_) => return Err(DeviceFault),
        }
    }

    fn write_at(&mut self, _: &str, _: u64, _: &[u8]) -> Result<(), DeviceFault> {
        Err(DeviceFault)
    }

    fn length(&mut self, _: &str) -> Result<u64, ShelfFault> {
        Err(ShelfFault::Device)
    }

    fn read_at(&mut self, _: &str, _: u64, _: &mut [u8]) -> Result<(), ShelfFault> {
        Err(ShelfFault::Device)
    }

    fn sync(&mut self, _: &str) -> Result<(), DeviceFault> {
        Err(DeviceFault)
    }

    ghost counts_now = { λ bench t c early left. left };

    ghost reads_now = { λ bench honest. left_whole bench.text.items };

    ghost only_now = { λ bench c since. since };

    ghost absent = { λ bench name c honest none left. left_nothing bench.text.items name c none left };
}
