// The failure count of a device.
ghost use Rattle.std.specs.Prelude.{◌≡◌, IsOk, IsErr};
ghost use Rattle.work_terms.specs.Disk.{HasCause};

use devices::DeviceFault;

/// Returns the outcome and increments `failures`, which saturates, if the outcome is an error.
pub fn counted<T>(failures: &mut u64, outcome: Result<T, DeviceFault>) -> Result<T, DeviceFault>
    ensures same { result ≡ outcome }
    ensures cause { HasCause failures.old failures.new (IsOk result) (IsErr result) }
{
    if outcome.is_err() {
        *failures = failures.saturating_add(1);
    }
    outcome
}
