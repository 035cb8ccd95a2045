// The files that come last, and how each is written.
ghost use Rattle.std.specs.Prelude.{◌≡◌, ◌≢◌, IsTrue, OnOk, Some, ⊤};
ghost use Rattle.work_terms.specs.Disk.{IsDurable};
ghost use Rattle.devices.specs.Frame.{OnlyWrites};
ghost use Rattle.mediacopy.specs.Moment.{IsLater};

use devices::{Bench, DeviceFault};

/// The name of the list that is written.
pub const LIST: &str = "consolidated.adl";

/// The name of the report.
pub const REPORT: &str = "consolidated.json";

/// The name of the checksums of all that is written, as `sha256sum -c` takes them.
pub const SUMS: &str = "SHA256SUMS";

/// Writes a file of these bytes, and syncs it.
pub(crate) fn write_file<B: Bench>(
    bench: &mut B,
    name: &str,
    bytes: &[u8],
) -> Result<(), DeviceFault>
    ensures written { IsTrue (B.honest bench.old)
        → OnOk result (B.stored bench.new name.now ≡ Some bytes.now) }
    ensures durable { IsTrue (B.honest bench.old)
        → OnOk result (IsDurable name.now (B.stored bench.new) (B.may_leave bench.new)) }
    ensures only_writes { OnlyWrites B.Bench (λ n. n ≢ name.now) bench.old bench.new result (λ _. ⊤)
        (λ _ failed. failed name.now) }
    ensures later { IsLater B.moment bench.old bench.new }
{
    bench.create(name)?;
    bench.append(name, bytes)?;
    bench.sync(name)
}
