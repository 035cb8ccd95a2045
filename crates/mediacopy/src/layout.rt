// Preallocation of media.
ghost use Rattle.std.specs.Prelude.{◌≡◌, ◌≢◌, ◌≤◌, IsErrOf, IsTrue, OnOk, Some, length, ⊤};
ghost use Rattle.sound_terms.specs.Waves.{data_place};
ghost use Rattle.devices.specs.Frame.{OnlyWrites};
ghost use Rattle.wavwrite.specs.Info.{Fits};
ghost use Rattle.mediacopy.specs.Copied.{laid_out};
ghost use Rattle.mediacopy.specs.Moment.{IsLater};

use crate::LayoutFault;
use devices::{Bench, DeviceFault};
use std::alloc::{AllocError, Global};
use wavwrite::{SoundInfo, SoundInfoRef};

/// The length in bytes of the longest header, which has 65,536 bytes of CodingHistory.
pub const LONGEST_HEADER: usize = 66_226;

/// Creates a sound file at its full length, with a complete header and every sample zero. Writes nothing if the header
/// doesn't fit into memory.
pub fn lay_out<B: Bench>(
    alloc: Global,
    bench: &mut B,
    name: &str,
    info: &SoundInfo,
) -> Result<(), LayoutFault>
    requires { Fits info.now }
    ensures laid { IsTrue (B.honest bench.old) → OnOk result (B.stored bench.new name.now ≡ Some (laid_out info.now)) }
    ensures unbegun { IsErrOf result LayoutFault.Memory → bench.new ≡ bench.old }
    ensures only_writes { OnlyWrites B.Bench (λ n. n ≢ name.now) bench.old bench.new result
        (λ fault. fault ≡ LayoutFault.Output) (λ _ failed. failed name.now) }
    ensures later { IsLater B.moment bench.old bench.new }
{
    let info = info.lent();
    let mut room = Vec::new(alloc);
    room.resize(info.header_length(), 0)?;
    match lay_out_in(bench, name, &info, room.as_mut_slice()) {
        Ok(()) => Ok(()),
        Err(_) => Err(LayoutFault::Output),
    }
}

/// Creates a file with this header and zero samples at its full length. The header is built in `room`, which must
/// be long enough and can be reused for many files. Returns `DeviceFault` if the device fails.
pub fn lay_out_in<B: Bench>(
    bench: &mut B,
    name: &str,
    info: &SoundInfoRef,
    room: &mut [u8],
) -> Result<(), DeviceFault>
    requires fits { Fits info.now }
    requires room { data_place info.now ≤ length room.old }
    ensures laid { IsTrue (B.honest bench.old) → OnOk result (B.stored bench.new name.now ≡ Some (laid_out info.now)) }
    ensures only_writes { OnlyWrites B.Bench (λ n. n ≢ name.now) bench.old bench.new result (λ _. ⊤)
        (λ _ failed. failed name.now) }
    ensures later { IsLater B.moment bench.old bench.new }
{
    let head = &mut room[..info.header_length()];
    info.put_header(head);
    bench.create(name)?;
    bench.append(name, head)?;
    let size = info.data_length();
    bench.append_zeros(name, size + size % 2)
}
