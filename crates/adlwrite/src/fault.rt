// Errors of writing a list.
ghost use Rattle.std.specs.Prelude.{◌≡◌};
ghost use Rattle.adlwrite.specs.declared.fault.WriteFault.TheVariants.{Device};

use devices::DeviceFault;
use thiserror::Error;

/// The reason why a list can't be written.
#[derive(Clone, Copy, Debug, PartialEq, Eq, Error)]
pub enum WriteFault {
    /// 19: the device failed.
    #[error("the list can't be written")]
    Device,
}

impl WriteFault {
    /// Returns the refusal number, 19.
    pub fn number(&self) -> u8
        ensures { result ≡ 19 }
    {
        match self {
            WriteFault::Device => 19,
        }
    }
}

impl From<DeviceFault> for WriteFault {
    ghost from_gives = { λ _ fault. fault ≡ Device };

    fn from(_: DeviceFault) -> WriteFault {
        WriteFault::Device
    }
}
