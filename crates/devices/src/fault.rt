// Why a call of a shelf or a bench failed.
ghost use Rattle.std.specs.Prelude.{◌≡◌};
ghost use Rattle.devices.specs.Fault.{number_of};
ghost use Rattle.devices.specs.declared.fault.ShelfFault.TheVariants.{Device};

use thiserror::Error;

/// Why a source wasn't read.
#[derive(Clone, Copy, Debug, PartialEq, Eq, Error)]
pub enum ShelfFault {
    /// No file has the name. Only asking for a length answers it.
    #[error("there is no such file")]
    NotFound,
    /// The device failed, which it counts. A read past the end is a failure too.
    #[error("the device failed")]
    Device,
}

impl ShelfFault {
    /// The number of the refusal: 21 or 22.
    pub fn number(&self) -> u8
        ensures { result ≡ number_of self.now }
    {
        match self {
            ShelfFault::NotFound => 21,
            ShelfFault::Device => 22,
        }
    }
}

/// An output's device failed, which it counts.
#[derive(Clone, Copy, Debug, PartialEq, Eq, Error)]
#[error("the device failed")]
pub struct DeviceFault;

impl DeviceFault {
    /// The number of the refusal as a fault of a device. A call of the product that writes an output says 62, or 19 of a
    /// list.
    pub fn number(&self) -> u8
        ensures { result ≡ 22 }
    {
        22
    }
}

impl From<DeviceFault> for ShelfFault {
    ghost from_gives = { λ _ fault. fault ≡ Device };

    fn from(_: DeviceFault) -> Self {
        ShelfFault::Device
    }
}
