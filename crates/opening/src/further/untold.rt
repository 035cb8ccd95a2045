// Reasons for missing further faults.
ghost use Rattle.std.specs.Prelude.{◌≡◌, false};
ghost use Rattle.work_terms.specs.Refusals.{is_excused};
ghost use Rattle.sourceindex.specs.Fault as binding;
ghost use Rattle.opening.specs.declared.further.untold.Untold.TheVariants as untold;

use sourceindex::BindFault;
use std::alloc::AllocError;
use thiserror::Error;
use wavread::MediaFault;

/// The reason why the further faults of a list can't be reported.
#[derive(Clone, Copy, Debug, PartialEq, Eq, Error)]
pub enum Untold {
    /// Out of memory.
    #[error("out of memory for the further faults of the list")]
    Memory,
    /// The device of the sources failed when they were bound again. The failure is counted.
    #[error("the device failed when the sources were read again")]
    Device,
    /// The given fault isn't the first one: the text of the list or a file is invalid and is checked earlier.
    #[error("the text of the list or a file is at fault before the entries")]
    NotFirst,
}

impl Untold {
    /// Returns the reason that corresponds to a fault of binding.
    pub fn of(fault: BindFault) -> Untold
        ensures device { result ≡ Untold.Device
            → (binding.refusal_of fault).number ≡ 22 }
        ensures due { result ≡ Untold.NotFirst
            → is_excused (binding.refusal_of fault).number ≡ false }
    {
        match fault {
            BindFault::Media {
                fault: MediaFault::Device,
                ..
            } => Untold::Device,
            BindFault::Media {
                fault: MediaFault::Memory,
                ..
            } => Untold::Memory,
            BindFault::Media { .. } | BindFault::SameName { .. } => Untold::NotFirst,
        }
    }
}

impl From<AllocError> for Untold {
    ghost from_gives = { λ _ fault. fault ≡ untold.Memory };

    fn from(_: AllocError) -> Untold {
        Untold::Memory
    }
}
