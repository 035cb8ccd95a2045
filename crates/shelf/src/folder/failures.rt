// Failures of the files of a folder.
ghost use Rattle.std.specs.Prelude.{◌≡◌, Ok, IfOk, IsOk, IsErr};
ghost use Rattle.work_terms.specs.Disk.{HasCause};

use devices::DeviceFault;
use std::alloc::Global;
use std::io;

/// The number of failed calls, which saturates, and the error and the file of the last failure.
#[derive(Drop)]
pub struct Failures {
    alloc: Global,
    pub count: u64,
    pub reason: Option<io::Error>,
    /// `None` without a failure, and if the name couldn't be stored for lack of memory.
    file: Option<String>,
}

impl Failures {
    /// Creates an empty record.
    pub fn none(alloc: Global) -> Failures
        ensures { result.count ≡ 0 }
    {
        Failures {
            alloc,
            count: 0,
            reason: None,
            file: None,
        }
    }

    /// Returns the name of the file of the last failure.
    pub fn file(&self) -> Option<&str> {
        match &self.file {
            Some(file) => Some(file.as_str()),
            None => None,
        }
    }

    /// Returns the outcome of a call on the file `name`; counts and records it if it is an error.
    pub fn counted<T>(&mut self, name: &str, outcome: io::Result<T>) -> Result<T, DeviceFault>
        ensures value { IfOk result (λ value. outcome ≡ Ok value) }
        ensures cause { HasCause self.old.count self.new.count (IsOk result) (IsErr result) }
    {
        match outcome {
            Ok(value) => Ok(value),
            Err(error) => {
                self.count = self.count.saturating_add(1);
                self.reason = Some(error);
                self.file = String::from_str(self.alloc, name).ok();
                Err(DeviceFault)
            }
        }
    }
}
