// Why a job, or a whole work, isn't done.
ghost use Rattle.std.specs.Prelude.{◌≡◌};
ghost use Rattle.execution.specs.Ends.{fault_of};
ghost use Rattle.execution.specs.declared.fault.ExecutionFault.TheVariants.{Output};

use thiserror::Error;

/// Why the bytes of a job don't stand at their place for good.
#[derive(Clone, Copy, Debug, PartialEq, Eq, Error)]
pub enum PlaceFault {
    /// Its place holds any bytes.
    #[error("the output's device failed")]
    Write,
    /// They stand there, but the mark that says so wasn't written.
    #[error("the mark wasn't written")]
    Mark,
}

/// The device failed at an output, outside of the jobs.
#[derive(Clone, Copy, Debug, PartialEq, Eq, Error)]
#[error("output {file} can't be written")]
pub struct OutputFault {
    /// The number of the output in its work.
    pub file: u32,
}

/// Why a job ends the run.
#[derive(Clone, Copy, Debug, PartialEq, Eq, Error)]
pub enum JobFault {
    /// 66
    #[error("job {job} failed for the third time")]
    GivenUp { job: u32 },
    /// 62
    #[error("a mark wasn't written")]
    Mark,
}

/// Why a work isn't done. What is written of it is unfinished.
#[derive(Clone, Copy, Debug, PartialEq, Eq, Error)]
pub enum ExecutionFault {
    /// 60: no memory was left for the board, or for what a worker holds.
    #[error("out of memory")]
    Memory,
    /// 57 or 60, as the work has it: no memory was left for the bytes of a job.
    #[error("out of memory")]
    JobMemory,
    /// 66: the device failed three times in this job.
    #[error("job {job} failed for the third time")]
    GivenUp { job: u32 },
    /// 62: the bytes of a job stand at their place, but the mark that says so wasn't written.
    #[error("a mark wasn't written")]
    Mark,
    /// 62: the device failed at the output of this number, outside of the jobs.
    #[error("output {file} can't be written")]
    Output { file: u32 },
}

impl From<JobFault> for ExecutionFault {
    ghost from_gives = { λ job fault. fault ≡ fault_of job };

    fn from(fault: JobFault) -> Self {
        match fault {
            JobFault::GivenUp { job } => ExecutionFault::GivenUp { job },
            JobFault::Mark => ExecutionFault::Mark,
        }
    }
}

impl From<OutputFault> for ExecutionFault {
    ghost from_gives = { λ output fault. fault ≡ Output output.file };

    fn from(fault: OutputFault) -> Self {
        ExecutionFault::Output { file: fault.file }
    }
}
