// Why a call is refused.
ghost use Rattle.std.specs.Prelude.{◌≡◌, ◌↔◌, ◌+◌, ◌<◌, Err, Bool, List, Some, ℕ, None, false, true};
ghost use Rattle.work_terms.specs.Disk.{Files};
ghost use Rattle.work_terms.specs.Refusals.{IsDue};
ghost use Rattle.consolidation.specs.Fault as consolidation;
ghost use Rattle.consolidation.specs.Outputs.{output_count, output_name};
ghost use Rattle.execution.specs.Outcome.{IsBefore};
ghost use Rattle.list_terms.specs.Heard.{sounds_of};
ghost use Rattle.rendering.specs.Fault as rendering;
ghost use Rattle.consolidate.specs.Commands.{IsOutput, IsSource};
ghost use Rattle.consolidate.specs.Own.{IsConsolidatedFile, IsFirst, IsOfMedia, IsOfWork};
ghost use Rattle.consolidate.specs.Fault.{IsOpenedIn, NamesOpened, name_of_output, refusal_of};
ghost use Rattle.consolidate.specs.MediaOutcome.{IsNamedOutput, consolidation_fault, output_file};
ghost use Rattle.consolidate.specs.RenderOutcome.{rendering_fault};
ghost use Rattle.execution.specs.declared.fault.ExecutionFault.TheVariants as execution;
ghost use Rattle.consolidate.specs.declared.fault.Fault.TheVariants as faults;
ghost use Rattle.consolidate.specs.declared.fault.OutputFile.TheVariants as outputs;

use consolidation::{ConsolidationFault, LIST, REPORT, SUMS};
use execution::ExecutionFault;
use markfile::{MARKS, MarkFault, SOUND};
use mediaset::RunFault;
use passes::PassFault;
use projectcheck::Checked;
use relink::RelinkFault;
use rendering::RenderFault;
use renderreport::RENDER_REPORT;
use std::fmt;
use thiserror::Error;

/// A file that is written.
#[derive(Clone, Copy, Debug, PartialEq, Eq)]
pub enum OutputFile {
    /// `render.wav`
    Rendering,
    /// `render.marks`
    Marks,
    /// `render.json`
    RenderReport,
    /// The medium of this number, from 1: `M00001.wav` and so on.
    Medium(u32),
    /// `SHA256SUMS`
    Sums,
    /// `consolidated.json`
    Report,
    /// `consolidated.adl`
    List,
}

impl OutputFile {
    /// The output of this number, counted from 0, of a consolidation to so many media, with a report or without one.
    fn of_consolidation(media: u32, reported: bool, number: u32) -> OutputFile
        ensures value { result ≡ output_file media reported number }
        ensures own { IsConsolidatedFile reported result }
        ensures name { name_of_output (output_file media reported number) ≡ output_name media reported number }
        ensures before_list { (result ≡ outputs.List → ⊥) → number + 1 < output_count media reported }
        ensures before_report { reported ≡ true → (result ≡ outputs.List → ⊥) → (result ≡ outputs.Report → ⊥)
            → number < media + 1 }
    {
        if number < media {
            return OutputFile::Medium(number + 1);
        }
        if !reported {
            return OutputFile::List;
        }
        match number - media {
            0 => OutputFile::Sums,
            1 => OutputFile::Report,
            _ => OutputFile::List,
        }
    }
}

impl fmt::Display for OutputFile {
    ghost output = { λ file. Some (name_of_output file) };

    fn fmt<W: fmt::Write>(&self, f: &mut fmt::Formatter<W>) -> fmt::Result {
        match self {
            OutputFile::Rendering => f.write_str(SOUND),
            OutputFile::Marks => f.write_str(MARKS),
            OutputFile::RenderReport => f.write_str(RENDER_REPORT),
            OutputFile::Medium(number) => write!(f, "M{number:05}.wav"),
            OutputFile::Sums => f.write_str(SUMS),
            OutputFile::Report => f.write_str(REPORT),
            OutputFile::List => f.write_str(LIST),
        }
    }
}

/// Why a call is refused, in the order in which its stages come. After `BlockMemory`, `WorkerMemory`, `GivenUp` and
/// `Output` what is written is unfinished; the others come before anything is written.
#[derive(Debug, Drop, Error)]
pub enum Fault {
    /// The list, a file that it names, or an entry: 1 to 18, 21 to 31, 41 to 46.
    #[error("{0}")]
    Project(opening::Fault),
    /// 47: no memory was left for the pieces of the entries.
    #[error("out of memory")]
    Intervals,
    /// 51: no memory was left for a pass over the pieces.
    #[error("out of memory")]
    PassMemory,
    /// 52: the device of a source failed while it was asked for silence, or read for a report.
    #[error("file {name} can't be read")]
    Silence { name: String },
    /// 53: there are more runs of kept frames than a list has indexes. 54: no memory was left for them.
    #[error("{0}")]
    Runs(RunFault),
    /// 55: the new list would have too many entries. 56: no memory was left for it.
    #[error("{0}")]
    Relink(RelinkFault),
    /// 57: no memory was left for a rendering.
    #[error("out of memory")]
    RenderMemory,
    /// 57: no memory was left for the bytes of a block. What is written is unfinished.
    #[error("out of memory")]
    BlockMemory,
    /// 58: no sample lies in what is to be rendered.
    #[error("there is nothing to render")]
    EmptyRange,
    /// 60: no memory was left for the board of the jobs, or for the bytes of one.
    #[error("out of memory")]
    BoardMemory,
    /// The marks that an earlier rendering left: the device of the output failed at them or at the rendered file (62),
    /// they belong to another rendering (67), or they are broken, or the rendered file isn't theirs (68). 69: no memory
    /// was left for marks.
    #[error("{0}")]
    Marks(MarkFault),
    /// 60: no memory was left for what a worker holds, or for the bytes of a medium. What is written is unfinished.
    #[error("out of memory")]
    WorkerMemory,
    /// 66: the device failed three times in this job.
    #[error("job {job} failed for the third time")]
    GivenUp { job: u32 },
    /// 62: the device of the output failed.
    #[error("{0} can't be written")]
    Output(OutputFile),
}

impl Fault {
    /// The number of the refusal.
    pub fn number(&self) -> u8
        ensures { result ≡ (refusal_of self.now).number }
    {
        match self {
            Fault::Project(fault) => fault.number(),
            Fault::Intervals => 47,
            Fault::PassMemory => 51,
            Fault::Silence { .. } => 52,
            Fault::Runs(fault) => fault.number(),
            Fault::Relink(fault) => fault.number(),
            Fault::RenderMemory | Fault::BlockMemory => 57,
            Fault::EmptyRange => 58,
            Fault::BoardMemory | Fault::WorkerMemory => 60,
            Fault::Marks(fault) => fault.number(),
            Fault::GivenUp { .. } => 66,
            Fault::Output(_) => 62,
        }
    }

    /// A fault of planning the rendering of a project.
    pub(crate) fn of_rendering(fault: RenderFault) -> Fault
        ensures refusal { refusal_of result ≡ rendering.refusal_of fault }
        ensures own { (again scheduled : Bool) (text : List ℕ) → IsOfWork again scheduled text result }
        ensures no_device { (IsSource result → ⊥) × (IsOutput result → ⊥) }
        ensures first { (text : List ℕ) (files : Files) → IsFirst text files result }
    {
        match fault {
            RenderFault::Intervals => Fault::Intervals,
            RenderFault::EmptyRange => Fault::EmptyRange,
            RenderFault::Memory => Fault::RenderMemory,
            RenderFault::MarksMemory => Fault::Marks(MarkFault::Memory),
        }
    }

    /// A fault of the execution of a rendering. It comes after the first write.
    pub(crate) fn of_execution(cause: ExecutionFault) -> Fault
        ensures reported { result ≡ rendering_fault cause }
        ensures late { (refusal_of result).late ≡ true }
        ensures due { IsDue (refusal_of result) None }
        ensures scheduled { (again : Bool) (text : List ℕ) → IsOfWork again true text result }
        ensures own { (again scheduled : Bool) (text : List ℕ) → (cause ≡ execution.Memory → ⊥)
            → (cause ≡ execution.JobMemory → ⊥) → IsOfWork again scheduled text result }
        ensures first { (text : List ℕ) (files : Files) → IsFirst text files result }
    {
        match cause {
            ExecutionFault::Memory => Fault::WorkerMemory,
            ExecutionFault::JobMemory => Fault::BlockMemory,
            ExecutionFault::GivenUp { job } => Fault::GivenUp { job },
            ExecutionFault::Mark => Fault::Output(OutputFile::Marks),
            ExecutionFault::Output { file } => {
                if file == 0 {
                    Fault::Output(OutputFile::Rendering)
                } else {
                    Fault::Output(OutputFile::Marks)
                }
            }
        }
    }

    /// A fault of planning the consolidation of a project.
    pub(crate) fn of_consolidation(checked: Checked, fault: ConsolidationFault) -> Fault
        requires { IsOpenedIn (sounds_of checked.bound) fault }
        ensures refusal { refusal_of result ≡ consolidation.refusal_of fault }
        ensures own { (reported scheduled : Bool) (text : List ℕ) → IsOfMedia reported scheduled text result }
        ensures names { NamesOpened (sounds_of checked.bound) fault result }
        ensures device { (IsSource result ↔ consolidation.IsSource fault) × (IsOutput result → ⊥) }
        ensures first { (text : List ℕ) (files : Files) → IsFirst text files result }
    {
        match fault {
            ConsolidationFault::Intervals => Fault::Intervals,
            ConsolidationFault::Pass(PassFault::Memory) => Fault::PassMemory,
            ConsolidationFault::Pass(PassFault::Device { file }) => Fault::Silence {
                name: checked.into_name(file),
            },
            ConsolidationFault::Runs(fault) => Fault::Runs(fault),
            ConsolidationFault::Relink(fault) => Fault::Relink(fault),
        }
    }

    /// The fault of a consolidation to so many media, with a report or without one, that stands for one of its
    /// execution.
    pub(crate) fn of_media(media: u32, reported: bool, cause: ExecutionFault) -> Fault
        ensures reported { result ≡ consolidation_fault media reported cause }
        ensures due { IsDue (refusal_of result) None }
        ensures scheduled { (text : List ℕ) → IsOfMedia reported true text result }
        ensures own { (scheduled : Bool) (text : List ℕ) → (cause ≡ execution.Memory → ⊥)
            → (cause ≡ execution.JobMemory → ⊥) → IsOfMedia reported scheduled text result }
        ensures named { IsNamedOutput media reported cause }
        ensures before_list { (i : ℕ) → i + 1 ≡ output_count media reported → (result ≡ faults.Output outputs.List → ⊥)
            → IsBefore (Err cause) i }
        ensures before_report { reported ≡ true → (result ≡ faults.Output outputs.List → ⊥)
            → (result ≡ faults.Output outputs.Report → ⊥) → IsBefore (Err cause) (media + 1) }
        ensures first { (text : List ℕ) (files : Files) → IsFirst text files result }
    {
        match cause {
            ExecutionFault::Memory | ExecutionFault::JobMemory => Fault::WorkerMemory,
            ExecutionFault::GivenUp { job } => Fault::GivenUp { job },
            // No piece has a mark.
            ExecutionFault::Mark => Fault::Output(OutputFile::List),
            ExecutionFault::Output { file } => {
                Fault::Output(OutputFile::of_consolidation(media, reported, file))
            }
        }
    }
}
