// What comes last of a consolidation: the checksums and the report, where there is one, and the list.
ghost use Rattle.std.specs.Prelude.{◌≡◌, ◌≢◌, ◌<◌, ◌≤◌, ◌+◌, ◌^◌, ℕ, IfErr, IsTrue, OnOk, Some, codes, is_some, length, true, ⊤};
ghost use Rattle.work_terms.specs.Disk.{IsDurable};
ghost use Rattle.devices.specs.Frame.{OnlyWrites};
ghost use Rattle.execution.specs.Plan.{IsAt, IsLast};
ghost use Rattle.consolidation.specs.Consolidated.{IsBehind};
ghost use Rattle.consolidation.specs.Outputs.{FailsAtReport, job_plan};
ghost use Rattle.consolidation.specs.Reported.{IsNoReport, IsReportDurable, IsReportThere, IsSumsThere};
ghost use Rattle.mediacopy.specs.Moment.{IsLater};

use crate::Consolidation;
use crate::list::{LIST, REPORT, SUMS, write_file};
use devices::Bench;
use execution::OutputFault;
use provenance::Report;

/// Writes the list of this text as the output of this number, and syncs it.
fn write_list_output<B: Bench>(bench: &mut B, text: &[u8], file: u32) -> Result<(), OutputFault>
    ensures written { IsTrue (B.honest bench.old)
        → OnOk result (B.stored bench.new (codes "consolidated.adl") ≡ Some text.now) }
    ensures durable { IsTrue (B.honest bench.old)
        → OnOk result (IsDurable (codes "consolidated.adl") (B.stored bench.new) (B.may_leave bench.new)) }
    ensures number { IfErr result (λ fault. fault.file ≡ file) }
    ensures only_writes { OnlyWrites B.Bench (λ n. n ≢ codes "consolidated.adl") bench.old bench.new result (λ _. ⊤)
        (λ _ failed. failed (codes "consolidated.adl")) }
    ensures later { IsLater B.moment bench.old bench.new }
{
    match write_file(bench, LIST, text) {
        Ok(()) => Ok(()),
        Err(_) => Err(OutputFault { file }),
    }
}

/// Writes the checksums as the output of this number and the report as the next, and syncs each.
fn write_report_outputs<B: Bench>(
    bench: &mut B,
    report: &Report,
    first: u32,
) -> Result<(), OutputFault>
    requires { first + 1 < 2 ^ 32 }
    ensures written { IsTrue (B.honest bench.old)
        → OnOk result (IsReportThere (Some report.now) (B.stored bench.new)) }
    ensures durable { IsTrue (B.honest bench.old)
        → OnOk result (IsReportDurable true (B.stored bench.new) (B.may_leave bench.new)) }
    ensures report_last { IsTrue (B.honest bench.old) → IfErr result (λ fault. fault.file < first + 1
        → B.stored bench.new (codes "consolidated.json") ≡ B.stored bench.old (codes "consolidated.json")) }
    ensures sums_first { IsTrue (B.honest bench.old) → IfErr result (λ fault. first < fault.file
        → IsSumsThere (Some report.now) (B.stored bench.new)) }
    ensures number { IfErr result (λ fault. (first ≤ fault.file) × (fault.file ≤ first + 1)) }
    ensures only_writes { OnlyWrites B.Bench (IsNoReport true) bench.old bench.new result (λ _. ⊤)
        (FailsAtReport first) }
    ensures later { IsLater B.moment bench.old bench.new }
{
    match write_file(bench, SUMS, &report.sums) {
        Ok(()) => {}
        Err(_) => return Err(OutputFault { file: first }),
    }
    match write_file(bench, REPORT, &report.json) {
        Ok(()) => Ok(()),
        Err(_) => Err(OutputFault { file: first + 1 }),
    }
}

impl<'a> Consolidation<'a> {
    /// Writes the report, if there is one, and then the list. Syncs each file before it writes the next, so that an
    /// output without a list is unfinished.
    pub(crate) fn write_last<B: Bench>(&self, bench: &mut B) -> Result<(), OutputFault>
        ensures report { IsTrue (B.honest bench.old)
            → OnOk result (IsReportThere self.now.report (B.stored bench.new)) }
        ensures list { IsTrue (B.honest bench.old)
            → OnOk result (B.stored bench.new (codes "consolidated.adl") ≡ Some self.now.text) }
        ensures durable_report { IsTrue (B.honest bench.old)
            → OnOk result (IsReportDurable (is_some self.now.report) (B.stored bench.new) (B.may_leave bench.new)) }
        ensures durable_list { IsTrue (B.honest bench.old)
            → OnOk result (IsDurable (codes "consolidated.adl") (B.stored bench.new) (B.may_leave bench.new)) }
        ensures in_order { IsTrue (B.honest bench.old) → IfErr result (λ fault. (i : ℕ) → IsLast (job_plan self.now) i
            → fault.file < i
            → B.stored bench.new ((job_plan self.now).output i) ≡ B.stored bench.old ((job_plan self.now).output i)) }
        ensures sums_first { IsTrue (B.honest bench.old) → IfErr result (λ fault. length self.now.runs < fault.file
            → IsSumsThere self.now.report (B.stored bench.new)) }
        ensures report_first { IsTrue (B.honest bench.old) → IfErr result (λ fault. length self.now.runs + 2 ≤ fault.file
            → IsReportThere self.now.report (B.stored bench.new)) }
        ensures only_writes { OnlyWrites B.Bench (IsBehind (is_some self.now.report)) bench.old bench.new result
            (λ _. ⊤) (λ fault failed. IsAt (job_plan self.now) fault.file failed) }
        ensures later { IsLater B.moment bench.old bench.new }
    {
        let media = self.runs.len() as u32;
        match &self.report {
            Some(report) => {
                write_report_outputs(bench, report, media)?;
                write_list_output(bench, &self.text, media + 2)
            }
            None => write_list_output(bench, &self.text, media),
        }
    }
}
