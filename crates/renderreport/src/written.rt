// Writing of the report of a rendering.
ghost use Rattle.std.specs.Prelude.{◌≡◌, ◌≢◌, IsErrOf, IsSome, IsTrue, OnOk, Some, ⊤};
ghost use Rattle.work_terms.specs.Disk.{IsDurable};
ghost use Rattle.devices.specs.Frame.{OnlyWrites};
ghost use Rattle.renderreport.specs.Fault.{name_of};
ghost use Rattle.renderreport.specs.Parts.{report_parts};
ghost use Rattle.renderreport.specs.Reads.{Spares};
ghost use Rattle.renderreport.specs.Report.{content, facts_of, report_name, report_text, sound_name};

use crate::digest::sound_digest;
use crate::parts::put_report;
use crate::report_facts::Report;
use crate::{ReportFacts, ReportFault};
use devices::{Bench, DeviceFault};

/// Name of the report file.
pub const RENDER_REPORT: &str = "render.json";

/// Creates the report file and writes the report.
fn begin<B: Bench>(bench: &mut B, report: &Report<'_, '_>) -> Result<(), DeviceFault>
    ensures written { IsTrue (B.honest bench.old)
        → OnOk result (B.stored bench.new report_name ≡ Some (report_parts (facts_of report.now.facts.now) report.now.digest)) }
    ensures beside { Spares B.Bench bench.old bench.new }
    ensures only_writes { OnlyWrites B.Bench (λ n. n ≢ report_name) bench.old bench.new result (λ _. ⊤)
        (λ _ failed. failed report_name) }
{
    match bench.create(RENDER_REPORT) {
        Ok(()) => {}
        Err(fault) => return Err(fault),
    }
    put_report(bench, report)
}

/// Creates, writes and syncs the report file.
fn write<B: Bench>(bench: &mut B, report: &Report<'_, '_>) -> Result<(), DeviceFault>
    ensures written { IsTrue (B.honest bench.old)
        → OnOk result (B.stored bench.new report_name ≡ Some (report_parts (facts_of report.now.facts.now) report.now.digest)) }
    ensures durable { IsTrue (B.honest bench.old)
        → OnOk result (IsDurable report_name (B.stored bench.new) (B.may_leave bench.new)) }
    ensures beside { Spares B.Bench bench.old bench.new }
    ensures only_writes { OnlyWrites B.Bench (λ n. n ≢ report_name) bench.old bench.new result (λ _. ⊤)
        (λ _ failed. failed report_name) }
{
    match begin(bench, report) {
        Ok(()) => {}
        Err(fault) => return Err(fault),
    }
    bench.sync(RENDER_REPORT)
}

/// Writes and syncs `render.json`, the report of a rendering: one line of JSON (RFC 8259) with sorted members.
///
/// Reads `render.wav` once, in order, for its SHA-256. Uses no memory and changes no other file. The error names the
/// file at which the device failed.
/// If `render.wav` can't be read, nothing is written, and an older report stays.
pub fn write_report<B: Bench>(bench: &mut B, facts: &ReportFacts<'_>) -> Result<(), ReportFault>
    ensures written { IsTrue (B.honest bench.old)
        → OnOk result (B.stored bench.new report_name
        ≡ Some (report_text (facts_of facts.now) (content (B.stored bench.old) sound_name))) }
    ensures exists { IsTrue (B.honest bench.old) → OnOk result (IsSome (B.stored bench.old sound_name)) }
    ensures unbegun { IsErrOf result ReportFault.Sound → B.stored bench.new ≡ B.stored bench.old }
    ensures durable { IsTrue (B.honest bench.old)
        → OnOk result (IsDurable report_name (B.stored bench.new) (B.may_leave bench.new)) }
    ensures beside { Spares B.Bench bench.old bench.new }
    ensures only_writes { OnlyWrites B.Bench (λ n. n ≢ report_name) bench.old bench.new result (λ _. ⊤)
        (λ fault failed. failed (name_of fault)) }
{
    let digest = match sound_digest(bench) {
        Ok(digest) => digest,
        Err(_) => return Err(ReportFault::Sound),
    };
    match write(bench, &Report { facts, digest }) {
        Ok(()) => Ok(()),
        Err(_) => Err(ReportFault::Report),
    }
}
