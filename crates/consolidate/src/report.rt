// Which report of a consolidation is asked for.
ghost use Rattle.std.specs.Prelude.{◌≡◌, option_map};
ghost use Rattle.provenance.specs.Asked.{asked_of};
ghost use Rattle.consolidate.specs.Asked.{asked_on};

use provenance::ReportOn;

/// Which report of a consolidation is asked for: by the program of this name and version, and whether it has the digest
/// of each source as a whole.
#[derive(Clone, Copy, Debug)]
pub struct ReportChoice<'a> {
    pub program: &'a str,
    pub version: &'a str,
    pub digests: bool,
}

/// The report on the list of this text that is asked for, where one is.
pub fn report_on<'a>(list: &'a [u8], report: Option<ReportChoice<'a>>) -> Option<ReportOn<'a>>
    ensures { option_map asked_of result ≡ option_map (asked_on list.entry.now) report.entry }
{
    let choice = report?;
    Some(ReportOn {
        program: choice.program,
        version: choice.version,
        list,
        digests: choice.digests,
    })
}
