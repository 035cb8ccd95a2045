// Options of a report.

/// Options of a report: name and version of the writing program, the text of the input list, and
/// whether each source is also hashed as a whole.
#[derive(Clone, Copy, Debug)]
pub struct ReportOn<'a> {
    pub program: &'a str,
    pub version: &'a str,
    pub list: &'a [u8],
    pub digests: bool,
}
