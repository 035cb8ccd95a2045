// Faults of writing a report.

/// The file at which the device failed.
#[derive(Clone, Copy, Debug, PartialEq, Eq)]
pub enum ReportFault {
    /// `render.wav`, which is read again.
    Sound,
    /// `render.json`, whose contents are incomplete.
    Report,
}
