// What to do about a refusal, by what the system said.
use std::fmt;
use std::io::{Error, ErrorKind};

/// What the system said, or what it means that a store failed without a word of the system.
#[derive(Clone, Copy)]
pub struct SystemWord(pub Error);

impl fmt::Display for SystemWord {
    fn fmt<W: fmt::Write>(&self, f: &mut fmt::Formatter<W>) -> fmt::Result {
        let error = self.0;
        match (error.raw_os_error(), error.kind()) {
            (None, ErrorKind::InvalidInput) => f.write_str("it isn't a plain file"),
            (None, ErrorKind::UnexpectedEof) => f.write_str("it is shorter than it was"),
            (None, ErrorKind::NotFound) => f.write_str("it is gone"),
            (_, ErrorKind::StorageFull) => write!(f, "the disk is full: {error}"),
            (_, ErrorKind::QuotaExceeded) => write!(
                f,
                "the disk has no more room for you: {error}"
            ),
            _ => write!(f, "{error}"),
        }
    }
}

/// What to do about a refusal of this number, where a call failed in this way or a rendering may go on from what is
/// unfinished; none where that says no more than the number.
pub fn remedy_by(number: u8, kind: Option<ErrorKind>, goes_on: bool) -> Option<&'static str> {
    match number {
        20 => output_folder_remedy(kind?),
        21 => list_remedy(kind?),
        22 | 52 => source_remedy(kind?),
        60 if goes_on => Some("free memory, and go on with adlcons resume and the same words"),
        62 if goes_on => Some(unfinished_remedy(kind?)),
        62 => Some(output_remedy(kind?)),
        66 if goes_on => Some(unfinished_job_remedy(kind)),
        66 => Some(job_remedy(kind)),
        _ => None,
    }
}

/// What to do about a rendering of which a piece of work failed three times. One whose files are others by now can't go
/// on.
fn unfinished_job_remedy(kind: Option<ErrorKind>) -> &'static str {
    match kind {
        Some(ErrorKind::NotFound | ErrorKind::InvalidData | ErrorKind::UnexpectedEof) => {
            "leave the sources and the output alone while the command runs, and run again into an empty folder"
        }
        Some(ErrorKind::StorageFull | ErrorKind::QuotaExceeded) => {
            "make room, and go on with adlcons resume and the same words"
        }
        _ => "check the devices, and go on with adlcons resume and the same words",
    }
}

/// What to do about a consolidation of which a piece of work failed three times.
fn job_remedy(kind: Option<ErrorKind>) -> &'static str {
    match kind {
        Some(ErrorKind::StorageFull | ErrorKind::QuotaExceeded) => {
            "make room, and run again into an empty folder"
        }
        _ => "check the devices, and run again into an empty folder",
    }
}

/// What to do about a folder that can't be listed.
fn output_folder_remedy(kind: ErrorKind) -> Option<&'static str> {
    match kind {
        ErrorKind::NotFound => Some("make that folder first"),
        ErrorKind::NotADirectory => Some("name a folder, which this isn't"),
        ErrorKind::PermissionDenied => Some("get permission to list that folder, or name another"),
        _ => None,
    }
}

/// What to do about a list that can't be read.
fn list_remedy(kind: ErrorKind) -> Option<&'static str> {
    match kind {
        ErrorKind::NotFound => Some("check the path"),
        ErrorKind::IsADirectory => Some("name the list itself, not its folder"),
        ErrorKind::InvalidInput => Some("name a file or a pipe, or - for standard input"),
        ErrorKind::PermissionDenied => Some("get permission to read it"),
        _ => None,
    }
}

/// What to do about a source that can't be read.
fn source_remedy(kind: ErrorKind) -> Option<&'static str> {
    match kind {
        ErrorKind::PermissionDenied => Some("get permission to read it"),
        ErrorKind::InvalidInput => Some("put a plain file there"),
        ErrorKind::InvalidData | ErrorKind::UnexpectedEof => {
            Some("leave the file alone while the command runs, and run again into an empty folder")
        }
        _ => None,
    }
}

/// What to do about a rendering that is unfinished since its output can't be written.
fn unfinished_remedy(kind: ErrorKind) -> &'static str {
    match kind {
        ErrorKind::StorageFull | ErrorKind::QuotaExceeded => {
            "make room, and go on with adlcons resume and the same words"
        }
        ErrorKind::PermissionDenied => {
            "get permission to write there, and go on with adlcons resume and the same words"
        }
        ErrorKind::ReadOnlyFilesystem
        | ErrorKind::FileTooLarge
        | ErrorKind::AlreadyExists
        | ErrorKind::NotFound
        | ErrorKind::InvalidData
        | ErrorKind::UnexpectedEof => output_remedy(kind),
        _ => "check the device, and go on with adlcons resume and the same words",
    }
}

/// What to do about an output that can't be written.
fn output_remedy(kind: ErrorKind) -> &'static str {
    match kind {
        ErrorKind::StorageFull | ErrorKind::QuotaExceeded => {
            "make room, and run again into an empty folder"
        }
        ErrorKind::PermissionDenied =>
            "get permission to write there, or name another empty folder",
        ErrorKind::ReadOnlyFilesystem => "name an empty folder on a disk that may be written",
        ErrorKind::FileTooLarge =>
            "name an empty folder on a file system that takes such long files",
        ErrorKind::AlreadyExists
        | ErrorKind::NotFound
        | ErrorKind::InvalidData
        | ErrorKind::UnexpectedEof => {
            "run again into an empty folder that nothing else uses meanwhile"
        }
        _ => "check the device, and run again into an empty folder",
    }
}
