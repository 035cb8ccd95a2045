// Errors of making, setting and reading marks.
ghost use Rattle.std.specs.Prelude.{◌≡◌, Some};
ghost use Rattle.markfile.specs.Fault.{name_of_file, number_of};

use crate::{MARKS, SOUND};
use std::fmt;
use thiserror::Error;

/// One of the two files of a rendering.
#[derive(Clone, Copy, Debug, PartialEq, Eq)]
pub enum MarkedFile {
    /// The rendered file, `render.wav`.
    Sound,
    /// The file of marks, `render.marks`.
    Marks,
}

impl fmt::Display for MarkedFile {
    ghost output = { λ file. Some (name_of_file file) };

    fn fmt<W: fmt::Write>(&self, f: &mut fmt::Formatter<W>) -> fmt::Result {
        match self {
            MarkedFile::Sound => f.write_str(SOUND),
            MarkedFile::Marks => f.write_str(MARKS),
        }
    }
}

/// The reason why the marks of a rendering can't be made, set or read.
#[derive(Clone, Copy, Debug, PartialEq, Eq, Error)]
pub enum MarkFault {
    /// 62: a device failure at this file. The marks may be partly written.
    #[error("{file} can't be read or written")]
    Device { file: MarkedFile },
    /// 67: the marks belong to another list, or to another range, depth or number of channels.
    #[error("the marks belong to another rendering")]
    OtherRun,
    /// 68: the file has no complete marks, or the rendered file isn't the one they belong to.
    #[error("the marks are broken, or the rendered file isn't theirs")]
    BadMarks,
    /// 69: out of memory.
    #[error("out of memory")]
    Memory,
}

impl MarkFault {
    /// Returns the number of the refusal: 62, 67, 68 or 69.
    pub fn number(&self) -> u8
        ensures { result ≡ number_of self.now }
    {
        match self {
            MarkFault::Device { .. } => 62,
            MarkFault::OtherRun => 67,
            MarkFault::BadMarks => 68,
            MarkFault::Memory => 69,
        }
    }
}
