// Sources.
ghost use Rattle.std.specs.Prelude.{◌≡◌, IfOk};

use crate::bytes::Bytes;
use sampletime::SampleTime;
use std::alloc::AllocError;
use std::marker::Model;

/// A line of SOURCE_INDEX: its number, the URL of a file, an identifier, the time of the file's first sample, and a
/// length. The identifier and the length are kept, but nothing depends on them.
#[derive(Debug, Drop)]
pub struct Source {
    number: u32,
    url: Bytes,
    uid: Bytes,
    start: Option<SampleTime>,
    length: Option<SampleTime>,
}

impl Model for Source {
    ghost use Rattle.list_terms.specs.Project as list;

    ghost Value = { list.Source };

    ghost view = { λ s. record { number = s.number; url = s.url; uid = s.uid; start = s.start; length = s.length } };
}

impl Source {
    /// Creates a source from the fields of its line.
    pub fn new(
        number: u32,
        url: Bytes,
        uid: Bytes,
        start: Option<SampleTime>,
        length: Option<SampleTime>,
    ) -> Self
        ensures { result ≡ record { number = number; url = url; uid = uid; start = start; length = length } }
    {
        Source {
            number,
            url,
            uid,
            start,
            length,
        }
    }

    /// Copies the source. Returns `AllocError` if out of memory.
    pub fn try_copy(&self) -> Result<Self, AllocError>
        ensures { IfOk result (λ copy. copy ≡ self.now) }
    {
        let url = self.url.try_copy()?;
        let uid = self.uid.try_copy()?;
        Ok(Source {
            number: self.number,
            url,
            uid,
            start: self.start,
            length: self.length,
        })
    }

    /// Returns the number by which entries refer to this source.
    pub fn number(&self) -> u32
        ensures { result ≡ self.now.number }
    {
        self.number
    }

    /// Returns the URL of the file.
    pub fn url(&self) -> &[u8]
        ensures { result.now ≡ self.now.url }
    {
        self.url.as_slice()
    }

    /// Returns the identifier, verbatim as its token in the list.
    pub fn uid(&self) -> &[u8]
        ensures { result.now ≡ self.now.uid }
    {
        self.uid.as_slice()
    }

    /// Returns the time of the file's first sample, in samples after midnight, or `None` if the list doesn't give
    /// it.
    pub fn start(&self) -> Option<SampleTime>
        ensures { result ≡ self.now.start }
    {
        self.start
    }

    /// Returns the length in samples, or `None` if the list doesn't give it.
    pub fn length(&self) -> Option<SampleTime>
        ensures { result ≡ self.now.length }
    {
        self.length
    }
}
