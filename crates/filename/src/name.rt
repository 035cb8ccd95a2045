// Names of files directly inside a folder.
ghost use Rattle.std.specs.Prelude.{◌≡◌, ◌++◌, true, false, IfOk, OnOk, OnErr, codes, string_bytes};
ghost use Rattle.filename.specs.FileName as spec;

use std::alloc::{AllocError, Global};
use std::io;
use std::io::{Error, ErrorKind};

/// A valid name of a file directly inside a folder.
#[derive(Clone, Copy)]
pub struct FileName<'a> {
    pub text: &'a str,
    ghost named: { spec.is_file_name text.now ≡ true },
}

impl FileName<'_> {
    /// Returns the path of this file in the given folder.
    pub fn path_in(&self, alloc: Global, folder: &str) -> Result<String, AllocError>
        ensures { IfOk result (λ path. string_bytes path ≡ folder.now ++ (codes "/" ++ self.now.text.now)) }
    {
        let name = self.text;
        format!(in alloc; "{folder}/{name}")
    }
}

/// Returns true if the name is valid for a file directly inside a folder: not empty, not `.` or `..`, and without slash
/// and NUL.
pub fn is_file_name(name: &str) -> bool
    ensures { result ≡ spec.is_file_name name.now }
{
    !is_dots(name) && name.as_bytes().iter().all(|byte| is_file_name_byte(*byte))
}

/// Checks the name. Returns an error of kind `InvalidFilename` if no file directly inside a folder can have it.
pub fn require_file_name<'a>(name: &'a str) -> io::Result<FileName<'a>>
    ensures text { IfOk result (λ named. named.text.now ≡ name.entry.now) }
    ensures named { OnOk result (spec.is_file_name name.entry.now ≡ true) }
    ensures not_named { OnErr result (spec.is_file_name name.entry.now ≡ false) }
{
    if is_file_name(name) {
        Ok(FileName { text: name })
    } else {
        Err(Error::from(ErrorKind::InvalidFilename))
    }
}

fn is_dots(name: &str) -> bool
    ensures { result ≡ spec.is_dots name.now }
{
    name.is_empty() || name == "." || name == ".."
}

fn is_file_name_byte(byte: u8) -> bool
    ensures { result ≡ spec.is_file_name_byte byte }
{
    byte != b'/' && byte != 0
}
