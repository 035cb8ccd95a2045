// File names in URLs.
ghost use Rattle.std.specs.Prelude.{◌≡◌, IfNone, IfOk, IfSome, false, option_map, string_bytes, take, true};
ghost use Rattle.std.specs.List.{after_last, list_any};
ghost use Rattle.std.specs.Str.{is_utf8};
ghost use Rattle.percent_encoding.specs.Percent as spec_percent;
ghost use Rattle.list_terms.specs.Names as spec;
ghost use Rattle.list_terms.specs.Names.{place_of_url};

use adltoken::{behind_byte, starts_in_any_case};
use percent_encoding::percent_decode;
use std::alloc::{AllocError, Global};
use std::marker::Model;
use std::str;

/// The file that a URL names: the decoded path, and the name of its last component.
#[derive(Debug, Drop)]
pub struct Place {
    path: Vec<u8>,
    name: String,
}

impl Model for Place {
    ghost use Rattle.std.specs.Prelude.{string_bytes};
    ghost use Rattle.list_terms.specs.Names as names;

    ghost Value = { names.Place };

    ghost view = { λ p. record { path = p.path.items; name = string_bytes p.name } };
}

impl Place {
    /// Returns the decoded path, without its leading `/`.
    pub fn path(&self) -> &[u8]
        ensures { result.now ≡ self.now.path }
    {
        self.path.as_slice()
    }

    /// Returns the file name: UTF-8, not empty, not `.` or `..`, without `/` or NUL.
    pub fn name(&self) -> &str
        ensures { result.now ≡ self.now.name }
    {
        self.name.as_str()
    }

    /// Returns the file name, without copying.
    pub fn into_name(self) -> String
        ensures { string_bytes result ≡ self.name }
    {
        self.name
    }
}

/// Returns the file that a URL names. The URL consists of an optional `URL:`, `file://`, an authority, `/` and a
/// percent-encoded path.
///
/// Returns `None` if the text isn't such a URL, or if the last component of its path isn't a valid file name.
/// Returns `AllocError` if out of memory.
pub fn place_of(alloc: Global, url: &[u8]) -> Result<Option<Place>, AllocError>
    ensures { IfOk result (λ location. location ≡ place_of_url url.now) }
{
    let Some(path) = path_of(url) else {
        return Ok(None);
    };
    place_of_path(alloc, path)
}

/// Decodes a path and checks its last component.
fn place_of_path(alloc: Global, path: &[u8]) -> Result<Option<Place>, AllocError>
    ensures { IfOk result (λ location. location ≡ spec.place_of_path path.now) }
{
    let name = decoded(alloc, behind_last_slash(path))?;
    let Some(name) = media_name(name) else {
        return Ok(None);
    };
    let path = decoded(alloc, path)?;
    Ok(Some(Place { path, name }))
}

/// Returns the encoded path of a file URL.
fn path_of(url: &[u8]) -> Option<&[u8]>
    ensures { option_map (λ path. path.now) result ≡ spec.path_of_url url.now }
{
    let file = without(b"url:", url);
    if starts_in_any_case(b"file://", file) {
        behind_byte(b'/', without(b"file://", file))
    } else {
        None
    }
}

/// Strips a prefix, in any case, if `bytes` has it.
fn without<'a>(text: &[u8], bytes: &'a [u8]) -> &'a [u8]
    ensures { result.now ≡ spec.without text.now bytes.now }
{
    if starts_in_any_case(text, bytes) && text.len() <= bytes.len() {
        bytes.split_at(text.len()).1
    } else {
        bytes
    }
}

/// Returns the text after the last slash, or the whole text if there is none.
fn behind_last_slash(text: &[u8]) -> &[u8]
    ensures { result.now ≡ after_last spec.is_slash text.now }
{
    let mut start = text.len();
    while start > 0 && text[start - 1] != b'/' {
        start -= 1;
    }
    text.split_at(start).1
}

/// Decodes percent escapes.
fn decoded(alloc: Global, text: &[u8]) -> Result<Vec<u8>, AllocError>
    ensures { IfOk result (λ bytes. bytes.items ≡ spec_percent.percent_decode text.now) }
{
    let mut bytes = Vec::new(alloc);
    percent_decode(text).append_to(&mut bytes)?;
    Ok(bytes)
}

/// Returns the name as a string if it is a valid file name.
fn media_name(name: Vec<u8>) -> Option<String>
    ensures name { IfSome result (λ text. (spec.is_media_name name.items ≡ true) × (string_bytes text ≡ name.items)) }
    ensures none { IfNone result (spec.is_media_name name.items ≡ false) }
{
    if is_media_name(name.as_slice()) {
        String::from_utf8(name).ok()
    } else {
        None
    }
}

/// Returns whether a name can only be a file in the folder.
fn is_media_name(name: &[u8]) -> bool
    ensures { result ≡ spec.is_media_name name.now }
{
    is_text(name) && !is_dots(name) && !has_slash_or_nul(name)
}

fn is_text(name: &[u8]) -> bool
    ensures { result ≡ is_utf8 name.now }
{
    str::from_utf8(name).is_ok()
}

fn is_dots(name: &[u8]) -> bool
    ensures { result ≡ spec.is_dots name.now }
{
    name.is_empty() || name == b".".as_slice() || name == b"..".as_slice()
}

fn has_slash_or_nul(name: &[u8]) -> bool
    ensures { result ≡ list_any spec.is_slash_or_nul name.now }
{
    name.iter().any(|byte| *byte == b'/' || *byte == 0)
}
