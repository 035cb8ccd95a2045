// Checksum files in the format of `sha256sum -c`.
ghost use Rattle.std.specs.Prelude.{◌≡◌, ◌++◌, IfOk, OnOk, codes};
ghost use Rattle.sha2.specs.Sha256.{sha256};
ghost use Rattle.digests.specs.Sums as spec;
ghost use Rattle.digests.specs.Sums.{medium_line, sum_line, sums_of};

use crate::Medium;
use relink::media_name;
use sha2::{Digest, Sha256};
use std::alloc::{AllocError, Global};

/// Adds the line of the named file.
fn push_line(
    alloc: Global,
    sums: &mut Vec<u8>,
    digest: &[u8; 32],
    name: &str,
) -> Result<(), AllocError>
    ensures { OnOk result (sums.new.items ≡ sums.old.items ++ sum_line digest.now name.now) }
{
    let digits = hex::encode(alloc, digest)?;
    sums.extend_from_slice(digits.as_bytes())?;
    sums.extend_from_slice(b"  ")?;
    sums.extend_from_slice(name.as_bytes())?;
    sums.push(b'\n')?;
    Ok(())
}

/// Adds the line of a medium.
fn push_medium(alloc: Global, sums: &mut Vec<u8>, medium: &Medium) -> Result<(), AllocError>
    ensures { OnOk result (sums.new.items ≡ sums.old.items ++ medium_line medium.now) }
{
    let name = media_name(alloc, medium.number)?;
    push_line(alloc, sums, &medium.digest, name.as_str())
}

/// Adds the line of a file with the given content.
fn push_file(alloc: Global, sums: &mut Vec<u8>, bytes: &[u8], name: &str) -> Result<(), AllocError>
    ensures { OnOk result (sums.new.items ≡ sums.old.items ++ sum_line (sha256 bytes.now) name.now) }
{
    let digest = Sha256::digest(bytes);
    push_line(alloc, sums, &digest, name)
}

/// Returns the checksum file of media, list and report. Returns `AllocError` if out of memory.
pub fn sums_text(
    alloc: Global,
    media: &[Medium],
    list: &[u8],
    json: &[u8],
) -> Result<Vec<u8>, AllocError>
    ensures { IfOk result (λ sums. sums.items ≡ sums_of media.now list.now json.now) }
{
    let mut sums = Vec::new(alloc);
    for medium in media {
        push_medium(alloc, &mut sums, medium)?;
    }
    push_file(alloc, &mut sums, list, "consolidated.adl")?;
    push_file(alloc, &mut sums, json, "consolidated.json")?;
    Ok(sums)
}
