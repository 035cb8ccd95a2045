// File names of media.
ghost use Rattle.std.specs.Prelude.{◌≡◌, IfOk, string_bytes};
ghost use Rattle.list_terms.specs.Renewed as spec;

use std::alloc::{AllocError, Global};

/// Returns the file name of a medium: `M`, the number with at least five digits, and `.wav`. Returns `AllocError`
/// if out of memory.
pub fn media_name(alloc: Global, number: u32) -> Result<String, AllocError>
    ensures { IfOk result (λ name. string_bytes name ≡ spec.media_name number) }
{
    format!(in alloc; "M{number:05}.wav")
}
