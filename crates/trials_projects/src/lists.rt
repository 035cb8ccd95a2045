// Lists over the file `A.wav`.
use std::alloc::{AllocError, Global};

/// Index of the file, which starts at midnight.
const SOURCE: &str = "(Index) 1 (F) \"URL:file://localhost/A.wav\" _ 00.00.00.00/0000 _
";

/// An entry of the 12 sample frames of a stereo file, with a fade-in and a fade-out of four each.
pub const FADED: &str =
    "(Entry) 1 (Cut) I 1 1~2 1~2 00.00.00.00/0000 00.00.00.00/0000 00.00.00.00/0012
(Infade) 00.00.00.00/0004 LIN
(Outfade) 00.00.00.00/0004 LIN
";

/// Returns a list with the given index and entry lines. Returns `AllocError` if out of memory.
pub fn list_of(alloc: Global, sources: &str, entries: &str) -> Result<String, AllocError> {
    format!(in alloc;
        "<ADL>
<SEQUENCE>
(SEQ_SAMPLE_RATE) S48000
(SEQ_FRAME_RATE) 25
</SEQUENCE>
<SOURCE_INDEX>
{sources}</SOURCE_INDEX>
<EVENT_LIST>
{entries}</EVENT_LIST>
</ADL>
"
    )
}

/// Returns a list with the given entry lines over the file. Returns `AllocError` if out of memory.
pub fn list(alloc: Global, entries: &str) -> Result<String, AllocError> {
    list_of(alloc, SOURCE, entries)
}
