// Chunks of a file in memory with each read failing in turn, and the text of an error.
use riff::{Chunks, MediaFault, Span, walk};
use shelf::MemoryShelf;
use std::test::Fail;

/// A file with `fmt ` and four bytes of `data` (RIFF WAVE).
const FILE: &[u8] =
    b"RIFF\0\0\0\0WAVEfmt \x10\0\0\0\x01\0\x01\0\x80\xbb\0\0\0\x77\x01\0\x02\0\x10\0data\x04\0\0\0\x01\x02\x03\x04";

const CHUNKS: Chunks = Chunks {
    format: Span { at: 20, length: 16 },
    sound: Span { at: 44, length: 4 },
    bext: None,
    others: false,
    seen: 2,
};

/// The first call that fails, and the expected result: a walk makes three calls.
const WALKED: [(u64, Result<Chunks, MediaFault>); 5] = [
    (0, Err(MediaFault::Device)),
    (1, Err(MediaFault::Device)),
    (2, Err(MediaFault::Device)),
    (3, Err(MediaFault::Device)),
    (4, Ok(CHUNKS)),
];

#[test]
fn chunks_are_found_where_no_read_fails(rt: HostRuntime) -> Result<(), Fail> {
    for (call, want) in &WALKED {
        let mut shelf = MemoryShelf::new(rt.alloc())
            .with_file("A.wav", FILE)?
            .failing(*call, 1);
        assert!(rt; walk(&mut shelf, "A.wav") == *want, "{call}");
    }
    Ok(())
}

#[test]
fn a_fault_of_a_file_has_a_text(rt: HostRuntime) -> Result<(), Fail> {
    let text = format!(in rt.alloc(); "{}", MediaFault::Truncated)?;
    assert!(rt; text.as_str() == "it is cut short");
    Ok(())
}
