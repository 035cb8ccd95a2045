// The command line of the program, and the program as a function.
use answers::{HeldLines, answer};
use clap::Command;
use commandline::{VERSION, command};
use passes::Pass;
use shelf::{Bench, Reasons, Shelf};
use std::alloc::{AllocError, Global};

/// Returns the program's command line.
pub fn program<'a>(alloc: Global) -> Result<Command<'a>, AllocError> {
    command(alloc)
}

/// Returns the program's version.
pub fn version() -> &'static str {
    VERSION
}

/// Runs the program with the given arguments. Returns its exit status, standard output and standard
/// error.
pub fn answered<S: Shelf + Reasons, B: Bench + Reasons>(
    alloc: Global,
    words: &[&str],
    list: &[u8],
    passes: Vec<Box<dyn Pass>>,
    shelf: &mut S,
    bench: &mut B,
) -> (u8, HeldLines, HeldLines) {
    let mut out = HeldLines::new(alloc);
    let mut err = HeldLines::new(alloc);
    let status = answer(alloc, words, list, passes, shelf, bench, &mut out, &mut err);
    (status, out, err)
}
