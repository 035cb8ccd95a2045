//! `adlcons` checks, consolidates, renders and compares audio decision lists over folders of sound files. Without arguments
//! it renders a stored example in memory and prints the samples.
//!
//! Proved: unless the status is 2, `answer_words` made the call that the arguments ask for, over some list, the named folder
//! of sources and the named output folder, in which only `resume` may replace files; or the list or a folder prevented that,
//! and this was printed (`checked`, `reported`, `rendered`, `resumed`, `consolidated`, `compared`, `verified`). A read-only
//! command is prevented only by its list or lack of memory (18, 21). A consolidation uses the standard groups. Arguments
//! that ask for nothing exit with 2, except help and the version (`refused_words`, `help`). With 2 nothing was printed on
//! standard output (`two`), and the arguments ask for nothing, for what cannot be done over some list, or could not be read
//! for lack of memory (`mistake`). What was written to a folder then is specified by `answer_standard` only. `main` and the
//! texts of help, explanations and mistakes are not specified.
#![tactic(auto)]

mod example;
mod folders;
mod looks;
mod stored;
mod two_lists;
mod verification;

use anyhow::Result;
use console::Printer;
use findings::Shown;
use folders::answer_words;
use places::ProgressLine;
use std::env::FillError;
use std::io::IsTerminal;
use std::process::ExitCode;
use std::rt::Env;
use std::{env, io, str};
use stored::run_stored;

/// How many words are looked at for one that isn't UTF-8, and how many bytes of it are shown.
const MOST_WORDS: usize = 65_536;

const WORD_BYTES: usize = 160;

/// The words behind the program's name.
fn words_of(rt: &(impl Env + AllocGlobal)) -> io::Result<Vec<String>> {
    let words = env::args(rt)?.skip(1).collect(rt.alloc())?;
    Ok(words)
}

/// Answers the words of the command line with a status. Words that can't be read are a mistake, as is out of memory
/// for them. That standard output can't be written changes no status, and is told.
fn run_words(rt: &HostRuntime, words: &[String]) -> io::Result<u8> {
    let words: Vec<&str> = words.iter().map(|word| word.as_str()).collect(rt.alloc())?;
    let mut out = Printer::new(rt.alloc(), rt.stdout())?;
    let mut err = Printer::new(rt.alloc(), rt.stderr())?;
    let console = Printer::new(rt.alloc(), rt.stderr())?;
    let line = ProgressLine::new(rt, console, rt.stderr().is_terminal());
    let status = answer_words(rt, words.as_slice(), &mut out, &mut err, &line);
    if out.has_failed() {
        let _ = rt.eprintln("error: standard output can't be written");
    }
    Ok(status)
}

/// Tells why the words can't be read: which one isn't UTF-8, or what the system said.
fn tell_unread(rt: &HostRuntime, error: io::Error) -> io::Result<()> {
    let mut buffer = [0; 4096];
    for position in 1..MOST_WORDS {
        match rt.arg(position, &mut buffer) {
            Ok(length) => {
                let word = &buffer[..length];
                if str::from_utf8(word).is_err() {
                    let word = Shown(word, WORD_BYTES);
                    return rt.eprintln(format_args!("error: word {position} isn't UTF-8: {word}"));
                }
            }
            Err(FillError::NotPresent) => break,
            Err(FillError::TooLong) => {}
        }
    }
    rt.eprintln(format_args!("error: the words can't be read: {error}"))
}

/// Renders the stored example, and says on a terminal where to go on.
fn run_without_words(rt: &HostRuntime) -> Result<ExitCode> {
    run_stored(rt)?;
    if rt.stderr().is_terminal() {
        let _ = rt.eprintln("this was a stored example; 'adlcons --help' tells the commands");
    }
    Ok(ExitCode::SUCCESS)
}

fn main(rt: HostRuntime) -> Result<ExitCode> {
    let status = match words_of(&rt) {
        Ok(words) if words.is_empty() => return run_without_words(&rt),
        Ok(words) => run_words(&rt, words.as_slice()),
        Err(error) => Err(error),
    };
    match status {
        Ok(status) => Ok(ExitCode::from(status)),
        Err(error) => {
            let _ = tell_unread(&rt, error);
            Ok(ExitCode::from(2))
        }
    }
}
