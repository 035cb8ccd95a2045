// Reads the list that the words name.
ghost use Rattle.std.specs.Prelude.{◌≡◌, IfSome, IfOk, vec_len};
ghost use Rattle.places.specs.Opening.{refusal_of_read};
ghost use Rattle.places.specs.Reading.{reason_of_read};
ghost use Rattle.console.specs.Places.{where_of};

use console::Refusal;
use shelf::FolderStores;
use std::alloc::{AllocError, Global};
use std::fs::{Files, OpenFile};
use std::io::{Error, ErrorKind, Read};
use std::os::unix::fs::FileTypeExt;
use std::{fs, io};

/// The path of the file that standard input is.
pub const STANDARD_INPUT: &str = "/dev/stdin";

/// The number of reads by which a list has to end.
const MOST_READS: u32 = 1_048_576;

/// How many bytes one read asks for.
const READ_SIZE: usize = 65_536;

/// How much of a list is read before it is judged whether that can begin one.
const FRONT_SIZE: u64 = 65_536;

/// How much of that isn't judged, so that a line at fault can be shown as far as lines are.
const UNJUDGED: usize = 4096;

/// What a list begins with behind blank lines, in any case.
const TAG: &[u8] = b"<ADL>";

/// Why a list wasn't read.
#[derive(Clone, Copy, Debug)]
pub enum ReadFault {
    /// It isn't there, or can't be read, for this reason.
    Unreadable(io::Error),
    /// It doesn't end.
    Endless,
    /// Out of memory.
    Memory,
}

impl ReadFault {
    /// The refusal of the list of this path.
    pub fn refusal<'a>(self, path: &'a str) -> Refusal<'a>
        ensures number { result.number ≡ (refusal_of_read self path.entry.now).number }
        ensures location { where_of result.location ≡ (refusal_of_read self path.entry.now).location }
    {
        match self {
            ReadFault::Unreadable(_) | ReadFault::Endless => Refusal::of_file(21, path),
            ReadFault::Memory => Refusal::MEMORY,
        }
    }

    /// What the system said of it.
    pub fn reason(self) -> Option<io::Error>
        ensures { result ≡ reason_of_read self }
    {
        match self {
            ReadFault::Unreadable(error) => Some(error),
            ReadFault::Endless | ReadFault::Memory => None,
        }
    }
}

impl From<AllocError> for ReadFault {
    fn from(_: AllocError) -> Self {
        ReadFault::Memory
    }
}

impl From<io::Error> for ReadFault {
    fn from(error: io::Error) -> Self {
        match error.kind() {
            ErrorKind::OutOfMemory => ReadFault::Memory,
            _ => ReadFault::Unreadable(error),
        }
    }
}

/// The text of a list, and the stores of the command, which never write to the file that the text came from.
#[derive(Drop)]
pub struct GivenList {
    pub text: Vec<u8>,
    pub stores: FolderStores,
}

/// Reads the file of this path, or standard input for `-`.
pub fn read_list<R: Files + Input + AllocGlobal>(rt: &R, path: &str) -> Result<Vec<u8>, ReadFault> {
    Ok(read_given_list(rt, path)?.text)
}

/// Reads the file of this path, or standard input for `-`, for a command that writes.
pub fn read_given_list<R: Files + Input + AllocGlobal>(
    rt: &R,
    path: &str,
) -> Result<GivenList, ReadFault> {
    let stores = FolderStores::new(rt.alloc())?;
    let text = if path == "-" {
        stores.add_list(fs::metadata(rt, STANDARD_INPUT).ok().as_ref())?;
        read_text(rt.alloc(), &mut rt.reader())?
    } else {
        require_no_device(rt, path)?;
        let mut file = fs::open(rt, path)?;
        stores.add_list(file.metadata().ok().as_ref())?;
        read_text(rt.alloc(), &mut file)?
    };
    Ok(GivenList { text, stores })
}

/// Fails where the path leads to a device, which may have no end.
fn require_no_device<R: Files>(files: &R, path: &str) -> Result<(), ReadFault> {
    let kind = fs::metadata(files, path)?.file_type();
    if kind.is_char_device() || kind.is_block_device() {
        return Err(ReadFault::Unreadable(Error::from(ErrorKind::InvalidInput)));
    }
    Ok(())
}

/// Reads a text to its end; where its front can't begin a list, no further, since what follows changes no answer then.
fn read_text<R: Read>(alloc: Global, reader: &mut R) -> Result<Vec<u8>, ReadFault> {
    let front = read_to_end(alloc, &mut reader.by_ref().take(FRONT_SIZE))?;
    let is_whole = (front.len() as u64) < FRONT_SIZE;
    let judged = front.len().saturating_sub(UNJUDGED);
    if is_whole || !may_begin_list(&front[..judged]) {
        return Ok(front);
    }
    read_to_end(alloc, &mut front.as_slice().chain(reader))
}

/// Whether a text that begins so may be a list: as far as it goes it has blank lines, and then `<ADL>` in a line of its
/// own. Where it can't be one, its first line that isn't blank is at fault, whatever follows.
fn may_begin_list(front: &[u8]) -> bool {
    let text = front.strip_prefix(b"\xEF\xBB\xBF").unwrap_or(front);
    let blanks = text.iter().take_while(|byte| is_white(**byte)).count();
    let (_, line) = text.split_at(blanks);
    let (tag, rest) = line.split_at(line.len().min(TAG.len()));
    let (expected, _) = TAG.split_at(tag.len());
    tag.eq_ignore_ascii_case(expected) && rest.first().is_none_or(|byte| is_white(*byte))
}

/// Whether a byte is a blank, or may end a line.
fn is_white(byte: u8) -> bool {
    matches!(byte, b' ' | b'\t' | b'\r' | b'\n')
}

/// Reads to the end, which has to come within so many reads. A read that a signal interrupts is one of them.
pub fn read_to_end<R: Read>(alloc: Global, reader: &mut R) -> Result<Vec<u8>, ReadFault>
    ensures { IfSome (R.remaining reader.old) (λ bytes. IfOk result (λ list. list.items ≡ bytes)) }
{
    let mut list = Vec::new(alloc);
    let mut buffer = zeros(alloc, READ_SIZE)?;
    for _ in 0..MOST_READS {
        match reader.read(&mut buffer) {
            Ok(0) => return Ok(list),
            Ok(count) => list.extend_from_slice(&buffer[..count])?,
            Err(error) if error.kind() == ErrorKind::Interrupted => {}
            Err(error) => return Err(ReadFault::from(error)),
        }
    }
    Err(ReadFault::Endless)
}

/// So many zeros.
fn zeros(alloc: Global, count: usize) -> Result<Vec<u8>, AllocError>
    ensures { IfOk result (λ zeros. vec_len zeros ≡ count) }
{
    vec![in alloc; 0; count]
}
