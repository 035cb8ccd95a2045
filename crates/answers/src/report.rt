// What is told of a command that is done.
ghost use Rattle.std.specs.Prelude.{◌++◌, ◌∷◌, []};
ghost use Rattle.console.specs.Lines.{counts_text, notices_text};
ghost use Rattle.console.specs.Printing.{Prints};

use adlread::rate_of;
use console::{Console, Counts, put_counts, put_notices};
use consolidate::Clipping;
use list_terms::Notice;
use remarks::{ClippedLine, Rendering};

/// Prints the notices and the line of a command that is done.
pub fn tell_done<C: Console>(
    console: &mut C,
    notices: &[Notice],
    words: Counts<'_>,
    first: u64,
    second: u64,
)
    ensures { Prints C.contents C.failures console.old console.new
        ((notices_text notices.now
        ++ counts_text words.entry.before.now words.entry.between.now words.entry.after.now first second)
        ++ 10 ∷ []) }
{
    put_notices(console, notices);
    put_counts(console, words, first, second);
    console.end_line();
}

/// Reports what was clipped of a rendering of this list, where something was.
pub fn tell_clipping<E: Console>(
    clipping: Clipping,
    rendering: Rendering,
    list: &[u8],
    err: &mut E,
) {
    err.print(ClippedLine {
        clips: clipping.clips,
        start: clipping.start,
        channels: clipping.channels,
        rendering,
        rate: rate_of(list),
    });
}
