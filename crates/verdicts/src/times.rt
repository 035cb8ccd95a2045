// What the words choose of a comparison, and times that can't be read.
ghost use Rattle.std.specs.Prelude.{◌≡◌, Err, IfErr, IfOk, Ok, option_map};
ghost use Rattle.sampletime.specs.FrameRate.{frames_per_second};
ghost use Rattle.comparison.specs.Range.{HasChannels};
ghost use Rattle.commandline.specs.Request.{selected_of};
ghost use Rattle.console.specs.Printing.{Prints};
ghost use Rattle.verdicts.specs.BadTime.{name_of};
ghost use Rattle.verdicts.specs.Times.{bad_time_line, selection_of, time_in};

use crate::status::MISTAKE;
use commandline::Selected;
use comparison::Selection;
use console::Console;
use sampletime::{Rate, SampleTime, parse_time};

/// The option whose time can't be read.
#[derive(Clone, Copy, Debug, PartialEq, Eq)]
pub enum BadTime {
    From,
    To,
}

/// Prints which option's time can't be read, in a line.
fn tell_bad_time<C: Console>(bad: BadTime, console: &mut C)
    ensures { Prints C.contents C.failures console.old console.new (bad_time_line (name_of bad)) }
{
    console.put(b"bad time: ");
    console.put(match bad {
        BadTime::From => b"--from",
        BadTime::To => b"--to",
    });
    console.end_line();
}

/// What of two lists is compared by what the words choose, with times at this rate. `--from` is looked at before `--to`.
pub fn selection_of(selected: Selected<'_>, rate: Rate) -> Result<Selection, BadTime>
    ensures read { IfOk result (λ selection. selection_of (frames_per_second rate) (selected_of selected.entry)
        ≡ Ok selection) }
    ensures channels { IfOk result HasChannels }
    ensures bad { IfErr result (λ bad. selection_of (frames_per_second rate) (selected_of selected.entry)
        ≡ Err (name_of bad)) }
{
    let from = time_of(selected.from, rate).ok_or(BadTime::From)?;
    let to = time_of(selected.to, rate).ok_or(BadTime::To)?;
    Ok(Selection {
        from,
        to,
        channels: selected.channels,
    })
}

/// The time that a text spells at this rate, where there is a text.
pub fn time_of(text: Option<&str>, rate: Rate) -> Option<Option<SampleTime>>
    ensures { result ≡ time_in (frames_per_second rate) (option_map (λ text. text.now) text.entry) }
{
    match text {
        None => Some(None),
        Some(text) => match parse_time(text.as_bytes(), rate) {
            Some((time, _)) => Some(Some(time)),
            None => None,
        },
    }
}

/// Prints which option's time can't be read, and answers the status.
pub fn refuse_time<E: Console>(bad: BadTime, err: &mut E) -> u8
    ensures status { result ≡ 2 }
    ensures printed { Prints E.contents E.failures err.old err.new (bad_time_line (name_of bad)) }
{
    tell_bad_time(bad, err);
    MISTAKE
}
