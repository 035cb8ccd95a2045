// What the words choose of a rendering or of a picture, as its options.
ghost use Rattle.std.specs.Prelude.{◌≡◌, Err, IfErr, IfOk, Ok, true};
ghost use Rattle.sampletime.specs.FrameRate.{frames_per_second};
ghost use Rattle.rendering.specs.Rendering as rendering;
ghost use Rattle.rendering.specs.Rendering.{HaveChannels};
ghost use Rattle.answers.specs.Answers.{CanBeTimed};
ghost use Rattle.verdicts.specs.BadTime.{name_of};
ghost use Rattle.answers.specs.Times.{part_of, values_of};
ghost use Rattle.commandline.specs.Request.{asked_of, chosen_of, drawn_of};
ghost use Rattle.list_terms.specs.Text.{rate_of as rate_at};

use adlread::rate_of;
use commandline::{Chosen, Drawn, Request};
use consolidate::Options;
use picture::Part;
use sampletime::Rate;
use verdicts::{BadTime, time_of};

/// The options of a rendering by what the words choose, with times at this rate. `--from` is looked at before `--to`.
pub fn options_of(chosen: Chosen<'_>, rate: Rate) -> Result<Options, BadTime>
    ensures read { IfOk result (λ options. values_of (frames_per_second rate) (chosen_of chosen.entry)
        ≡ Ok (rendering.values_of options)) }
    ensures order { IfOk result (λ options. options.order ≡ chosen.entry.order) }
    ensures channels { IfOk result HaveChannels }
    ensures bad { IfErr result (λ bad. values_of (frames_per_second rate) (chosen_of chosen.entry)
        ≡ Err (name_of bad)) }
{
    let from = time_of(chosen.from, rate).ok_or(BadTime::From)?;
    let to = time_of(chosen.to, rate).ok_or(BadTime::To)?;
    Ok(Options {
        from,
        to,
        channels: chosen.channels,
        depth: chosen.depth,
        order: chosen.order,
    })
}

/// The part of the timeline that the words choose of a picture, with times at this rate. `--from` is looked at before
/// `--to`.
pub fn part_of(drawn: Drawn<'_>, rate: Rate) -> Result<Part, BadTime>
    ensures read { IfOk result (λ part. part_of (frames_per_second rate) (drawn_of drawn.entry) ≡ Ok part) }
    ensures bad { IfErr result (λ bad. part_of (frames_per_second rate) (drawn_of drawn.entry) ≡ Err (name_of bad)) }
{
    let from = time_of(drawn.from, rate).ok_or(BadTime::From)?;
    let to = time_of(drawn.to, rate).ok_or(BadTime::To)?;
    Ok(Part { from, to })
}

/// Whether the times of a command over one list can be read at the list's rate.
pub fn can_be_timed(request: Request<'_>, list: &[u8]) -> bool
    ensures { result ≡ true → CanBeTimed (rate_at list.now) (asked_of request.entry) }
{
    match request {
        Request::Render(_, chosen) | Request::Resume(_, chosen) => {
            options_of(chosen, rate_of(list)).is_ok()
        }
        Request::Show(_, _, _, drawn) => part_of(drawn, rate_of(list)).is_ok(),
        Request::Check(_, _)
        | Request::Report(_, _)
        | Request::Consolidate(_, _, _)
        | Request::Compare(_, _)
        | Request::Explain(_)
        | Request::ExplainNotice(_) => true,
    }
}
