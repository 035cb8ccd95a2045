// Requests from command lines.
ghost use Rattle.std.specs.Prelude.{◌≡◌, ◌≤◌, ◌⊎◌, codes, if◌then◌else◌, Some, None, true, false, IfOk, IfErr, IfSome, option_and_then, option_map};
ghost use Rattle.std.specs.Option.{option_map_or};
ghost use Rattle.clap.specs.Words.{found_of, kind_of, rows_of, subcommand_rows_of};
ghost use Rattle.clap.specs.Walk.{texts};
ghost use Rattle.clap.specs.declared.error.ErrorKind.TheVariants.{OutOfMemory};
ghost use Rattle.commandline.specs.CommandLine as line;
ghost use Rattle.commandline.specs.Channels.{are_few};
ghost use Rattle.commandline.specs.CommandLine.{asked, asked_over, asks_for_help, asks_for_help_alone, is_shown, request_of};
ghost use Rattle.commandline.specs.Request as spec;
ghost use Rattle.commandline.specs.Request.{asked_of};

use crate::choice::{Chosen, Drawn, MediaReport, Selected};
use crate::words::{command, command_named};
use clap::error::ErrorKind;
use clap::{ArgMatches, Command, Error};
use job_terms::Order;
use sound_terms::Depth;
use std::alloc::{AllocError, Global};

/// The paths of a command on a list: the list (a file, or `-` for standard input), its media folder
/// and the output folder.
#[derive(Clone, Copy, Debug, PartialEq, Eq)]
pub struct Places<'a> {
    pub list: &'a str,
    pub media: &'a str,
    pub out: &'a str,
}

/// The paths of a comparison: two lists, each with its media folder. At most one list is `-`.
#[derive(Clone, Copy, Debug, PartialEq, Eq)]
pub struct BothPlaces<'a> {
    pub list: &'a str,
    pub media: &'a str,
    pub other_list: &'a str,
    pub other_media: &'a str,
}

/// A request to the program.
#[derive(Clone, Copy, Debug, PartialEq, Eq)]
pub enum Request<'a> {
    /// Check a list with its media folder.
    Check(&'a str, &'a str),
    /// Check a list with its media folder and print a report for scripts.
    Report(&'a str, &'a str),
    /// Render a list to a sound file.
    Render(Places<'a>, Chosen<'a>),
    /// Resume an interrupted rendering.
    Resume(Places<'a>, Chosen<'a>),
    /// Write a list with new media, with a handle in samples and a kind of report.
    Consolidate(Places<'a>, u64, MediaReport),
    /// Compare two lists, each with its media folder.
    Compare(BothPlaces<'a>, Selected<'a>),
    /// Draw a list, or a part of it, with its media folder and a handle in samples.
    Show(&'a str, &'a str, u64, Drawn<'a>),
    /// Explain a refusal number, or all of them.
    Explain(Option<&'a str>),
    /// Explain a notice number, or all of them.
    ExplainNotice(Option<&'a str>),
}

/// A request and its flags: whether to report all faults of a refused list, to search for source
/// files in subfolders of the media folder, and to verify a consolidation against its input.
#[derive(Clone, Copy, Debug, PartialEq, Eq)]
pub struct Parsed<'a> {
    pub request: Request<'a>,
    pub tells_all: bool,
    pub searches: bool,
    pub verifies: bool,
}

/// Parses the arguments after the program name. Errors are clap's: invalid arguments, a request for
/// help or for the version, or out of memory.
pub fn parse<'a>(alloc: Global, words: &'a [&'a str]) -> Result<Parsed<'a>, Error>
    ensures read { IfOk result (λ parsed. request_of (texts words.entry.now) ≡ Some (asked_of parsed.request)) }
    ensures all { IfOk result (λ parsed. parsed.tells_all ≡ line.tells_all (texts words.entry.now)) }
    ensures search { IfOk result (λ parsed. parsed.searches ≡ line.searches (texts words.entry.now)) }
    ensures verify { IfOk result (λ parsed. parsed.verifies ≡ line.verifies (texts words.entry.now)) }
    ensures no_help { IfOk result (λ _. asks_for_help (texts words.entry.now) ≡ false) }
    ensures refused { IfErr result
        (λ error. (kind_of error ≡ OutOfMemory) ⊎ (request_of (texts words.entry.now) ≡ None)) }
    ensures mistake { IfErr result
        (λ error. asks_for_help (texts words.entry.now) ≡ false → is_shown (kind_of error) ≡ false) }
    ensures help { IfErr result (λ error. asks_for_help_alone (texts words.entry.now) ≡ true
        → (kind_of error ≡ OutOfMemory) ⊎ (is_shown (kind_of error) ≡ true)) }
{
    let mut command = command(alloc)?;
    let matches = command.try_get_matches_from_mut(words)?;
    match request_in(&matches) {
        Some(request) => Ok(Parsed {
            request,
            tells_all: asks_for("all", &matches),
            searches: asks_for("search", &matches),
            verifies: asks_for("verify", &matches),
        }),
        None => {
            let mut mistaken = command_in(alloc, &matches)?;
            Err(mistaken.error(ErrorKind::ValueValidation, mistake_of(&matches))?)
        }
    }
}

/// Message for an invalid number of channels.
const FEW_CHANNELS: &str = "there are 1 to 64 channels";

/// Returns the command that the arguments name, whose usage is shown with a mistake.
fn command_in<'a>(alloc: Global, matches: &ArgMatches<'_>) -> Result<Command<'a>, AllocError> {
    match matches.subcommand() {
        Some((name, _)) => command_named(alloc, name),
        None => command(alloc),
    }
}

/// Returns the message for arguments that clap accepts but that make no valid request.
fn mistake_of(matches: &ArgMatches<'_>) -> &'static str {
    match matches.subcommand() {
        Some(("consolidate", words)) if handle_in(words).is_some() => {
            "only a report has digests: --report asks for it"
        }
        Some(("consolidate" | "show", _)) => "a handle is 0 to 4147200000 frames",
        Some(("render" | "resume", words)) => mistake_of_rendering(words),
        Some(("compare", words)) => mistake_of_comparison(words),
        _ => "one number can be explained, and behind the word notice that of a notice",
    }
}

/// Returns the message for invalid options of a rendering.
fn mistake_of_rendering(words: &ArgMatches<'_>) -> &'static str {
    if words.get_str("depth").and_then(depth_in).is_none() {
        "a depth is 16, 24 or 32"
    } else if words.get_str("order").and_then(order_in).is_none() {
        "an order is time or source"
    } else {
        FEW_CHANNELS
    }
}

/// Returns the message for invalid arguments of a comparison.
fn mistake_of_comparison(words: &ArgMatches<'_>) -> &'static str {
    match (words.get_str("LIST"), words.get_str("LIST2")) {
        (Some("-"), Some("-")) => "standard input can be one of the lists, and not both",
        _ => FEW_CHANNELS,
    }
}

/// Returns whether the named flag is set, in any command.
fn asks_for(id: &str, matches: &ArgMatches<'_>) -> bool
    ensures { result ≡ option_map_or (line.is_flagged id.now) (subcommand_rows_of matches.now) false }
{
    match matches.subcommand() {
        Some((_, words)) => is_set(id, words),
        None => false,
    }
}

/// Returns whether the named flag is set in the arguments of a command.
fn is_set(id: &str, words: &ArgMatches<'_>) -> bool
    ensures { result ≡ line.is_set id.now (rows_of (found_of words.now)) }
{
    match words.get_str(id) {
        Some(text) => text == "true",
        None => false,
    }
}

/// Returns the request in parsed arguments.
fn request_in<'a>(matches: &ArgMatches<'a>) -> Option<Request<'a>>
    ensures { option_map asked_of result ≡ option_and_then asked (subcommand_rows_of matches.now) }
{
    let (name, words) = matches.subcommand()?;
    request_by(name, words)
}

/// Returns the request of the named command.
fn request_by<'a>(name: &str, words: &ArgMatches<'a>) -> Option<Request<'a>>
    ensures { option_map asked_of result ≡ asked (name.now, rows_of (found_of words.now)) }
{
    if name == "explain" {
        let what = words.get_str("WHAT");
        let number = words.get_str("NUMBER");
        return explained(what, number);
    }
    request_over(name, words)
}

/// Returns the request to explain a refusal number, or after `notice` a notice number.
fn explained<'a>(what: Option<&'a str>, number: Option<&'a str>) -> Option<Request<'a>>
    ensures { option_map asked_of result
        ≡ line.explained (option_map (λ text. text.now) what.entry) (option_map (λ text. text.now) number.entry) }
{
    let Some(word) = what else {
        return Some(Request::Explain(None));
    };
    if word == "notice" {
        return Some(Request::ExplainNotice(number));
    }
    match number {
        None => Some(Request::Explain(Some(word))),
        Some(_) => None,
    }
}

/// Returns the request of the named command, which takes a list and a media folder.
fn request_over<'a>(name: &str, words: &ArgMatches<'a>) -> Option<Request<'a>>
    ensures { option_map asked_of result ≡ asked_over name.now (rows_of (found_of words.now)) }
{
    let list = words.get_str("LIST")?;
    let media = words.get_str("MEDIA")?;
    if name == "check" {
        return Some(checked(list, media, words));
    }
    if name == "show" {
        return shown(list, media, words);
    }
    if name == "compare" {
        return compared(list, media, words);
    }
    let out = words.get_str("OUT")?;
    request_to(name, Places { list, media, out }, words)
}

/// Returns the request to check a list, with or without a report.
fn checked<'a>(list: &'a str, media: &'a str, words: &ArgMatches<'_>) -> Request<'a>
    ensures { asked_of result ≡ (if line.is_set (codes "report") (rows_of (found_of words.now))
        then line.Report list.entry.now media.entry.now else line.Check list.entry.now media.entry.now) }
{
    if is_set("report", words) {
        Request::Report(list, media)
    } else {
        Request::Check(list, media)
    }
}

/// Returns the request to draw a list.
fn shown<'a>(list: &'a str, media: &'a str, words: &ArgMatches<'a>) -> Option<Request<'a>>
    ensures { option_map asked_of result
        ≡ option_map
        (λ handle. line.Show list.entry.now media.entry.now handle (line.drawn_of (rows_of (found_of words.now))))
        (line.handle_of (rows_of (found_of words.now))) }
{
    let handle = handle_in(words)?;
    Some(Request::Show(list, media, handle, drawn_in(words)))
}

/// Returns the options of a picture.
fn drawn_in<'a>(words: &ArgMatches<'a>) -> Drawn<'a>
    ensures { spec.drawn_of result ≡ line.drawn_of (rows_of (found_of words.now)) }
{
    Drawn {
        from: words.get_str("from"),
        to: words.get_str("to"),
    }
}

/// Returns the request to compare two lists.
fn compared<'a>(list: &'a str, media: &'a str, words: &ArgMatches<'a>) -> Option<Request<'a>>
    ensures { option_map asked_of result
        ≡ line.asked_compare list.entry.now media.entry.now (rows_of (found_of words.now)) }
{
    let other_list = words.get_str("LIST2")?;
    let other_media = words.get_str("MEDIA2")?;
    let places = BothPlaces {
        list,
        media,
        other_list,
        other_media,
    };
    if are_both_input(list, other_list) {
        return None;
    }
    Some(Request::Compare(places, selected_in(words)?))
}

fn are_both_input(list: &str, other: &str) -> bool
    ensures { result ≡ line.are_both_input list.now other.now }
{
    list == "-" && other == "-"
}

/// Returns the options of a comparison.
fn selected_in<'a>(words: &ArgMatches<'a>) -> Option<Selected<'a>>
    ensures { option_map spec.selected_of result ≡ line.selected_of (rows_of (found_of words.now)) }
{
    let channels = channels_in(words.get_str("channels"))?;
    Some(Selected {
        from: words.get_str("from"),
        to: words.get_str("to"),
        channels,
        report: is_set("report", words),
    })
}

/// Returns the request to consolidate a list.
fn consolidated<'a>(places: Places<'a>, handle: u64, words: &ArgMatches<'_>) -> Option<Request<'a>>
    ensures { option_map asked_of result
        ≡ option_map (line.Consolidate places.entry.list.now places.entry.media.now places.entry.out.now handle)
        (line.media_report (rows_of (found_of words.now))) }
{
    let report = media_report(words)?;
    Some(Request::Consolidate(places, handle, report))
}

/// Returns the kind of report to write, or `None` if digests are requested without a report.
fn media_report(words: &ArgMatches<'_>) -> Option<MediaReport>
    ensures { result ≡ line.media_report (rows_of (found_of words.now)) }
{
    let report = is_set("report", words);
    let digests = is_set("digests", words);
    match (report, digests) {
        (false, false) => Some(MediaReport::NoReport),
        (false, true) => None,
        (true, false) => Some(MediaReport::Plain),
        (true, true) => Some(MediaReport::WithDigests),
    }
}

/// Returns the request of the named command, which also takes an output folder.
fn request_to<'a>(name: &str, places: Places<'a>, words: &ArgMatches<'a>) -> Option<Request<'a>>
    ensures { option_map asked_of result
        ≡ line.asked_to name.now places.entry.list.now places.entry.media.now places.entry.out.now
        (rows_of (found_of words.now)) }
{
    match name {
        "render" => Some(Request::Render(places, chosen_in(words)?)),
        "resume" => Some(Request::Resume(places, chosen_in(words)?)),
        "consolidate" => consolidated(places, handle_in(words)?, words),
        _ => None,
    }
}

/// Returns the handle in samples.
fn handle_in(words: &ArgMatches<'_>) -> Option<u64>
    ensures { result ≡ line.handle_of (rows_of (found_of words.now)) }
{
    number_in(0, 4_147_200_000, words.get_str("handle")?)
}

/// Returns the options of a rendering.
fn chosen_in<'a>(words: &ArgMatches<'a>) -> Option<Chosen<'a>>
    ensures { option_map spec.chosen_of result ≡ line.chosen_of (rows_of (found_of words.now)) }
{
    let depth = depth_in(words.get_str("depth")?)?;
    let channels = channels_in(words.get_str("channels"))?;
    let order = order_in(words.get_str("order")?)?;
    Some(Chosen {
        from: words.get_str("from"),
        to: words.get_str("to"),
        channels,
        depth,
        order,
        report: is_set("report", words),
    })
}

fn depth_in(text: &str) -> Option<Depth>
    ensures { result ≡ line.depth_in text.now }
{
    match text {
        "16" => Some(Depth::Sixteen),
        "24" => Some(Depth::TwentyFour),
        "32" => Some(Depth::ThirtyTwo),
        _ => None,
    }
}

fn order_in(text: &str) -> Option<Order>
    ensures { result ≡ line.order_in text.now }
{
    match text {
        "time" => Some(Order::ByTime),
        "source" => Some(Order::BySource),
        _ => None,
    }
}

/// Returns the optional number of channels, 1 to 64.
fn channels_in(text: Option<&str>) -> Option<Option<u8>>
    ensures read { result ≡ line.channels_in (option_map (λ text. text.now) text.entry) }
    ensures few { IfSome result (λ channels. are_few channels ≡ true) }
{
    match text {
        None => Some(None),
        Some(text) => Some(Some(number_in(1, 64, text)? as u8)),
    }
}

/// Returns the number from `low` to `high` in a decimal numeral with an optional plus sign.
fn number_in(low: u64, high: u64, text: &str) -> Option<u64>
    ensures value { result ≡ line.number_in low high text.now }
    ensures within { IfSome result (λ number. (low ≤ number) × (number ≤ high)) }
{
    let Ok(number) = text.parse::<u64>() else {
        return None;
    };
    if low <= number && number <= high {
        Some(number)
    } else {
        None
    }
}
