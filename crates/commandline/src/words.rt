// What the program's words may be, as clap's command.
ghost use Rattle.std.specs.Prelude.{◌≡◌, codes, IfOk, false};
ghost use Rattle.clap.specs.Words.{Shape, app_of, new_app, new_rule, rule_of, shape_of, with_rule, with_subcommand};
ghost use Rattle.commandline.specs.CommandLine.{adlcons_app, check_shape, compare_shape, consolidate_shape, default_rule, explain_shape, flag_rule, option_rule, over_both, over_folders, over_media, place_rule, rendering_shape, show_shape, top_app, with_choice, with_range, with_times};
ghost use Rattle.commandline.specs.Globals.{AsGlobal, HasNoGlobals};

use clap::{Arg, ArgAction, Command};
use std::alloc::{AllocError, Global};

/// The program's command line: `check`, `consolidate`, `render`, `resume` and `show`, each over a list and its media,
/// `compare` over two, and `explain`. It reads the words behind the program's name.
pub fn command<'a>(alloc: Global) -> Result<Command<'a>, AllocError>
    ensures { IfOk result (λ command. app_of command ≡ adlcons_app) }
{
    let program = top_command(alloc)?;
    let program = with_command(program, check_command(alloc))?;
    let program = with_command(program, consolidate_command(alloc))?;
    let program = with_command(program, render_command(alloc))?;
    let program = with_command(program, resume_command(alloc))?;
    let program = with_command(program, compare_command(alloc))?;
    let program = with_command(program, show_command(alloc))?;
    with_command(program, explain_command(alloc))
}

/// The program with one command more, where there was memory for it. No word of the command holds elsewhere.
fn with_command<'a>(
    program: Command<'a>,
    command: Result<Command<'a>, AllocError>,
) -> Result<Command<'a>, AllocError>
    ensures { (shape : Shape) → IfOk command.entry (λ added. shape_of added ≡ shape) → IfOk command.entry HasNoGlobals
        → IfOk result (λ all. app_of all ≡ with_subcommand (app_of program.entry) shape) }
{
    program.subcommand(command?)
}

/// The command of this name by itself, with the program's name before its own; the program where no command has it.
pub fn command_named<'a>(alloc: Global, name: &str) -> Result<Command<'a>, AllocError> {
    match name {
        "consolidate" => consolidate_command(alloc)?.bin_name("adlcons consolidate"),
        "render" => render_command(alloc)?.bin_name("adlcons render"),
        "resume" => resume_command(alloc)?.bin_name("adlcons resume"),
        "compare" => compare_command(alloc)?.bin_name("adlcons compare"),
        "show" => show_command(alloc)?.bin_name("adlcons show"),
        "explain" => explain_command(alloc)?.bin_name("adlcons explain"),
        _ => command(alloc),
    }
}

/// The version of the program: the last one of CHANGELOG.md.
pub const VERSION: &str = "1.1.0";

/// What the statuses mean, for the help.
const STATUSES: &str = "\
Exit status: 0 done or same, 1 refused or different, 2 usage error.
A refusal is one line with its number and its place.
'adlcons explain 46' says what 46 means and what to do.
Example: adlcons render session.adl sources rendered";

/// What the help says of a folder in which nothing is replaced.
const EMPTY_FOLDER: &str = "The folder to write to: an existing, empty one";

/// A command of this name, of which the help says this first and that last.
fn told<'a>(alloc: Global, name: &'a str, about: &'a str, after: &'a str) -> Command<'a>
    ensures app { app_of result ≡ new_app name.entry.now }
    ensures local { HasNoGlobals result }
{
    Command::new(alloc, name).about(about).after_help(after)
}

/// The program itself, which wants a command.
fn top_command<'a>(alloc: Global) -> Result<Command<'a>, AllocError>
    ensures { IfOk result (λ command. app_of command ≡ top_app) }
{
    let about = "Checks, consolidates and renders audio decision lists in the shape of AES31-3";
    told(alloc, "adlcons", about, STATUSES)
        .version(VERSION)
        .no_binary_name(true)
        .arg_required_else_help(true)
        .subcommand_required(true)
        .bin_name("adlcons")
}

/// The command that checks a list.
fn check_command<'a>(alloc: Global) -> Result<Command<'a>, AllocError>
    ensures shape { IfOk result (λ command. shape_of command ≡ check_shape) }
    ensures local { IfOk result HasNoGlobals }
{
    let command = over_media(
        alloc,
        "check",
        "Check a list and the files that it uses, and write nothing",
        "Example: adlcons check session.adl sources",
    )?;
    let report = "Print all that is found as JSON";
    with_flag(alloc, command, "report", report)
}

/// The command that draws a list.
fn show_command<'a>(alloc: Global) -> Result<Command<'a>, AllocError>
    ensures shape { IfOk result (λ command. shape_of command ≡ show_shape) }
    ensures local { IfOk result HasNoGlobals }
{
    let command = over_media(
        alloc,
        "show",
        "Draw a list as SVG: entries over time, and what of files is kept",
        "Example: adlcons show session.adl sources > session.svg",
    )?;
    let help = "Frames kept on each side of what plays";
    let command = with_default(alloc, command, "handle", "N", "48000", help)?;
    with_times(alloc, command)
}

/// The command that consolidates a list.
fn consolidate_command<'a>(alloc: Global) -> Result<Command<'a>, AllocError>
    ensures shape { IfOk result (λ command. shape_of command ≡ consolidate_shape) }
    ensures local { IfOk result HasNoGlobals }
{
    let command = over_folders(
        alloc,
        "consolidate",
        "Write new media of just the frames that a list plays, and a list",
        EMPTY_FOLDER,
        "Example: adlcons consolidate session.adl sources consolidated --handle 96000",
    )?;
    let help = "Frames kept on each side of what plays";
    let command = with_default(alloc, command, "handle", "N", "48000", help)?;
    let report = "Write where the media come from, and checksums";
    let command = with_flag(alloc, command, "report", report)?;
    let digests = "Have the SHA-256 of each whole source in the report";
    let command = with_flag(alloc, command, "digests", digests)?;
    let verify = "Read it again, and compare it with what was given";
    with_flag(alloc, command, "verify", verify)
}

/// The command that renders a list.
fn render_command<'a>(alloc: Global) -> Result<Command<'a>, AllocError>
    ensures shape { IfOk result (λ command. shape_of command ≡ rendering_shape (codes "render")) }
    ensures local { IfOk result HasNoGlobals }
{
    let command = over_folders(
        alloc,
        "render",
        "Render a list to one sound file, OUT/render.wav",
        EMPTY_FOLDER,
        "Example: adlcons render session.adl sources rendered --depth 16",
    )?;
    with_choice(alloc, command)
}

/// The command that goes on with a rendering.
fn resume_command<'a>(alloc: Global) -> Result<Command<'a>, AllocError>
    ensures shape { IfOk result (λ command. shape_of command ≡ rendering_shape (codes "resume")) }
    ensures local { IfOk result HasNoGlobals }
{
    let command = over_folders(
        alloc,
        "resume",
        "Continue an interrupted rendering, with the same arguments",
        "The folder in which the rendering was stopped",
        "Example: adlcons resume session.adl sources rendered --depth 16",
    )?;
    with_choice(alloc, command)
}

/// The command that compares two lists.
fn compare_command<'a>(alloc: Global) -> Result<Command<'a>, AllocError>
    ensures shape { IfOk result (λ command. shape_of command ≡ compare_shape) }
    ensures local { IfOk result HasNoGlobals }
{
    let command = over_both(alloc)?;
    let report = "Print all that is found as JSON";
    let command = with_flag(alloc, command, "report", report)?;
    with_range(alloc, command)
}

/// The command with what may be chosen of a rendering.
fn with_choice<'a>(alloc: Global, command: Command<'a>) -> Result<Command<'a>, AllocError>
    ensures app { IfOk result (λ added. app_of added ≡ with_choice (app_of command.entry)) }
    ensures local { IfOk result (AsGlobal command.entry) }
{
    let command = with_range(alloc, command)?;
    let depth = "Bits of a sample: 16, 24 or 32";
    let command = with_default(alloc, command, "depth", "D", "24", depth)?;
    let order = "Which sound is read first: time or source";
    let command = with_default(alloc, command, "order", "O", "time", order)?;
    let report = "Write OUT/render.json: SHA-256, range, what was clipped";
    with_flag(alloc, command, "report", report)
}

/// The command with the times and the channels that may be chosen.
fn with_range<'a>(alloc: Global, command: Command<'a>) -> Result<Command<'a>, AllocError>
    ensures app { IfOk result (λ added. app_of added ≡ with_range (app_of command.entry)) }
    ensures local { IfOk result (AsGlobal command.entry) }
{
    let command = with_times(alloc, command)?;
    let channels = "Channels, 1 to 64 [default: up to the highest named]";
    with_option(alloc, command, "channels", "N", channels)
}

/// The command with the times that may be chosen.
fn with_times<'a>(alloc: Global, command: Command<'a>) -> Result<Command<'a>, AllocError>
    ensures app { IfOk result (λ added. app_of added ≡ with_times (app_of command.entry)) }
    ensures local { IfOk result (AsGlobal command.entry) }
{
    let from = "First sample, hh.mm.ss.ff/rrrr [default: earliest start]";
    let command = with_option(alloc, command, "from", "T", from)?;
    let to = "Time just after the last sample [default: latest end]";
    with_option(alloc, command, "to", "T", to)
}

/// A command over a list and the folder of its media, which may list all that is at fault, and look for media in the
/// folders below.
fn over_media<'a>(
    alloc: Global,
    name: &'a str,
    about: &'a str,
    example: &'a str,
) -> Result<Command<'a>, AllocError>
    ensures app { IfOk result (λ command. app_of command ≡ over_media name.entry.now) }
    ensures local { IfOk result HasNoGlobals }
{
    let command = told(alloc, name, about, example);
    let list = "The list, a file; - is standard input";
    let command = with_place(alloc, command, "LIST", list)?;
    let media = "The folder of the list's WAVE files";
    let command = with_place(alloc, command, "MEDIA", media)?;
    let all = "List all further faults of the first one's kind";
    let command = with_flag(alloc, command, "all", all)?;
    let search = "Look for missing media by name in the folders below";
    with_flag(alloc, command, "search", search)
}

/// A command that writes to a folder besides, of which the help says this.
fn over_folders<'a>(
    alloc: Global,
    name: &'a str,
    about: &'a str,
    out: &'a str,
    example: &'a str,
) -> Result<Command<'a>, AllocError>
    ensures app { IfOk result (λ command. app_of command ≡ over_folders name.entry.now) }
    ensures local { IfOk result HasNoGlobals }
{
    let command = over_media(alloc, name, about, example)?;
    with_place(alloc, command, "OUT", out)
}

/// The command over two lists, each with the folder of its media.
fn over_both<'a>(alloc: Global) -> Result<Command<'a>, AllocError>
    ensures app { IfOk result (λ command. app_of command ≡ over_both) }
    ensures local { IfOk result HasNoGlobals }
{
    let command = over_media(
        alloc,
        "compare",
        "Say whether two lists sound the same, or where they differ first",
        "Example: adlcons compare session.adl sources new/consolidated.adl new",
    )?;
    let list = "The second list, a file; one of both may be -";
    let command = with_place(alloc, command, "LIST2", list)?;
    let media = "The folder of the second list's WAVE files";
    with_place(alloc, command, "MEDIA2", media)
}

/// The command that tells what the numbers of refusals mean.
fn explain_command<'a>(alloc: Global) -> Result<Command<'a>, AllocError>
    ensures shape { IfOk result (λ command. shape_of command ≡ explain_shape) }
    ensures local { IfOk result HasNoGlobals }
{
    let about = "Tell what the number of a refusal or notice means, and what to do";
    let examples = "Examples: adlcons explain 46, adlcons explain notice 3";
    let command = told(alloc, "explain", about, examples);
    let what = "The number of a refusal, or 'notice'; without it all refusals";
    let command = with_word(alloc, command, "WHAT", what)?;
    let number = "Behind 'notice': its number; without it all notices";
    with_word(alloc, command, "NUMBER", number)
}

/// The command with one more word or option, which holds for this command alone.
fn with_argument<'a>(command: Command<'a>, argument: Arg<'a>) -> Result<Command<'a>, AllocError>
    requires { argument.global ≡ false }
    ensures app { IfOk result (λ added. app_of added ≡ with_rule (app_of command.entry) (rule_of argument.entry)) }
    ensures local { IfOk result (AsGlobal command.entry) }
{
    command.arg(argument)
}

/// The command with one more word that may be left out.
fn with_word<'a>(
    alloc: Global,
    command: Command<'a>,
    id: &'a str,
    help: &'a str,
) -> Result<Command<'a>, AllocError>
    ensures app { IfOk result (λ added. app_of added ≡ with_rule (app_of command.entry) (new_rule id.entry.now)) }
    ensures local { IfOk result (AsGlobal command.entry) }
{
    with_argument(command, Arg::new(alloc, id).help(help))
}

/// A word that has to be given.
fn place<'a>(alloc: Global, id: &'a str, help: &'a str) -> Arg<'a>
    ensures rule { rule_of result ≡ place_rule id.entry.now }
    ensures local { result.global ≡ false }
{
    Arg::new(alloc, id).required(true).help(help)
}

/// The command with one more word that has to be given.
fn with_place<'a>(
    alloc: Global,
    command: Command<'a>,
    id: &'a str,
    help: &'a str,
) -> Result<Command<'a>, AllocError>
    ensures app { IfOk result (λ added. app_of added ≡ with_rule (app_of command.entry) (place_rule id.entry.now)) }
    ensures local { IfOk result (AsGlobal command.entry) }
{
    with_argument(command, place(alloc, id, help))
}

/// An option of this name that has no value.
fn flag<'a>(alloc: Global, id: &'a str, help: &'a str) -> Arg<'a>
    ensures rule { rule_of result ≡ flag_rule id.entry.now }
    ensures local { result.global ≡ false }
{
    Arg::new(alloc, id)
        .long(id)
        .action(ArgAction::SetTrue)
        .help(help)
}

/// The command with one more option that has no value.
fn with_flag<'a>(
    alloc: Global,
    command: Command<'a>,
    id: &'a str,
    help: &'a str,
) -> Result<Command<'a>, AllocError>
    ensures app { IfOk result (λ added. app_of added ≡ with_rule (app_of command.entry) (flag_rule id.entry.now)) }
    ensures local { IfOk result (AsGlobal command.entry) }
{
    with_argument(command, flag(alloc, id, help))
}

/// An option of this name, whose value the help calls `value`.
fn option<'a>(alloc: Global, id: &'a str, value: &'a str, help: &'a str) -> Arg<'a>
    ensures rule { rule_of result ≡ option_rule id.entry.now }
    ensures local { result.global ≡ false }
{
    Arg::new(alloc, id).long(id).value_name(value).help(help)
}

/// The command with one more option.
fn with_option<'a>(
    alloc: Global,
    command: Command<'a>,
    id: &'a str,
    value: &'a str,
    help: &'a str,
) -> Result<Command<'a>, AllocError>
    ensures app { IfOk result (λ added. app_of added ≡ with_rule (app_of command.entry) (option_rule id.entry.now)) }
    ensures local { IfOk result (AsGlobal command.entry) }
{
    with_argument(command, option(alloc, id, value, help))
}

/// The command with one more option, which has a value where it is left out.
fn with_default<'a>(
    alloc: Global,
    command: Command<'a>,
    id: &'a str,
    value: &'a str,
    default: &'a str,
    help: &'a str,
) -> Result<Command<'a>, AllocError>
    ensures app { IfOk result
        (λ added. app_of added ≡ with_rule (app_of command.entry) (default_rule id.entry.now default.entry.now)) }
    ensures local { IfOk result (AsGlobal command.entry) }
{
    let argument = option(alloc, id, value, help).default_value(default);
    with_argument(command, argument)
}
