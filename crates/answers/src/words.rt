// The program as a call: words, a list and stores.
ghost use Rattle.std.specs.Prelude.{◌≡◌, ◌≢◌, ◌≤◌, ◌⊎◌, ℕ, None, Some, false, true};
ghost use Rattle.clap.specs.Walk.{Text, texts};
ghost use Rattle.rendering.specs.declared.job_length.JobLength.TheVariants.{OneBlock};
ghost use Rattle.consolidate.specs.Commands.{IsConsolidation};
ghost use Rattle.passes.specs.Left.{left_by};
ghost use Rattle.commandline.specs.declared.choice.MediaReport as choice;
ghost use Rattle.commandline.specs.CommandLine as asked;
ghost use Rattle.commandline.specs.CommandLine.{asks_for_help, request_of, verifies};
ghost use Rattle.list_terms.specs.Text.{rate_of as rate_at};
ghost use Rattle.answers.specs.Answers.{IsAnswered, IsChecked, IsReportPrinted, MayBeMistaken, RendersBy, ResumesBy, accepted_lines, asking, rendered_lines, resumed_lines, written_lines};
ghost use Rattle.answers.specs.Mistaken.{AreMistaken};

use crate::requests::{Command, answer_error, answer_request, refuse_two_lists};
use asides::{NoAsides, Terminal};
use commandline::parse;
use console::Console;
use consolidate::JobLength;
use devices::Unwatched;
use passes::Pass;
use shelf::{Bench, Reasons, Shelf};
use std::alloc::Global;

/// Answers the words behind the program's name as the program does, over a list and stores that are there already: the
/// places that the words name aren't looked at. Prints what the program prints on standard output on `out`, and what it
/// explains on standard error on `err`. The status is 0 where the command is done, 1 where it is refused, and 2 where
/// the words ask for nothing, a time can't be read, or there was no memory to read them; then nothing is printed on
/// `out`, and nothing is written. A rendering has jobs of one block, and a consolidation lets these passes go over the
/// pieces of the entries. Two lists can't be had here: `compare`, and `consolidate` with `--verify`, are answered 2.
pub fn answer<S: Shelf + Reasons, B: Bench + Reasons, O: Console, E: Console>(
    alloc: Global,
    words: &[&str],
    list: &[u8],
    passes: Vec<Box<dyn Pass>>,
    shelf: &mut S,
    bench: &mut B,
    out: &mut O,
    err: &mut E,
) -> u8
    // A command was called over the list, and its answer is printed.
    ensures checked { (path media : Text) → request_of (texts words.now) ≡ Some (asked.Check path media)
        → result ≢ 2
        → IsAnswered (IsChecked S.Shelf list.now shelf.old shelf.new) accepted_lines O.Console out.old out.new result }
    ensures rendered { (path media target : Text) (chosen : asked.Chosen)
        → request_of (texts words.now) ≡ Some (asked.Render path media target chosen) → result ≢ 2
        → IsAnswered (RendersBy S.Shelf B.Bench OneBlock chosen list.now shelf.old shelf.new bench.old bench.new)
        rendered_lines O.Console out.old out.new result }
    ensures resumed { (path media target : Text) (chosen : asked.Chosen)
        → request_of (texts words.now) ≡ Some (asked.Resume path media target chosen) → result ≢ 2
        → IsAnswered (ResumesBy S.Shelf B.Bench OneBlock chosen list.now shelf.old shelf.new bench.old bench.new)
        resumed_lines O.Console out.old out.new result }
    ensures consolidated { (path media target : Text) (handle : ℕ) (report : choice.MediaReport)
        → request_of (texts words.now) ≡ Some (asked.Consolidate path media target handle report) → result ≢ 2
        → IsAnswered (IsConsolidation S.Shelf B.Bench
        (left_by (λ pass. looking pass) (λ pass. gives pass) passes.items)
        list.now handle (asking report list.now) shelf.old shelf.new bench.old bench.new)
        written_lines O.Console out.old out.new result }
    ensures reported { (path media : Text) → request_of (texts words.now) ≡ Some (asked.Report path media)
        → result ≢ 2
        → IsReportPrinted (S.honest shelf.old) list.now (S.stored shelf.old) O.Console out.old out.new result }
    ensures statuses { result ≤ 2 }
    ensures help { asks_for_help (texts words.now) ≡ true → result ≢ 1 }
    ensures refused_words { request_of (texts words.now) ≡ None → asks_for_help (texts words.now) ≡ false
        → result ≡ 2 }
    // The words ask for nothing, a time can't be read, a number is unknown, two lists are wanted, or memory lacks. A time
    // that can't be read is named on `err`, and nothing else is there.
    ensures mistake { result ≡ 2 → AreMistaken
        (λ asked. MayBeMistaken E.Console err.old err.new (rate_at list.now) asked
        ⊎ (verifies (texts words.now) ≡ true))
        (texts words.now) E.Console err.old err.new }
    ensures two { result ≡ 2 → (shelf.new ≡ shelf.old) × (bench.new ≡ bench.old) × (out.new ≡ out.old) }
{
    let parsed = match parse(alloc, words) {
        Ok(parsed) => parsed,
        Err(error) => return answer_error(alloc, error, out, err),
    };
    if parsed.verifies {
        return refuse_two_lists(err);
    }
    let mut terminal = Terminal {
        out,
        err,
        meter: Unwatched,
        asides: NoAsides {
            tells_all: parsed.tells_all,
        },
    };
    let command = Command {
        request: parsed.request,
        passes,
        jobs: JobLength::OneBlock,
    };
    answer_request(alloc, command, list, shelf, bench, &mut terminal)
}
