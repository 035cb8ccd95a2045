// The answer to a request for a picture.
ghost use Rattle.std.specs.Prelude.{◌≡◌, ◌≤◌, Err};
ghost use Rattle.clap.specs.Walk.{Text};
ghost use Rattle.commandline.specs.Request.{drawn_of};
ghost use Rattle.console.specs.Printing.{Prints};
ghost use Rattle.list_terms.specs.Text.{rate_of as rate_at};
ghost use Rattle.verdicts.specs.Verdicts.{NamesBadTime};
ghost use Rattle.asides.specs.Terminals.{GivesBack};
ghost use Rattle.verdicts.specs.Times.{bad_time_line};
ghost use Rattle.answers.specs.Times.{part_of};

use crate::chosen::part_of;
use crate::explained::explanation_of;
use crate::refusal::refuse_on;
use adlread::rate_of;
use asides::{Asides, Meter, Terminal, report_room, room_of, tell_changed};
use commandline::Drawn;
use console::Console;
use consolidate::Fault;
use opening::open_project;
use picture::{Part, Picture, draw_refused};
use projectcheck::Checked;
use shelf::{Reasons, Shelf};
use std::alloc::Global;
use verdicts::refuse_time;

/// A picture that is asked for: of the list of this path, with handles of so many frames, and what of it is drawn.
#[derive(Clone, Copy)]
pub struct Drawing<'a> {
    pub path: &'a str,
    pub handle: u64,
    pub drawn: Drawn<'a>,
}

/// Draws this picture of the list as SVG on standard output, and answers 0, with how much the outputs of the list would
/// take on standard error; or draws what can be drawn of a list that is refused at its files or entries, prints on
/// standard error why it is refused, and answers 1. A list of which nothing lies between the times that are chosen is
/// refused too. Where a time can't be read the answer is 2, and that is told on standard error.
pub fn answer_picture<S: Shelf + Reasons, O: Console, E: Console, M: Meter, A: Asides>(
    alloc: Global,
    list: &[u8],
    drawing: Drawing<'_>,
    shelf: &mut S,
    terminal: &mut Terminal<O, E, M, A>,
) -> u8
    ensures consoles { GivesBack terminal.old terminal.new }
    ensures bad_time { (option : Text) → part_of (rate_at list.now) (drawn_of drawing.entry.drawn) ≡ Err option
        → (result ≡ 2)
        × Prints E.contents E.failures terminal.old.err.now terminal.new.err.now (bad_time_line option) }
    ensures statuses { result ≤ 2 }
    ensures mistake { result ≡ 2 → NamesBadTime E.Console terminal.old.err.now terminal.new.err.now
        (part_of (rate_at list.now) (drawn_of drawing.entry.drawn)) }
    ensures two { result ≡ 2
        → (shelf.new ≡ shelf.old) × (terminal.new.out.now ≡ terminal.old.out.now) }
{
    match part_of(drawing.drawn, rate_of(list)) {
        Ok(part) => draw(alloc, list, drawing, part, shelf, terminal),
        Err(bad) => refuse_time(bad, terminal.err),
    }
}

/// Draws this part of the list.
fn draw<S: Shelf + Reasons, O: Console, E: Console, M: Meter, A: Asides>(
    alloc: Global,
    list: &[u8],
    drawing: Drawing<'_>,
    part: Part,
    shelf: &mut S,
    terminal: &mut Terminal<O, E, M, A>,
) -> u8
    ensures consoles { GivesBack terminal.old terminal.new }
    ensures statuses { result ≤ 1 }
{
    let outcome = open_project(alloc, list, shelf);
    tell_changed(alloc, shelf, terminal.err);
    let fault = match outcome {
        Ok(checked) => return draw_checked(alloc, list, drawing, part, &checked, shelf, terminal),
        Err(fault) => Fault::Project(fault),
    };
    let status = refuse_drawing(alloc, list, &fault, shelf, terminal);
    if let Fault::Project(of_list) = &fault {
        let name = last_part(drawing.path);
        draw_refused(alloc, name, list, part, of_list, shelf, terminal.out);
    }
    status
}

/// Draws this part of an accepted list.
fn draw_checked<S: Reasons, O: Console, E: Console, M: Meter, A: Asides>(
    alloc: Global,
    list: &[u8],
    drawing: Drawing<'_>,
    part: Part,
    checked: &Checked,
    shelf: &S,
    terminal: &mut Terminal<O, E, M, A>,
) -> u8
    ensures consoles { GivesBack terminal.old terminal.new }
    ensures statuses { result ≤ 1 }
{
    if part.is_empty(checked.project().events()) {
        return refuse_drawing(alloc, list, &Fault::EmptyRange, shelf, terminal);
    }
    match Picture::of(alloc, checked, last_part(drawing.path), drawing.handle) {
        Ok(picture) => {
            terminal.out.print(picture.of_part(part));
            report_room(room_of(alloc, checked, drawing.handle), terminal.err);
            0
        }
        Err(fault) => refuse_drawing(alloc, list, &Fault::Runs(fault), shelf, terminal),
    }
}

/// Prints why nothing is drawn of a list, or not all of it, and answers 1.
fn refuse_drawing<S: Reasons, O: Console, E: Console, M: Meter, A: Asides>(
    alloc: Global,
    list: &[u8],
    fault: &Fault,
    shelf: &S,
    terminal: &mut Terminal<O, E, M, A>,
) -> u8
    ensures consoles { GivesBack terminal.old terminal.new }
    ensures statuses { result ≡ 1 }
{
    let explanation = explanation_of(fault, list, shelf.reason(), None);
    refuse_on(
        alloc,
        list,
        fault,
        explanation,
        &terminal.asides,
        terminal.err,
    );
    1
}

/// The name at the end of a path.
fn last_part(path: &str) -> &str {
    path.rsplit('/').next().unwrap_or(path)
}
