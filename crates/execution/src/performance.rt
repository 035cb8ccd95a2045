// Events, one after the other.
ghost use Rattle.std.specs.Prelude.{◌≡◌, ◌<◌, ◌*◌, ◌+◌, ℕ, Bool, true, cond, length, slice_index_or};
ghost use Rattle.job_terms.specs.declared.BoardEvent.TheVariants as event_kind;
ghost use Rattle.job_terms.specs.Workers.{rounds};
ghost use Rattle.execution.specs.Ends.{FailsNoOutput, NeedsPlace, NeedsRoom, OnlyInEvents};
ghost use Rattle.execution.specs.Boards as spec;
ghost use Rattle.execution.specs.Held.{IsWorkshop, hands_in};
ghost use Rattle.execution.specs.EventRun.{Performed, listed};
ghost use Rattle.execution.specs.Shops.{ShopStaysNoted, shop_at};
ghost use Rattle.devices.specs.Views.{output_view, source_view};

use crate::events::step;
use crate::hands::Hands;
use crate::workshop::Workshop;
use crate::{ExecutionFault, JobMaker};
use devices::{Bench, Shelf, Watch};
use job_terms::{BoardEvent, Progress};
use workboard::Board;

/// How far the jobs of a board are, with so many deliveries under stale tickets.
fn progress_of(board: &Board, stale: u64) -> Progress
    ensures reported { result ≡ spec.progress_of board.now stale }
    ensures all { result.idle + result.out + result.done ≡ length board.now.jobs }
{
    let counts = board.counts();
    Progress {
        idle: counts.idle,
        out: counts.out,
        done: counts.done,
        stale,
        finished: board.finished(),
    }
}

/// An event of the rounds of worker 1.
fn round_event(i: u64) -> BoardEvent
    ensures event { (n : ℕ) → i < 3 * n → result ≡ slice_index_or (rounds n) i (event_kind.Lose 0) }
    ensures no_place { NeedsPlace result → ⊥ }
    ensures no_room { NeedsRoom result → ⊥ }
{
    let turn = i % 3;
    if turn == 0 {
        return BoardEvent::Give(1);
    }
    if turn == 1 {
        return BoardEvent::Work(1);
    }
    BoardEvent::Deliver(1)
}

/// How many events there are.
fn how_many(in_rounds: bool, events: &[BoardEvent], count: u32) -> u64
    ensures { result ≡ length (listed in_rounds count events.now) }
{
    if in_rounds {
        return 9 * count as u64;
    }
    events.len() as u64
}

/// The event at this place.
fn event_at(in_rounds: bool, events: &[BoardEvent], i: u64, count: u32) -> BoardEvent
    requires { i < length (listed in_rounds count events.now) }
    ensures event { result ≡ slice_index_or (listed in_rounds count events.now) i (event_kind.Lose 0) }
    ensures no_place { in_rounds ≡ true → NeedsPlace result → ⊥ }
    ensures no_room { in_rounds ≡ true → NeedsRoom result → ⊥ }
{
    if in_rounds {
        return round_event(i);
    }
    events[i as usize]
}

/// How many frames are there, of so many in all.
#[derive(Clone, Copy)]
struct Frames {
    done: u64,
    whole: u64,
}

/// The frames of all jobs, and of those that are done.
fn frames_so_far<W: JobMaker>(maker: &W, board: &Board) -> Frames {
    let mut done: u64 = 0;
    let mut whole: u64 = 0;
    for job in 0..maker.count() {
        let frames = maker.frames(job);
        whole = whole.saturating_add(frames);
        if board.is_done(job) {
            done = done.saturating_add(frames);
        }
    }
    Frames { done, whole }
}

/// The job that the event delivers, if any.
fn delivered(hands: &Hands, event: BoardEvent) -> Option<u32> {
    let BoardEvent::Deliver(number) = event else {
        return None;
    };
    if number == 1 {
        return hands.first.job();
    }
    match hands.others.get(&number) {
        Some(worker) => worker.job(),
        None => None,
    }
}

/// Tells the watch of this job, if it is done.
fn tell<W: JobMaker, T: Watch>(
    maker: &W,
    board: &Board,
    job: Option<u32>,
    frames: &mut Frames,
    watch: &mut T,
) {
    let Some(job) = job else {
        return;
    };
    if job >= maker.count() || !board.is_done(job) {
        return;
    }
    frames.done = frames.done.saturating_add(maker.frames(job));
    watch.reached(frames.done, frames.whole);
}

/// Does these events one after the other, or rounds of the worker 1 until all jobs are done.
pub fn perform<W: JobMaker, S: Shelf, B: Bench, T: Watch>(
    shop: &mut Workshop<W>,
    in_rounds: bool,
    events: &[BoardEvent],
    shelf: &mut S,
    bench: &mut B,
    watch: &mut T,
) -> Result<Progress, ExecutionFault>
    requires { IsWorkshop W.plan shop.old }
    ensures performed { Performed in_rounds (listed in_rounds (W.plan shop.old.work).jobs.count events.now)
        (shop_at W.plan shop.old 0 (source_view S.Shelf shelf.old) (output_view B.Bench bench.old))
        (hands_in shop.old.hands)
        (λ stale. shop_at W.plan shop.new stale (source_view S.Shelf shelf.new) (output_view B.Bench bench.new))
        (hands_in shop.new.hands) result }
    ensures notes { ShopStaysNoted W.remains W.noted (source_view S.Shelf shelf.old) shop.old shop.new }
    ensures ready { IsWorkshop W.plan shop.new }
    ensures memory { OnlyInEvents in_rounds result }
    ensures no_output { FailsNoOutput result }
{
    let count = shop.work.count();
    let whole = how_many(in_rounds, events, count);
    let mut frames = frames_so_far(&shop.work, &shop.board);
    let mut stale: u64 = 0;
    for i in 0..whole {
        if in_rounds && shop.board.finished() {
            return Ok(progress_of(&shop.board, stale));
        }
        let event = event_at(in_rounds, events, i, count);
        let job = delivered(&shop.hands, event);
        match step(shop, &mut stale, event, shelf, bench) {
            Ok(()) => tell(&shop.work, &shop.board, job, &mut frames, watch),
            Err(fault) => return Err(fault),
        }
    }
    Ok(progress_of(&shop.board, stale))
}
