// The calls of an execution.
ghost use Rattle.std.specs.Prelude.{◌≡◌, ◌*◌, ℕ, IfErr, IfOk, false, length, ◌<◌, slice_index_or};
ghost use Rattle.job_terms.specs.Workers.{rounds};
ghost use Rattle.execution.specs.Ends.{IsMemory, WantsNoPlace, WantsNoRoom};
ghost use Rattle.execution.specs.Boards.{ReportsOf, board_with, fresh_board};
ghost use Rattle.execution.specs.Marking.{done_of};
ghost use Rattle.execution.specs.View.{DoesAll, IsIdle, IsResting, RunStaysNoted, hands_at, run_at};
ghost use Rattle.execution.specs.Outcome.{Executed, Resumed};
ghost use Rattle.execution.specs.Desks.{HasRoom};
ghost use Rattle.execution.specs.Held.{AreIdle};
ghost use Rattle.devices.specs.Views.{output_view, source_view};
ghost use Rattle.workboard.specs.Indexed.{IsOrder};

use crate::course::{execute, resume};
use crate::hands::Hands;
use crate::workshop::Workshop;
use crate::{ExecutionFault, JobMaker};
use devices::{Bench, Shelf, Watch};
use job_terms::{BoardEvent, Progress};
use std::alloc::Global;
use std::marker::Model;
use workboard::Board;

/// A work, its board, and what its workers hold.
#[derive(Drop)]
pub struct Execution<W: JobMaker> {
    shop: Workshop<W>,
}

impl<W: JobMaker> Model for Execution<W> {
    ghost use Rattle.execution.specs.Held.{IsReady};
    ghost use Rattle.execution.specs.View.{ExecutionView};

    ghost Value = { ExecutionView W };

    ghost view = { λ run. record {
      work = run.shop.work;
      board = run.shop.board;
      first = run.shop.hands.first;
      others = run.shop.hands.others.entries;
    } };

    ghost invariant = { λ run. IsReady (W.plan run.shop.work).jobs run.shop.board run.shop.hands };
}

/// The room that a worker needs for the bytes of any job.
fn most_bytes<W: JobMaker>(work: &W) -> usize
    ensures { HasRoom (W.plan work.now).jobs result }
{
    let mut most: usize = 0;
    for job in 0..work.count() {
        most = most.max(work.size(job));
    }
    most
}

/// Workers that hold nothing, the first with room for the bytes of any job.
fn hands_for<W: JobMaker>(alloc: Global, work: &W) -> Result<Hands, ExecutionFault>
    ensures hands { IfOk result AreIdle }
    ensures room { IfOk result (λ hands. HasRoom (W.plan work.now).jobs hands.first.room) }
    ensures only_memory { IfErr result IsMemory }
{
    match Hands::with_room(alloc, most_bytes(work)) {
        Ok(hands) => Ok(hands),
        Err(_) => Err(ExecutionFault::JobMemory),
    }
}

impl<W: JobMaker + Drop> Execution<W> {
    /// All jobs are open, to be handed out in this order. It takes all memory that rounds of one worker need.
    pub fn new(alloc: Global, work: W, order: Vec<u32>) -> Result<Self, ExecutionFault>
        requires { IsOrder (W.plan work).jobs.count order.items }
        ensures work { IfOk result (λ run. run.work ≡ work) }
        ensures board { IfOk result (λ run. run.board ≡ fresh_board (W.plan work).jobs.count order.items) }
        ensures open { IfOk result (λ run. (k : ℕ) → k < (W.plan work).jobs.count → done_of run.board k ≡ false) }
        ensures idle { IfOk result IsIdle }
        ensures rest { IfOk result IsResting }
        ensures only_memory { IfErr result IsMemory }
    {
        let board = match Board::new(alloc, work.count(), order) {
            Ok(board) => board,
            Err(_) => return Err(ExecutionFault::Memory),
        };
        let hands = hands_for(alloc, &work)?;
        Ok(Execution {
            shop: Workshop {
                alloc,
                work,
                board,
                hands,
            },
        })
    }

    /// These jobs are done already, the others are open, to be handed out in this order.
    pub fn with_done(
        alloc: Global,
        work: W,
        order: Vec<u32>,
        done: &[bool],
    ) -> Result<Self, ExecutionFault>
        requires order { IsOrder (W.plan work).jobs.count order.items }
        requires done { length done.now ≡ (W.plan work).jobs.count }
        ensures work { IfOk result (λ run. run.work ≡ work) }
        ensures board { IfOk result (λ run. run.board ≡ board_with done.now order.items) }
        ensures done { IfOk result (λ run. (k : ℕ) → k < length done.now
            → done_of run.board k ≡ slice_index_or done.now k false) }
        ensures idle { IfOk result IsIdle }
        ensures rest { IfOk result IsResting }
        ensures only_memory { IfErr result IsMemory }
    {
        let resting = match Board::with_done(alloc, work.count(), order, done) {
            Ok(board) => board,
            Err(_) => return Err(ExecutionFault::Memory),
        };
        let hands = hands_for(alloc, &work)?;
        Ok(Execution {
            shop: Workshop {
                alloc,
                work,
                board: resting,
                hands,
            },
        })
    }
}

impl<W: JobMaker> Execution<W> {
    /// The work.
    pub fn work(&self) -> &W
        ensures { result.now ≡ self.now.work }
    {
        &self.shop.work
    }

    /// Lays out every output, does rounds of the worker 1 until all jobs are done, and then what comes last. It takes no
    /// memory.
    pub fn execute<S: Shelf, B: Bench, T: Watch>(
        &mut self,
        shelf: &mut S,
        bench: &mut B,
        watch: &mut T,
    ) -> Result<Progress, ExecutionFault>
        ensures notes { RunStaysNoted W.remains W.noted (source_view S.Shelf shelf.old) self.old self.new }
        ensures executed { Executed (rounds (3 * (W.plan self.old.work).jobs.count))
            (run_at W.plan self.old (source_view S.Shelf shelf.old) (output_view B.Bench bench.old)) (hands_at self.old)
            (run_at W.plan self.new (source_view S.Shelf shelf.new) (output_view B.Bench bench.new))
            (shelf.new ≡ shelf.old) result }
        ensures finished { DoesAll self.old self.new result }
        ensures reported { IfOk result (ReportsOf self.new.board) }
        ensures memory { WantsNoPlace result }
        ensures job_memory { WantsNoRoom result }
    {
        execute(&mut self.shop, true, &[], shelf, bench, watch)
    }

    /// Lays out every output, does these events of any workers, one after the other, and what comes last where all jobs
    /// are done. `Memory` and `JobMemory` where a worker's place, or room for the bytes of a job, finds none.
    pub fn execute_events<S: Shelf, B: Bench, T: Watch>(
        &mut self,
        events: &[BoardEvent],
        shelf: &mut S,
        bench: &mut B,
        watch: &mut T,
    ) -> Result<Progress, ExecutionFault>
        ensures notes { RunStaysNoted W.remains W.noted (source_view S.Shelf shelf.old) self.old self.new }
        ensures executed { Executed events.now
            (run_at W.plan self.old (source_view S.Shelf shelf.old) (output_view B.Bench bench.old)) (hands_at self.old)
            (run_at W.plan self.new (source_view S.Shelf shelf.new) (output_view B.Bench bench.new))
            (shelf.new ≡ shelf.old) result }
    {
        execute(&mut self.shop, false, events, shelf, bench, watch)
    }

    /// Does rounds of the worker 1 on outputs as they are, in which what is done already stands, and then what comes
    /// last. It takes no memory.
    pub fn resume<S: Shelf, B: Bench, T: Watch>(
        &mut self,
        shelf: &mut S,
        bench: &mut B,
        watch: &mut T,
    ) -> Result<Progress, ExecutionFault>
        ensures notes { RunStaysNoted W.remains W.noted (source_view S.Shelf shelf.old) self.old self.new }
        ensures resumed { Resumed (rounds (3 * (W.plan self.old.work).jobs.count))
            (run_at W.plan self.old (source_view S.Shelf shelf.old) (output_view B.Bench bench.old)) (hands_at self.old)
            (run_at W.plan self.new (source_view S.Shelf shelf.new) (output_view B.Bench bench.new)) result }
        ensures finished { DoesAll self.old self.new result }
        ensures reported { IfOk result (ReportsOf self.new.board) }
        ensures memory { WantsNoPlace result }
        ensures job_memory { WantsNoRoom result }
    {
        resume(&mut self.shop, true, &[], shelf, bench, watch)
    }

    /// Does these events of any workers on outputs as they are, and what comes last where all jobs are done.
    pub fn resume_events<S: Shelf, B: Bench, T: Watch>(
        &mut self,
        events: &[BoardEvent],
        shelf: &mut S,
        bench: &mut B,
        watch: &mut T,
    ) -> Result<Progress, ExecutionFault>
        ensures notes { RunStaysNoted W.remains W.noted (source_view S.Shelf shelf.old) self.old self.new }
        ensures resumed { Resumed events.now
            (run_at W.plan self.old (source_view S.Shelf shelf.old) (output_view B.Bench bench.old)) (hands_at self.old)
            (run_at W.plan self.new (source_view S.Shelf shelf.new) (output_view B.Bench bench.new)) result }
    {
        resume(&mut self.shop, false, events, shelf, bench, watch)
    }
}
