// One event.
ghost use Rattle.std.specs.Prelude.{◌≡◌, ◌≢◌, ◌<◌, ◌≤◌, ◌+◌, ◌^◌, ◌∷◌, [], IsErr, IsErrOf, IsOk, None, OnOk, length};
ghost use Rattle.job_terms.specs.Workers.{jobs_over};
ghost use Rattle.execution.specs.Ends.{FailsNoOutput, NeedsPlace, NeedsRoom, end_of, ended_of, events_of};
ghost use Rattle.execution.specs.Held.{IsAtWork, IsReady, MayStep};
ghost use Rattle.execution.specs.Noted.{StaysNoted, alone};
ghost use Rattle.execution.specs.EventRun.{ActionStep, WorkerStep, event_of, snapshot_of};
ghost use Rattle.execution.specs.Shops.{ShopRuns, ShopStaysNoted};
ghost use Rattle.execution.specs.Desks.{FitsHand, FitsRoom};
ghost use Rattle.execution.specs.Turns.{ActionTurn};
ghost use Rattle.devices.specs.Views.{output_view, source_view};
ghost use Rattle.execution.specs.declared.action.Action.TheVariants as action_kind;
ghost use Rattle.execution.specs.declared.fault.ExecutionFault.TheVariants as execution_fault;

use crate::action::Action;
use crate::fault::JobFault;
use crate::steps::{deliver, fail, hand_out, lose, make};
use crate::worker::Worker;
use crate::workshop::Workshop;
use crate::{ExecutionFault, JobMaker};
use devices::{Bench, Shelf};
use job_terms::BoardEvent;
use std::alloc::AllocError;
use workboard::Board;

/// One worker does this.
fn turn<W: JobMaker, S: Shelf, B: Bench>(
    maker: &mut W,
    board: &mut Board,
    stale: &mut u64,
    worker: &mut Worker,
    number: u32,
    action: Action,
    shelf: &mut S,
    bench: &mut B,
) -> Result<(), JobFault>
    requires ready { IsAtWork (W.plan maker.old).jobs board.old worker.old.hand }
    requires room { action ≡ action_kind.Work → FitsRoom (W.plan maker.old).jobs worker.old }
    requires few { stale.old + 1 < 2 ^ 64 }
    ensures went { WorkerStep (ActionStep (W.plan maker.old).marks (jobs_over (W.plan maker.old).jobs (S.stored shelf.old)) action)
        (ActionTurn action)
        (snapshot_of (W.plan maker.old) board.old stale.old (source_view S.Shelf shelf.old) (output_view B.Bench bench.old))
        worker.old.hand
        (snapshot_of (W.plan maker.new) board.new stale.new (source_view S.Shelf shelf.new) (output_view B.Bench bench.new))
        worker.new.hand (ended_of result) }
    ensures notes { StaysNoted W.remains W.noted (source_view S.Shelf shelf.old) maker.old board.old
        (alone worker.old.hand) maker.new board.new (alone worker.new.hand) }
    ensures fits { FitsHand (W.plan maker.old).jobs worker.new.hand }
    ensures same_room { worker.new.room ≡ worker.old.room }
    ensures counted { stale.new ≤ stale.old + 1 }
{
    match action {
        Action::Give => {
            hand_out(board, worker, number);
            return Ok(());
        }
        Action::Work => return make(maker, board, worker, shelf),
        Action::Deliver => return deliver(maker, board, stale, worker, bench),
        Action::Fault => return fail(board, worker),
        Action::Lose => {
            lose(worker);
            return Ok(());
        }
    }
}

/// Makes room for the bytes of the job that the worker holds.
fn prepare<W: JobMaker>(maker: &W, worker: &mut Worker) -> Result<(), AllocError>
    requires { FitsHand (W.plan maker.now).jobs worker.old.hand }
    ensures same { worker.new.hand ≡ worker.old.hand }
    ensures room { OnOk result (FitsRoom (W.plan maker.now).jobs worker.new) }
    ensures enough { FitsRoom (W.plan maker.now).jobs worker.old → (IsOk result) × (worker.new.room ≡ worker.old.room) }
{
    let Some(ticket) = worker.ticket else {
        return Ok(());
    };
    if worker.made {
        return Ok(());
    }
    let size = maker.size(ticket.job);
    if size <= worker.bytes.len() {
        return Ok(());
    }
    match worker.bytes.resize(size, 0) {
        Ok(()) => return Ok(()),
        Err(_) => return Err(AllocError),
    }
}

/// Makes room where the worker is to make bytes.
fn get_ready<W: JobMaker>(maker: &W, worker: &mut Worker, action: Action) -> Result<(), AllocError>
    requires { FitsHand (W.plan maker.now).jobs worker.old.hand }
    ensures same { worker.new.hand ≡ worker.old.hand }
    ensures room { OnOk result (action ≡ action_kind.Work → FitsRoom (W.plan maker.now).jobs worker.new) }
    ensures enough { FitsRoom (W.plan maker.now).jobs worker.old → (IsOk result) × (worker.new.room ≡ worker.old.room) }
    ensures only { IsErr result → action ≡ action_kind.Work }
{
    match action {
        Action::Work => return prepare(maker, worker),
        Action::Give | Action::Deliver | Action::Fault | Action::Lose => return Ok(()),
    }
}

/// The worker of this number does this. Only a place for a worker, and room for the bytes of a job, take memory; where
/// there is none nothing happens.
fn act<W: JobMaker, S: Shelf, B: Bench>(
    shop: &mut Workshop<W>,
    stale: &mut u64,
    number: u32,
    action: Action,
    shelf: &mut S,
    bench: &mut B,
) -> Result<(), ExecutionFault>
    requires { MayStep W.plan shop.old stale.old }
    ensures ran { ShopRuns W.plan (events_of result (event_of action number)) (end_of result)
        shop.old stale.old (source_view S.Shelf shelf.old) (output_view B.Bench bench.old)
        shop.new stale.new (source_view S.Shelf shelf.new) (output_view B.Bench bench.new) }
    ensures notes { ShopStaysNoted W.remains W.noted (source_view S.Shelf shelf.old) shop.old shop.new }
    ensures ready { IsReady (W.plan shop.old.work).jobs shop.new.board shop.new.hands }
    ensures counted { stale.new ≤ stale.old + 1 }
    ensures memory { IsErrOf result execution_fault.Memory → number ≢ 1 }
    ensures room { IsErrOf result execution_fault.JobMemory → (action ≡ action_kind.Work) × (number ≢ 1) }
    ensures no_output { FailsNoOutput result }
{
    match shop.hands.make_place(shop.alloc, number) {
        Ok(()) => {}
        Err(_) => return Err(ExecutionFault::Memory),
    }
    let mut worker = shop.hands.take(shop.alloc, number);
    match get_ready(&shop.work, &mut worker, action) {
        Ok(()) => {}
        Err(_) => {
            shop.hands.put(number, worker);
            return Err(ExecutionFault::JobMemory);
        }
    }
    let outcome = turn(
        &mut shop.work,
        &mut shop.board,
        stale,
        &mut worker,
        number,
        action,
        shelf,
        bench,
    );
    shop.hands.put(number, worker);
    match outcome {
        Ok(()) => return Ok(()),
        Err(fault) => return Err(ExecutionFault::from(fault)),
    }
}

/// One event.
pub fn step<W: JobMaker, S: Shelf, B: Bench>(
    shop: &mut Workshop<W>,
    stale: &mut u64,
    event: BoardEvent,
    shelf: &mut S,
    bench: &mut B,
) -> Result<(), ExecutionFault>
    requires { MayStep W.plan shop.old stale.old }
    ensures ran { ShopRuns W.plan (events_of result event) (end_of result)
        shop.old stale.old (source_view S.Shelf shelf.old) (output_view B.Bench bench.old)
        shop.new stale.new (source_view S.Shelf shelf.new) (output_view B.Bench bench.new) }
    ensures notes { ShopStaysNoted W.remains W.noted (source_view S.Shelf shelf.old) shop.old shop.new }
    ensures ready { IsReady (W.plan shop.old.work).jobs shop.new.board shop.new.hands }
    ensures counted { stale.new ≤ stale.old + 1 }
    ensures memory { IsErrOf result execution_fault.Memory → NeedsPlace event }
    ensures room { IsErrOf result execution_fault.JobMemory → NeedsRoom event }
    ensures no_output { FailsNoOutput result }
{
    match event {
        BoardEvent::Give(number) => { act(shop, stale, number, Action::Give, shelf, bench) }
        BoardEvent::Work(number) => { act(shop, stale, number, Action::Work, shelf, bench) }
        BoardEvent::Deliver(number) => { act(shop, stale, number, Action::Deliver, shelf, bench) }
        BoardEvent::Fault(number) => { act(shop, stale, number, Action::Fault, shelf, bench) }
        BoardEvent::Lose(number) => { act(shop, stale, number, Action::Lose, shelf, bench) }
        BoardEvent::Reclaim(job) => {
            shop.board.reclaim(job);
            Ok(())
        }
    }
}
