// The steps of one worker.
ghost use Rattle.std.specs.Prelude.{◌≡◌, ◌<◌, ◌+◌, ◌^◌, ◌≤◌, ℕ, IsTrue, true, None, length, IfErr, IfOk, IsErrOf, take, ⊤};
ghost use Rattle.work_terms.specs.Disk.{Files};
ghost use Rattle.devices.specs.Frame.{OnlyReads};
ghost use Rattle.execution.specs.Marking.{IsRight, IsRunningBy, MarksOn, done_of};
ghost use Rattle.execution.specs.Noted.{KeepsNotes, StaysNoted, alone};
ghost use Rattle.job_terms.specs.Workers.{JobsBy, DeliverStep, FaultStep, GiveStep, Nothing, State, WorkStep, after_fault, jobs_over};
ghost use Rattle.job_terms.specs.Board.{accepted, is_current};
ghost use Rattle.execution.specs.Boards.{HasAsMany};
ghost use Rattle.execution.specs.Ends.{ended_of};
ghost use Rattle.execution.specs.Plan.{Stays};
ghost use Rattle.execution.specs.EventRun.{MarkFails};
ghost use Rattle.execution.specs.Desks.{FitsHand, FitsRoom};
ghost use Rattle.execution.specs.Alone.{Turned};
ghost use Rattle.execution.specs.Together.{are_done, with_done};
ghost use Rattle.execution.specs.Turns.{DeliverTurn, WorkTurn};
ghost use Rattle.execution.specs.Worlds.{state_of};
ghost use Rattle.devices.specs.Views.{Reads, Writes, output_view, source_view};
ghost use Rattle.execution.specs.declared.fault.JobFault.TheVariants as fault;

use crate::fault::JobFault;
use crate::worker::Worker;
use crate::{JobMaker, PlaceFault};
use devices::{Bench, DeviceFault, Shelf};
use job_terms::Ticket;
use workboard::{Board, BoardFault};

/// Hands a job to a worker that holds none.
pub fn hand_out(board: &mut Board, worker: &mut Worker, number: u32)
    ensures fits { (jobs : JobsBy) → length board.old.jobs ≡ jobs.count → FitsHand jobs worker.old.hand → FitsHand
        jobs worker.new.hand }
    ensures size { HasAsMany board.old board.new }
    ensures same_room { worker.new.room ≡ worker.old.room }
    ensures step { (files : Files) (stale shelf bench : ℕ)
        → GiveStep (state_of board.old files stale shelf bench None) worker.old.hand
        (state_of board.new files stale shelf bench None) worker.new.hand }
{
    if worker.ticket.is_some() {
        return;
    }
    if let Ok(ticket) = board.give(number) {
        worker.ticket = Some(ticket);
        worker.made = false;
    }
}

/// Takes a fault of the job under this ticket.
fn failed(board: &mut Board, ticket: Ticket) -> Result<(), JobFault>
    ensures step { (files : Files) (stale shelf bench : ℕ) →
        state_of board.new files stale shelf bench (ended_of result)
        ≡ after_fault (state_of board.old files stale shelf bench None) ticket }
    ensures turned { ended_of result ≡ None → is_current board.old ticket ≡ true
        → Turned board.old ticket board.new }
    ensures only { IfErr result (λ f. f ≡ fault.GivenUp ticket.job) }
    ensures size { HasAsMany board.old board.new }
{
    match board.fault(ticket) {
        Err(BoardFault::GivenUp { job }) => Err(JobFault::GivenUp { job }),
        Ok(()) | Err(_) => Ok(()),
    }
}

/// Makes the bytes of a job at the front of a buffer, and gives how many they are.
#[tactic(auto, using(crate::proofs::Firsts::front_made))]
fn make_in_front<W: JobMaker, S: Shelf>(
    maker: &mut W,
    job: u32,
    shelf: &mut S,
    bytes: &mut [u8],
) -> Result<usize, DeviceFault>
    requires there { job < (W.plan maker.old).jobs.count }
    requires room { (W.plan maker.old).jobs.size job ≤ length bytes.old }
    ensures made { IsTrue (S.honest shelf.old) → IfOk result (λ size.
        take size bytes.new ≡ (W.plan maker.old).jobs.bytes (S.stored shelf.old) job) }
    ensures size { IfOk result (λ size. size ≡ (W.plan maker.old).jobs.size job) }
    ensures length { length bytes.new ≡ length bytes.old }
    ensures same { W.plan maker.new ≡ W.plan maker.old }
    ensures remains { (first : W) → W.remains first maker.old → W.remains first maker.new }
    ensures notes { IsTrue (S.honest shelf.old) → IfOk result (λ _. W.noted maker.new (S.stored shelf.old) job) }
    ensures keeps { IsTrue (S.honest shelf.old) → (k : ℕ) → W.noted maker.old (S.stored shelf.old) k
        → W.noted maker.new (S.stored shelf.old) k }
    ensures only_reads { OnlyReads S.Shelf shelf.old shelf.new result (λ _. ⊤) (λ _ failed. ⊤) }
{
    let size = maker.size(job);
    match maker.make(job, shelf, &mut bytes[..size]) {
        Ok(()) => return Ok(size),
        Err(fault) => return Err(fault),
    }
}

/// Makes the bytes of the job that the worker holds.
pub fn make<W: JobMaker, S: Shelf>(
    maker: &mut W,
    board: &mut Board,
    worker: &mut Worker,
    shelf: &mut S,
) -> Result<(), JobFault>
    requires fits { FitsHand (W.plan maker.old).jobs worker.old.hand }
    requires room { FitsRoom (W.plan maker.old).jobs worker.old }
    ensures step { IsTrue (S.honest shelf.old) → (files : Files) (stale bench : ℕ) →
        WorkStep (jobs_over (W.plan maker.old).jobs (S.stored shelf.old))
        (state_of board.old files stale (S.failures shelf.old) bench None) worker.old.hand
        (state_of board.new files stale (S.failures shelf.new) bench (ended_of result)) worker.new.hand }
    ensures turned { ended_of result ≡ None → WorkTurn board.old worker.old.hand board.new worker.new.hand }
    ensures fits { FitsHand (W.plan maker.old).jobs worker.new.hand }
    ensures same { W.plan maker.new ≡ W.plan maker.old }
    ensures notes { StaysNoted W.remains W.noted (source_view S.Shelf shelf.old) maker.old board.old
        (alone worker.old.hand) maker.new board.new (alone worker.new.hand) }
    ensures source { Reads (source_view S.Shelf shelf.old) (source_view S.Shelf shelf.new) }
    ensures no_mark { IsErrOf result fault.Mark → ⊥ }
    ensures same_room { worker.new.room ≡ worker.old.room }
    ensures size { HasAsMany board.old board.new }
{
    let Some(ticket) = worker.ticket else {
        return Ok(());
    };
    if worker.made {
        return Ok(());
    }
    match make_in_front(maker, ticket.job, shelf, &mut worker.bytes) {
        Ok(size) => {
            worker.size = size;
            worker.made = true;
            return Ok(());
        }
        Err(_) => {
            worker.ticket = None;
            return failed(board, ticket);
        }
    }
}

/// The job is done, under its current ticket.
fn accept(board: &mut Board, ticket: Ticket)
    requires { is_current board.old ticket ≡ true }
    ensures done { board.new ≡ accepted board.old ticket.job }
    ensures size { HasAsMany board.old board.new }
{
    let _ = board.deliver(ticket);
}

/// Whether all other jobs are done of those that are marked together with this one.
fn is_last<W: JobMaker>(maker: &W, board: &Board, job: u32) -> bool
    requires { job < (W.plan maker.now).jobs.count }
    ensures { result ≡ are_done (W.plan maker.now).jobs.count (W.plan maker.now).group
        (with_done (done_of board.now) job) job }
{
    let first = maker.group(job);
    for other in first..maker.count() {
        if maker.group(other) != first {
            return true;
        }
        if other != job && !board.is_done(other) {
            return false;
        }
    }
    true
}

/// Writes what the worker made at its place.
pub fn deliver<W: JobMaker, B: Bench>(
    maker: &mut W,
    board: &mut Board,
    stale: &mut u64,
    worker: &mut Worker,
    bench: &mut B,
) -> Result<(), JobFault>
    requires fits { FitsHand (W.plan maker.old).jobs worker.old.hand }
    requires room { stale.old + 1 < 2 ^ 64 }
    ensures step { IsTrue (B.honest bench.old) → (sources : Files) (shelf : ℕ) →
        DeliverStep (W.plan maker.old).marks (jobs_over (W.plan maker.old).jobs sources)
        (state_of board.old (B.stored bench.old) stale.old shelf (B.failures bench.old) None) worker.old.hand
        (state_of board.new (B.stored bench.new) stale.new shelf (B.failures bench.new) (ended_of result))
        worker.new.hand }
    ensures marks { IsTrue (B.honest bench.old) → (sources : Files)
        → IsRight (jobs_over (W.plan maker.old).jobs sources) worker.old.hand
        → IsRunningBy ((W.plan maker.old).marking sources) (done_of board.old) (output_view B.Bench bench.old)
        → MarksOn ((W.plan maker.old).marking sources) (done_of board.old) (output_view B.Bench bench.old)
        (done_of board.new) (output_view B.Bench bench.new) (ended_of result) }
    ensures turned { ended_of result ≡ None → DeliverTurn board.old worker.old.hand board.new worker.new.hand }
    ensures fits { FitsHand (W.plan maker.old).jobs worker.new.hand }
    ensures same { W.plan maker.new ≡ W.plan maker.old }
    ensures notes { (sources : Files) → KeepsNotes (λ first. W.remains first maker.old) (λ first. W.remains first maker.new)
        (W.noted maker.old sources) (W.noted maker.new sources)
        (done_of board.old) (done_of board.new) (alone worker.old.hand) (alone worker.new.hand) }
    ensures output { Writes (Stays (W.plan maker.old)) (output_view B.Bench bench.old) (output_view B.Bench bench.new) }
    ensures mark { IsErrOf result fault.Mark → MarkFails (W.plan maker.old) (output_view B.Bench bench.old)
        (output_view B.Bench bench.new) }
    ensures same_room { worker.new.room ≡ worker.old.room }
    ensures size { HasAsMany board.old board.new }
    ensures counted { stale.new ≤ stale.old + 1 }
{
    let Some(ticket) = worker.ticket else {
        return Ok(());
    };
    if !worker.made {
        return Ok(());
    }
    worker.ticket = None;
    if !board.is_current(&ticket) {
        *stale += 1;
        return Ok(());
    }
    let last = is_last(maker, board, ticket.job);
    match maker.write(ticket.job, &worker.bytes[..worker.size], last, bench) {
        Ok(()) => {
            accept(board, ticket);
            return Ok(());
        }
        Err(PlaceFault::Write) => return failed(board, ticket),
        Err(PlaceFault::Mark) => {
            accept(board, ticket);
            return Err(JobFault::Mark);
        }
    }
}

/// What the worker holds fails.
pub fn fail(board: &mut Board, worker: &mut Worker) -> Result<(), JobFault>
    ensures step { (files : Files) (stale shelf bench : ℕ) →
        FaultStep (state_of board.old files stale shelf bench None) worker.old.hand
        (state_of board.new files stale shelf bench (ended_of result)) worker.new.hand }
    ensures nothing { worker.new.hand ≡ Nothing }
    ensures size { HasAsMany board.old board.new }
    ensures same_room { worker.new.room ≡ worker.old.room }
    ensures no_mark { IsErrOf result fault.Mark → ⊥ }
{
    let Some(ticket) = worker.ticket else {
        return Ok(());
    };
    worker.ticket = None;
    match failed(board, ticket) {
        Ok(()) => return Ok(()),
        Err(fault) => return Err(fault),
    }
}

/// The worker forgets what it holds.
pub fn lose(worker: &mut Worker)
    ensures nothing { worker.new.hand ≡ Nothing }
    ensures same_room { worker.new.room ≡ worker.old.room }
{
    worker.ticket = None;
}
