// Boards of jobs.
use anyhow::Result;
use std::alloc::Global;
use workboard::{Board, BoardFault, Counts, Ticket};

/// Creates a board of two open jobs; the second is dispatched first.
pub fn new_board(alloc: Global) -> Result<Board> {
    let board = Board::new(alloc, 2, vec![in alloc; 1, 0]?)?;
    Ok(board)
}

/// Creates a board of two jobs; the first is done.
pub fn resumed_board(alloc: Global) -> Result<Board> {
    let board = Board::with_done(alloc, 2, vec![in alloc; 1, 0]?, &[true, false])?;
    Ok(board)
}

/// Makes one round of a worker: a job is dispatched, and delivered unless it was reclaimed. Returns
/// whether all jobs are done.
pub fn round(board: &mut Board, worker: u32) -> Result<bool, BoardFault> {
    let ticket: Ticket = board.give(worker)?;
    if board.is_current(&ticket) {
        board.deliver(ticket)?;
    }
    Ok(board.finished())
}

/// Lets a job of a worker fail and reclaims another job.
pub fn failed(board: &mut Board, worker: u32, job: u32) -> Result<bool, BoardFault> {
    let ticket = board.give(worker)?;
    board.fault(ticket)?;
    Ok(board.reclaim(job))
}

/// Returns the numbers of open, dispatched and done jobs.
pub fn counted(board: &Board) -> [u32; 3] {
    let Counts { idle, out, done } = board.counts();
    [idle, out, done]
}
