// A work with its board and its workers.
use crate::JobMaker;
use crate::hands::Hands;
use std::alloc::Global;
use workboard::Board;

/// A work, its board, and what its workers hold.
#[derive(Drop)]
pub struct Workshop<W: JobMaker> {
    pub alloc: Global,
    pub work: W,
    pub board: Board,
    pub hands: Hands,
}
