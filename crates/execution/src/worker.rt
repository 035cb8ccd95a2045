// What a worker holds.
ghost use Rattle.std.specs.Prelude.{◌≡◌, IfOk, IfSome, OnOk};
ghost use Rattle.job_terms.specs.Workers.{Nothing};
ghost use Rattle.execution.specs.Desks.{job_of};

use job_terms::Ticket;
use std::alloc::{AllocError, Global};
use std::marker::Model;

/// A worker's hand: nothing, a ticket, or a ticket with the bytes that were made. They stand at the front of its buffer,
/// which is kept between jobs.
#[derive(Drop)]
pub struct Worker {
    pub ticket: Option<Ticket>,
    pub made: bool,
    pub size: usize,
    pub bytes: Vec<u8>,
}

impl Model for Worker {
    ghost use Rattle.std.specs.Prelude.{◌≤◌, take, length};
    ghost use Rattle.job_terms.specs.Workers.{hand_of};
    ghost use Rattle.execution.specs.Desks.{Desk};

    ghost Value = { Desk };

    ghost view = { λ worker. record {
      hand = hand_of worker.ticket worker.made (take worker.size worker.bytes.items);
      room = length worker.bytes.items;
    } };

    ghost invariant = { λ worker. worker.size ≤ length worker.bytes.items };
}

impl Worker {
    /// A worker that holds nothing, and has no room.
    pub fn new(alloc: Global) -> Self
        ensures { result.hand ≡ Nothing }
    {
        Worker {
            ticket: None,
            made: false,
            size: 0,
            bytes: Vec::new(alloc),
        }
    }

    /// A worker that holds nothing, with room for the bytes of any job of at most so many.
    pub fn with_room(alloc: Global, most: usize) -> Result<Self, AllocError>
        ensures hand { IfOk result (λ worker. worker.hand ≡ Nothing) }
        ensures room { IfOk result (λ worker. worker.room ≡ most) }
    {
        let bytes = vec![in alloc; 0; most]?;
        Ok(Worker {
            ticket: None,
            made: false,
            size: 0,
            bytes,
        })
    }

    /// The job whose ticket it holds.
    pub fn job(&self) -> Option<u32>
        ensures { result ≡ job_of self.now.hand }
    {
        match self.ticket {
            Some(ticket) => Some(ticket.job),
            None => None,
        }
    }
}
