// What all workers hold.
ghost use Rattle.std.specs.Prelude.{◌≡◌, ◌≢◌, ℕ, IfOk, OnOk, IsErr, true};
ghost use Rattle.job_terms.specs.Workers.{with_hand};
ghost use Rattle.execution.specs.Held.{AreIdle, hands_in, has_place};

use crate::worker::Worker;
use std::alloc::{AllocError, Global};
use std::collections::BTreeMap;
use std::mem::replace;

/// The workers. Worker 1 is there from the start, the others come as they are named. A clause reads what they hold by
/// `hands_in`.
pub struct Hands {
    pub first: Worker,
    pub others: BTreeMap<u32, Worker>,
}

// Written out, so that it is one call where it is dropped.
impl Drop for Hands {
    fn drop(self) {
        let Hands { first, others } = self;
        drop(first);
        drop(others);
    }
}

impl Hands {
    /// Worker 1 alone, with room for the bytes of any job of at most so many. No worker holds anything.
    pub fn with_room(alloc: Global, most: usize) -> Result<Self, AllocError>
        ensures hands { IfOk result AreIdle }
        ensures room { IfOk result (λ hands. hands.first.room ≡ most) }
    {
        let first = Worker::with_room(alloc, most)?;
        Ok(Hands {
            first,
            others: BTreeMap::new(alloc),
        })
    }

    /// Makes a place for the worker. Only this takes memory.
    pub fn make_place(&mut self, alloc: Global, number: u32) -> Result<(), AllocError>
        ensures hands { (v : ℕ) → hands_in self.new v ≡ hands_in self.old v }
        ensures slot { OnOk result (has_place self.new number ≡ true) }
        ensures first { self.new.first ≡ self.old.first }
        ensures needed { IsErr result → number ≢ 1 }
    {
        if number == 1 || self.others.contains_key(&number) {
            return Ok(());
        }
        match self.others.insert(number, Worker::new(alloc)) {
            Ok(_) => Ok(()),
            Err(_) => Err(AllocError),
        }
    }

    /// Takes the worker out, who then holds nothing here.
    pub fn take(&mut self, alloc: Global, number: u32) -> Worker
        requires { has_place self.old number ≡ true }
        ensures hand { result.hand ≡ hands_in self.old number }
        ensures slot { has_place self.new number ≡ true }
        ensures others { (v : ℕ) → v ≢ number → hands_in self.new v ≡ hands_in self.old v }
        ensures first { number ≡ 1 → result.room ≡ self.old.first.room }
        ensures same_first { number ≢ 1 → self.new.first ≡ self.old.first }
    {
        if number == 1 {
            return replace(&mut self.first, Worker::new(alloc));
        }
        match self.others.insert(number, Worker::new(alloc)) {
            Ok(Some(worker)) => worker,
            Ok(None) | Err(_) => Worker::new(alloc),
        }
    }

    /// Puts the worker back.
    pub fn put(&mut self, number: u32, worker: Worker)
        requires { has_place self.old number ≡ true }
        ensures hands { (v : ℕ) → hands_in self.new v ≡ with_hand (hands_in self.old) number worker.hand v }
        ensures first { number ≡ 1 → self.new.first.room ≡ worker.room }
        ensures same_first { number ≢ 1 → self.new.first ≡ self.old.first }
    {
        if number == 1 {
            self.first = worker;
            return;
        }
        let _ = self.others.insert(number, worker);
    }
}
