// The board of jobs.
ghost use Rattle.std.specs.Prelude.{◌≡◌, ◌≢◌, ◌+◌, ◌-◌, ◌*◌, ◌<◌, ◌≤◌, ◌^◌, ◌↔◌, ℕ, Bool, Some, None, true, false, cond, IfOk, IfErr, OnOk, OnErr, IsErrOf, IsTrue, length, map, replicate, slice_index_or, slice_set};
ghost use Rattle.std.specs.List.{count_by};
ghost use Rattle.job_terms.specs.Board.{accepted, can_give, done_count, done_job, faulted, fresh_job, given_out, idle_count, is_current, is_finished, is_givable, is_last_fault, is_done, is_open, is_out, job_at, next_job, no_job, out_count, reopened, ticket_of, with_job};
ghost use Rattle.workboard.specs.Indexed.{AreCounts, IsCounted, IsOrder};

use crate::BoardFault;
use crate::firsts::Firsts;
use job_terms::{Counts, Job, Standing, Ticket};
use std::alloc::Global;
use std::marker::Model;

/// A board of jobs. Contracts see the jobs and their dispatch order.
pub struct Board {
    jobs: Vec<Job>,
    order: Vec<u32>,
    places: Vec<u32>,
    firsts: Firsts,
    counts: Counts,
}

// Written out so that dropping a board is a single call.
impl Drop for Board {
    fn drop(self) {
        let Board {
            jobs,
            order,
            places,
            firsts,
            counts: _,
        } = self;
        drop(jobs);
        drop(order);
        drop(places);
        drop(firsts);
    }
}

impl Model for Board {
    ghost use Rattle.job_terms.specs.Board as terms;
    ghost use Rattle.workboard.specs.Indexed.{IsIndexed};

    ghost Value = { terms.Board };

    ghost view = { λ b. record { jobs = b.jobs.items; order = b.order.items } };

    ghost invariant = { λ b. IsIndexed b.jobs.items b.order.items b.places.items b.firsts b.counts };
}

/// Returns whether the job can be dispatched.
fn givable(job: &Job) -> bool
    ensures { result ≡ is_givable job.now }
{
    job.standing == Standing::Open && job.given < u32::MAX
}

/// Returns the count after one of the counted jobs has changed from `from` to `to`.
fn moved(count: u32, from: bool, to: bool) -> u32
    requires some { cond from 1 0 ≤ count + cond to 1 0 }
    requires room { count + cond to 1 0 - cond from 1 0 < 2 ^ 32 }
    ensures { result ≡ count + cond to 1 0 - cond from 1 0 }
{
    match (from, to) {
        (true, false) => count - 1,
        (false, true) => count + 1,
        (true, true) | (false, false) => count,
    }
}

fn open_now(job: &Job) -> bool
    ensures { result ≡ is_open job.now.standing }
{
    matches!(job.standing, Standing::Open)
}

fn out_now(job: &Job) -> bool
    ensures { result ≡ is_out job.now.standing }
{
    matches!(job.standing, Standing::Out)
}

fn done_now(job: &Job) -> bool
    ensures { result ≡ is_done job.now.standing }
{
    matches!(job.standing, Standing::Done)
}

/// Counts of jobs by state after job `k` is replaced.
fn counts_with(counts: &Counts, jobs: &[Job], k: usize, job: &Job) -> Counts
    requires there { k < length jobs.now }
    requires few { length jobs.now < 2 ^ 32 }
    requires counted { AreCounts counts.now jobs.now }
    ensures { AreCounts result (slice_set jobs.now k job.now) }
{
    let old = jobs[k];
    let idle = moved(counts.idle, open_now(&old), open_now(job));
    let out = moved(counts.out, out_now(&old), out_now(job));
    let done = moved(counts.done, done_now(&old), done_now(job));
    Counts { idle, out, done }
}

/// Returns the position of each job in the order.
fn places_of(alloc: Global, jobs: u32, order: &[u32]) -> Result<Vec<u32>, BoardFault>
    requires { IsOrder jobs order.now }
    ensures length { IfOk result (λ places. length places.items ≡ jobs) }
    ensures places { IfOk result (λ places. (p : ℕ) → p < jobs → slice_index_or places.items (slice_index_or order.now p 0) 0 ≡ p) }
    ensures only_memory { IfErr result (λ f. f ≡ BoardFault.Memory) }
{
    let Ok(mut places) = vec![in alloc; 0; jobs as usize] else {
        return Err(BoardFault::Memory);
    };
    for (position, job) in order.iter().enumerate() {
        places[*job as usize] = position as u32;
    }
    Ok(places)
}

impl Board {
    /// Creates a board of `jobs` open jobs, dispatched in the given order. Returns
    /// `BoardFault::Memory` if out of memory.
    pub fn new(alloc: Global, jobs: u32, order: Vec<u32>) -> Result<Self, BoardFault>
        requires { IsOrder jobs order.items }
        ensures made { IfOk result (λ b. b ≡ record { jobs = replicate jobs fresh_job; order = order.items }) }
        ensures only_memory { IfErr result (λ f. f ≡ BoardFault.Memory) }
    {
        let places = places_of(alloc, jobs, &order)?;
        let fresh = Job {
            standing: Standing::Open,
            given: 0,
            faults: 0,
        };
        let Ok(all) = vec![in alloc; fresh; jobs as usize] else {
            return Err(BoardFault::Memory);
        };
        let Ok(firsts) = Firsts::new(alloc, jobs as usize) else {
            return Err(BoardFault::Memory);
        };
        Ok(Board {
            jobs: all,
            order,
            places,
            firsts,
            counts: Counts {
                idle: jobs,
                out: 0,
                done: 0,
            },
        })
    }

    /// Replaces job `k`.
    fn put(&mut self, k: u32, job: Job)
        requires there { k < length self.old.jobs }
        requires counted { IsCounted job }
        ensures { self.new ≡ with_job self.old k job }
    {
        let k = k as usize;
        let position = self.places[k] as usize;
        self.counts = counts_with(&self.counts, &self.jobs, k, &job);
        self.firsts.set(position, givable(&job));
        self.jobs[k] = job;
    }

    /// Creates a board of `jobs` jobs. The marked ones are done. Returns `BoardFault::Memory` if
    /// out of memory.
    pub fn with_done(
        alloc: Global,
        jobs: u32,
        order: Vec<u32>,
        done: &[bool],
    ) -> Result<Self, BoardFault>
        requires order { IsOrder jobs order.items }
        requires done { length done.now ≡ jobs }
        ensures made { IfOk result (λ b. b ≡ record { jobs = map (λ d. cond d done_job fresh_job) done.now; order = order.items }) }
        ensures only_memory { IfErr result (λ f. f ≡ BoardFault.Memory) }
    {
        let mut board = Board::new(alloc, jobs, order)?;
        for (k, is_done) in done.iter().enumerate() {
            if *is_done {
                let job = Job {
                    standing: Standing::Done,
                    given: 0,
                    faults: 0,
                };
                board.put(k as u32, job);
            }
        }
        Ok(board)
    }

    /// Dispatches the first open job in the board's order under a new ticket. Returns
    /// `BoardFault::NoOpenJob` if no job can be dispatched.
    pub fn give(&mut self, _worker: u32) -> Result<Ticket, BoardFault>
        ensures given { IfOk result (λ ticket. (next_job self.old ≡ Some ticket.job)
            × (ticket ≡ ticket_of self.old ticket.job) × (self.new ≡ given_out self.old ticket.job)) }
        ensures none { IfErr result (λ fault. (fault ≡ BoardFault.NoOpenJob) × (next_job self.old ≡ None)) }
        ensures none_left { OnErr result ((k : ℕ) → can_give self.old k ≡ false) }
        ensures unchanged { OnErr result (self.new ≡ self.old) }
    {
        let Some(at) = self.firsts.first() else {
            return Err(BoardFault::NoOpenJob);
        };
        let k = self.order[at];
        let job = self.jobs[k as usize];
        let serial = job.given + 1;
        self.put(
            k,
            Job {
                standing: Standing::Out,
                given: serial,
                faults: job.faults,
            },
        );
        Ok(Ticket { job: k, serial })
    }

    /// Returns whether the job is dispatched under this ticket.
    pub fn is_current(&self, ticket: &Ticket) -> bool
        ensures { result ≡ is_current self.now ticket.now }
    {
        match self.jobs.get(ticket.job as usize) {
            Some(job) => job.standing == Standing::Out && job.given == ticket.serial,
            None => false,
        }
    }

    /// Returns whether the job is done. Numbers past the last job count as done.
    pub fn is_done(&self, job: u32) -> bool
        ensures { result ≡ is_done (job_at self.now job).standing }
    {
        match self.jobs.get(job as usize) {
            Some(job) => job.standing == Standing::Done,
            None => true,
        }
    }

    /// Marks the ticket's job as done. Returns `BoardFault::Stale` if the ticket isn't current.
    pub fn deliver(&mut self, ticket: Ticket) -> Result<(), BoardFault>
        ensures done { OnOk result ((is_current self.old ticket ≡ true) × (self.new ≡ accepted self.old ticket.job)) }
        ensures stale { IfErr result (λ fault. (fault ≡ BoardFault.Stale) × (is_current self.old ticket ≡ false)) }
        ensures unchanged { OnErr result (self.new ≡ self.old) }
    {
        let is_late = !self.is_current(&ticket);
        if is_late {
            return Err(BoardFault::Stale);
        }
        let job = self.jobs[ticket.job as usize];
        self.put(
            ticket.job,
            Job {
                standing: Standing::Done,
                given: job.given,
                faults: job.faults,
            },
        );
        Ok(())
    }

    /// Counts a failure of the ticket's job and opens it again. Returns `BoardFault::GivenUp` on
    /// the third and every later failure, and `BoardFault::Stale` if the ticket isn't current.
    pub fn fault(&mut self, ticket: Ticket) -> Result<(), BoardFault>
        ensures stale { is_current self.old ticket ≡ false → (IsErrOf result BoardFault.Stale) × (self.new ≡ self.old) }
        ensures counted { is_current self.old ticket ≡ true → self.new ≡ faulted self.old ticket.job }
        ensures opened { OnOk result ((is_current self.old ticket ≡ true) × (is_last_fault self.old ticket.job ≡ false)) }
        ensures given_up { IfErr result (λ fault. fault ≢ BoardFault.Stale → (fault ≡ BoardFault.GivenUp ticket.job)
            × (is_current self.old ticket ≡ true) × (is_last_fault self.old ticket.job ≡ true)) }
        ensures only_stale { IsErrOf result BoardFault.Stale → is_current self.old ticket ≡ false }
    {
        if !self.is_current(&ticket) {
            return Err(BoardFault::Stale);
        }
        let job = self.jobs[ticket.job as usize];
        self.put(
            ticket.job,
            Job {
                standing: Standing::Open,
                given: job.given,
                faults: job.faults + 1,
            },
        );
        if job.faults >= 2 {
            return Err(BoardFault::GivenUp { job: ticket.job });
        }
        Ok(())
    }

    /// Opens a dispatched job again, which makes its ticket stale. Returns false and does nothing
    /// if the job isn't dispatched.
    pub fn reclaim(&mut self, job: u32) -> bool
        ensures reported { result ≡ is_out (job_at self.old job).standing }
        ensures opened { self.new ≡ cond (is_out (job_at self.old job).standing) (reopened self.old job) self.old }
    {
        let k = job;
        let Some(job) = self.jobs.get(k as usize) else {
            return false;
        };
        let job = *job;
        if job.standing != Standing::Out {
            return false;
        }
        self.put(
            k,
            Job {
                standing: Standing::Open,
                given: job.given,
                faults: job.faults,
            },
        );
        true
    }

    /// Returns whether every job is done.
    pub fn finished(&self) -> bool
        ensures { result ≡ is_finished self.now }
    {
        self.counts.done as usize == self.jobs.len()
    }

    /// Returns the numbers of open, dispatched and done jobs.
    pub fn counts(&self) -> Counts
        ensures counts { result ≡ record { idle = idle_count self.now; out = out_count self.now; done = done_count self.now } }
        ensures all { result.idle + result.out + result.done ≡ length self.now.jobs }
    {
        self.counts
    }
}
