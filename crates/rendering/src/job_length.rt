// Cuts blocks into stretches.
ghost use Rattle.std.specs.Prelude.{◌≡◌, ◌≤◌, ◌<◌, ◌-◌, ◌*◌, ◌^◌, true, false, length, IfOk};
ghost use Rattle.std.specs.List.{All};
ghost use Rattle.rendering.specs.Cut.{AreEven, AreGrouped, AreLongest, AreShort, IsCut, IsFresh, IsNextGroup, IsUniform};
ghost use Rattle.rendering.specs.Cut as spec;

use crate::stretch::Stretch;
use std::alloc::{AllocError, Global};

/// How long the jobs of a rendering are, in blocks of 4,096 frames, the last of which may be shorter.
#[derive(Clone, Copy, Debug, PartialEq, Eq)]
pub enum JobLength {
    /// One block, as the rule of the board has it: whatever is lost with a job is lost of one block.
    OneBlock,
    /// For speed, where there are more than 64 blocks: as many as make 768 KiB, and one at least; else one. Of more
    /// than 65,536 such jobs each is longer. The marks of a thirty-second of all blocks are set together, but of no
    /// more than make 16 MiB, of no fewer than make 2 MiB, and of one at least.
    Longer,
}

/// How many blocks a job has at most, and how many jobs are marked together at most.
#[derive(Clone, Copy)]
pub struct JobLimits {
    pub blocks: u32,
    pub together: u32,
}

/// The most blocks that are each a job where there are no more.
const FEW: u32 = 64;

/// The most bytes of more than one block that are marked together.
const LONGEST: u32 = 16_777_216;

/// The bytes that are marked together of a short file.
const SHORTEST: u32 = 2_097_152;

/// How many times marks are set, where no time is bounded by its bytes.
const TIMES: u32 = 32;

/// The most bytes of a job of more than one block: so many stay in a processor's cache between being made and written.
/// With fewer the system keeps what is written in many small parts, since no job begins where a page does.
const JOB: u32 = 786_432;

/// How many jobs there are about, where these are longer for it.
const JOBS: u32 = 65_536;

/// How many blocks of so many bytes are marked together.
fn blocks_together(jobs: JobLength, blocks: u32, block_size: u32) -> u32
    requires { 0 < block_size }
    ensures value { result ≡ spec.blocks_together jobs blocks block_size }
    ensures some { 1 ≤ result }
    ensures few { 8192 ≤ block_size → result ≤ 2048 }
{
    match jobs {
        JobLength::OneBlock => 1,
        JobLength::Longer if blocks <= FEW => 1,
        JobLength::Longer => (blocks / TIMES)
            .min(LONGEST / block_size)
            .max(SHORTEST / block_size)
            .max(1),
    }
}

/// How many blocks of so many bytes a job has.
pub fn blocks_in_job(jobs: JobLength, blocks: u32, block_size: u32) -> u32
    requires { 0 < block_size }
    ensures value { result ≡ spec.blocks_in_job jobs blocks block_size }
    ensures some { 1 ≤ result }
{
    let most = (JOB / block_size).max(blocks / JOBS).max(1);
    blocks_together(jobs, blocks, block_size).min(most)
}

/// How many jobs of such blocks are marked together at most.
pub fn jobs_together(jobs: JobLength, blocks: u32, block_size: u32) -> u32
    requires { 0 < block_size }
    ensures value { result ≡ spec.jobs_together jobs blocks block_size }
    ensures some { 1 ≤ result }
    ensures few { 8192 ≤ block_size → result * spec.blocks_in_job jobs blocks block_size ≤ 2048 }
{
    blocks_together(jobs, blocks, block_size) / blocks_in_job(jobs, blocks, block_size)
}

/// The first of those that are marked together with the next stretch, which is done or not: the first of those of the
/// last one where that is as well and they are fewer than so many, and else itself.
fn group_of_next(stretches: &[Stretch], done: bool, together: u32) -> u32
    requires some { 1 ≤ together }
    requires few { length stretches.now < 2 ^ 32 }
    requires grouped { AreGrouped together stretches.now }
    ensures { IsNextGroup together stretches.now done result }
{
    let next = stretches.len() as u32;
    match stretches.last() {
        Some(last) if last.done == done && next - last.group < together => last.group,
        _ => next,
    }
}

/// All blocks, none of which is done, so many in each stretch but the last, and at most so many of these marked
/// together.
pub fn fresh_stretches(
    alloc: Global,
    blocks: u32,
    most: u32,
    together: u32,
) -> Result<Vec<Stretch>, AllocError>
    requires most { 1 ≤ most }
    requires together { 1 ≤ together }
    ensures cut { IfOk result (λ stretches. IsCut 0 stretches.items blocks) }
    ensures even { IfOk result (λ stretches. AreEven most blocks stretches.items) }
    ensures fresh { IfOk result (λ stretches. All IsFresh stretches.items) }
    ensures short { IfOk result (AreShort most) }
    ensures grouped { IfOk result (λ stretches. AreGrouped together stretches.items) }
{
    let mut stretches: Vec<Stretch> = Vec::new(alloc);
    let mut first = 0;
    while first < blocks {
        let end = blocks.min(first.saturating_add(most));
        let group = group_of_next(stretches.as_slice(), false, together);
        stretches.push(Stretch {
            first,
            end,
            done: false,
            group,
        })?;
        first = end;
    }
    Ok(stretches)
}

/// Whether a stretch that began at `first` ends before the block `here`, which is marked so.
fn ends_here(first: u32, here: u32, done: bool, mark: bool, most: u32) -> bool
    ensures some { result ≡ true → first < here }
    ensures full { result ≡ true → mark ≡ done → most ≤ here - first }
    ensures goes_on { result ≡ false → first < here → (mark ≡ done) × (here - first < most) }
{
    if first >= here {
        return false;
    }
    if mark != done {
        return true;
    }
    here - first >= most
}

/// The blocks by their marks: stretches of marked ones, which are done, and of unmarked ones, each as long as can be,
/// but of at most so many blocks, and at most so many of these marked together.
pub fn stretches_of(
    alloc: Global,
    marked: &[bool],
    most: u32,
    together: u32,
) -> Result<Vec<Stretch>, AllocError>
    requires some { 1 ≤ most }
    requires together { 1 ≤ together }
    requires few { length marked.now < 2 ^ 32 }
    ensures cut { IfOk result (λ stretches. IsCut 0 stretches.items (length marked.now)) }
    ensures uniform { IfOk result (λ stretches. All (IsUniform marked.now) stretches.items) }
    ensures short { IfOk result (AreShort most) }
    ensures longest { IfOk result (λ stretches. AreLongest most stretches.items) }
    ensures grouped { IfOk result (λ stretches. AreGrouped together stretches.items) }
{
    let mut stretches: Vec<Stretch> = Vec::new(alloc);
    let mut first = 0;
    let mut done = false;
    for (i, mark) in marked.iter().enumerate() {
        let here = i as u32;
        if ends_here(first, here, done, *mark, most) {
            let group = group_of_next(stretches.as_slice(), done, together);
            stretches.push(Stretch {
                first,
                end: here,
                done,
                group,
            })?;
            first = here;
        }
        done = *mark;
    }
    let end = marked.len() as u32;
    if first >= end {
        return Ok(stretches);
    }
    let group = group_of_next(stretches.as_slice(), done, together);
    stretches.push(Stretch {
        first,
        end,
        done,
        group,
    })?;
    Ok(stretches)
}
