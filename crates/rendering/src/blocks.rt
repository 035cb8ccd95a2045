// Blocks that are summed, and their bytes.
ghost use Rattle.std.specs.Prelude.{◌≡◌, ◌+◌, ◌-◌, ◌*◌, ◌<◌, ◌≤◌, ◌++◌, ⊤, IfErr, IfOk, IfSome, IsTrue, None, OnOk, length, take};
ghost use Rattle.std.specs.List.{All};
ghost use Rattle.sound_terms.specs.Blocks.{block_count, block_frames};
ghost use Rattle.sound_terms.specs.Media.{IsPieceOf};
ghost use Rattle.devices.specs.Frame.{OnlyReads};
ghost use Rattle.renderplan.specs.Sources.{IsInDay};
ghost use Rattle.rendering.specs.Clipping.{Clip, sums_of_blocks};
ghost use Rattle.rendering.specs.Fault.{WantsMemory};
ghost use Rattle.rendering.specs.Work.{CanPlay, HasRoom, HasRoomAt, HasRoomFor, IsInRange, bytes_for, frames_of_blocks, heard, job_blocks, marked_jobs};
ghost use Rattle.rendering.specs.Written.{block_bytes, bytes_of_blocks, frames_before};
ghost use Rattle.rendering.specs.declared.fault.RenderFault.TheVariants.{Memory};

use crate::RenderFault;
use crate::job_length::{JobLength, JobLimits, blocks_in_job, jobs_together};
use blockmachine::{Machine, copy_alone};
use clipping::Clips;
use devices::{DeviceFault, Shelf};
use renderplan::{Plan, Program};
use std::alloc::Global;
use std::marker::Model;
use std::ops::Range;
use wavread::Sound;

/// The most frames of a block.
pub const BLOCK_LENGTH: usize = 4096;

/// Which block comes after those that were played, where their samples end, and what was clipped of them.
#[derive(Clone, Copy)]
struct Played {
    next: u32,
    end: usize,
    clips: Clips,
}

/// The blocks of a plan over opened files: a machine that sums them, and room for the program and the samples of any
/// one. A clause sees the plan and the files.
#[derive(Drop)]
pub struct Blocks<'a> {
    plan: Plan,
    sounds: &'a [Sound],
    machine: Machine,
    program: Program,
    samples: Vec<i32>,
}

impl<'a> Model for Blocks<'a> {
    ghost use Rattle.std.specs.Prelude.{◌≡◌, ◌+◌, ◌*◌, length};
    ghost use Rattle.rendering.specs.Work.{BlockWork, IsBlockWork};

    ghost Value = { BlockWork };

    ghost view = { λ b. record { planned = b.plan; sounds = b.sounds.now } };

    ghost invariant = { λ b. IsBlockWork (record { planned = b.plan; sounds = b.sounds.now })
        × (b.machine ≡ record { frames = 4096; channels = b.plan.range.channels })
        × (b.program.room ≡ length b.plan.pieces + 2)
        × (length b.samples.items ≡ 4096 * b.plan.range.channels) };
}

/// Sums block k and writes its samples over `bytes`, which has room for just these; gives what was clipped of it. There
/// is room for the program and the samples of any block. A file that can't be read fails it.
fn play_block<S: Shelf>(
    plan: &Plan,
    k: u64,
    sounds: &[Sound],
    shelf: &mut S,
    machine: &mut Machine,
    program: &mut Program,
    samples: &mut [i32],
    bytes: &mut [u8],
) -> Result<Clips, DeviceFault>
    requires ready { CanPlay (record { planned = plan.now; sounds = sounds.now }) machine.old program.old.room
        (length samples.old) }
    requires room { HasRoom plan.now.range k (length bytes.old) }
    ensures played { IsTrue (S.honest shelf.old) → OnOk result
        (bytes.new ≡ block_bytes plan.now.range (heard plan.now sounds.now (S.stored shelf.old)) k) }
    ensures clips { IsTrue (S.honest shelf.old) → IfOk result (Clip plan.now.range
        (sums_of_blocks plan.now.range (heard plan.now sounds.now (S.stored shelf.old)) k (k + 1))) }
    ensures ready { machine.new ≡ machine.old }
    ensures room { program.new.room ≡ program.old.room }
    ensures only_reads { OnlyReads S.Shelf shelf.old shelf.new result (λ _. ⊤) (λ _ failed. ⊤) }
{
    let format = plan.format();
    let count = plan.frames_of(k) as usize * usize::from(format.channels);
    let samples = &mut samples[..count];
    plan.sums_exactly();
    plan.fill(k, program);
    match machine.run_packed(program, format.depth, sounds, shelf, samples, bytes) {
        Ok(clips) => Ok(clips),
        Err(_) => Err(DeviceFault),
    }
}

/// How many blocks are tried at once after these were, of which those before `next` were played: twice as many where
/// these were all, else one.
fn blocks_ahead(blocks: Range<u32>, next: u32) -> u32
    ensures { 1 ≤ result }
{
    if next == blocks.end {
        let tried = blocks.end.saturating_sub(blocks.start);
        tried.saturating_mul(2).max(1)
    } else {
        1
    }
}

impl<'a> Blocks<'a> {
    ghost use Rattle.rendering.specs.Work.{IsBlockWork};

    /// The blocks of a plan over these files.
    pub fn new(alloc: Global, plan: Plan, sounds: &'a [Sound]) -> Result<Self, RenderFault>
        requires { All (IsPieceOf sounds.now) plan.pieces }
        ensures made { IfOk result (λ blocks. blocks ≡ record { planned = plan; sounds = sounds.now }) }
        ensures only_memory { IfErr result WantsMemory }
    {
        let channels = plan.format().channels;
        let Ok(machine) = Machine::new(alloc, BLOCK_LENGTH as u32, channels) else {
            return Err(RenderFault::Memory);
        };
        let program = Program::with_room(alloc, plan.most_instructions())?;
        let mut samples = Vec::new(alloc);
        samples.resize(BLOCK_LENGTH * usize::from(channels), 0)?;
        Ok(Blocks {
            plan,
            sounds,
            machine,
            program,
            samples,
        })
    }

    /// How many there are: one at least, and fewer than 2^20.
    pub fn count(&self) -> u32
        ensures count { result ≡ block_count self.now.planned.range }
        ensures some { 1 ≤ result }
        ensures few { result ≤ 1012500 }
    {
        self.plan.blocks() as u32
    }

    /// How many bytes so many frames have.
    pub fn length_of(&self, frames: usize) -> usize
        requires { frames ≤ 4147200000 }
        ensures bytes { result ≡ bytes_for self.now.planned.range frames }
        ensures some { frames * 2 ≤ result }
        ensures few { result ≤ frames * 256 }
    {
        let format = self.plan.format();
        frames * usize::from(format.channels) * usize::from(format.depth.bits() / 8)
    }

    /// How many of them a job of this length has at most, and how many such jobs are marked together at most.
    pub fn limits(&self, jobs: JobLength) -> JobLimits
        ensures blocks { result.blocks ≡ job_blocks jobs self.now.planned.range }
        ensures together { result.together ≡ marked_jobs jobs self.now.planned.range }
        ensures some { (1 ≤ result.blocks) × (1 ≤ result.together) }
        ensures few { result.together * result.blocks ≤ 2048 }
    {
        let count = self.count();
        let block = self.length_of(BLOCK_LENGTH) as u32;
        JobLimits {
            blocks: blocks_in_job(jobs, count, block),
            together: jobs_together(jobs, count, block),
        }
    }

    /// How many frames these have.
    pub fn frames_in(&self, blocks: Range<u32>) -> usize
        requires { IsInRange self.now.planned.range blocks.start blocks.end }
        ensures frames { result ≡ frames_of_blocks self.now.planned.range blocks.start blocks.end }
        ensures few { result ≤ 4147200000 }
    {
        let last = blocks.end - 1;
        (last - blocks.start) as usize * BLOCK_LENGTH
            + self.plan.frames_of(u64::from(last)) as usize
    }

    /// Where the first of these in which something sounds begins in its file; `None` where all are silent.
    pub fn source_of(&self, blocks: Range<u32>) -> Option<(u32, u64)>
        requires { blocks.end ≤ block_count self.now.planned.range }
        ensures in_day { IfSome result IsInDay }
    {
        for k in blocks.start as u64..blocks.end as u64 {
            let source = self.plan.source_of(k);
            if source.is_some() {
                return source;
            }
        }
        None
    }

    /// Sums block k and writes its samples over `bytes`, which has room for just these; gives what was clipped of it. A
    /// file that can't be read fails it.
    fn play<S: Shelf>(
        &mut self,
        k: u64,
        shelf: &mut S,
        bytes: &mut [u8],
    ) -> Result<Clips, DeviceFault>
        requires { HasRoom self.old.planned.range k (length bytes.old) }
        ensures played { IsTrue (S.honest shelf.old) → OnOk result
            (bytes.new ≡ block_bytes self.old.planned.range
            (heard self.old.planned self.old.sounds (S.stored shelf.old)) k) }
        ensures clips { IsTrue (S.honest shelf.old) → IfOk result (Clip self.old.planned.range (sums_of_blocks
            self.old.planned.range (heard self.old.planned self.old.sounds (S.stored shelf.old)) k (k + 1))) }
        ensures ready { self.new ≡ self.old }
        ensures only_reads { OnlyReads S.Shelf shelf.old shelf.new result (λ _. ⊤) (λ _ failed. ⊤) }
    {
        let machine = &mut self.machine;
        let program = &mut self.program;
        let samples = self.samples.as_mut_slice();
        play_block(
            &self.plan,
            k,
            self.sounds,
            shelf,
            machine,
            program,
            samples,
            bytes,
        )
    }

    /// Sums block k and writes its samples over `bytes` from `at` on, where there is room for them. A file that can't be
    /// read fails it.
    fn play_at<S: Shelf>(
        &mut self,
        k: u32,
        shelf: &mut S,
        bytes: &mut [u8],
        at: usize,
    ) -> Result<Played, DeviceFault>
        requires there { k < block_count self.old.planned.range }
        requires room { at + bytes_for self.old.planned.range (block_frames self.old.planned.range k)
            ≤ length bytes.old }
        ensures played { IsTrue (S.honest shelf.old) → IfOk result (λ block. take block.end bytes.new
            ≡ take at bytes.old ++ block_bytes self.old.planned.range
            (heard self.old.planned self.old.sounds (S.stored shelf.old)) k) }
        ensures clips { IsTrue (S.honest shelf.old) → IfOk result (λ block. Clip self.old.planned.range (sums_of_blocks
            self.old.planned.range (heard self.old.planned self.old.sounds (S.stored shelf.old)) k (k + 1)) block.clips) }
        ensures ended { IfOk result
            (λ block. block.end ≡ at + bytes_for self.old.planned.range (block_frames self.old.planned.range k)) }
        ensures next { IfOk result (λ block. block.next ≡ k + 1) }
        ensures ready { self.new ≡ self.old }
        ensures only_reads { OnlyReads S.Shelf shelf.old shelf.new result (λ _. ⊤) (λ _ failed. ⊤) }
    {
        let block = u64::from(k);
        let frames = self.plan.frames_of(block) as usize;
        let end = at + self.length_of(frames);
        let clips = self.play(block, shelf, &mut bytes[at..end])?;
        Ok(Played {
            next: k + 1,
            end,
            clips,
        })
    }

    /// Writes the samples of these blocks over `bytes` from `at` on, where one file fills all of them as it is. `None`
    /// where more is to be done; what comes before `at` stays. A file that can't be read fails it.
    fn copy_at<S: Shelf>(
        &mut self,
        blocks: Range<u32>,
        shelf: &mut S,
        bytes: &mut [u8],
        at: usize,
    ) -> Result<Option<Played>, DeviceFault>
        requires { HasRoomAt self.old.planned.range blocks.start blocks.end at (length bytes.old) }
        ensures played { IsTrue (S.honest shelf.old) → IfOk result (λ copied. IfSome copied (λ some.
            take some.end bytes.new ≡ take at bytes.old ++ bytes_of_blocks self.old.planned.range
            (heard self.old.planned self.old.sounds (S.stored shelf.old)) blocks.start blocks.end)) }
        ensures clips { IsTrue (S.honest shelf.old) → IfOk result (λ copied. IfSome copied (λ some.
            Clip self.old.planned.range (sums_of_blocks self.old.planned.range
            (heard self.old.planned self.old.sounds (S.stored shelf.old)) blocks.start blocks.end) some.clips)) }
        ensures ended { IfOk result (λ copied. IfSome copied (λ some. (some.next ≡ blocks.end) × (some.end ≡ at
            + bytes_for self.old.planned.range (frames_of_blocks self.old.planned.range blocks.start blocks.end)))) }
        ensures front { IfOk result (λ copied. copied ≡ None → take at bytes.new ≡ take at bytes.old) }
        ensures ready { self.new ≡ self.old }
        ensures only_reads { OnlyReads S.Shelf shelf.old shelf.new result (λ _. ⊤) (λ _ failed. ⊤) }
    {
        let Range { start, end } = blocks;
        if end - start == 1 {
            return Ok(None);
        }
        let to = at + self.length_of(self.frames_in(start..end));
        let program = &mut self.program;
        let format = self.plan.format();
        let frames = self.plan.fill_span(start.into(), end.into(), program);
        let room = &mut bytes[at..to];
        let copied = match copy_alone(program, frames, format, self.sounds, shelf, room) {
            Ok(copied) => copied,
            Err(_) => return Err(DeviceFault),
        };
        let Some(clips) = copied else {
            return Ok(None);
        };
        let next = end;
        Ok(Some(Played {
            next,
            end: to,
            clips,
        }))
    }

    /// Writes the samples of these blocks over `bytes` from `at` on at once, where one file fills all of them as it is;
    /// else those of the first one. A file that can't be read fails it.
    fn play_next<S: Shelf>(
        &mut self,
        blocks: Range<u32>,
        shelf: &mut S,
        bytes: &mut [u8],
        at: usize,
    ) -> Result<Played, DeviceFault>
        requires { HasRoomAt self.old.planned.range blocks.start blocks.end at (length bytes.old) }
        ensures played { IsTrue (S.honest shelf.old) → IfOk result (λ some. take some.end bytes.new
            ≡ take at bytes.old ++ bytes_of_blocks self.old.planned.range
            (heard self.old.planned self.old.sounds (S.stored shelf.old)) blocks.start some.next) }
        ensures clips { IsTrue (S.honest shelf.old) → IfOk result (λ some. Clip self.old.planned.range (sums_of_blocks
            self.old.planned.range (heard self.old.planned self.old.sounds (S.stored shelf.old)) blocks.start
            some.next) some.clips) }
        ensures ended { IfOk result (λ some. some.end ≡ at + bytes_for self.old.planned.range
            (frames_before self.old.planned.range some.next - frames_before self.old.planned.range blocks.start)) }
        ensures next { IfOk result (λ some. (blocks.start < some.next) × (some.next ≤ blocks.end)) }
        ensures ready { self.new ≡ self.old }
        ensures only_reads { OnlyReads S.Shelf shelf.old shelf.new result (λ _. ⊤) (λ _ failed. ⊤) }
    {
        let first = blocks.start;
        match self.copy_at(blocks, shelf, bytes, at)? {
            Some(played) => return Ok(played),
            None => {}
        }
        let played = self.play_at(first, shelf, bytes, at)?;
        Ok(played)
    }

    /// Sums these blocks and writes their samples over `bytes`, which has room for just these; gives what was clipped
    /// of them. A file that can't be read fails it. As long as one file fills the blocks as it is, twice as many are
    /// tried at once, all of them at first.
    pub fn play_stretch<S: Shelf>(
        &mut self,
        blocks: Range<u32>,
        shelf: &mut S,
        bytes: &mut [u8],
    ) -> Result<Clips, DeviceFault>
        requires { HasRoomFor self.old.planned.range blocks.start blocks.end (length bytes.old) }
        ensures played { IsTrue (S.honest shelf.old) → OnOk result (bytes.new
            ≡ bytes_of_blocks self.old.planned.range
            (heard self.old.planned self.old.sounds (S.stored shelf.old)) blocks.start blocks.end) }
        ensures clips { IsTrue (S.honest shelf.old) → IfOk result (Clip self.old.planned.range
            (sums_of_blocks self.old.planned.range
            (heard self.old.planned self.old.sounds (S.stored shelf.old)) blocks.start blocks.end)) }
        ensures ready { self.new ≡ self.old }
        ensures only_reads { OnlyReads S.Shelf shelf.old shelf.new result (λ _. ⊤) (λ _ failed. ⊤) }
    {
        let channels = u64::from(self.plan.format().channels);
        let mut next = blocks.start;
        let mut ahead = blocks.end - blocks.start;
        let mut at = 0;
        let mut clips = Clips::none();
        while next < blocks.end {
            let to = next + ahead.min(blocks.end - next);
            let played = self.play_next(next..to, shelf, bytes, at)?;
            let before = u64::from(next - blocks.start) * BLOCK_LENGTH as u64 * channels;
            clips = clips.joined(played.clips, before);
            ahead = blocks_ahead(next..to, played.next);
            at = played.end;
            next = played.next;
        }
        Ok(clips)
    }
}
