// One of the two sides of a comparison.
ghost use Rattle.std.specs.Prelude.{◌≡◌, ◌+◌, ◌*◌, ◌<◌, ◌≤◌, ℕ, pos, IfErr, IfOk, IsTrue, OnOk, is_some, length, not};
ghost use Rattle.std.specs.List.{All};
ghost use Rattle.sampletime.specs.TimeCode.{day};
ghost use Rattle.work_terms.specs.Disk.{Files};
ghost use Rattle.sound_terms.specs.Blocks.{block_count, block_frames, block_start};
ghost use Rattle.sound_terms.specs.Media.{IsPieceOf};
ghost use Rattle.devices.specs.Frame.{OnlyReads};
ghost use Rattle.renderplan.specs.Sources.{source_of};
ghost use Rattle.comparison.specs.Fault.{FailsAt, IsSource, WantsMemory};
ghost use Rattle.comparison.specs.Side.{AreBlockSums, HasBlock, IsBlockOf, first_sums, heard};
ghost use Rattle.comparison.specs.declared.fault.SideFault.TheVariants.{Memory};

use crate::SideFault;
use blockmachine::{Machine, MachineFault};
use devices::Shelf;
use renderplan::{Plan, Program};
use sound_terms::Instruction;
use std::alloc::{AllocError, Global};
use std::marker::Model;
use wavread::Sound;

/// Sample frames per block; the last block may be shorter.
const BLOCK_LENGTH: u32 = 4096;

/// Maximum number of bytes read from files per block and channel: a block of 32-bit samples on two
/// channels.
const STORED_LENGTH: usize = 8 * 4096;

/// A plan over open files, a machine to sum its blocks, and buffers for the program and the sums of
/// any block. Contracts see the plan, the files, and the current program and sums.
pub struct Side<'a> {
    plan: Plan,
    sounds: &'a [Sound],
    machine: Machine,
    program: Program,
    sums: Vec<i64>,
}

// Written out so that dropping a side is a single call.
impl Drop for Side<'_> {
    fn drop(self) {
        let Side {
            plan,
            sounds: _,
            machine,
            program,
            sums,
        } = self;
        drop(plan);
        drop(machine);
        drop(program);
        drop(sums);
    }
}

impl<'a> Model for Side<'a> {
    ghost use Rattle.comparison.specs.Side.{IsSide, SideState};

    ghost Value = { SideState };

    ghost view = { λ s. record {
      work = record { planned = s.plan; sounds = s.sounds.now };
      lines = s.program.lines;
      sums = s.sums.items;
    } };

    ghost invariant = { λ s. IsSide (record { planned = s.plan; sounds = s.sounds.now }) s.machine s.program
        s.sums.items };
}

/// Sums block `k` of a plan over open files into the start of `sums`. The buffers have room for any
/// block.
fn sum_block<S: Shelf>(
    plan: &Plan,
    k: u64,
    sounds: &[Sound],
    shelf: &mut S,
    machine: &mut Machine,
    program: &mut Program,
    sums: &mut [i64],
) -> Result<(), SideFault>
    requires there { k < block_count plan.now.range }
    requires inside { All (IsPieceOf sounds.now) plan.now.pieces }
    requires machine { machine.old ≡ record { frames = 4096; channels = plan.now.range.channels } }
    requires program { length plan.now.pieces + 2 ≤ program.old.room }
    requires room { length sums.old ≡ 4096 * plan.now.range.channels }
    ensures summed { IsTrue (S.honest shelf.old) → OnOk result (AreBlockSums plan.now.range
        (heard (record { planned = plan.now; sounds = sounds.now }) (S.stored shelf.old)) k
        (first_sums plan.now.range k sums.new)) }
    ensures ready { machine.new ≡ machine.old }
    ensures program { program.new.room ≡ program.old.room }
    ensures source { IfErr result IsSource }
    ensures only_reads { OnlyReads S.Shelf shelf.old shelf.new result (λ fault. IsSource fault)
        (λ fault failed. FailsAt sounds.now fault failed) }
{
    let count = plan.frames_of(k) as usize * usize::from(plan.format().channels);
    plan.sums_exactly();
    plan.fill(k, program);
    match machine.sum(program, sounds, shelf, &mut sums[..count]) {
        Ok(()) => Ok(()),
        Err(MachineFault::Source { file }) => Err(SideFault::Source { file }),
        Err(MachineFault::Memory) => Err(SideFault::Memory),
    }
}

impl<'a> Side<'a> {
    ghost use Rattle.comparison.specs.Side.{IsSide};

    /// Creates a side for a plan over open files. Returns `SideFault::Memory` if out of memory.
    pub fn new(alloc: Global, plan: Plan, sounds: &'a [Sound]) -> Result<Self, SideFault>
        requires { All (IsPieceOf sounds.now) plan.pieces }
        ensures made { IfOk result (λ side. side.work ≡ record { planned = plan; sounds = sounds.now }) }
        ensures only_memory { IfErr result WantsMemory }
    {
        let channels = plan.format().channels;
        let Ok(machine) = Machine::new(alloc, BLOCK_LENGTH, channels) else {
            return Err(SideFault::Memory);
        };
        let program = Program::with_room(alloc, plan.most_instructions())?;
        let mut sums = Vec::new(alloc);
        sums.resize(4096 * usize::from(channels), 0)?;
        Ok(Side {
            plan,
            sounds,
            machine,
            program,
            sums,
        })
    }

    /// Allocates a buffer for the stored samples of its files. Returns `SideFault::Memory` if out
    /// of memory.
    pub fn bytes(&self, alloc: Global) -> Result<Vec<u8>, SideFault>
        ensures { IfErr result WantsMemory }
    {
        let mut bytes = Vec::new(alloc);
        bytes.resize(STORED_LENGTH * usize::from(self.channels()), 0)?;
        Ok(bytes)
    }

    /// Returns the open files.
    pub fn sounds(&self) -> &'a [Sound]
        ensures { result.now ≡ self.now.work.sounds }
    {
        self.sounds
    }

    /// Returns the number of blocks.
    pub fn blocks(&self) -> u64
        ensures count { result ≡ block_count self.now.work.planned.range }
        ensures in_day { self.now.work.planned.range.to ≤ day }
    {
        self.plan.blocks()
    }

    /// Returns the number of channels, 1 to 64.
    pub fn channels(&self) -> u8
        ensures channels { result ≡ self.now.work.planned.range.channels }
        ensures within { (1 ≤ result) × (result ≤ 64) }
    {
        self.plan.format().channels
    }

    /// Returns the number of sums of block `k`: one per sample frame and channel.
    fn sums_of(&self, k: u64) -> usize
        requires { HasBlock self.now.work k }
        ensures sums { result ≡ block_frames self.now.work.planned.range k * self.now.work.planned.range.channels }
        ensures few { result ≤ 4096 * self.now.work.planned.range.channels }
    {
        self.plan.frames_of(k) as usize * usize::from(self.channels())
    }

    /// Returns the number of sample frames of block `k`, at most 4096.
    pub fn frames_of(&self, k: u64) -> usize
        ensures frames { result ≡ block_frames self.now.work.planned.range k }
        ensures few { result ≤ 4096 }
    {
        self.plan.frames_of(k) as usize
    }

    /// Returns the progress after block `k`, in sample frames: the number processed and the total.
    pub fn progress_of(&self, k: u64) -> (u64, u64) {
        let last = self.blocks().saturating_sub(1);
        (self.frames_up_to(k), self.frames_up_to(last))
    }

    /// Returns the number of sample frames up to and including block `k`.
    fn frames_up_to(&self, k: u64) -> u64 {
        k.saturating_mul(u64::from(BLOCK_LENGTH))
            .saturating_add(self.frames_of(k) as u64)
    }

    /// Returns the start time of block `k` in samples.
    pub fn start_of(&self, k: u64) -> u64
        requires { HasBlock self.now.work k }
        ensures start { result ≡ block_start self.now.work.planned.range k }
        ensures in_day { result ≤ day }
    {
        self.plan.start_of(k)
    }

    /// Returns whether block `k` is silent.
    pub fn is_silent(&self, k: u64) -> bool
        requires { HasBlock self.now.work k }
        ensures found { is_some (source_of self.now.work.planned.pieces self.now.work.planned.range k) ≡ not result }
        ensures zero { IsTrue result → (files : Files) (i channel : ℕ) → i < block_frames self.now.work.planned.range k
            → channel ≤ self.now.work.planned.range.channels
            → heard self.now.work files channel (block_start self.now.work.planned.range k + i) ≡ pos 0 }
    {
        self.plan.is_silent(k)
    }

    /// Makes the program of block `k` the current one.
    pub fn fill(&mut self, k: u64)
        requires { HasBlock self.old.work k }
        ensures program { IsBlockOf self.old.work k self.new.lines }
        ensures work { self.new.work ≡ self.old.work }
    {
        self.plan.sums_exactly();
        self.plan.fill(k, &mut self.program);
    }

    /// Returns the current program.
    pub fn lines(&self) -> &[Instruction]
        ensures { result.now ≡ self.now.lines }
    {
        self.program.as_slice()
    }

    /// Sums block `k` by running its program. Returns `SideFault::Source` if a file can't be read.
    pub fn sum<S: Shelf>(&mut self, k: u64, shelf: &mut S) -> Result<(), SideFault>
        requires { HasBlock self.old.work k }
        ensures summed { IsTrue (S.honest shelf.old) → OnOk result
            (AreBlockSums self.old.work.planned.range (heard self.old.work (S.stored shelf.old)) k
            (first_sums self.old.work.planned.range k self.new.sums)) }
        ensures work { self.new.work ≡ self.old.work }
        ensures source { IfErr result IsSource }
        ensures only_reads { OnlyReads S.Shelf shelf.old shelf.new result (λ fault. IsSource fault)
            (λ fault failed. FailsAt self.old.work.sounds fault failed) }
    {
        let sums = self.sums.as_mut_slice();
        let machine = &mut self.machine;
        let program = &mut self.program;
        sum_block(&self.plan, k, self.sounds, shelf, machine, program, sums)
    }

    /// Returns the current sums of block `k`.
    pub fn sums(&self, k: u64) -> &[i64]
        requires { HasBlock self.now.work k }
        ensures value { result.now ≡ first_sums self.now.work.planned.range k self.now.sums }
        ensures count { length result.now
            ≡ block_frames self.now.work.planned.range k * self.now.work.planned.range.channels }
    {
        let count = self.sums_of(k);
        &self.sums.as_slice()[..count]
    }
}

impl From<AllocError> for SideFault {
    ghost from_gives = { λ _ fault. fault ≡ Memory };

    fn from(_: AllocError) -> Self {
        SideFault::Memory
    }
}
