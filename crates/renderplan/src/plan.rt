// The plan of a rendering.
ghost use Rattle.std.specs.Prelude.{◌≡◌, ◌+◌, ◌<◌, ◌≤◌, ◌↔◌, List, length, IfErr, IfOk, IfSome, IsErrOf, None};
ghost use Rattle.std.specs.List.{All};
ghost use Rattle.sound_terms.specs.Sounds.{SoundFacts};
ghost use Rattle.sound_terms.specs.Media.{IsPieceOf};
ghost use Rattle.sound_terms.specs.Mix.{Reading};
ghost use Rattle.sound_terms.specs.Groups as spec;
ghost use Rattle.sound_terms.specs.Groups.{IsBounded, IsPiece, sum_of};
ghost use Rattle.sound_terms.specs.Blocks.{BlockState, IsBlockProgram, LiesInFiles, PlaysFull, block_count, block_frames, block_start, executed_all, mixed_block, program_of};
ghost use Rattle.renderplan.specs.Planned.{IsPlan};
ghost use Rattle.renderplan.specs.Sources.{IsInDay};
ghost use Rattle.renderplan.specs.Sources as sources;
ghost use Rattle.renderplan.specs.Spans.{written};

use crate::PlanFault;
use crate::lines::Window;
use crate::reach::Reached;
use groups::Intervals;
use sampletime::SampleTime;
use sound_terms::{Depth, Format, Instruction, Piece, Program};
use std::alloc::{AllocError, Global};
use std::marker::Model;

/// Sample frames per block; the last block may be shorter.
pub(crate) const BLOCK_LENGTH: u64 = 4096;

/// A rendering of pieces in blocks: the samples of a time range, on channels from 1 on, at a bit
/// depth. Contracts see the pieces, the range and the depth.
pub struct Plan {
    pieces: Reached,
    pub(crate) from: SampleTime,
    pub(crate) to: SampleTime,
    pub(crate) channels: u8,
    depth: Depth,
}

// Written out so that dropping a plan is a single call.
impl Drop for Plan {
    fn drop(self) {
        let Plan {
            pieces,
            from: _,
            to: _,
            channels: _,
            depth: _,
        } = self;
        drop(pieces);
    }
}

impl Model for Plan {
    ghost use Rattle.renderplan.specs.Planned.{IsPlan, Planned};

    ghost Value = { Planned };

    ghost view = { λ plan. record {
      pieces = plan.pieces;
      range = record { from = plan.from; to = plan.to; channels = plan.channels; depth = plan.depth };
    } };

    ghost invariant = { λ plan. IsPlan (record {
      pieces = plan.pieces;
      range = record { from = plan.from; to = plan.to; channels = plan.channels; depth = plan.depth };
    }) };
}

impl Plan {
    /// Creates a plan that renders groups from time `from` to time `to` (exclusive), in samples, on
    /// 1 to 64 channels. At most 32,767 pieces may overlap at a sample. Returns
    /// `PlanFault::EmptyRange` unless `to` is after `from`, and `PlanFault::Memory` if out of
    /// memory.
    pub fn new(
        alloc: Global,
        intervals: Intervals,
        from: SampleTime,
        to: SampleTime,
        channels: u8,
        depth: Depth,
    ) -> Result<Self, PlanFault>
        requires bounded { IsBounded 32767 (spec.pieces_of intervals) }
        requires channels { (1 ≤ channels) × (channels ≤ 64) }
        ensures made { IfOk result (λ plan. plan
            ≡ record {
              pieces = spec.pieces_of intervals;
              range = record { from = from; to = to; channels = channels; depth = depth };
            }) }
        ensures empty { IsErrOf result PlanFault.EmptyRange ↔ (to ≤ from) }
    {
        if to.get() <= from.get() {
            return Err(PlanFault::EmptyRange);
        }
        let pieces = Reached::new(alloc, intervals.pieces()?)?;
        Ok(Plan {
            pieces,
            from,
            to,
            channels,
            depth,
        })
    }

    /// Returns the number of blocks, at least 1.
    pub fn blocks(&self) -> u64
        ensures { result ≡ block_count self.now.range }
    {
        (self.to.get() - self.from.get() + BLOCK_LENGTH - 1) / BLOCK_LENGTH
    }

    /// Returns the number of sample frames in block `k` (from 0): 4096, fewer for the last block, 0
    /// past the end.
    pub fn frames_of(&self, k: u64) -> u32
        ensures { result ≡ block_frames self.now.range k }
    {
        let before = k.saturating_mul(BLOCK_LENGTH);
        let left = (self.to.get() - self.from.get()).saturating_sub(before);
        left.min(BLOCK_LENGTH) as u32
    }

    /// Returns the maximum number of instructions in the program of a block: one per piece, plus
    /// two.
    pub fn most_instructions(&self) -> usize
        ensures { result ≡ length self.now.pieces + 2 }
    {
        self.pieces.pieces().len() + 2
    }

    /// Returns the number of channels and the bit depth of the output.
    pub fn format(&self) -> Format
        ensures format { result ≡ record { channels = self.now.range.channels; depth = self.now.range.depth } }
        ensures planned { IsPlan self.now }
    {
        Format {
            channels: self.channels,
            depth: self.depth,
        }
    }

    /// Returns the extent of block `k`.
    pub(crate) fn window_of(&self, k: u64) -> Window
        requires { k < block_count self.now.range }
        ensures from { result.from ≡ block_start self.now.range k }
        ensures frames { result.frames ≡ block_frames self.now.range k }
        ensures channels { result.channels ≡ self.now.range.channels }
    {
        Window {
            from: self.from.get() + k * BLOCK_LENGTH,
            frames: self.frames_of(k),
            channels: self.channels,
        }
    }

    /// Returns the source of the first piece that is audible in block `k`: the number of its file
    /// and the first sample of it in the block. Returns `None` if the block is silent or past the
    /// end.
    pub fn source_of(&self, k: u64) -> Option<(u32, u64)>
        ensures source { k < block_count self.now.range
            → result ≡ sources.source_of self.now.pieces self.now.range k }
        ensures past { block_count self.now.range ≤ k → result ≡ None }
        ensures in_day { IfSome result IsInDay }
    {
        if k >= self.blocks() {
            return None;
        }
        let window = self.window_of(k);
        self.pieces.first_source(window)
    }

    /// Overwrites a program that has enough room with the instructions for a window.
    pub(crate) fn write(&self, window: Window, program: &mut Program)
        requires { length self.now.pieces + 2 ≤ program.old.room }
        ensures program { program.new ≡ record program.old {
          lines = written window.from window.frames window.channels
              self.now.range.depth self.now.pieces;
        } }
        ensures planned { IsPlan self.now }
    {
        program.clear();
        program.push(Instruction::Start {
            frames: window.frames,
        });
        self.pieces.push_lines(window, program);
        program.push(Instruction::Emit { depth: self.depth });
    }

    /// Overwrites a program that has enough room with the program of block `k` (from 0). The
    /// program emits the block's samples in interleaved order. Allocates nothing.
    pub fn fill(&self, k: u64, program: &mut Program)
        requires there { k < block_count self.now.range }
        requires room { length self.now.pieces + 2 ≤ program.old.room }
        ensures program { program.new
            ≡ record program.old { lines = program_of self.now.pieces self.now.range k } }
        ensures sums { (reading : Reading) → All (PlaysFull reading) program.new.lines → (start : BlockState)
            → (executed_all reading self.now.range.channels program.new.lines start).out
            ≡ mixed_block self.now.range (sum_of reading self.now.pieces) k }
        ensures formed { IsBlockProgram (block_frames self.now.range k) self.now.range.channels self.now.range.depth
            program.new.lines }
        ensures inside { (sounds : List SoundFacts) → All (IsPieceOf sounds) self.now.pieces
            → All (LiesInFiles sounds) program.new.lines }
    {
        self.write(self.window_of(k), program);
    }

    /// Returns the program of block `k`, counted from 0, with room for the program of any other block. Its memory comes
    /// from the allocator of the plan.
    pub fn block(&self, k: u64) -> Result<Program, PlanFault>
        requires { k < block_count self.now.range }
        ensures program { IfOk result (λ program. program.lines ≡ program_of self.now.pieces self.now.range k) }
        ensures room { IfOk result (λ program. program.room ≡ length self.now.pieces + 2) }
        ensures sums { IfOk result (λ program. (reading : Reading) → All (PlaysFull reading) program.lines
            → (start : BlockState) → (executed_all reading self.now.range.channels program.lines start).out
            ≡ mixed_block self.now.range (sum_of reading self.now.pieces) k) }
        ensures formed { IfOk result (λ program. IsBlockProgram (block_frames self.now.range k) self.now.range.channels
            self.now.range.depth program.lines) }
        ensures inside { IfOk result (λ program. (sounds : List SoundFacts) → All (IsPieceOf sounds) self.now.pieces
            → All (LiesInFiles sounds) program.lines) }
        ensures only_memory { IfErr result (λ fault. fault ≡ PlanFault.Memory) }
    {
        let mut program = Program::with_room(self.pieces.allocator(), self.most_instructions())?;
        self.fill(k, &mut program);
        Ok(program)
    }
}
