// A block of a rendering: the instructions that compute its sums.
ghost use Rattle.std.specs.Prelude.{◌≡◌, ◌<◌, ◌∷◌, ◌++◌, [], length, IfOk};
ghost use Rattle.sound_terms.specs.Blocks.{adding};

use crate::{Depth, Shape};
use std::alloc::{AllocError, Global};
use std::marker::Model;

/// Part of a file that plays in a block: `length` samples, from sample `at` of the block and sample frame `frame` of
/// the file on. It plays `width` channels, the file's channels from `first` on, on channels from `dest` on; both are
/// counted from 1.
#[derive(Clone, Copy, Debug, PartialEq, Eq)]
pub struct Stretch {
    pub at: u32,
    pub length: u32,
    pub frame: u64,
    pub file: u32,
    pub first: u8,
    pub dest: u8,
    pub width: u8,
}

/// One instruction of a block.
#[derive(Clone, Copy, Debug, PartialEq, Eq)]
pub enum Instruction {
    /// Starts a block of `frames` sample frames with all sums zero.
    Start {
        frames: u32,
    },
    /// Adds a stretch of a file without a fade.
    Flat {
        stretch: Stretch,
    },
    /// Adds (offset + i) / den of each sample i of a stretch.
    Rise {
        stretch: Stretch,
        offset: u64,
        den: u64,
    },
    /// Adds (den - offset - i) / den of each sample i of a stretch.
    Fall {
        stretch: Stretch,
        offset: u64,
        den: u64,
    },
    /// Outputs all sums, interleaved by sample frame, rounded and clipped to this depth.
    Emit {
        depth: Depth,
    },
}

impl Instruction {
    /// Returns the instruction that adds a stretch with the given fade shape.
    pub fn adding(stretch: Stretch, shape: Shape) -> Self
        ensures { result ≡ adding stretch shape }
    {
        match shape {
            Shape::Flat => Instruction::Flat { stretch },
            Shape::Rise { offset, den } => Instruction::Rise {
                stretch,
                offset,
                den,
            },
            Shape::Fall { offset, den } => Instruction::Fall {
                stretch,
                offset,
                den,
            },
        }
    }
}

/// The instructions of a block, in order, in a preallocated buffer. Contracts see the capacity (`room`) and the
/// instructions (`lines`).
#[derive(Drop)]
pub struct Program {
    slots: Vec<Instruction>,
    count: usize,
}

impl Model for Program {
    ghost use Rattle.std.specs.Prelude.{◌≤◌, length, take};
    ghost use Rattle.sound_terms.specs.Blocks.{Programmed};

    ghost Value = { Programmed };

    ghost view = { λ program. record {
      room = length program.slots.items;
      lines = take program.count program.slots.items;
    } };

    ghost invariant = { λ program. program.count ≤ length program.slots.items };
}

impl Program {
    /// Creates an empty program with capacity for `room` instructions. Returns an error if out of memory.
    pub fn with_room(alloc: Global, room: usize) -> Result<Self, AllocError>
        ensures { IfOk result (λ program. program ≡ record { room = room; lines = [] }) }
    {
        let mut slots = Vec::new(alloc);
        slots.resize(room, Instruction::Start { frames: 0 })?;
        Ok(Program { slots, count: 0 })
    }

    /// Returns the instructions.
    pub fn as_slice(&self) -> &[Instruction]
        ensures { result.now ≡ self.now.lines }
    {
        &self.slots.as_slice()[..self.count]
    }

    /// Removes all instructions and keeps the capacity.
    pub fn clear(&mut self)
        ensures { self.new ≡ record self.old { lines = [] } }
    {
        self.count = 0;
    }

    /// Appends an instruction. There must be room for it.
    pub fn push(&mut self, line: Instruction)
        requires { length self.old.lines < self.old.room }
        ensures { self.new ≡ record self.old { lines = self.old.lines ++ line ∷ [] } }
    {
        self.slots[self.count] = line;
        self.count += 1;
    }
}
