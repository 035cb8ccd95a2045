// Programs of blocks, created for their block and refilled from another block's.
ghost use Rattle.std.specs.Prelude.{◌≡◌, ◌+◌, ◌≤◌, length};

use crate::tests::intervals::RAMP;
use groups::{Group, Intervals, Piece};
use renderplan::{Depth, Instruction, Plan, Program, Stretch};
use sampletime::SampleTime;
use std::alloc::Global;
use std::test::Fail;

/// A piece across the end of the first block, with a fade-in over its whole length.
const OVER_THE_END: Piece = Piece {
    start: 4094,
    length: 4,
    frame: 7,
    ..RAMP
};

/// The stretch of this piece in the first block.
const BEFORE_THE_END: Stretch = Stretch {
    at: 4094,
    length: 2,
    frame: 7,
    file: 0,
    first: 1,
    dest: 1,
    width: 1,
};

/// Returns a plan of this piece from midnight to sample `end`, mono at 16 bits.
fn plan_to(alloc: Global, end: u64) -> Result<Plan, Fail> {
    let end = SampleTime::new(end).ok_or("no time")?;
    let mut groups = Vec::new(alloc);
    groups.push(Group::alone(alloc, OVER_THE_END))?;
    let intervals = Intervals::ordered(groups)?;
    Ok(Plan::new(alloc, intervals, SampleTime::ZERO, end, 1, Depth::Sixteen)?)
}

/// Returns a plan of this piece up to sample 4100.
fn plan(alloc: Global) -> Result<Plan, Fail> {
    plan_to(alloc, 4100)
}

/// Returns whether the program of a block has the expected instructions.
fn is_program(
    plan: &Plan,
    k: u64,
    filled: &mut Program,
    expected: &[Instruction],
) -> Result<bool, Fail>
    requires { length plan.now.pieces + 2 ≤ filled.old.room }
    ensures { filled.new.room ≡ filled.old.room }
{
    if k >= plan.blocks() {
        return Err("too few blocks".into());
    }
    let made = plan.block(k)?;
    plan.fill(k, filled);
    Ok((made.as_slice() == expected) & (filled.as_slice() == expected))
}

#[test]
fn a_piece_over_the_end_of_a_block_goes_on_in_the_next(rt: HostRuntime) -> Result<(), Fail> {
    let plan = plan(rt.alloc())?;
    let mut filled = Program::with_room(rt.alloc(), plan.most_instructions())?;
    let emit = Instruction::Emit {
        depth: Depth::Sixteen,
    };
    let rise = Instruction::Rise {
        stretch: BEFORE_THE_END,
        offset: 0,
        den: 4,
    };
    let first = [Instruction::Start { frames: 4096 }, rise, emit];
    assert!(rt; is_program(&plan, 0, &mut filled, &first)?);
    let rest = Instruction::Rise {
        stretch: Stretch {
            at: 0,
            frame: 9,
            ..BEFORE_THE_END
        },
        offset: 2,
        den: 4,
    };
    let second = [Instruction::Start { frames: 4 }, rest, emit];
    assert!(rt; is_program(&plan, 1, &mut filled, &second)?);
    Ok(())
}

#[test]
fn a_block_has_4096_frames_and_the_last_one_the_rest(rt: HostRuntime) -> Result<(), Fail> {
    for (end, blocks, frames) in [
        (1, 1, [1, 0]),
        (4095, 1, [4095, 0]),
        (4096, 1, [4096, 0]),
        (4097, 2, [4096, 1]),
        (8192, 2, [4096, 4096]),
        (8193, 3, [4096, 4096]),
    ] {
        let plan = plan_to(rt.alloc(), end)?;
        assert_eq!(rt; plan.blocks(), blocks);
        assert_eq!(rt; [plan.frames_of(0), plan.frames_of(1)], frames);
    }
    Ok(())
}
