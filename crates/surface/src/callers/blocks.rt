// Blocks of a rendering: plan, programs and machine.
use anyhow::Result;
use blockmachine::Machine;
use interval::from_checked;
use projectcheck::Checked;
use renderplan::{Depth, Instruction, Plan, PlanFault, Program};
use sampletime::SampleTime;
use shelf::Shelf;
use std::alloc::Global;

/// Returns the number of instructions that add sound.
pub fn additions_in(program: &Program) -> usize {
    program
        .as_slice()
        .iter()
        .filter(|line| match line {
            Instruction::Start { .. } | Instruction::Emit { .. } => false,
            Instruction::Flat { .. } | Instruction::Rise { .. } | Instruction::Fall { .. } => true,
        })
        .count()
}

/// Returns the number of instructions of block `k` that add sound, or `None` past the last block.
pub fn additions_of(plan: &Plan, k: u64) -> Result<Option<usize>, PlanFault> {
    if k >= plan.blocks() {
        return Ok(None);
    }
    let program = plan.block(k)?;
    Ok(Some(additions_in(&program)))
}

/// Returns the source of a project's first block, on two channels: its file and first sample.
pub fn first_source(
    alloc: Global,
    checked: &Checked,
    end: SampleTime,
) -> Result<Option<(u32, u64)>> {
    let intervals = from_checked(alloc, checked)?;
    let plan = Plan::new(
        alloc,
        intervals,
        SampleTime::ZERO,
        end,
        2,
        Depth::TwentyFour,
    )?;
    Ok(plan.source_of(0))
}

/// Returns the samples of a project from midnight to `end`, on two channels at 24 bits. All blocks
/// share one program buffer.
pub fn samples_of<S: Shelf>(
    alloc: Global,
    checked: &Checked,
    end: SampleTime,
    shelf: &mut S,
) -> Result<Vec<i32>> {
    let intervals = from_checked(alloc, checked)?;
    let plan = Plan::new(
        alloc,
        intervals,
        SampleTime::ZERO,
        end,
        2,
        Depth::TwentyFour,
    )?;
    let mut machine = Machine::new(alloc, 4096, 2)?;
    let mut program = Program::with_room(alloc, plan.most_instructions())?;
    let mut samples = Vec::new(alloc);
    for k in 0..plan.blocks() {
        let mut block = Vec::new(alloc);
        block.resize(plan.frames_of(k) as usize * 2, 0)?;
        plan.fill(k, &mut program);
        machine.run(&program, checked.bound(), shelf, block.as_mut_slice())?;
        samples.extend_from_slice(block.as_slice())?;
    }
    Ok(samples)
}
