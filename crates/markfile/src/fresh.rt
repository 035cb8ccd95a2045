// Bytes of new marks.
ghost use Rattle.std.specs.Prelude.{◌≡◌, ◌++◌, IfOk, replicate};
ghost use Rattle.markfile.specs.Format.{head_of};

use crate::RunId;
use crate::fields::bytes_of_u32;
use std::alloc::{AllocError, Global};
use std::marker::Model;

/// The length of the front after the gate byte.
const HEAD: usize = 43;

/// The marks of a new run, none of them set, without the gate byte. They are allocated before the first write; nothing
/// is allocated after it. Contracts see the run.
#[derive(Drop)]
pub struct FreshMarks {
    pub(crate) run: RunId,
    pub(crate) rest: Vec<u8>,
}

impl Model for FreshMarks {
    ghost use Rattle.std.specs.Prelude.{◌≡◌, ◌++◌, length, replicate};
    ghost use Rattle.markfile.specs.Format.{head_of};
    ghost use Rattle.markfile.specs.declared.run.RunId.{RunId};

    ghost Value = { RunId };

    ghost view = { λ fresh. fresh.run };

    ghost invariant = { λ fresh. (length fresh.run.digest ≡ 32)
        × (fresh.rest.items ≡ head_of fresh.run ++ replicate fresh.run.blocks 0) };
}

/// Returns the bytes of new marks after the gate: the head and a 0 for each block.
#[tactic(auto, unfolding(crate::specs::Format::head_of))]
fn behind_gate(alloc: Global, run: &RunId) -> Result<Vec<u8>, AllocError>
    ensures { IfOk result (λ bytes. bytes.items ≡ head_of run.now ++ replicate run.now.blocks 0) }
{
    let mut bytes = Vec::with_capacity(alloc, HEAD + run.blocks as usize)?;
    bytes.extend_from_slice(b"ADLMRK1")?;
    bytes.extend_from_slice(&run.digest)?;
    bytes.extend_from_slice(&bytes_of_u32(run.blocks))?;
    bytes.resize(HEAD + run.blocks as usize, 0)?;
    Ok(bytes)
}

impl FreshMarks {
    /// Creates the new marks of a run: 43 bytes plus one for each block. Returns an error if out of memory.
    pub fn of(alloc: Global, run: &RunId) -> Result<Self, AllocError>
        ensures { IfOk result (λ fresh. fresh ≡ run.now) }
    {
        match behind_gate(alloc, run) {
            Ok(rest) => return Ok(FreshMarks { run: *run, rest }),
            Err(fault) => return Err(fault),
        }
    }
}
