// Where the jobs of each run end.
ghost use Rattle.std.specs.Prelude.{◌≡◌, ◌<◌, ◌+◌, ◌^◌, IfOk};
ghost use Rattle.consolidation.specs.Ends.{AreEnds};
ghost use Rattle.consolidation.specs.Pieces as spec;
ghost use Rattle.consolidation.specs.Planned.{AreAddressed};

use mediaset::Runs;
use sound_terms::Run;
use std::alloc::{AllocError, Global};
use wavread::Sound;

/// The frames of a piece.
pub const PIECE: u64 = 65_536;

/// How many pieces a run has.
fn pieces_in(run: &Run) -> u64
    requires { run.now.length + 65535 < 2 ^ 64 }
    ensures { result ≡ spec.pieces_in run.now }
{
    run.length.div_ceil(PIECE)
}

/// How many jobs the runs up to and with each have.
pub fn ends_of(alloc: Global, sounds: &[Sound], runs: &Runs) -> Result<Vec<u32>, AllocError>
    requires { AreAddressed sounds.now runs.now }
    ensures { IfOk result (λ ends. AreEnds runs.now.runs ends.items) }
{
    let list = runs.as_slice();
    let mut ends = Vec::with_capacity(alloc, list.len())?;
    let mut end: u64 = 0;
    for run in list {
        end += pieces_in(run);
        ends.push(end as u32)?;
    }
    Ok(ends)
}
