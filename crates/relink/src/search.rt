// The run that contains a sample frame, by binary search. Equal to a linear search for the first such run.
ghost use Rattle.std.specs.Prelude.{◌≡◌};
ghost use Rattle.sound_terms.specs.Homes.{IsInRun, place_by};
ghost use Rattle.list_terms.specs.Renewed.{run_number};
ghost use Rattle.relink.specs.Begun as spec;

use mediaset::Runs;
use sound_terms::{Homes, Run};

/// Returns whether a run begins at or before this sample frame of the file whose home index has the given position.
fn is_begun(run: &Run, homes: &Homes, position: u32, frame: u64) -> bool
    ensures { result ≡ spec.is_begun (place_by homes.now) position frame run.now }
{
    let own = homes.position(run.file);
    own < position || own == position && run.first <= frame
}

/// Returns the number, from 1, of the run that contains this sample frame.
pub(crate) fn number_of(runs: &Runs, file: u32, frame: u64) -> u32
    requires { IsInRun runs.now.runs file frame }
    ensures { result ≡ run_number 1 runs.now.runs file frame }
{
    let homes = runs.homes();
    let position = homes.position(file);
    let begun = runs
        .as_slice()
        .partition_point(|run| is_begun(run, homes, position, frame));
    begun as u32
}
