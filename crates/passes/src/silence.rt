// The pass that drops silent groups.
ghost use Rattle.std.specs.Prelude.{◌≡◌, true, IfOk};
ghost use Rattle.std.specs.List.{list_all};
ghost use Rattle.sound_terms.specs.Passes as spec;
ghost use Rattle.sound_terms.specs.Passes.{without_silent};

use crate::{Pass, PassFault};
use groups::{Group, Intervals};
use std::alloc::{AllocError, Global};

fn are_true(flags: &[bool]) -> bool
    ensures { result ≡ list_all (λ flag. flag) flags.now }
{
    flags.iter().all(|flag| *flag)
}

/// Returns whether the next `count` pieces exist in `silent` and are all silent.
fn is_called(count: usize, silent: &[bool]) -> bool
    ensures { result ≡ spec.is_called count silent.now }
{
    count <= silent.len() && are_true(&silent[..count])
}

/// Returns the groups with at least one piece that isn't marked silent.
fn sounding(intervals: Intervals, silent: &[bool]) -> Result<Vec<Group>, AllocError>
    ensures { IfOk result (λ groups. groups.items ≡ without_silent intervals silent.now) }
{
    let mut left = silent;
    let mut sounding = Vec::new(intervals.allocator());
    for group in intervals.into_groups() {
        let count = group.len();
        if !is_called(count, left) {
            sounding.push(group)?;
        }
        left = left.get(count..).unwrap_or(&[]);
    }
    Ok(sounding)
}

/// Pass that drops each group whose pieces are all marked silent. Pieces past the end of `silent`
/// are kept.
#[derive(Debug, Drop)]
pub struct DropSilent;

impl Pass for DropSilent {
    ghost gives = { λ _ groups silent. without_silent groups silent };

    ghost looking = { λ _. true };

    fn looks(&self) -> bool {
        true
    }

    fn apply(
        &mut self,
        _alloc: Global,
        intervals: Intervals,
        silent: &[bool],
    ) -> Result<Intervals, PassFault> {
        let _ = intervals.groups();
        Ok(Intervals::of(sounding(intervals, silent)?))
    }
}
