// In which order the jobs of a rendering are handed out.
ghost use Rattle.std.specs.Prelude.{◌≡◌, ◌<◌, IfErr, IfOk, length};
ghost use Rattle.std.specs.List.{range_with_len};
ghost use Rattle.job_terms.specs.declared.Order.TheVariants.{ByTime};
ghost use Rattle.sound_terms.specs.Blocks.{block_count};
ghost use Rattle.rendering.specs.Cut.{IsCut};
ghost use Rattle.rendering.specs.Work.{IsOrderOf, work_of};

use crate::Rendering;
use crate::blocks::Blocks;
use crate::stretch::{Stretch, last_with};
use execution::{in_order_of, in_turn};
use job_terms::Order;
use projectcheck::Checked;
use sound_terms::Home;
use std::alloc::{AllocError, Global};

/// Files go by the place of their home index, and in a file by the frame. What begins nowhere comes last.
fn key_of(source: Option<(u32, u64)>, homes: &[Home]) -> u64 {
    let Some((file, frame)) = source else {
        return u64::MAX;
    };
    match homes.get(file as usize) {
        Some(home) => (u64::from(home.position) << 32).saturating_add(frame),
        None => u64::MAX,
    }
}

/// The key of each stretch: that of all blocks that are marked together with it.
fn keys_of(
    alloc: Global,
    blocks: &Blocks,
    stretches: &[Stretch],
    homes: &[Home],
) -> Result<Vec<u64>, AllocError>
    requires { IsCut 0 stretches.now (block_count blocks.now.planned.range) }
    ensures { IfOk result (λ keys. length keys.items ≡ length stretches.now) }
{
    let mut keys = Vec::new(alloc);
    let mut key = u64::MAX;
    for (i, stretch) in stretches.iter().enumerate() {
        if stretch.group as usize == i {
            let end = stretches[last_with(stretches, i)].end;
            key = key_of(blocks.source_of(stretch.first..end), homes);
        }
        keys.push(key)?;
    }
    Ok(keys)
}

impl<'a> Rendering<'a> {
    /// The order in which its jobs are handed out, of the project that it was planned of: by time, or by the source of
    /// the first block in which something sounds of those that are marked together. Want of memory is the only error.
    pub fn order(
        &self,
        alloc: Global,
        checked: &Checked,
        order: Order,
    ) -> Result<Vec<u32>, AllocError>
        ensures order { IfOk result (IsOrderOf self.now) }
        ensures by_time { order ≡ ByTime → IfOk result (λ jobs. jobs.items ≡ range_with_len 0 (work_of self.now).count) }
    {
        match order {
            Order::ByTime => self.in_turn(alloc),
            Order::BySource => self.by_source(alloc, checked),
        }
    }

    fn in_turn(&self, alloc: Global) -> Result<Vec<u32>, AllocError>
        ensures order { IfOk result (IsOrderOf self.now) }
        ensures by_time { IfOk result (λ jobs. jobs.items ≡ range_with_len 0 (work_of self.now).count) }
    {
        in_turn(alloc, self.job_count()).map_err(|_| AllocError)
    }

    fn by_source(&self, alloc: Global, checked: &Checked) -> Result<Vec<u32>, AllocError>
        ensures order { IfOk result (IsOrderOf self.now) }
    {
        let homes = checked.bound().homes(alloc)?;
        let keys = keys_of(
            alloc,
            &self.blocks,
            self.stretches.as_slice(),
            homes.as_slice(),
        )?;
        in_order_of(alloc, keys.as_slice()).map_err(|_| AllocError)
    }
}
