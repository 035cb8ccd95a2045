// Does either work by the events of any number of workers.
ghost use Rattle.std.specs.Prelude.{◌≡◌, ℕ};
ghost use Rattle.passes.specs.Left.{left_by};
ghost use Rattle.passes.specs.Standard.{AreStandard};
ghost use Rattle.sound_terms.specs.Passes.{standard_groups};
ghost use Rattle.rendering.specs.Rendering.{values_of};
ghost use Rattle.rendering.specs.declared.job_length.JobLength.TheVariants.{OneBlock};
ghost use Rattle.consolidate.specs.Schedules.{IsConsolidationSchedule, IsRenderSchedule, WorkHasChannels};

use crate::Fault;
use crate::choice::{Keeping, RenderChoice};
use crate::media_schedule::schedule_media;
use crate::render_schedule::schedule_render;
use devices::{Bench, Shelf};
use job_terms::{BoardEvent, Order, Progress};
use passes::Pass;
use rendering::{JobLength, Options};
use std::alloc::Global;

/// What is made of a list.
#[derive(Drop)]
pub enum Work<'a> {
    /// Media, and the list over them, as by `consolidate` with this handle and these passes. The pieces are jobs in the
    /// order of their media, which is that of the sources and that of time: both orders are this one.
    Consolidate {
        list: &'a [u8],
        handle: u64,
        passes: Vec<Box<dyn Pass>>,
        order: Order,
    },
    /// A file, as by `render` with these options. A chosen number of channels has to be 1 to 64.
    Render {
        list: &'a [u8],
        options: Options,
    },
}

/// Consolidates or renders a list as `consolidate` and `render` do, but by these events of any number of workers, one
/// after the other: a worker is given a job, makes its bytes, delivers them, fails, or is lost with what it holds, and
/// a job that is out is taken back. It answers how far the jobs are then. Whatever the events, the bytes of each job that
/// is done are in its output; where all are done, the files are those of `consolidate` or `render`, and durable. A
/// consolidated list that was there before stays until then.
///
/// Its refusals before the first write are those of `consolidate` or `render`. A worker takes memory as it comes (57 for
/// the bytes of a block, 60 otherwise), and after the first write 66 and 62 come as from these.
pub fn run_schedule<S: Shelf, B: Bench>(
    alloc: Global,
    work: Work<'_>,
    events: &[BoardEvent],
    shelf: &mut S,
    bench: &mut B,
) -> Result<Progress, Fault>
    requires { WorkHasChannels work }
    ensures rendered { (list : _) (options : Options) → work.entry ≡ Work.Render list options
        → IsRenderSchedule S.Shelf B.Bench OneBlock list.now (values_of options) events.now shelf.old shelf.new
        bench.old bench.new result }
    ensures consolidated { (list : _) (handle : ℕ) (passes : _) (order : _)
        → work.entry ≡ Work.Consolidate list handle passes order
        → IsConsolidationSchedule S.Shelf B.Bench (left_by (λ pass. looking pass) (λ pass. gives pass) passes.items)
        list.now handle events.now shelf.old shelf.new bench.old bench.new result }
    ensures standard { (list : _) (handle : ℕ) (passes : _) (order : _)
        → work.entry ≡ Work.Consolidate list handle passes order
        → AreStandard (λ pass. looking pass) (λ pass. gives pass) passes.items
        → IsConsolidationSchedule S.Shelf B.Bench standard_groups list.now handle events.now shelf.old shelf.new
        bench.old bench.new result }
{
    run_schedule_by(alloc, work, JobLength::OneBlock, events, shelf, bench)
}

/// The same, where the jobs of a rendering have a chosen length.
pub fn run_schedule_by<S: Shelf, B: Bench>(
    alloc: Global,
    work: Work<'_>,
    jobs: JobLength,
    events: &[BoardEvent],
    shelf: &mut S,
    bench: &mut B,
) -> Result<Progress, Fault>
    requires { WorkHasChannels work }
    ensures rendered { (list : _) (options : Options) → work.entry ≡ Work.Render list options
        → IsRenderSchedule S.Shelf B.Bench jobs list.now (values_of options) events.now shelf.old shelf.new
        bench.old bench.new result }
    ensures consolidated { (list : _) (handle : ℕ) (passes : _) (order : _)
        → work.entry ≡ Work.Consolidate list handle passes order
        → IsConsolidationSchedule S.Shelf B.Bench (left_by (λ pass. looking pass) (λ pass. gives pass) passes.items)
        list.now handle events.now shelf.old shelf.new bench.old bench.new result }
    ensures standard { (list : _) (handle : ℕ) (passes : _) (order : _)
        → work.entry ≡ Work.Consolidate list handle passes order
        → AreStandard (λ pass. looking pass) (λ pass. gives pass) passes.items
        → IsConsolidationSchedule S.Shelf B.Bench standard_groups list.now handle events.now shelf.old shelf.new
        bench.old bench.new result }
{
    match work {
        Work::Consolidate {
            list,
            handle,
            passes,
            ..
        } => {
            let keeping = Keeping { handle, passes };
            schedule_media(alloc, list, keeping, events, shelf, bench)
        }
        Work::Render { list, options } => {
            let choice = RenderChoice { options, jobs };
            schedule_render(alloc, list, &choice, events, shelf, bench)
        }
    }
}
