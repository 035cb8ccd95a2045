//! A rendering of a project without faults, as a value: one sound file whose blocks are jobs.
//!
//! Proved: `RenderingWork::plan` takes all memory that the rendering and its marks need, and sees no output. It returns 58
//! exactly if the range is empty; 47, 57 and 69 never come after it (`refusals`). The plan is the rendering of the exact
//! sums of all entries in the range, rounded and clipped to the depth, cut into jobs of the requested length that do not
//! overlap (`planned`, `jobs`); its marks are those of the list's run (`run`). A chosen number of channels must be 1 to 64.
//! `order` returns all jobs (`order`), by time in ascending order (`by_time`); the order by source is only tested.
//!
//! `open` finds the marks of an earlier run and writes nothing (`untouched`). Over an honest bench it finds exactly what
//! applies (`found`); blocks are cut into ranges that are marked or not (`cut`); marked blocks are in the file (`filled`),
//! and exactly their jobs are done (`running`). If it reports that no marks are started, no outcome of a crash has any
//! (`unstarted`).
//!
//! The work implements `JobMaker` of `execution` with marks. At each moment a crash leaves marks of the same run, each true
//! of the file, and no mark is lost (`marks`).
#![tactic(auto)]

mod blocks;
mod fault;
mod job_length;
mod layout;
mod maker;
mod marked;
mod options;
mod order;
mod placement;
mod span;
mod stretch;
mod work;

pub use fault::RenderFault;
pub use job_length::JobLength;
pub use job_terms::Order;
pub use maker::RenderingWork;
pub use options::Options;
pub use sound_terms::Depth;
pub use work::{Rendered, Rendering};
