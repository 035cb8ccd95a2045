// A rendering whose blocks are marked as they come to stand on the disk.
ghost use Rattle.std.specs.Prelude.{◌≡◌, ◌<◌, ◌-◌, ◌^◌, ⊤, IfOk, IsTrue, OnOk, Some, length, map};
ghost use Rattle.sha2.specs.Sha256.{sha256};
ghost use Rattle.sound_terms.specs.Blocks.{block_count};
ghost use Rattle.work_terms.specs.Disk.{IsDurable};
ghost use Rattle.devices.specs.Frame.{OnlyReads};
ghost use Rattle.markfile.specs.Format.{run_bytes, sound_name};
ghost use Rattle.rendering.specs.Marked.{file_length, laid_file, marked_count};
ghost use Rattle.rendering.specs.Clipping.{ClipsJob};
ghost use Rattle.rendering.specs.Placed.{AreMarkedWith};
ghost use Rattle.rendering.specs.Cut.{stretch_at};
ghost use Rattle.rendering.specs.Work.{AreCutBy, IsInRange, IsRenderWork, place_of, work_of};
ghost use Rattle.rendering.specs.Written.{Spares, WritesRendering};

use crate::Rendering;
use crate::blocks::BLOCK_LENGTH;
use crate::job_length::{JobLength, stretches_of};
use crate::stretch::{Stretch, last_with};
use clipping::Clips;
use devices::{Bench, DeviceFault, Shelf};
use markfile::RunId;
use std::alloc::{AllocError, Global};
use std::ops::Range;

impl<'a> Rendering<'a> {
    /// The stretch of this job.
    pub(crate) fn stretch(&self, job: u32) -> Stretch
        requires { job < (work_of self.now).count }
        ensures stretch { result ≡ stretch_at self.now.stretches job }
        ensures inside { IsInRange self.now.planned.range result.first result.end }
    {
        self.stretches[job as usize]
    }

    /// The blocks of all jobs that are marked together with this one.
    pub(crate) fn blocks_with(&self, job: u32) -> Range<u32>
        requires { job < (work_of self.now).count }
        ensures { AreMarkedWith self.now.stretches job result.start result.end }
    {
        let first = self.stretches[job as usize].group as usize;
        let last = last_with(self.stretches.as_slice(), job as usize);
        self.stretches[first].first..self.stretches[last].end
    }

    /// Makes the bytes of this job; gives what was clipped of them.
    pub(crate) fn play<S: Shelf>(
        &mut self,
        job: u32,
        shelf: &mut S,
        bytes: &mut [u8],
    ) -> Result<Clips, DeviceFault>
        requires there { job < (work_of self.old).count }
        requires room { length bytes.old ≡ (work_of self.old).size job }
        ensures made { IsTrue (S.honest shelf.old)
            → OnOk result (bytes.new ≡ (work_of self.old).bytes (S.stored shelf.old) job) }
        ensures clips { IsTrue (S.honest shelf.old)
            → IfOk result (ClipsJob self.old (S.stored shelf.old) job) }
        ensures same { self.new ≡ self.old }
        ensures only_reads { OnlyReads S.Shelf shelf.old shelf.new result (λ _. ⊤) (λ _ failed. ⊤) }
    {
        let stretch = self.stretch(job);
        self.blocks
            .play_stretch(stretch.first..stretch.end, shelf, bytes)
    }

    /// Where a stretch begins in the rendered file.
    pub(crate) fn place_at(&self, stretch: &Stretch) -> u64
        ensures { result ≡ place_of self.now.planned.range stretch.now }
    {
        let block = self.blocks.length_of(BLOCK_LENGTH) as u64;
        self.head.len() as u64 + u64::from(stretch.first) * block
    }

    /// The run that renders it of this list.
    pub(crate) fn run(&self, list: &[u8]) -> RunId
        ensures digest { result.digest ≡ sha256 (run_bytes self.now.planned.range list.now) }
        ensures blocks { result.blocks ≡ block_count self.now.planned.range }
        ensures length { result.length ≡ file_length self.now.planned.range }
        ensures whole { IsRenderWork self.now }
    {
        let samples = self.blocks.length_of(self.rendered.frames as usize) as u64;
        let length = self.head.len() as u64 + samples + samples % 2;
        RunId::new(list, &self.range, self.blocks.count(), length)
    }

    /// Makes the rendered file at its full length, with every sample zero, and syncs it.
    pub(crate) fn lay_out_synced<B: Bench>(&self, bench: &mut B) -> Result<(), DeviceFault>
        ensures laid { IsTrue (B.honest bench.old)
            → OnOk result (B.stored bench.new sound_name ≡ Some (laid_file self.now.planned.range)) }
        ensures durable { IsTrue (B.honest bench.old)
            → OnOk result (IsDurable sound_name (B.stored bench.new) (B.may_leave bench.new)) }
        ensures beside { Spares B.Bench bench.old bench.new }
        ensures only_writes { WritesRendering B.Bench bench.old bench.new result (λ _. ⊤) }
    {
        match self.lay_out(bench) {
            Ok(()) => {}
            Err(fault) => return Err(fault),
        }
        match self.finish(bench) {
            Ok(()) => return Ok(()),
            Err(fault) => return Err(fault),
        }
    }

    /// Its blocks, cut into jobs of this length by these marks, one for each block: the marked ones are done.
    pub(crate) fn cut_by(
        &self,
        alloc: Global,
        marked: &[bool],
        jobs: JobLength,
    ) -> Result<Vec<Stretch>, AllocError>
        requires { length marked.now ≡ block_count self.now.planned.range }
        ensures cut { IfOk result (λ cut. AreCutBy jobs marked.now (record self.now { stretches = cut.items })) }
        ensures whole { IfOk result (λ cut. IsRenderWork (record self.now { stretches = cut.items })) }
    {
        let limits = self.blocks.limits(jobs);
        let stretches = stretches_of(alloc, marked, limits.blocks, limits.together)?;
        Ok(stretches)
    }

    /// Has these jobs from now on.
    pub(crate) fn take_up(&mut self, cut: Vec<Stretch>)
        requires { IsRenderWork (record self.old { stretches = cut.items }) }
        ensures { self.new ≡ record self.old { stretches = cut.items } }
    {
        self.stretches = cut;
    }

    /// Which of its jobs are done.
    pub(crate) fn done(&self, alloc: Global) -> Result<Vec<bool>, AllocError>
        ensures { IfOk result (λ done. done.items ≡ map (λ stretch. stretch.done) self.now.stretches) }
    {
        self.stretches
            .iter()
            .map(|stretch| stretch.done)
            .collect(alloc)
    }
}

/// How many of these are true.
fn trues(marked: &[bool]) -> usize
    ensures { result ≡ marked_count marked.now }
{
    marked.iter().filter(|mark| **mark).count()
}

/// How many of these marks are set.
pub(crate) fn count_of(marked: &[bool]) -> u32
    requires { length marked.now < 2 ^ 32 }
    ensures { result ≡ marked_count marked.now }
{
    let count = trues(marked);
    count as u32
}
