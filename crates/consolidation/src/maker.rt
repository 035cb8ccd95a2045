// A consolidation as a work: its media laid out and filled piece by piece, and what comes last.
use crate::Consolidation;
use devices::{Bench, DeviceFault, Shelf};
use execution::{JobMaker, OutputFault, PlaceFault};

impl<'a> JobMaker for Consolidation<'a> {
    ghost use Rattle.std.specs.Prelude.{⊤};
    ghost use Rattle.consolidation.specs.Outputs.{job_plan};

    ghost plan = { job_plan };

    ghost remains = { λ _ _. ⊤ };

    ghost noted = { λ _ _ _. ⊤ };

    fn count(&self) -> u32 {
        Consolidation::count(self)
    }

    fn size(&self, job: u32) -> usize {
        let piece = self.piece(job);
        self.length(piece)
    }

    fn group(&self, job: u32) -> u32 {
        job
    }

    fn frames(&self, job: u32) -> u64 {
        let piece = self.piece(job);
        u64::from(piece.frames)
    }

    fn make<S: Shelf>(
        &mut self,
        job: u32,
        shelf: &mut S,
        bytes: &mut [u8],
    ) -> Result<(), DeviceFault> {
        let piece = self.piece(job);
        match self.fetch(piece, shelf, bytes) {
            Ok(()) => Ok(()),
            Err(_) => Err(DeviceFault),
        }
    }

    fn write<B: Bench>(
        &mut self,
        job: u32,
        bytes: &[u8],
        _last: bool,
        bench: &mut B,
    ) -> Result<(), PlaceFault> {
        let piece = self.piece(job);
        match Consolidation::write(self, piece, bytes, bench) {
            Ok(()) => Ok(()),
            Err(_) => Err(PlaceFault::Write),
        }
    }

    fn lay_out<B: Bench>(&mut self, bench: &mut B) -> Result<(), OutputFault> {
        self.lay_out_outputs(bench)
    }

    fn finish<B: Bench>(&mut self, bench: &mut B) -> Result<(), OutputFault> {
        self.sync_outputs(bench)?;
        self.write_last(bench)
    }
}
