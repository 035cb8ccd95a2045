// The rendered file at its full length, before its samples stand in it.
ghost use Rattle.std.specs.Prelude.{◌≡◌, ◌≢◌, ◌++◌, ⊤, codes, IsTrue, OnOk, Some};
ghost use Rattle.sound_terms.specs.Waves.{zeros};
ghost use Rattle.work_terms.specs.Disk.{IsDurable};
ghost use Rattle.devices.specs.Frame.{OnlyWrites};
ghost use Rattle.rendering.specs.Marked.{laid_file};
ghost use Rattle.rendering.specs.Written.{Spares, WritesRendering};

use crate::Rendering;
use devices::{Bench, DeviceFault};
use markfile::SOUND;

/// Makes the rendered file of these bytes and so many zeros.
fn begin<B: Bench>(bench: &mut B, head: &[u8], count: u64) -> Result<(), DeviceFault>
    ensures begun { IsTrue (B.honest bench.old)
        → OnOk result (B.stored bench.new (codes "render.wav") ≡ Some (head.now ++ zeros count)) }
    ensures beside { Spares B.Bench bench.old bench.new }
    ensures only_writes { WritesRendering B.Bench bench.old bench.new result (λ _. ⊤) }
{
    match bench.create(SOUND) {
        Ok(()) => {}
        Err(fault) => return Err(fault),
    }
    match bench.append(SOUND, head) {
        Ok(()) => {}
        Err(fault) => return Err(fault),
    }
    bench.append_zeros(SOUND, count)
}

impl<'a> Rendering<'a> {
    /// Makes the rendered file at its full length, with every sample zero. `DeviceFault` where that fails: its content
    /// is then unspecified.
    pub(crate) fn lay_out<B: Bench>(&self, bench: &mut B) -> Result<(), DeviceFault>
        ensures laid { IsTrue (B.honest bench.old)
            → OnOk result (B.stored bench.new (codes "render.wav") ≡ Some (laid_file self.now.planned.range)) }
        ensures beside { Spares B.Bench bench.old bench.new }
        ensures only_writes { WritesRendering B.Bench bench.old bench.new result (λ _. ⊤) }
    {
        let size = self.blocks.length_of(self.rendered.frames as usize) as u64;
        begin(bench, self.head.as_slice(), size + size % 2)
    }

    /// Syncs the rendered file.
    pub(crate) fn finish<B: Bench>(&self, bench: &mut B) -> Result<(), DeviceFault>
        ensures durable { IsTrue (B.honest bench.old)
            → OnOk result (IsDurable (codes "render.wav") (B.stored bench.new) (B.may_leave bench.new)) }
        ensures same { B.stored bench.new ≡ B.stored bench.old }
        ensures beside { Spares B.Bench bench.old bench.new }
        ensures only_writes { WritesRendering B.Bench bench.old bench.new result (λ _. ⊤) }
    {
        bench.sync(SOUND)
    }
}
