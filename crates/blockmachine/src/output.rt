// Conversion of sums to output samples.
ghost use Rattle.std.specs.Prelude.{◌≤◌, length};
ghost use Rattle.blockmachine.specs.Sums.{Emits};

use sound_terms::Depth;
use soundlaw::finish;

/// Emits the first sums as samples.
#[inline(always)]
fn emit_at(sums: &[i64], depth: Depth, out: &mut [i32])
    requires { length out.old ≤ length sums.now }
    ensures { Emits depth sums.now out.new }
{
    for (k, sample) in out.iter_mut().enumerate() {
        *sample = finish(sums[k], depth);
    }
}

/// Emits the first sums as samples. Specialised by depth.
pub fn emit(sums: &[i64], depth: Depth, out: &mut [i32])
    requires { length out.old ≤ length sums.now }
    ensures { Emits depth sums.now out.new }
{
    match depth {
        Depth::Sixteen => emit_at(sums, Depth::Sixteen, out),
        Depth::TwentyFour => emit_at(sums, Depth::TwentyFour, out),
        Depth::ThirtyTwo => emit_at(sums, Depth::ThirtyTwo, out),
    }
}
