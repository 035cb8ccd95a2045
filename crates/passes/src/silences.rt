// Detection of silent pieces.
ghost use Rattle.std.specs.Prelude.{◌≡◌, ◌++◌, map, IsTrue, IfOk, OnOk};
ghost use Rattle.std.specs.List.{flat_map};
ghost use Rattle.passes.specs.Silent.{AsksFor, is_silent_in, silences_of};
ghost use Rattle.sound_terms.specs.Groups.{Agrees, pieces_of};
ghost use Rattle.sound_terms.specs.Passes.{silences};

use crate::{PassFault, Samples};
use groups::{Intervals, Piece, group_pieces};
use std::alloc::Global;

/// Returns whether all samples that the piece reads are zero.
fn is_silent<P: Samples>(piece: &Piece, samples: &mut P) -> Result<bool, PassFault>
    ensures answer { IsTrue (P.honest samples.old)
        → IfOk result (λ silent. silent ≡ is_silent_in (P.reading samples.old) piece.now) }
    ensures looks { AsksFor P.Samples samples.old samples.new result }
{
    match samples.all_zero(
        piece.file,
        piece.first,
        piece.width,
        piece.frame,
        piece.length,
    ) {
        Ok(silent) => Ok(silent),
        Err(_) => Err(PassFault::Device { file: piece.file }),
    }
}

/// Adds one flag per piece: whether it is silent.
fn push_silences<P: Samples>(
    pieces: &[Piece],
    samples: &mut P,
    silent: &mut Vec<bool>,
) -> Result<(), PassFault>
    ensures answers { IsTrue (P.honest samples.old)
        → OnOk result (silent.new.items ≡ silent.old.items ++ silences_of (P.reading samples.old) pieces.now) }
    ensures looks { AsksFor P.Samples samples.old samples.new result }
{
    for piece in pieces {
        let answer = is_silent(piece, samples)?;
        if silent.push(answer).is_err() {
            return Err(PassFault::Memory);
        }
    }
    Ok(())
}

/// Returns the flags of all pieces, group by group.
fn ask_groups<P: Samples>(
    alloc: Global,
    intervals: &Intervals,
    samples: &mut P,
) -> Result<Vec<bool>, PassFault>
    ensures answers { IsTrue (P.honest samples.old)
        → IfOk result (λ silent. silent.items ≡ flat_map (silences_of (P.reading samples.old)) intervals.now) }
    ensures looks { AsksFor P.Samples samples.old samples.new result }
{
    let mut silent = Vec::new(alloc);
    for group in intervals.groups() {
        push_silences(group_pieces(group).as_slice(), samples, &mut silent)?;
    }
    Ok(silent)
}

/// Returns one flag per piece, in order: whether all samples that it reads, on all its channels,
/// are zero. Queries each piece once. Returns `PassFault::Memory` if out of memory, and
/// `PassFault::Device` if samples can't be read.
pub fn silent_of<P: Samples>(
    alloc: Global,
    intervals: &Intervals,
    samples: &mut P,
) -> Result<Vec<bool>, PassFault>
    ensures answers { IsTrue (P.honest samples.old)
        → IfOk result (λ silent. silent.items ≡ silences (P.reading samples.old) intervals.now) }
    ensures agrees { IsTrue (P.honest samples.old)
        → IfOk result (λ silent. Agrees (P.reading samples.old) (pieces_of intervals.now) silent.items) }
    ensures looks { AsksFor P.Samples samples.old samples.new result }
{
    let silent = ask_groups(alloc, intervals, samples)?;
    Ok(silent)
}
