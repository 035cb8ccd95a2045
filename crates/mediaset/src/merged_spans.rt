// Merging of spans that touch.
ghost use Rattle.std.specs.Prelude.{◌≡◌, ◌<◌, ◌-◌, ◌++◌, ◌∷◌, List, IfOk};
ghost use Rattle.std.specs.List.{All};
ghost use Rattle.mediaset.specs.Spans as spec;
ghost use Rattle.mediaset.specs.Spans.{IsOpen, merged, merged_all};
ghost use Rattle.mediaset.specs.declared.spans.Span.{Span};

use crate::spans::Span;
use sound_terms::Run;
use std::alloc::{AllocError, Global};

/// Returns whether a later span has the same file and begins within this one or at its end.
fn touches(span: &Span, later: &Span) -> bool
    ensures { result ≡ spec.touches span.now later.now }
{
    span.file == later.file && later.first <= span.end
}

fn run_of(span: &Span) -> Run
    requires { IsOpen span.now }
    ensures { result ≡ spec.run_of span.now }
{
    Run {
        file: span.file,
        first: span.first,
        length: span.end - span.first,
    }
}

/// Extends `held` by the next span if they touch. Otherwise adds `held` to the runs and returns the next span.
fn take(held: Span, next: &Span, runs: &mut Vec<Run>) -> Result<Span, AllocError>
    requires held { IsOpen held }
    requires next { IsOpen next.now }
    ensures open { IfOk result IsOpen }
    ensures taken { (spans : List Span)
        → IfOk result (λ span. runs.new.items ++ merged span spans ≡ runs.old.items ++ merged held (next.now ∷ spans)) }
{
    if touches(&held, next) {
        return Ok(Span {
            end: held.end.max(next.end),
            ..held
        });
    }
    runs.push(run_of(&held))?;
    Ok(*next)
}

/// Merges a span and the spans after it.
fn merge_behind(alloc: Global, first: Span, later: &[Span]) -> Result<Vec<Run>, AllocError>
    requires first { IsOpen first }
    requires later { All IsOpen later.now }
    ensures { IfOk result (λ runs. runs.items ≡ merged first later.now) }
{
    let mut runs = Vec::new(alloc);
    let mut held = first;
    for span in later {
        held = take(held, span, &mut runs)?;
    }
    runs.push(run_of(&held))?;
    Ok(runs)
}

/// Merges spans that touch into runs. The spans are ordered by the homes of their files and then by their first
/// sample frame.
pub fn merge(alloc: Global, spans: &[Span]) -> Result<Vec<Run>, AllocError>
    requires { All IsOpen spans.now }
    ensures { IfOk result (λ runs. runs.items ≡ merged_all spans.now) }
{
    match spans {
        [first, later @ ..] => merge_behind(alloc, *first, later),
        [] => Ok(Vec::new(alloc)),
    }
}
