//! Which lines are shown.
ghost use Rattle.std.specs.Prelude.{◌≡◌, ◌≤◌, IfOk};
ghost use Rattle.text_diff.specs.Context as spec;

use crate::step::{Mark, Step};
use source_file::NoMemory;
use std::alloc::Global;

// How many lines are shown before a change, and after it.
const CONTEXT: u8 = 3;

// Whether a change is among the next three lines.
fn is_near(steps: &[Step<'_>]) -> bool
    ensures { result ≡ spec.is_near steps.now }
{
    steps.iter().take(3).any(|step| step.mark.is_change())
}

// How many lines more are shown after this one.
fn left_after(left: u8, step: &Step<'_>) -> u8
    ensures { result ≡ spec.left_after left step.now }
{
    if step.mark.is_change() {
        CONTEXT
    } else {
        left.saturating_sub(1)
    }
}

// The line as it is, or hidden.
fn seen<'t>(left: u8, step: &Step<'t>, rest: &[Step<'t>]) -> Step<'t>
    ensures { result ≡ spec.seen left step.now rest.now }
{
    if step.mark.is_change() || left > 0 || is_near(rest) {
        *step
    } else {
        Step {
            mark: Mark::Hidden,
            line: step.line,
        }
    }
}

/// The same lines; those are hidden that are not within three lines of a change. The error comes when memory runs out.
pub(crate) fn with_context<'t>(alloc: Global, steps: &[Step<'t>]) -> Result<Vec<Step<'t>>, NoMemory>
    ensures { IfOk result (λ all. all.items ≡ spec.with_context 0 steps.now) }
{
    let mut all = Vec::new(alloc);
    let mut left = 0;
    for i in 0..steps.len() {
        let step = steps[i];
        all.push(seen(left, &step, &steps[i + 1..]))?;
        left = left_after(left, &step);
    }
    Ok(all)
}
