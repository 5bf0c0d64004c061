//! The printed form.
ghost use Rattle.std.specs.Prelude.{false, ◌≡◌, ◌<◌, ◌≤◌, ◌+◌, ◌-◌, ◌++◌, ◌^◌, OnOk, decimal, length};
ghost use Rattle.text_diff.specs.Script.{new_lines, new_part, old_lines, old_part};
ghost use Rattle.text_diff.specs.Unified as spec;

use crate::step::{Mark, Step};
use itoa::Buffer;
use source_file::{NoMemory, push_escaped};

// How many lines of each text there are.
#[derive(Clone, Copy)]
struct Counts {
    old: usize,
    new: usize,
}

// Adds a number.
fn push_number(to: &mut Vec<u8>, number: usize) -> Result<(), NoMemory>
    ensures { OnOk result (to.new.items ≡ to.old.items ++ decimal number) }
{
    let mut buffer = Buffer::new();
    to.extend_from_slice(buffer.format(number).as_bytes())?;
    Ok(())
}

// Adds the names of the texts.
fn push_heading(to: &mut Vec<u8>, name: &str) -> Result<(), NoMemory>
    ensures { OnOk result (to.new.items ≡ to.old.items ++ spec.heading name.now) }
{
    to.extend_from_slice(b"--- ")?;
    push_escaped(to, name.as_bytes())?;
    to.extend_from_slice(b"\n+++ ")?;
    push_escaped(to, name.as_bytes())?;
    to.extend_from_slice(b"\n")?;
    Ok(())
}

fn sign(mark: Mark) -> &'static [u8]
    ensures { result.now ≡ spec.sign mark }
{
    match mark {
        Mark::Kept => b" ",
        Mark::Hidden => b"",
        Mark::Removed => b"-",
        Mark::Added => b"+",
    }
}

// What follows a line.
fn ending(line: &[u8]) -> &'static [u8]
    ensures { result.now ≡ spec.ending line.now }
{
    if line.ends_with(b"\n") {
        b""
    } else {
        b"\n\\ No newline at end of file\n"
    }
}

// Adds a line.
fn push_line(to: &mut Vec<u8>, step: &Step<'_>) -> Result<(), NoMemory>
    ensures { OnOk result (to.new.items ≡ to.old.items ++ spec.line_bytes step.now) }
{
    to.extend_from_slice(sign(step.mark))?;
    to.extend_from_slice(step.line)?;
    to.extend_from_slice(ending(step.line))?;
    Ok(())
}

// Adds where a hunk begins in a text, and how many of its lines are in it.
fn push_range(to: &mut Vec<u8>, before: usize, count: usize) -> Result<(), NoMemory>
    requires { before < 2 ^ 64 - 1 }
    ensures { OnOk result (to.new.items ≡ to.old.items ++ spec.range before count) }
{
    if count == 0 {
        push_number(to, before)?;
        to.extend_from_slice(b",0")?;
        return Ok(());
    }
    push_number(to, before + 1)?;
    if count == 1 {
        return Ok(());
    }
    to.extend_from_slice(b",")?;
    push_number(to, count)
}

// The counts with one line more.
fn after(counts: Counts, step: &Step<'_>) -> Counts
    requires old { counts.old < 2 ^ 64 - 1 }
    requires new { counts.new < 2 ^ 64 - 1 }
    ensures old { result.old ≡ counts.old + length (old_part step.now) }
    ensures new { result.new ≡ counts.new + length (new_part step.now) }
{
    Counts {
        old: if step.mark.is_old() {
            counts.old + 1
        } else {
            counts.old
        },
        new: if step.mark.is_new() {
            counts.new + 1
        } else {
            counts.new
        },
    }
}

// How many lines of each text are in the hunk that begins here.
fn hunk_counts(steps: &[Step<'_>]) -> Counts
    ensures old { result.old ≡ length (old_lines (spec.run steps.now)) }
    ensures new { result.new ≡ length (new_lines (spec.run steps.now)) }
{
    let mut counts = Counts { old: 0, new: 0 };
    for step in steps {
        if step.mark.is_hidden() {
            return counts;
        }
        counts = after(counts, step);
    }
    counts
}

// Adds the header of the hunk that begins here.
fn push_header(to: &mut Vec<u8>, before: Counts, steps: &[Step<'_>]) -> Result<(), NoMemory>
    requires old { before.old < 2 ^ 64 - 1 }
    requires new { before.new < 2 ^ 64 - 1 }
    ensures { OnOk result (to.new.items ≡ to.old.items ++ spec.header before.old before.new (spec.run steps.now)) }
{
    let counts = hunk_counts(steps);
    to.extend_from_slice(b"@@ -")?;
    push_range(to, before.old, counts.old)?;
    to.extend_from_slice(b" +")?;
    push_range(to, before.new, counts.new)?;
    to.extend_from_slice(b" @@\n")?;
    Ok(())
}

// Adds a line that is shown, with the header of its hunk where the line before is not shown.
fn push_seen(
    to: &mut Vec<u8>,
    inside: bool,
    before: Counts,
    steps: &[Step<'_>],
    step: &Step<'_>,
) -> Result<(), NoMemory>
    requires old { before.old < 2 ^ 64 - 1 }
    requires new { before.new < 2 ^ 64 - 1 }
    ensures { OnOk result (to.new.items ≡ to.old.items ++ spec.opening inside before.old before.new steps.now ++ spec.line_bytes step.now) }
{
    if !inside {
        push_header(to, before, steps)?;
    }
    push_line(to, step)
}

// Adds the hunks of these lines.
fn push_hunks(to: &mut Vec<u8>, steps: &[Step<'_>]) -> Result<(), NoMemory>
    ensures { OnOk result (to.new.items ≡ to.old.items ++ spec.hunks_from false 0 0 steps.now) }
{
    let mut inside = false;
    let mut before = Counts { old: 0, new: 0 };
    for i in 0..steps.len() {
        let step = steps[i];
        if !step.mark.is_hidden() {
            push_seen(to, inside, before, &steps[i..], &step)?;
        }
        inside = !step.mark.is_hidden();
        before = after(before, &step);
    }
    Ok(())
}

/// Adds the printed form of a difference of texts of this name. The error comes when memory runs out.
#[tactic(auto, unfolding(crate::specs::Unified::printed))]
pub(crate) fn push_printed(to: &mut Vec<u8>, name: &str, steps: &[Step<'_>]) -> Result<(), NoMemory>
    ensures { OnOk result (to.new.items ≡ to.old.items ++ spec.printed name.now steps.now) }
{
    push_heading(to, name)?;
    push_hunks(to, steps)
}
