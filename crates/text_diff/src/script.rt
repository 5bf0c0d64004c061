//! What becomes of each line.
ghost use Rattle.std.specs.Prelude.{◌≡◌, ◌<◌, ◌≤◌, ◌+◌, ◌++◌, ◌↔◌, IfOk, IfSome, IsTrue, OnOk, length, map, take};
ghost use Rattle.std.specs.Bool.{OnTrue};
ghost use Rattle.text_diff.specs.Script.{new_lines, new_some, old_lines, old_some};

use crate::step::{Mark, Step};
use source_file::NoMemory;
use std::alloc::Global;

// How far away, in lines of both texts together, a line that both have is looked for. Where it is farther, one line of each counts as
// changed. So the time is linear in the number of lines.
const WINDOW: usize = 48;

// How many lines of each text.
#[derive(Clone, Copy)]
struct Taken {
    old: usize,
    new: usize,
}

// How many lines both texts begin with.
fn same_front(old: &[&[u8]], new: &[&[u8]]) -> usize
    ensures in_old { result ≤ length old.now }
    ensures in_new { result ≤ length new.now }
    ensures same { map (λ line. line.now) (take result old.now) ≡ map (λ line. line.now) (take result new.now) }
{
    let most = old.len().min(new.len());
    for i in 0..most {
        if old[i] != new[i] {
            return i;
        }
    }
    most
}

// Whether the same line follows so many removed lines and so many added ones.
fn is_gap(old: &[&[u8]], new: &[&[u8]], removed: usize, added: usize) -> bool
    ensures in_old { OnTrue result (removed < length old.now) }
    ensures in_new { OnTrue result (added < length new.now) }
{
    removed < old.len() && added < new.len() && old[removed] == new[added]
}

// A gap of so many lines in all, before a line that both texts have.
fn gap_of(old: &[&[u8]], new: &[&[u8]], total: usize) -> Option<Taken>
    ensures in_old { IfSome result (λ gap. gap.old < length old.now) }
    ensures in_new { IfSome result (λ gap. gap.new < length new.now) }
    ensures total { IfSome result (λ gap. gap.old + gap.new ≡ total) }
{
    for added in 0..total {
        let removed = total - added;
        if is_gap(old, new, removed, added) {
            return Some(Taken {
                old: removed,
                new: added,
            });
        }
    }
    if is_gap(old, new, 0, total) {
        return Some(Taken { old: 0, new: total });
    }
    None
}

// The shortest gap before a line that both texts have, or one line of each.
fn shortest_gap(old: &[&[u8]], new: &[&[u8]]) -> Taken
    ensures in_old { result.old ≤ length old.now }
    ensures in_new { result.new ≤ length new.now }
    ensures some { 0 < length old.now + length new.now → 0 < result.old + result.new }
{
    for total in 1..WINDOW {
        if let Some(found) = gap_of(old, new, total) {
            return found;
        }
    }
    Taken {
        old: old.len().min(1),
        new: new.len().min(1),
    }
}

// Adds lines of which the same becomes.
fn push_all<'t>(steps: &mut Vec<Step<'t>>, mark: Mark, lines: &[&'t [u8]]) -> Result<(), NoMemory>
    ensures old_side { OnOk result (old_lines steps.new.items ≡ old_lines steps.old.items ++ old_some mark (map (λ line. line.now) lines.now)) }
    ensures new_side { OnOk result (new_lines steps.new.items ≡ new_lines steps.old.items ++ new_some mark (map (λ line. line.now) lines.now)) }
{
    for line in lines {
        steps.push(Step { mark, line: *line })?;
    }
    Ok(())
}

// Adds the removed and the added lines of the gap that the texts begin with.
fn push_gap<'t>(
    steps: &mut Vec<Step<'t>>,
    old: &[&'t [u8]],
    new: &[&'t [u8]],
) -> Result<Taken, NoMemory>
    ensures in_old { IfOk result (λ gap. gap.old ≤ length old.now) }
    ensures in_new { IfOk result (λ gap. gap.new ≤ length new.now) }
    ensures some { IfOk result (λ gap. 0 < length old.now + length new.now → 0 < gap.old + gap.new) }
    ensures old_side { IfOk result (λ gap. old_lines steps.new.items ≡ old_lines steps.old.items ++ map (λ line. line.now) (take gap.old old.now)) }
    ensures new_side { IfOk result (λ gap. new_lines steps.new.items ≡ new_lines steps.old.items ++ map (λ line. line.now) (take gap.new new.now)) }
{
    let gap = shortest_gap(old, new);
    push_all(steps, Mark::Removed, &old[..gap.old])?;
    push_all(steps, Mark::Added, &new[..gap.new])?;
    Ok(gap)
}

// Adds the lines that both texts begin with, and the gap after them.
fn push_piece<'t>(
    steps: &mut Vec<Step<'t>>,
    old: &[&'t [u8]],
    new: &[&'t [u8]],
) -> Result<Taken, NoMemory>
    ensures in_old { IfOk result (λ piece. piece.old ≤ length old.now) }
    ensures in_new { IfOk result (λ piece. piece.new ≤ length new.now) }
    ensures some { IfOk result (λ piece. 0 < length old.now + length new.now → 0 < piece.old + piece.new) }
    ensures old_side { IfOk result (λ piece. old_lines steps.new.items ≡ old_lines steps.old.items ++ map (λ line. line.now) (take piece.old old.now)) }
    ensures new_side { IfOk result (λ piece. new_lines steps.new.items ≡ new_lines steps.old.items ++ map (λ line. line.now) (take piece.new new.now)) }
{
    let kept = same_front(old, new);
    push_all(steps, Mark::Kept, &old[..kept])?;
    let gap = push_gap(steps, &old[kept..], &new[kept..])?;
    Ok(Taken {
        old: kept + gap.old,
        new: kept + gap.new,
    })
}

// Whether a line of a text is left.
fn is_left(old: &[&[u8]], new: &[&[u8]]) -> bool
    ensures { IsTrue result ↔ (0 < length old.now + length new.now) }
{
    !old.is_empty() || !new.is_empty()
}

/// What becomes of each line where these lines become those. It is a short script where the changes are few, and not always the shortest.
/// The error comes when memory runs out.
pub fn script<'t>(
    alloc: Global,
    old: &[&'t [u8]],
    new: &[&'t [u8]],
) -> Result<Vec<Step<'t>>, NoMemory>
    ensures old_side { IfOk result (λ steps. old_lines steps.items ≡ map (λ line. line.now) old.now) }
    ensures new_side { IfOk result (λ steps. new_lines steps.items ≡ map (λ line. line.now) new.now) }
{
    let mut steps = Vec::new(alloc);
    let mut old_rest = old;
    let mut new_rest = new;
    'lines: while is_left(old_rest, new_rest) {
        let piece = push_piece(&mut steps, old_rest, new_rest)?;
        old_rest = &old_rest[piece.old..];
        new_rest = &new_rest[piece.new..];
    }
    Ok(steps)
}
