//! The row that reads a statement.

ghost use Rattle.std.specs.Prelude.{◌≡◌, map};
ghost use Rattle.std.specs.Bool.{OnFalse, OnTrue};
ghost use Rattle.std.specs.Option.{option_map};
ghost use Rattle.sql_tree.specs.Forms.{at, fresh, take_part, in_turn, finished, first_led, first_whole, anything, led_by};
ghost use Rattle.sql_form.specs.Views.{after, front};

use crate::reader::{begins_with_mod, is_all_taken, take_part};
use crate::tables::{one_word_kind, rows_of};
use sql_mark::begins_with;
use sql_tree::forms::{Captures, Part, Rows};
use sql_tree::{Keyword, StmtKind, Terminal};

/// What is kept before anything is read.
pub fn nothing_kept() -> Captures
    ensures { result ≡ fresh }
{
    Captures {
        word: None,
        path: None,
        name: None,
        concurrently: None,
        unique: false,
        temp: false,
        guarded: false,
        chain: false,
        replace: false,
        not_plain: false,
        placed: false,
        open_ended: false,
    }
}

#[inline(always)]
fn take_parts<'a>(
    parts: &[Part],
    kept: &mut Captures,
    left: &'a [Terminal],
) -> Option<&'a [Terminal]>
    ensures { option_map (after kept.new) result ≡ in_turn parts.now kept.old left.entry.now }
{
    let mut here = left;
    let mut rest = parts;
    while let [part, more @ ..] = rest {
        here = take_part(*part, kept, here)?;
        rest = more;
    }
    Some(here)
}

/// What follows the lead words of a row, to the end. Its kind is that of a statement, an action or a piece.
fn finish_row<'a, K: Copy>(
    kind: K,
    parts: &[Part],
    kept: &mut Captures,
    left: &'a [Terminal],
) -> Option<(K, &'a [Terminal])>
    ensures { option_map (front kept.new) result ≡ finished kind parts.now (at kept.old left.entry.now) }
{
    let end = take_parts(parts, kept, left)?;
    if is_all_taken(kept, end) {
        Some((kind, end))
    } else {
        None
    }
}

/// Whether this part may be here, where that is cheap to tell.
fn may_begin(part: Part, left: &[Terminal]) -> bool
    ensures { OnFalse result (take_part part fresh left.now ≡ None) }
{
    match part {
        Part::Word(word) => begins_with(word, left),
        Part::Object(word) => begins_with(word, left),
        _ => true,
    }
}

/// Whether this part may be missing, and is, where that is cheap to tell.
fn is_missing(part: Part, left: &[Terminal]) -> bool
    ensures { OnTrue result (take_part part fresh left.now ≡ Some (at fresh left.now)) }
{
    match part {
        Part::Mods => !begins_with_mod(left),
        Part::Flag(word, _) => !begins_with(word, left),
        _ => false,
    }
}

#[tactic(auto, using(crate::proofs::Leads::lead_may))]
fn may_begin_first(parts: &[Part], left: &[Terminal]) -> bool
    ensures { OnFalse result (in_turn parts.now fresh left.now ≡ None) }
{
    match parts {
        [] => true,
        [first, ..] => may_begin(*first, left),
    }
}

/// Whether the lead words of a row may be here, by the first one that is not missing alone, so that few rows are
/// tried in vain.
#[tactic(auto, using(crate::proofs::Leads::lead_after))]
fn may_lead(lead: &[Part], left: &[Terminal]) -> bool
    ensures { OnFalse result (in_turn lead.now fresh left.now ≡ None) }
{
    match lead {
        [first, rest @ ..] if is_missing(*first, left) => may_begin_first(rest, left),
        _ => may_begin_first(lead, left),
    }
}

/// The first row whose lead words match.
fn first_row<'a>(
    rows: Rows,
    kept: &mut Captures,
    left: &'a [Terminal],
) -> Option<(StmtKind, &'a [Terminal])>
    ensures { option_map (front kept.new) result ≡ first_led (map (λ r. (r.0, r.1.now, r.2.now)) rows.entry.now) left.entry.now }
{
    let mut rest = rows;
    while let [row, more @ ..] = rest {
        *kept = nothing_kept();
        if let Some(after) = take_parts(row.1, kept, left) {
            return finish_row(row.0, row.2, kept, after);
        }
        rest = more;
    }
    None
}

/// A kind of statement whose form takes anything.
pub fn read_anything<'a>(
    kind: StmtKind,
    kept: &mut Captures,
    left: &'a [Terminal],
) -> (StmtKind, &'a [Terminal])
    ensures { front kept.new result ≡ anything kind left.entry.now }
{
    *kept = nothing_kept();
    kept.open_ended = true;
    (kind, left)
}

/// The kind of a statement that begins with this word, and the terminals that its form leaves open, of those after the
/// word. What the form keeps is written in place of what was kept.
#[tactic(auto, unfolding(sql_tree::specs::Forms::led_by))]
pub fn read_front<'a>(
    first: Keyword,
    kept: &mut Captures,
    left: &'a [Terminal],
) -> Option<(StmtKind, &'a [Terminal])>
    ensures { option_map (front kept.new) result ≡ led_by first left.entry.now }
{
    match one_word_kind(first) {
        Some(kind) => Some(read_anything(kind, kept, left)),
        None => first_row(rows_of(first, left), kept, left),
    }
}

/// The first row that reads all of an action or a piece: its kind, and the terminals that its form leaves open. What the
/// form keeps is written in place of what was kept; where no row reads it, what was kept says nothing more.
pub fn read_whole<'a, K: Copy>(
    rows: &'static [(K, &'static [Part])],
    kept: &mut Captures,
    left: &'a [Terminal],
) -> Option<(K, &'a [Terminal])>
    ensures { option_map (front kept.new) result ≡ first_whole (map (λ r. (r.0, r.1.now)) rows.entry.now) left.entry.now }
{
    let mut rest = rows;
    while let [row, more @ ..] = rest {
        if may_lead(row.1, left) {
            *kept = nothing_kept();
            if let Some(found) = finish_row(row.0, row.1, kept, left) {
                return Some(found);
            }
        }
        rest = more;
    }
    None
}
