//! The parts of a text that are not read as SQL.

ghost use Rattle.std.specs.Prelude.{◌≡◌, ◌↔◌, All, IfOk, IsTrue};
ghost use Rattle.psql_text.specs.Psql.{Passes, blank_all};
ghost use Rattle.psql_edit.specs.Exchange.{IsPartOf, for_psql, piece};

use psql_text::{NoMemory, Part, PartKind, blank_out, next_part, start};
use std::alloc::Global;

/// A text as psql reads it.
#[derive(Drop)]
pub(crate) struct Parts {
    /// The text, in which the parts are blank.
    pub(crate) sql: Vec<u8>,
    /// The parts that are not read as SQL.
    pub(crate) parts: Vec<Part>,
}

/// Reads a text as psql does. The error comes when memory runs out.
pub(crate) fn parts_in(alloc: Global, text: &[u8]) -> Result<Parts, NoMemory>
    ensures passes { IfOk result (λ r. Passes text.now r.parts.items) }
    ensures sql { IfOk result (λ r. r.sql.items ≡ blank_all r.parts.items text.now) }
    ensures within { IfOk result (λ r. All (IsPartOf text.now) r.parts.items) }
{
    let mut sql = Vec::from_slice(alloc, text)?;
    let mut parts = Vec::new(alloc);
    let mut next = next_part(text, start());
    'parts: while let Some(found) = next {
        parts.push(found.part)?;
        blank_out(&mut sql, found.part);
        next = next_part(sql.as_slice(), found.next);
    }
    Ok(Parts { sql, parts })
}

fn is_same_kind(a: PartKind, b: PartKind) -> bool
    ensures { IsTrue result ↔ (a ≡ b) }
{
    match (a, b) {
        (PartKind::Command, PartKind::Command)
        | (PartKind::Data, PartKind::Data)
        | (PartKind::Ending, PartKind::Ending)
        | (PartKind::Body, PartKind::Body) => true,
        _ => false,
    }
}

fn is_same(old: &[u8], part: Part, new: &[u8], other: Part) -> bool
    requires part { IsPartOf old.now part }
    requires other { IsPartOf new.now other }
    ensures { IsTrue result ↔ (piece new.now other ≡ piece old.now part) }
{
    is_same_kind(other.kind, part.kind) && new[other.from..other.to] == old[part.from..part.to]
}

/// Whether the parts of two texts are the same, byte for byte.
pub(crate) fn are_same(old: &[u8], parts: &[Part], new: &[u8], others: &[Part]) -> bool
    requires parts { All (IsPartOf old.now) parts.now }
    requires others { All (IsPartOf new.now) others.now }
    ensures { IsTrue result ↔ (for_psql new.now others.now ≡ for_psql old.now parts.now) }
{
    if others.len() != parts.len() {
        return false;
    }
    for i in 0..parts.len() {
        if !is_same(old, parts[i], new, others[i]) {
            return false;
        }
    }
    true
}
