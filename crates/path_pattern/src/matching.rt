//! Whether a path matches a pattern.
ghost use Rattle.std.specs.Prelude.{◌≡◌, ◌+◌, ◌<◌, ◌↔◌, ℕ, Bool, IfOk, IsTrue, List, length};
ghost use Rattle.path_pattern.specs.Patterns.{Matches, parts_of};
ghost use Rattle.path_pattern.specs.Rows.{IsRow, ends_here, matched_by, part_test, value_at};

use crate::part::{Part, part_of, takes, takes_many};
use std::alloc::{AllocError, Global};

// Whether what is left of a path matches a part and those after it: by whether it matches those after it alone, whether the part takes
// the first byte, and whether what is after this byte matches all of them, or those after the part.
fn value_at(part: Part, is_here: bool, takes_first: bool, is_later: bool, is_next: bool) -> bool
    ensures { result ≡ value_at part is_here takes_first is_later is_next }
{
    if takes_many(part) {
        is_here || (takes_first && is_later)
    } else {
        takes_first && is_next
    }
}

// Puts a part before those that a row is of.
fn set_row(part: Part, path: &[u8], row: &mut [bool])
    requires { length row.old ≡ length path.now + 1 }
    ensures { (test : List ℕ → Bool) → IsRow test path.now row.old → IsRow (part_test part test) path.now row.new }
{
    let end = path.len();
    let mut is_next = row[end];
    row[end] = takes_many(part) && is_next;
    for i in (0..end).rev() {
        let is_here = row[i];
        let is_later = row[i + 1];
        row[i] = value_at(part, is_here, takes(part, path[i]), is_later, is_next);
        is_next = is_here;
    }
}

// The row of no part: nothing is left to match at the end of the path alone.
fn first_row(alloc: Global, path: &[u8]) -> Result<Vec<bool>, AllocError>
    ensures length { IfOk result (λ row. length row.items ≡ length path.now + 1) }
    ensures row { IfOk result (λ row. IsRow ends_here path.now row.items) }
{
    let mut row = vec![in alloc; false; path.len() + 1]?;
    row[path.len()] = true;
    Ok(row)
}

/// Whether a path matches a pattern: `*` stands for any bytes but slashes, `**` for any bytes, `?` for one byte but a slash, and every
/// other byte for itself. The error comes when memory runs out.
pub fn is_match(alloc: Global, pattern: &[u8], path: &[u8]) -> Result<bool, AllocError>
    ensures value { IfOk result (λ is. is ≡ matched_by (parts_of pattern.now) path.now) }
    ensures meaning { IfOk result (λ is. IsTrue is ↔ Matches (parts_of pattern.now) path.now) }
{
    let mut row = first_row(alloc, path)?;
    let mut is_before_star = false;
    for i in (0..pattern.len()).rev() {
        let byte = pattern[i];
        set_row(part_of(byte, is_before_star), path, row.as_mut_slice());
        is_before_star = byte == b'*';
    }
    Ok(row[0])
}
