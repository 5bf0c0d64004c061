//! Making a fix.
ghost use Rattle.std.specs.Prelude.{◌≡◌, ◌<◌, ◌^◌, ◌↔◌, ℕ, length, IfOk, IsUtf8, OnOk, string_bytes};
ghost use Rattle.fix_edit.specs.Answer.{CanBeMade, IsAnswer, IsTooLong, OkOrNoMemory};
ghost use Rattle.law_type_fixes.specs.law_fixes.Edited.{edited};
ghost use Rattle.law_type_fixes.specs.Moves.{StatementsMove};
ghost use Rattle.fix_edit.specs.Faults.{IsBadAt, IsOverlapAt};
ghost use Rattle.fix_edit.specs.Mends.{IsMended};

use crate::build::build;
use crate::error::FixError;
use crate::examine::examine;
use crate::measure::edited_len;
use law_type_fixes::Fix;
use law_type_fixes::laws::statements_move;
use std::alloc::Global;

// The edited text, or why there is none.
fn edited(alloc: Global, text: &str, fix: &Fix) -> Result<String, FixError>
    requires text { length text.now < 2 ^ 32 }
    requires edits { length fix.now.edits < 2 ^ 32 }
    ensures { IsAnswer text.now fix.now.edits string_bytes result }
{
    let edits = fix.edits.as_slice();
    examine(text, edits)?;
    let Some(len) = edited_len(text, edits) else {
        return Err(FixError::TooLong);
    };
    build(alloc, text, edits, len)
}

/// A text in which all edits of a fix are made: each one's range is replaced by its text, or by
/// nothing where it has none. All ranges are places of the text as it is before.
///
/// The edits are examined in order. `BadRange` comes where the first bad one leaves the text or
/// cuts a character, and `Overlap` where it doesn't, but begins before its predecessor ends. Edits
/// that touch are no overlap. `TooLong` comes where no edit is bad, and the result would have 2^32
/// bytes or more. `NoMemory` comes because memory ran out; all memory is taken at once.
///
/// A fix that adds CONCURRENTLY, sets a timeout or writes another column type makes a text that is
/// read again, and its rule is silent there (`mended`); other rules may report more. Of a type this
/// holds if no byte of a word is right before or right after what is replaced: `varchar(10)not null`
/// would become `textnot null`. What stays of the tree has other numbers of tokens, under which each
/// statement begins and ends transactions and creates tables where it did (`moved`).
pub fn apply_fix(alloc: Global, text: &str, fix: &Fix) -> Result<String, FixError>
    requires text { length text.now < 2 ^ 32 }
    requires edits { length fix.now.edits < 2 ^ 32 }
    ensures ok { IfOk result (λ made. string_bytes made ≡ edited text.now fix.now.edits) }
    ensures good { OnOk result (CanBeMade text.now fix.now.edits) }
    ensures utf8 { IfOk result (λ made. IsUtf8 (string_bytes made)) }
    ensures mended { IfOk result (λ made. IsMended text.now fix.now (string_bytes made)) }
    ensures moved { StatementsMove }

    // No clause says when memory runs out.
    ensures valid { CanBeMade text.now fix.now.edits
        → OkOrNoMemory result (λ made. string_bytes made ≡ edited text.now fix.now.edits) }
    ensures bad_range { (n : ℕ) → (result ≡ Err (FixError.BadRange n)) ↔ IsBadAt text.now fix.now.edits n }
    ensures overlap { (n : ℕ) → (result ≡ Err (FixError.Overlap n)) ↔ IsOverlapAt text.now fix.now.edits n }
    ensures too_long { (result ≡ Err FixError.TooLong) ↔ IsTooLong text.now fix.now.edits }
    ensures no_memory { result ≡ Err FixError.NoMemory → CanBeMade text.now fix.now.edits }
{
    statements_move();
    edited(alloc, text, fix)
}
