//! Bodies of functions and procedures.

ghost use Rattle.std.specs.Prelude.{◌≡◌, ◌≤◌, ◌<◌, length, IfSome};
ghost use Rattle.std.specs.Str.{IsUtf8, IsCharBoundary};
ghost use Rattle.psql_text.specs.Psql.{IsBody};

use crate::block::Block;
use crate::mark::mark_of;
use crate::token::{is_operator, token_after};

/// The end of the body whose ATOMIC is at this place. `None` where it does not end: before its END the text ends, a token never closes, or a
/// backslash is a token.
pub fn body_end(text: &[u8], from: usize) -> Option<usize>
    requires { from < length text.now }
    ensures body { IsBody text.now from result }
    ensures within { IfSome result (λ end. (from < end) × (end ≤ length text.now)) }
    ensures whole { IfSome result (λ end. IsUtf8 text.now → IsCharBoundary text.now end) }
{
    let mut at = from;
    let mut block = Block::new();
    let mut is_after_operator = false;
    while at < text.len() {
        match token_after(text, at, is_after_operator) {
            None => return None,
            Some((kind, end)) => {
                let mark = mark_of(kind, &text[at..end]);
                if block.ends_at(mark) {
                    return Some(end);
                }
                if mark.is_backslash() {
                    return None;
                }
                block = block.with(mark);
                is_after_operator = is_operator(kind);
                at = end;
            }
        }
    }
    None
}
