//! The token at a place.

ghost use Rattle.std.specs.Prelude.{◌≡◌, ◌≤◌, ◌<◌, true, length, IfSome, IfNone};
ghost use Rattle.sql_lex.specs.Signs.{begins_sign};
ghost use Rattle.sql_lex.specs.sql_token.Token.{At, NeverCloses};
ghost use Rattle.psql_text.specs.Reading.{MayFollow};

use crate::class::byte;
use sql_lex::{TokKind, token_at};

/// Whether it is an operator, so that signs that it lost may come after it.
pub fn is_operator(kind: TokKind) -> bool
    ensures { result ≡ true → kind ≡ TokKind.Op }
{
    matches!(kind, TokKind::Op)
}

fn begins_with_sign(z: &[u8]) -> bool
    ensures { result ≡ begins_sign z.now }
{
    let first = byte(z, 0);
    first == b'+' || (first == b'-' && byte(z, 1) != b'-')
}

/// The token at a place. After an operator a sign is a token by itself, and what follows it is not looked at, so that a run of signs takes
/// one pass.
pub fn token_after(text: &[u8], at: usize, is_after_operator: bool) -> Option<(TokKind, usize)>
    requires begins { at < length text.now }
    requires signs { MayFollow text.now at is_after_operator }
    ensures found { IfSome result (λ t. At text.now at t.0 t.1) }
    ensures within { IfSome result (λ t. (at < t.1) × (t.1 ≤ length text.now)) }
    ensures none { IfNone result (NeverCloses text.now at) }
{
    if is_after_operator && begins_with_sign(&text[at..]) {
        return Some((TokKind::Op, at + 1));
    }
    token_at(text, at)
}
