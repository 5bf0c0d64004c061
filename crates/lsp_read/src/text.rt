//! Texts among bytes.
ghost use Rattle.std.specs.Prelude.{◌≡◌, is_some, IfOk, IfSome};
ghost use Rattle.std.specs.Str.{is_utf8};

use lsp_session::Text;
use simdutf8::basic::from_utf8;
use std::alloc::{AllocError, Global};

/// The same text in memory of its own.
pub(crate) fn text_made(alloc: Global, text: &str) -> Result<Text, AllocError>
    ensures { IfOk result (λ t. t ≡ text.now) }
{
    Ok(Text::made(String::from_str(alloc, text)?))
}

/// The text that some bytes are, if they are UTF-8.
#[tactic(auto, using(crate::proofs::Utf8::utf8, crate::proofs::Utf8::not_utf8))]
pub(crate) fn text_of(content: &[u8]) -> Option<&str>
    ensures text { IfSome result (λ s. s.now ≡ content.now) }
    ensures utf8 { is_some result ≡ is_utf8 content.now }
{
    match from_utf8(content) {
        Ok(text) => Some(text),
        Err(_) => None,
    }
}
