//! Where in its text a cause is shown.
ghost use Rattle.std.specs.Prelude.{◌≡◌, IfSome, IsTrue};
ghost use Rattle.std.specs.Str.{IsCharBoundary};
ghost use Rattle.gate_report.specs.Spots as spec;

use crate::cause::Cause;
use report_lines::TextSize;

// Whether a place of a text is between two characters.
fn is_between(text: &[u8], at: usize) -> bool
    ensures value { result ≡ spec.is_between text.now at }
    ensures between { IsTrue result → IsCharBoundary text.now at }
{
    if at < text.len() {
        return text[at] < 128 || text[at] >= 192;
    }
    at == text.len()
}

/// The place of a cause, where it has one and the text may be cut there.
pub(crate) fn spot_of(text: &str, cause: &Cause) -> Option<TextSize>
    ensures value { result ≡ spec.spot_of text.now cause.now }
    ensures between { IfSome result (IsCharBoundary text.now) }
{
    match cause.place() {
        None => None,
        Some(at) => {
            if is_between(text.as_bytes(), at.raw() as usize) {
                Some(at)
            } else {
                None
            }
        }
    }
}
