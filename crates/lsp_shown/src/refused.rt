//! The report of a text that is refused.
ghost use Rattle.std.specs.Prelude.{◌≡◌};
ghost use Rattle.lsp_shown.specs.Shown as spec;

use lsp_session::{Pos, Report, Text};

/// The one report of a text that is refused, with the reason, at the place of the fault. It takes no memory.
pub fn refused_at(message: &'static str, at: Pos) -> Report
    ensures { result ≡ spec.refused_at message.entry.now at }
{
    Report {
        start: at,
        end: at,
        code: None,
        message: Text::fixed(message),
        note: None,
        help: None,
        fix: None,
        ignore: None,
    }
}
