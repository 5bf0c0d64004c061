//! What is found of a text, and what comes of it.
ghost use Rattle.std.specs.Prelude.{◌≡◌, IfOk, OnOk, option_map, string_bytes};
ghost use Rattle.fix_class.specs.sql_tree.Statement.{IsValid};
ghost use Rattle.fix_text.specs.Fixing.{IsLook};

use crate::choose::next_allowed;
use fix_class::NoMemory;
use law_next_fix::laws::fitting_fixes_step;
use law_next_fix::{LintError, Linter, sql_read_parse as parse};
use other_fix::Violation;
use std::alloc::Global;

/// What is found of a text.
#[derive(Drop)]
pub(crate) struct Look {
    /// What is reported.
    pub(crate) left: Vec<Violation>,
    /// The text with the next allowed fix made, if there is one.
    pub(crate) next: Option<String>,
}

/// Lints a text that is valid, and makes the first fix that is allowed. The linter stays as it is. The error comes when memory runs out.
pub(crate) fn look_at(
    linter: &mut Linter,
    alloc: Global,
    wide: bool,
    text: &str,
) -> Result<Look, NoMemory>
    requires { IsValid text.now }
    ensures found { IfOk result (λ found. IsLook wide linter.old.rules linter.old.settings text.now found.left.items (option_map string_bytes found.next)) }
    ensures same { OnOk result (linter.new ≡ linter.old) }
{
    fitting_fixes_step();
    let file = match parse(alloc, text) {
        Ok(file) => file,
        Err(LintError::NoMemory) => return Err(NoMemory),
        Err(_) => unreachable!(),
    };
    let assumed = linter.settings.assume_in_transaction;
    let left = linter.lint(alloc, &file)?;
    linter.settings.assume_in_transaction = assumed;
    let next = next_allowed(alloc, wide, &linter.settings, &file, left.as_slice())?;
    Ok(Look { left, next })
}
