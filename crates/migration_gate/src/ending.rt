//! Whether a transaction is open behind a text.

ghost use Rattle.std.specs.Prelude.{◌≡◌, length};
ghost use Rattle.squawk_linter.specs.lint_transaction.Transaction.{is_open};

use squawk_linter::{OpenTransaction, Parse};

/// Whether a transaction is open behind the last statement of a text, where `assumed` says that one is open before the first. It takes no
/// memory.
///
/// A file that ends so, as after COMMIT AND CHAIN, leaves its transaction to the file that the same session runs next. A gate
/// takes each file by itself.
pub fn ends_in_transaction(file: &Parse<'_>, assumed: bool) -> bool
    ensures { result ≡ is_open assumed file.now (length file.now.stmts) }
{
    let stmts = file.tree().stmts.as_slice();
    let mut open = OpenTransaction::new(assumed);
    for i in 0..stmts.len() {
        open.update(&stmts[i]);
    }
    open.inside()
}
