//! What linting says of a fixed text.

use squawk_fix::{Linter, LinterSettings, Names, fix_all, lint_text};
use std::test::Fail;

/// Texts with fixes, and how many are made under the rules of the default set: two timeouts and a word for each of the three statements,
/// and a type for each of the four columns.
const TEXTS: &[(&str, u64)] = &[
    (
        "ALTER TABLE t DETACH PARTITION p; REINDEX INDEX i; DROP INDEX i;",
        5,
    ),
    (
        "CREATE TABLE t (a int, b smallint, c varchar(10), d timestamp);",
        4,
    ),
];

#[test]
fn linted_again(rt: HostRuntime) -> Result<(), Fail> {
    for (text, applied) in TEXTS {
        let settings = LinterSettings {
            pg_version: [15, 0, 0],
            assume_in_transaction: true,
            non_volatile: Names::standard(rt.alloc())?,
        };
        let mut linter = Linter::with_default_rules(settings);
        let fixed = fix_all(&mut linter, rt.alloc(), text)?;
        let again = lint_text(&mut linter, rt.alloc(), fixed.text.as_str())?;
        assert_eq!(rt; fixed.applied, *applied, "at {text}");
        assert!(rt; fixed.left.as_slice() == again.as_slice(), "at {text}");
        assert!(rt; linter.settings.assume_in_transaction, "at {text}");
    }
    Ok(())
}
