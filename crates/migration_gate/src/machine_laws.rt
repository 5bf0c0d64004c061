//! Laws of files that run one after another.

ghost use Rattle.migration_gate.specs.MachineLaws.{FilesAreApart, SessionsAgree, TransactionsEnd};

use squawk_linter::numbers_count;

/// The machine that goes from file to file dates each work as the machine that begins with its file does.
pub fn files_are_apart()
    ensures { FilesAreApart }
{}

/// Where no transaction is assumed and no file ends inside of one, one session that runs all files dates each work alike.
pub fn sessions_agree()
    ensures { SessionsAgree }
{
    numbers_count()
}

/// In a file that ends outside of a transaction, each transaction that is open at a statement is ended there or later.
pub fn transactions_end()
    ensures { TransactionsEnd }
{}
