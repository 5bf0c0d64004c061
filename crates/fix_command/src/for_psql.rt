//! Fixes the SQL of a text for psql, and keeps its commands and data.
ghost use Rattle.std.specs.Prelude.{◌≡◌, ◌<◌, ◌^◌, IfOk, List, length};
ghost use Rattle.fix_asked.specs.fix_run.Outcomes.{IsPlacedIn};
ghost use Rattle.fix_command.specs.ForPsql.{IsAnswerForPsql, IsPutBack, IsUnparsed};
ghost use Rattle.fix_text.specs.sql_read.Cause.{IsCause};
ghost use Rattle.psql_edit.specs.psql_text.Psql.{Passes, blank_all};
ghost use Rattle.psql_edit.specs.psql_text.Told.{StartsAt};
ghost use Rattle.psql_edit.specs.psql_text.declared.part.Part.{Part as AnyPart};

use crate::places::{all_moved, place_in};
use fix_asked::{NoMemory, Refusal, TextOutcome, TextSize};
use fix_text::{LintError, Linter, OtherFix, Text, fix_text};
use psql_edit::with_sql;
use std::alloc::Global;

// The text with this SQL, of which these fixes are not made. `first` is where its first part that is no SQL begins.
fn put_back(
    alloc: Global,
    text: &str,
    first: usize,
    sql: &str,
    others: &[OtherFix],
) -> Result<TextOutcome, NoMemory>
    requires { first < 2 ^ 32 }
    ensures put { (ps : List AnyPart) → Passes text.now ps → StartsAt ps first → IfOk result (IsPutBack text.now ps sql.now others.now) }
    ensures placed { IfOk result (IsPlacedIn text.now) }
{
    let made = with_sql(alloc, text, sql)?;
    match made {
        Some(new) => Ok(TextOutcome::Fixed {
            text: Text::made(new),
            others: all_moved(alloc, text, others)?,
        }),
        None => Ok(TextOutcome::Refused(Refusal::Syntax {
            at: place_in(text, TextSize::new(first as u32)),
        })),
    }
}

// The refusal of a text whose SQL is refused.
fn unparsed(text: &str, sql: &str, error: LintError) -> Result<TextOutcome, NoMemory>
    requires short { length sql.now < 2 ^ 32 }
    requires cause { IsCause sql.now error }
    ensures unparsed { IfOk result (IsUnparsed text.now sql.now) }
    ensures placed { IfOk result (IsPlacedIn text.now) }
{
    match error {
        LintError::TooLong => unreachable!(),
        LintError::Unterminated { at } => Ok(TextOutcome::Refused(Refusal::Unterminated {
            at: place_in(text, TextSize::new(at)),
        })),
        LintError::Syntax { at } => Ok(TextOutcome::Refused(Refusal::Syntax {
            at: place_in(text, TextSize::new(at)),
        })),
        LintError::NoMemory => Err(NoMemory),
    }
}

/// Fixes the SQL of a text with parts that are no SQL, which are blank in `sql`, and puts it back between them. `first` is where the first of them
/// begins. The linter must not be used again. The error comes when memory runs out.
pub(crate) fn outcome_for_psql(
    alloc: Global,
    linter: &mut Linter,
    wide: bool,
    text: &str,
    first: usize,
    sql: &str,
) -> Result<TextOutcome, NoMemory>
    requires short { length sql.now < 2 ^ 32 }
    requires first { first < 2 ^ 32 }
    ensures answer { (ps : List AnyPart) → Passes text.now ps → StartsAt ps first → sql.now ≡ blank_all ps text.now → IfOk result (IsAnswerForPsql wide linter.old text.now ps) }
    ensures placed { IfOk result (IsPlacedIn text.now) }
{
    match fix_text(linter, alloc, wide, sql) {
        Ok(fixed) => {
            let made = fixed.text.as_str();
            let outcome = put_back(alloc, text, first, made, fixed.others.as_slice())?;
            Ok(outcome)
        }
        Err(error) => {
            let outcome = unparsed(text, sql, error)?;
            Ok(outcome)
        }
    }
}
