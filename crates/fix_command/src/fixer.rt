//! The fixer of the program: the linter's fixes, by their classes.
ghost use Rattle.std.specs.Prelude.{◌≡◌, ◌<◌, ◌^◌, Bool, IfOk, length};
ghost use Rattle.fix_command.specs.Fixes.{IsAnswerFor, IsAnswerOf};
ghost use Rattle.fix_asked.specs.fix_run.Outcomes.{IsPlacedIn};
ghost use Rattle.fix_text.specs.squawk_linter.declared.linter.Linter.{Linter as AnyLinter};
ghost use Rattle.fix_text.specs.sql_read.Cause.{IsCause};

use crate::for_psql::outcome_for_psql;
use fix_asked::{Choices, Chosen, Fixer, NoMemory, Refusal, TextOutcome, TextSize};
use fix_text::{LintError, Linter, LinterSettings, Names, Text, fix_text};
use psql_edit::without_psql;
use std::alloc::Global;

/// A linter that fixes texts. No text changes it.
#[derive(Drop)]
pub struct FixLinter {
    /// The linter.
    pub linter: Linter,
    /// Whether unsafe fixes are made too.
    pub with_unsafe: bool,
}

// A copy of names.
fn copied_names(alloc: Global, names: &Names) -> Result<Names, NoMemory>
    ensures { IfOk result (λ copy. copy ≡ names.now) }
{
    let mut copy = Names::new(alloc);
    for i in 0..names.len() {
        copy.push(names.get(i))?;
    }
    Ok(copy)
}

// A copy of settings.
fn copied_settings(alloc: Global, settings: &LinterSettings) -> Result<LinterSettings, NoMemory>
    ensures { IfOk result (λ copy. copy ≡ settings.now) }
{
    let non_volatile = copied_names(alloc, &settings.non_volatile)?;
    Ok(LinterSettings {
        pg_version: settings.pg_version,
        assume_in_transaction: settings.assume_in_transaction,
        non_volatile,
    })
}

// A copy of a linter.
fn copied(alloc: Global, linter: &Linter) -> Result<Linter, NoMemory>
    ensures { IfOk result (λ copy. copy ≡ linter.now) }
{
    let settings = copied_settings(alloc, &linter.settings)?;
    Ok(Linter {
        rules: linter.rules,
        settings,
    })
}

// The refusal of a text of SQL.
#[tactic(auto, using(crate::proofs::Placing::open_in, crate::proofs::Placing::syntax_in))]
fn refused(text: &str, error: LintError) -> Result<TextOutcome, NoMemory>
    requires short { length text.now < 2 ^ 32 }
    requires cause { IsCause text.now error }
    ensures answer { IfOk result (λ made. (wide : Bool) (linter : AnyLinter) → IsAnswerOf wide linter text.now made) }
    ensures placed { IfOk result (IsPlacedIn text.now) }
{
    match error {
        LintError::TooLong => unreachable!(),
        LintError::Unterminated { at } => Ok(TextOutcome::Refused(Refusal::Unterminated {
            at: TextSize::new(at),
        })),
        LintError::Syntax { at } => Ok(TextOutcome::Refused(Refusal::Syntax {
            at: TextSize::new(at),
        })),
        LintError::NoMemory => Err(NoMemory),
    }
}

// The result for a text of SQL. The linter must not be used again.
fn outcome_of(
    alloc: Global,
    linter: &mut Linter,
    wide: bool,
    text: &str,
) -> Result<TextOutcome, NoMemory>
    requires { length text.now < 2 ^ 32 }
    ensures answer { IfOk result (IsAnswerOf wide linter.old text.now) }
    ensures placed { IfOk result (IsPlacedIn text.now) }
{
    match fix_text(linter, alloc, wide, text) {
        Ok(fixed) => Ok(TextOutcome::Fixed {
            text: Text::made(fixed.text),
            others: fixed.others,
        }),
        Err(error) => {
            let made = refused(text, error)?;
            Ok(made)
        }
    }
}

// What comes of a text, by what of it is no SQL to psql. The linter is not to be used again.
fn answer(
    alloc: Global,
    linter: &mut Linter,
    wide: bool,
    text: &str,
) -> Result<TextOutcome, NoMemory>
    requires { length text.now < 2 ^ 32 }
    ensures answer { IfOk result (IsAnswerFor wide linter.old text.now) }
    ensures placed { IfOk result (IsPlacedIn text.now) }
{
    let found = without_psql(alloc, text)?;
    match found {
        None => outcome_of(alloc, linter, wide, text),
        Some(read) => outcome_for_psql(alloc, linter, wide, text, read.first, read.text.as_str()),
    }
}

impl Fixer for FixLinter {
    ghost answers = { λ fixer text made. IsAnswerFor fixer.with_unsafe fixer.linter text made };

    fn fix(&self, alloc: Global, text: &str) -> Result<TextOutcome, NoMemory> {
        let mut linter = copied(alloc, &self.linter)?;
        answer(alloc, &mut linter, self.with_unsafe, text)
    }
}

impl Chosen for FixLinter {
    ghost use Rattle.fix_command.specs.Fixes.{linter_by};

    ghost by = { λ choices with_unsafe. record { linter = linter_by choices; with_unsafe = with_unsafe } };

    fn by_choices(choices: Choices, with_unsafe: bool) -> FixLinter {
        FixLinter {
            linter: Linter {
                rules: choices.rules,
                settings: choices.settings,
            },
            with_unsafe,
        }
    }
}
