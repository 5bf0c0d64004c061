//! Fixing a text until no fix is left that is allowed and fits.
ghost use Rattle.std.specs.Prelude.{◌≡◌, ◌↔◌, ◌≤◌, ◌<◌, ◌^◌, ℕ, All, length, Err, IfErr, IfOk, string_bytes};
ghost use Rattle.std.specs.Str.{IsCharBoundary};
ghost use Rattle.fix_class.specs.sql_token.Token.{OpenAt};
ghost use Rattle.fix_class.specs.sql_tree.Statement.{IsSyntaxAt};
ghost use Rattle.law_next_fix.specs.sql_read.declared.error.LintError.TheVariants as LintError;
ghost use Rattle.law_next_fix.specs.sql_read.Cause.{ErrOrNoMemory, IsCause};
ghost use Rattle.law_next_fix.specs.squawk_linter.Reports.{cleared};
ghost use Rattle.fix_text.specs.Fixing.{IsFixed, IsFixedText};

use crate::look::{Look, look_at};
use crate::others::others_in;
use fix_class::{NoMemory, Parse, has_disable_assume_in_transaction};
use law_next_fix::laws::fitting_fixes_step;
use law_next_fix::{LintError, Linter, load_is_small, second_answer, sql_read_parse as parse};
use other_fix::{OtherFix, Violation};
use std::alloc::Global;
use std::marker::Model;

/// What fixing makes of a text.
#[derive(Debug, Drop)]
pub struct Fixed {
    /// The text in which the fixes were made.
    pub text: String,
    /// How many fixes were made.
    pub applied: u64,
    /// What is reported of it. No report of a listed rule has a fix that fits and is allowed.
    pub left: Vec<Violation>,
    /// The fixes of the given text that change the same bytes as one that comes first.
    pub others: Vec<OtherFix>,
}

impl Model for Fixed {
    ghost use Rattle.std.specs.Prelude.{string_bytes};
    ghost use Rattle.fix_text.specs.Fixing.{FixedValue};

    ghost Value = { FixedValue };

    ghost view = { λ f. record { text = string_bytes f.text; applied = f.applied; left = f.left.items; others = f.others.items } };
}

// Assumes no open transaction where a comment of the text says so.
fn clear(linter: &mut Linter, file: &Parse<'_>)
    ensures rules { linter.new.rules ≡ linter.old.rules }
    ensures settings { linter.new.settings ≡ cleared file.now linter.old.settings }
{
    let assumed = linter.settings.assume_in_transaction;
    linter.settings.assume_in_transaction = assumed && !has_disable_assume_in_transaction(file);
}

// Fixes the text of a tree. The tree stays as it is read: what its load was bounds how often a fix can be made.
fn fix_tree(
    linter: &mut Linter,
    alloc: Global,
    wide: bool,
    file: &Parse<'_>,
) -> Result<Fixed, NoMemory>
    ensures fixed { IfOk result (λ fixed. IsFixed file.now wide linter.old.rules linter.old.settings fixed) }
    ensures placed { IfOk result (λ fixed. All (λ other. IsCharBoundary file.now.text other.at) fixed.others) }
{
    second_answer();
    fitting_fixes_step();
    load_is_small();
    clear(linter, file);
    let others = others_in(linter, alloc, wide, file)?;
    let mut made = String::from_str(alloc, file.text())?;
    let mut applied: u64 = 0;
    'fixing: loop {
        let Look { left, next } = look_at(linter, alloc, wide, made.as_str())?;
        match next {
            Some(text) => {
                made = text;
                applied += 1;
            }
            None => {
                return Ok(Fixed {
                    text: made,
                    applied,
                    left,
                    others,
                });
            }
        }
    }
}

/// Makes fixes in a text, one after another, until none is left that fits and that the classes allow: safe ones, and unsafe ones too where
/// `wide` says so. Each time the first one in the order of the reports is made, and the text is linted again, so it takes time in proportion
/// to the fixes and the text. The fixes of the given text that are not made, since one that comes first changes the same bytes, are named
/// too. The linter's flag is as the text leaves it.
///
/// `TooLong`, `Unterminated` and `Syntax` come of the given text, since each text that is made is valid; `NoMemory` comes because
/// memory ran out.
pub fn fix_text(
    linter: &mut Linter,
    alloc: Global,
    wide: bool,
    text: &str,
) -> Result<Fixed, LintError>
    ensures ok { IfOk result (λ fixed. IsFixedText text.now wide linter.old.rules linter.old.settings fixed) }
    ensures placed { IfOk result (λ fixed. All (λ other. IsCharBoundary text.now other.at) fixed.others) }
    ensures err { IfErr result (IsCause text.now) }
    ensures too_long { (result ≡ Err LintError.TooLong) ↔ (2 ^ 32 ≤ length text.now) }
    ensures unterminated { (at : ℕ) → length text.now < 2 ^ 32 → OpenAt text.now at
        → ErrOrNoMemory result (LintError.Unterminated at) }
    ensures syntax { (at : ℕ) → IsSyntaxAt text.now at → ErrOrNoMemory result (LintError.Syntax at) }
{
    let file = parse(alloc, text)?;
    match fix_tree(linter, alloc, wide, &file) {
        Ok(fixed) => Ok(fixed),
        Err(NoMemory) => Err(LintError::NoMemory),
    }
}
