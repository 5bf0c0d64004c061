//! The gate.

ghost use Rattle.std.specs.Prelude.{◌≡◌, ◌<◌, ◌^◌, All, IfOk, Some, length, slice_get};
ghost use Rattle.squawk_linter.specs.law_clean.Clean.{HasDefaults};
ghost use Rattle.migration_gate.specs.Verdict.{Shown, shown, texts_of};
ghost use Rattle.migration_gate.specs.Verdicts.{IsVerdict};
ghost use Rattle.migration_gate.specs.Laws.{AcceptsClean};

use crate::judging::judge;
use crate::{GateFile, Verdict};
use squawk_linter::clean::clean_answers;
use squawk_linter::{Linter, NoMemory};
use std::alloc::Global;

/// The text of file `i`.
fn text_of<'t>(files: &[GateFile<'t>], i: usize) -> &'t str
    requires { i < length files.now }
    ensures { slice_get (texts_of files.now) i ≡ Some result.now }
{
    files[i].text
}

/// The verdict on a list of files.
fn decide(linter: &mut Linter, alloc: Global, files: &[GateFile<'_>]) -> Result<Verdict, NoMemory>
    requires few { length files.now < 2 ^ 32 }
    requires short { All (λ t. length t < 2 ^ 32) (texts_of files.now) }
    ensures verdict { IfOk result (λ v. IsVerdict linter.old.rules linter.old.settings (texts_of files.now) (shown v)) }
    ensures linter { linter.new ≡ linter.old }
{
    let count = files.len() as u32;
    let mut works = Vec::new(alloc);
    for file in 0..count {
        let text = text_of(files, file as usize);
        match judge(linter, alloc, text, file, &mut works)? {
            Some(why) => return Ok(Verdict::Rejected { file, why }),
            None => {}
        }
    }
    Ok(Verdict::Accepted { works })
}

/// Whether a list of migration files runs clean, one file after another. Names are not looked at.
///
/// A file passes where its text is valid, holds no ignore comment and is plain, and the linter reports nothing of it, with the flag that the
/// linter has before the call. `Rejected` has the first file that does not pass and why, tried in this order: `Unterminated`, `Syntax`,
/// `Ignored`, `NotPlain`, `Found`. `Accepted` has the works of all files.
///
/// Each file begins a transaction of its own where the flag is set, and outside of one else, whatever the file before it leaves open:
/// [`ends_in_transaction`] tells that of a file.
///
/// After each answer the linter is as before. The error comes when memory runs out.
pub fn gate(linter: &mut Linter, alloc: Global, files: &[GateFile<'_>]) -> Result<Verdict, NoMemory>
    requires rules { HasDefaults linter.old.rules }
    requires few { length files.now < 2 ^ 32 }
    requires short { All (λ t. length t < 2 ^ 32) (texts_of files.now) }
    ensures verdict { IfOk result (λ v. IsVerdict linter.old.rules linter.old.settings (texts_of files.now) (shown v)) }

    // Each verdict comes exactly where it is due; running out of memory alone is left open.
    ensures exact { (w : Shown) → IsVerdict linter.old.rules linter.old.settings (texts_of files.now) w → IfOk result (λ v. shown v ≡ w) }

    // Accepted files run clean in the machine that goes from file to file.
    ensures clean { IfOk result (AcceptsClean linter.old.rules linter.old.settings (texts_of files.now)) }
    ensures linter { linter.new ≡ linter.old }
{
    clean_answers();
    decide(linter, alloc, files)
}
