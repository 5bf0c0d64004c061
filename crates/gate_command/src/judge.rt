//! What comes of files that were read.
ghost use Rattle.std.specs.Prelude.{◌≡◌, ◌<◌, ◌^◌, All, IfOk, false, length, true};
ghost use Rattle.gate_report.specs.law_clean.Clean.{HasDefaults};
ghost use Rattle.gate_report.specs.migration_gate.Verdict.{texts_of};
ghost use Rattle.gate_command.specs.Outcomes.{IsOutcome, IsPassed};

use crate::left_open::first_open;
use crate::outcome::Outcome;
use gate_report::{Cause, GateFile, GateWork, Linter, Verdict, gate, sessions_agree};
use refused_word::NoMemory;
use std::alloc::Global;

// What comes of files that pass, by whether one session runs them all.
fn passed(
    alloc: Global,
    files: &[GateFile<'_>],
    works: Vec<GateWork>,
    one_session: bool,
) -> Result<Outcome, NoMemory>
    requires { length files.now < 2 ^ 32 }
    ensures { IfOk result (IsPassed one_session (texts_of files.now) works.items) }
{
    if !one_session {
        return Ok(Outcome::Accepted { works });
    }
    let first = first_open(alloc, files)?;
    match first {
        None => Ok(Outcome::Accepted { works }),
        Some(file) => Ok(Outcome::Refused {
            file,
            cause: Cause::Open,
        }),
    }
}

/// What comes of files: the verdict of the gate, and where `one_session` is set and they are accepted by it, whether one of them ends inside
/// a transaction. After each answer the linter is as before. The error comes when memory runs out.
pub fn judged(
    alloc: Global,
    linter: &mut Linter,
    files: &[GateFile<'_>],
    one_session: bool,
) -> Result<Outcome, NoMemory>
    requires rules { HasDefaults linter.old.rules }
    requires apart { one_session ≡ true → linter.old.settings.assume_in_transaction ≡ false }
    requires few { length files.now < 2 ^ 32 }
    requires short { All (λ t. length t < 2 ^ 32) (texts_of files.now) }
    ensures outcome { IfOk result (IsOutcome one_session linter.old (texts_of files.now)) }
    ensures linter { linter.new ≡ linter.old }
{
    sessions_agree();
    let verdict = gate(linter, alloc, files)?;
    match verdict {
        Verdict::Accepted { works } => passed(alloc, files, works, one_session),
        Verdict::Rejected { file, why } => Ok(Outcome::Refused {
            file,
            cause: Cause::Against(why),
        }),
    }
}
