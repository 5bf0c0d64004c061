//! A run: what is made of the files or of the input, and what is printed or written of it.
ghost use Rattle.std.specs.Prelude.{◌≡◌, All, IfErr, IfOk};
ghost use Rattle.fix_run.specs.Giving.{lines_of};
ghost use Rattle.fix_run.specs.Outcomes.{IsSound};
ghost use Rattle.fix_run.specs.Runs.{AllOutcomes, HasFixed, HasStopped};

use crate::asked::fix_requested;
use crate::files::Files;
use crate::fixer::Fixer;
use crate::give::{delivery_of, give};
use crate::lines::lines_of;
use crate::status::status_of;
use crate::stop::FixStop;
use fix_output::{FileStore, FileWriter, NoMemory, Sink, Source};
use fix_words::{Request, Stop};
use gate_files::{Status, Words};
use std::alloc::Global;

/// What a run says in the end.
#[derive(Drop)]
pub struct Done {
    /// The greatest status of the files.
    pub status: Status,
    /// The notes about fixes that are not made, and the lines about files of which nothing is made.
    pub lines: Vec<u8>,
}

// What comes of all files, and the lines about them.
#[derive(Drop)]
struct Plan {
    files: Files,
    lines: Vec<u8>,
}

// What is to be printed or written.
fn planned<F: FileStore, S: Source, M: Fixer>(
    alloc: Global,
    fixer: &M,
    patterns: &Words,
    request: &Request,
    files: &mut F,
    src: &mut S,
) -> Result<Plan, NoMemory>
    ensures come { IfOk result (λ plan. AllOutcomes (M.answers fixer.now)
        (record {
          content = F.content files.old;
          files_before = F.faults files.old;
          files_now = F.faults files.new;
          left = S.left src.old;
          input_before = S.faults src.old;
          input_now = S.faults src.new;
        })
        patterns.now request.now.files plan.files.fixed.items plan.files.unread.items) }
    ensures lines { IfOk result (λ plan. plan.lines.items ≡ lines_of plan.files.fixed.items plan.files.unread.items) }
{
    let all = fix_requested(alloc, fixer, patterns, &request.files, files, src)?;
    let lines = lines_of(alloc, all.fixed.as_slice(), all.unread.as_slice())?;
    Ok(Plan { files: all, lines })
}

/// Fixes what a request asks for: the files that its words stand for, or the input; prints the differences to `out`, or writes the files or
/// the text that is made of the input. Of the files those are left out whose names match one of the patterns, and one that is named twice
/// counts at its first place.
///
/// A file that can't be read or parsed costs no other its fixes. No file is written, and nothing is printed, before all is made.
pub fn fix<F: FileStore, W: FileWriter, S: Source, K: Sink, M: Fixer>(
    alloc: Global,
    fixer: &M,
    patterns: &Words,
    request: &Request,
    files: &mut F,
    writer: &mut W,
    src: &mut S,
    out: &mut K,
) -> Result<Done, FixStop>
    ensures done { IfOk result (λ done. HasFixed (M.answers fixer.now) patterns.now request.now
        (record {
          content = F.content files.old;
          files_before = F.faults files.old;
          files_now = F.faults files.new;
          left = S.left src.old;
          input_before = S.faults src.old;
          input_now = S.faults src.new;
        })
        (record { held = K.held out.old; faults = K.faults out.old; written = W.content writer.old; write_faults = W.faults writer.old })
        (record { held = K.held out.new; faults = K.faults out.new; written = W.content writer.new; write_faults = W.faults writer.new })
        done.status done.lines.items) }
    ensures stopped { IfErr result (HasStopped (M.answers fixer.now) patterns.now request.now
        (record {
          content = F.content files.old;
          files_before = F.faults files.old;
          files_now = F.faults files.new;
          left = S.left src.old;
          input_before = S.faults src.old;
          input_now = S.faults src.new;
        })
        (record { held = K.held out.old; faults = K.faults out.old; written = W.content writer.old; write_faults = W.faults writer.old })
        (record { held = K.held out.new; faults = K.faults out.new; written = W.content writer.new; write_faults = W.faults writer.new })) }
{
    let plan = match planned(alloc, fixer, patterns, request, files, src) {
        Ok(plan) => plan,
        Err(NoMemory) => return Err(FixStop::Any(Stop::NoMemory)),
    };
    let fixed = plan.files.fixed.as_slice();
    let status = status_of(request.write, fixed, plan.files.unread.as_slice());
    match give(alloc, delivery_of(request), fixed, writer, out) {
        Ok(()) => Ok(Done {
            status,
            lines: plan.lines,
        }),
        Err(stop) => Err(stop),
    }
}
