//! The run of the command, over any files and sinks.
ghost use Rattle.std.specs.Prelude.{◌≡◌, IfErr, IfOk, OnOk, Some};
ghost use Rattle.std.specs.Io.KnownBytes.{Appends, Keeps};
ghost use Rattle.refused_word.specs.squawk_run.declared.stop.Stop.TheVariants as stop;
ghost use Rattle.refused_word.specs.devices.Faults.{HasCause, Rose};
ghost use Rattle.refused_word.specs.devices.Parts.{AppendsPart};
ghost use Rattle.gate_command.specs.Asked.{asked_of};
ghost use Rattle.gate_report.specs.law_clean.Clean.{HasDefaults};
ghost use Rattle.gate_report.specs.migration_gate.Config.{linter_of};
ghost use Rattle.gate_command.specs.Command as spec;
ghost use Rattle.gate_command.specs.Failures.{IsStop, line_of};
ghost use Rattle.gate_command.specs.declared.outcome.Status.TheVariants as status;

use crate::answer::{Answer, answer_files};
use crate::asked::{Asked, read_asked};
use crate::failure::Failure;
use crate::fault::{Fault, fault_line};
use crate::help::HELP;
use crate::outcome::Status;
use crate::request::Request;
use gate_report::{Linter, linter_of};
use refused_word::{FileStore, NoMemory, Sink, Stop, Words, write_all};
use std::alloc::Global;

// The failure of words that are refused.
fn refused(alloc: Global, fault: &Fault) -> Failure
    ensures { spec.IsLineOf fault.now result }
{
    match fault_line(alloc, fault) {
        Ok(line) => Failure::Words(line),
        Err(NoMemory) => Failure::Stop(Stop::NoMemory),
    }
}

// Whether one session is to run files each of which is a transaction of its own.
fn is_beside(request: &Request, linter: &Linter) -> bool
    ensures { result ≡ spec.is_beside request.now linter.now }
{
    request.one_session && linter.settings.assume_in_transaction
}

// Why a request is refused by a linter that its words name.
fn unfit(request: &Request, linter: &Linter) -> Option<Fault>
    ensures { result ≡ spec.unfit request.now linter.now }
{
    if request.files.is_empty() {
        return Some(Fault::NoFiles);
    }
    if is_beside(request, linter) {
        return Some(Fault::Beside);
    }
    None
}

// The failure of a request whose words the linter refuses.
fn refused_linter(alloc: Global, request: Request) -> Failure
    ensures { spec.IsLineOf (Fault.Linter request.linter) result }
{
    let Request {
        order: _,
        works: _,
        one_session: _,
        files: _files,
        linter,
    } = request;
    refused(alloc, &Fault::Linter(linter))
}

// The answer for the files that a request names, by a linter.
#[tactic(auto, using(crate::proofs::Ending::no_memory_fits))]
fn answered<F: FileStore>(
    alloc: Global,
    request: &Request,
    linter: &mut Linter,
    files: &mut F,
) -> Result<Answer, Failure>
    requires { HasDefaults linter.old.rules }
    ensures answer { IfOk result (λ a. spec.IsAnswered request.now linter.old (F.content files.old) (F.faults files.old) (F.faults files.new) a.status a.bytes.items) }
    ensures refused { IfErr result (spec.IsRefusedBy (spec.fault_by request.now (Some linter.old))) }
{
    if let Some(fault) = unfit(request, linter) {
        return Err(refused(alloc, &fault));
    }
    match answer_files(alloc, request, linter, files) {
        Ok(answer) => Ok(answer),
        Err(NoMemory) => Err(Failure::Stop(Stop::NoMemory)),
    }
}

// The answer for the files that a request names.
#[tactic(auto, using(crate::proofs::Ending::unnamed, crate::proofs::Ending::no_memory_fits))]
fn gated<F: FileStore>(alloc: Global, request: Request, files: &mut F) -> Result<Answer, Failure>
    ensures answer { IfOk result (λ a. spec.IsGated request (F.content files.old) (F.faults files.old) (F.faults files.new) a.status a.bytes.items) }
    ensures refused { IfErr result (spec.IsRefusedBy (spec.fault_by request (linter_of request.linter))) }
{
    match linter_of(alloc, &request.linter) {
        Ok(Some(linter)) => {
            let mut linter = linter;
            answered(alloc, &request, &mut linter, files)
        }
        Ok(None) => Err(refused_linter(alloc, request)),
        Err(NoMemory) => Err(Failure::Stop(Stop::NoMemory)),
    }
}

// The help as an answer.
fn help(alloc: Global) -> Result<Answer, Failure>
    ensures answer { IfOk result (λ a. (a.status ≡ status.Accepted) × (a.bytes.items ≡ HELP.now)) }
    ensures stop { IfErr result (IsStop stop.NoMemory) }
{
    match Vec::from_slice(alloc, HELP.as_bytes()) {
        Ok(bytes) => Ok(Answer {
            status: Status::Accepted,
            bytes,
        }),
        Err(_) => Err(Failure::Stop(Stop::NoMemory)),
    }
}

// What is to be written.
#[tactic(auto, using(crate::proofs::Ending::no_memory_fits))]
fn told<F: FileStore>(alloc: Global, words: &Words, files: &mut F) -> Result<Answer, Failure>
    ensures answer { IfOk result (λ a. spec.IsAnswerBy (asked_of words.now) (F.content files.old) (F.faults files.old) (F.faults files.new) a.status a.bytes.items) }
    ensures refused { IfErr result (spec.IsRefusedBy (spec.fault_of words.now)) }
{
    match read_asked(alloc, words) {
        Ok(Asked::Gate(request)) => gated(alloc, request, files),
        Ok(Asked::Help) => help(alloc),
        Ok(Asked::Refused(fault)) => Err(refused(alloc, &fault)),
        Err(NoMemory) => Err(Failure::Stop(Stop::NoMemory)),
    }
}

// Writes an answer.
fn write_answer<K: Sink>(answer: &Answer, out: &mut K) -> Result<Status, Failure>
    ensures ok { OnOk result (Appends (K.held out.old) (K.held out.new) answer.now.bytes.items) }
    ensures status { IfOk result (λ s. s ≡ answer.now.status) }
    ensures stop { IfErr result (IsStop stop.WriteFault) }
    ensures part { AppendsPart (K.held out.old) (K.held out.new) answer.now.bytes.items }
    ensures cause { HasCause (K.faults out.old) (K.faults out.new) result }
{
    match write_all(out, answer.bytes.as_slice()) {
        Ok(()) => Ok(answer.status),
        Err(_) => Err(Failure::Stop(Stop::WriteFault)),
    }
}

// All of a run but the line on the error sink.
#[tactic(auto, using(crate::proofs::Ending::stopped_by, crate::proofs::Ending::written_by, crate::proofs::Ending::cut_by))]
fn work<F: FileStore, K: Sink>(
    alloc: Global,
    words: &Words,
    files: &mut F,
    out: &mut K,
) -> Result<Status, Failure>
    ensures done { IfOk result (spec.HasWritten words.now (F.content files.old) (F.faults files.old) (F.faults files.new) (K.held out.old) (K.held out.new)) }
    ensures stopped { IfErr result (spec.StoppedFor words.now (F.content files.old) (F.faults files.old) (F.faults files.new) (K.held out.old) (K.held out.new) (K.faults out.old) (K.faults out.new)) }
{
    match told(alloc, words, files) {
        Ok(answer) => write_answer(&answer, out),
        Err(failure) => Err(failure),
    }
}

// Writes a line, which has its line feed. A failed write changes nothing else.
fn say<E: Sink>(err: &mut E, line: &[u8])
    ensures part { AppendsPart (E.held err.old) (E.held err.new) line.now }
    ensures whole { ¬ (Rose (E.faults err.old) (E.faults err.new)) → Appends (E.held err.old) (E.held err.new) line.now }
{
    let _ = write_all(err, line);
}

/// Does what the words after the program's name ask for, of which the first is `gate`: reads the files that they name, judges them in order, and
/// writes to `out` that they are accepted, or which file is not, where, why, and what to do. Why nothing was judged goes to `err`, and a
/// failure there changes nothing else. The failures are words that are refused, with a line that names them, and the stops `WriteFault`
/// and `NoMemory`; 2^32 files and more are `NoMemory` too.
pub fn run<F: FileStore, K: Sink, E: Sink>(
    alloc: Global,
    words: &Words,
    files: &mut F,
    out: &mut K,
    err: &mut E,
) -> Result<Status, Failure>
    ensures done { IfOk result (spec.HasWritten words.now (F.content files.old) (F.faults files.old) (F.faults files.new) (K.held out.old) (K.held out.new)) }
    ensures stopped { IfErr result (spec.StoppedFor words.now (F.content files.old) (F.faults files.old) (F.faults files.new) (K.held out.old) (K.held out.new) (K.faults out.old) (K.faults out.new)) }
    ensures line { IfErr result (λ failure. AppendsPart (E.held err.old) (E.held err.new) (line_of failure)) }
    ensures whole_line { IfErr result (λ failure. ¬ (Rose (E.faults err.old) (E.faults err.new)) → Appends (E.held err.old) (E.held err.new) (line_of failure)) }
    ensures no_line { OnOk result (Keeps (E.held err.old) (E.held err.new)) }
{
    match work(alloc, words, files, out) {
        Ok(status) => Ok(status),
        Err(failure) => {
            say(err, failure.line());
            Err(failure)
        }
    }
}
