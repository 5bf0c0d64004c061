//! The run of the program, over any files, source and sinks.
ghost use Rattle.std.specs.Prelude.{◌≡◌, IfErr, IfOk, OnOk};
ghost use Rattle.std.specs.Io.KnownBytes.{Appends, Keeps};
ghost use Rattle.check_print.specs.check_words.Asked.{asked_of};
ghost use Rattle.check_print.specs.checked_file.declared.status.Status.TheVariants as status;
ghost use Rattle.refused_word.specs.squawk_run.declared.stop.Stop.TheVariants as stop;
ghost use Rattle.refused_word.specs.devices.Faults.{HasCause, Rose};
ghost use Rattle.refused_word.specs.devices.Parts.{AppendsPart};
ghost use Rattle.check_command.specs.Choosing.{IsChosenBy, IsUnchosen};
ghost use Rattle.check_command.specs.Command.{DoneFor, HasChecked, StoppedFor, ended_by, fails_on, linter_by, status_by, style_of};
ghost use Rattle.check_command.specs.Failures.{IsStop, failure_of, line_of};
ghost use Rattle.check_print.specs.check_words.declared.request.Format.TheVariants as format;
ghost use Rattle.law_printed_arrays.specs.Unique.{IsUnique, UniqueIssues};
ghost use Rattle.law_printed_text.specs.Unique.{UniqueTexts};
ghost use Rattle.law_printed_text.specs.law_printed_lines.Escapes.{HaveNoControl, UniqueEscapes};
ghost use Rattle.law_printed_text.specs.law_printed_lines.Steering.{SteerNothing};
ghost use Rattle.law_printed_text.specs.law_printed_lines.Unique.{UniqueCommands, UniqueConcise, UniqueGcc};
ghost use Rattle.file_answer.specs.law_reports.CleanTexts.{CleanTextsWorkAlone};
ghost use Rattle.file_answer.specs.law_reports.NotReported.{NotReportedIsNotFound};
ghost use Rattle.file_answer.specs.law_reports.Order.{ReportsAscend};

use crate::failure::{Failure, failure_of, say, word_failure};
use crate::printer::RunPrinter;
use check_print::{
    Asked, Color, FailOn, HELP, NoMemory, Request, Status, Style, VERSION, read_asked,
};
use check_setup::{Config, linter_words, load_setup};
use file_answer::{FileLinter, Linter, Progress, TextLinter, check, reports_tell};
use law_printed_arrays::{unique_arrays, unique_issues, unique_logs};
use law_printed_text::{
    have_no_control, steer_nothing, unique_commands, unique_concise, unique_escapes, unique_gcc,
    unique_texts,
};
use refused_word::{
    CodeChoices, FileStore, Sink, Source, Stop, Words, read_code_choices, write_all,
};
use std::alloc::Global;

// The style that a request asks for, by whether colours are expected where it does not say.
fn style_of(request: &Request, is_painted: bool) -> Style
    ensures { result ≡ style_of request.now is_painted }
{
    let color = match request.color {
        Color::Always => true,
        Color::Never => false,
        Color::Auto => is_painted,
    };
    Style {
        format: request.format,
        color,
        quiet: request.quiet,
        statistics: request.statistics,
    }
}

// The linter with what is chosen, by whether each line is read as SQL.
fn linter_by(chosen: CodeChoices, is_strict: bool) -> FileLinter
    ensures { result ≡ linter_by chosen is_strict }
{
    let linter = Linter {
        rules: chosen.choices.rules,
        settings: chosen.choices.settings,
    };
    FileLinter {
        linter: TextLinter {
            linter,
            hazards: chosen.hazards,
        },
        is_strict,
    }
}

// Which reports make a run fail.
fn fails_on(request: &Request) -> FailOn
    ensures { result ≡ fails_on request.now }
{
    if request.write_baseline {
        return FailOn::Never;
    }
    request.fail_on
}

// The status of a run, by the greatest of its files and by which reports make it fail.
fn status_by(fail_on: FailOn, greatest: Status) -> Status
    ensures { result ≡ status_by fail_on greatest }
{
    match fail_on {
        FailOn::Warning => greatest,
        FailOn::Never => greatest.forgiven(),
    }
}

// The same, where nothing stopped it.
fn ended_by(fail_on: FailOn, done: Result<Status, Stop>) -> Result<Status, Failure>
    ensures { result ≡ ended_by fail_on done }
{
    match done {
        Ok(greatest) => Ok(status_by(fail_on, greatest)),
        Err(stop) => Err(Failure::Stop(stop)),
    }
}

// What the words of the line and the configuration choose together.
fn chosen(alloc: Global, config: &Config, line: &Words) -> Result<CodeChoices, Stop>
    ensures chosen { IfOk result (IsChosenBy config.now line.now) }
    ensures unchosen { IfErr result (IsUnchosen config.now line.now) }
{
    let words = match linter_words(alloc, config, line) {
        Ok(words) => words,
        Err(NoMemory) => return Err(Stop::NoMemory),
    };
    match read_code_choices(alloc, &words) {
        Ok(Some(choices)) => Ok(choices),
        Ok(None) => Err(Stop::BadArguments),
        Err(NoMemory) => Err(Stop::NoMemory),
    }
}

// Writes a text.
fn write_text<K: Sink>(text: &str, out: &mut K) -> Result<Status, Failure>
    ensures ok { OnOk result (Appends (K.held out.old) (K.held out.new) text.now) }
    ensures clean { IfOk result (λ s. s ≡ status.Clean) }
    ensures stop { IfErr result (IsStop stop.WriteFault) }
    ensures part { AppendsPart (K.held out.old) (K.held out.new) text.now }
    ensures cause { HasCause (K.faults out.old) (K.faults out.new) result }
{
    match write_all(out, text.as_bytes()) {
        Ok(()) => Ok(Status::Clean),
        Err(_) => Err(Failure::Stop(Stop::WriteFault)),
    }
}

// A run over files, or over the input.
fn check_request<F: FileStore, S: Source, K: Sink, G: Progress>(
    alloc: Global,
    request: &Request,
    is_painted: bool,
    files: &mut F,
    src: &mut S,
    out: &mut K,
    progress: &mut G,
) -> Result<Status, Failure>
    ensures done { IfOk result (HasChecked request.now is_painted
        (record {
          content = F.content files.old;
          files_before = F.faults files.old;
          files_now = F.faults files.new;
          left = S.left src.old;
          input_before = S.faults src.old;
          input_now = S.faults src.new;
        })
        (K.held out.old) (K.held out.new)) }
    ensures stopped { IfErr result (StoppedFor (Asked.Check request.now) HELP.now VERSION.now is_painted
        (record {
          content = F.content files.old;
          files_before = F.faults files.old;
          files_now = F.faults files.new;
          left = S.left src.old;
          input_before = S.faults src.old;
          input_now = S.faults src.new;
        })
        (K.held out.old) (K.held out.new) (K.faults out.old) (K.faults out.new)) }
{
    let setup = match load_setup(alloc, files, request) {
        Ok(setup) => setup,
        Err(error) => return Err(failure_of(error)),
    };
    let choices = match chosen(alloc, &setup.config, &request.linter) {
        Ok(choices) => choices,
        Err(stop) => return Err(Failure::Stop(stop)),
    };
    let mut linter = linter_by(choices, request.strict);
    let printer = RunPrinter {
        style: style_of(request, is_painted),
        writes_baseline: request.write_baseline,
    };
    let patterns = &setup.config.excluded_paths;
    let filter = &setup.filter;
    let done = check(
        alloc,
        request,
        patterns,
        &mut linter,
        filter,
        &printer,
        files,
        src,
        out,
        progress,
    );
    ended_by(fails_on(request), done)
}

// All of a run but the line on the error sink.
fn work<F: FileStore, S: Source, K: Sink, G: Progress>(
    alloc: Global,
    words: &Words,
    is_painted: bool,
    files: &mut F,
    src: &mut S,
    out: &mut K,
    progress: &mut G,
) -> Result<Status, Failure>
    ensures done { IfOk result (DoneFor (asked_of words.now) HELP.now VERSION.now is_painted
        (record {
          content = F.content files.old;
          files_before = F.faults files.old;
          files_now = F.faults files.new;
          left = S.left src.old;
          input_before = S.faults src.old;
          input_now = S.faults src.new;
        })
        (K.held out.old) (K.held out.new)) }
    ensures stopped { IfErr result (StoppedFor (asked_of words.now) HELP.now VERSION.now is_painted
        (record {
          content = F.content files.old;
          files_before = F.faults files.old;
          files_now = F.faults files.new;
          left = S.left src.old;
          input_before = S.faults src.old;
          input_now = S.faults src.new;
        })
        (K.held out.old) (K.held out.new) (K.faults out.old) (K.faults out.new)) }
{
    match read_asked(alloc, words) {
        Ok(Asked::Check(request)) => check_request(
            alloc, &request, is_painted, files, src, out, progress,
        ),
        Ok(Asked::Help) => write_text(HELP, out),
        Ok(Asked::Version) => write_text(VERSION, out),
        Ok(Asked::Refused(fault)) => Err(word_failure(alloc, &fault)),
        Err(NoMemory) => Err(Failure::Stop(Stop::NoMemory)),
    }
}

// What can be read back from each format.
fn formats_read_back()
    ensures text { UniqueTexts }
    ensures concise { UniqueConcise }
    ensures gcc { UniqueGcc }
    ensures commands { UniqueCommands }
    ensures json { IsUnique format.Json }
    ensures sarif { IsUnique format.Sarif }
    ensures gitlab { UniqueIssues }
    ensures escapes { UniqueEscapes }
    ensures controls { HaveNoControl }
    ensures steering { SteerNothing }
{
    unique_texts();
    unique_concise();
    unique_gcc();
    unique_commands();
    unique_arrays();
    unique_logs();
    unique_issues();
    unique_escapes();
    have_no_control();
    steer_nothing();
}

/// Does what the words after the program's name ask for: reads files, or the input, and writes to `out` what comes of them. Why nothing
/// more was written goes to `err`, and a failure there changes nothing else. `is_painted` is whether colours are expected where no word
/// says. The failures are a word, a configuration or a baseline that is refused, and the stops `BadArguments`, `WriteFault` and `NoMemory`.
///
/// The reports of a file are all that `text_reports` finds in it (`done`), less those that a baseline knows. They ascend (`order`); a hazard
/// that is not reported is not there (`silence`); and where nothing at all is reported of a plain text without ignore comments, under the rules
/// of the default set, no listed work is on a table that others know (`clean`). What is printed leads back to the reports: all of them in JSON
/// (`json`) and SARIF (`sarif`), and as far as the format keeps them in the others (`text`, `concise`, `gcc`, `commands`, `gitlab`).
pub fn run<F: FileStore, S: Source, K: Sink, E: Sink, G: Progress>(
    alloc: Global,
    words: &Words,
    is_painted: bool,
    files: &mut F,
    src: &mut S,
    out: &mut K,
    err: &mut E,
    progress: &mut G,
) -> Result<Status, Failure>
    ensures done { IfOk result (DoneFor (asked_of words.now) HELP.now VERSION.now is_painted
        (record {
          content = F.content files.old;
          files_before = F.faults files.old;
          files_now = F.faults files.new;
          left = S.left src.old;
          input_before = S.faults src.old;
          input_now = S.faults src.new;
        })
        (K.held out.old) (K.held out.new)) }
    ensures stopped { IfErr result (StoppedFor (asked_of words.now) HELP.now VERSION.now is_painted
        (record {
          content = F.content files.old;
          files_before = F.faults files.old;
          files_now = F.faults files.new;
          left = S.left src.old;
          input_before = S.faults src.old;
          input_now = S.faults src.new;
        })
        (K.held out.old) (K.held out.new) (K.faults out.old) (K.faults out.new)) }
    ensures line { IfErr result (λ failure. AppendsPart (E.held err.old) (E.held err.new) (line_of failure)) }
    ensures whole_line { IfErr result (λ failure. ¬ (Rose (E.faults err.old) (E.faults err.new)) → Appends (E.held err.old) (E.held err.new) (line_of failure)) }
    ensures no_line { OnOk result (Keeps (E.held err.old) (E.held err.new)) }
    ensures order { ReportsAscend }
    ensures silence { NotReportedIsNotFound }
    ensures clean { CleanTextsWorkAlone }
    ensures text { UniqueTexts }
    ensures concise { UniqueConcise }
    ensures gcc { UniqueGcc }
    ensures commands { UniqueCommands }
    ensures json { IsUnique format.Json }
    ensures sarif { IsUnique format.Sarif }
    ensures gitlab { UniqueIssues }
    ensures escapes { UniqueEscapes }
    ensures controls { HaveNoControl }
    ensures steering { SteerNothing }
{
    reports_tell();
    formats_read_back();
    match work(alloc, words, is_painted, files, src, out, progress) {
        Ok(status) => Ok(status),
        Err(failure) => {
            say(err, failure.line());
            Err(failure)
        }
    }
}
