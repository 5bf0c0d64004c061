//! The program for people, editors and CI: `lavkheto check migrations`, `lavkheto explain RULE`, `lavkheto server`.
#![tactic(auto)]

use check_progress::{
    Meter, StdSink, StdSource, SystemFiles, SystemWriter, Words, say_stop, take_words,
};
use std::io::IsTerminal;
use std::process::ExitCode;

// Whether colours are expected on standard output: it is a terminal, and the variable NO_COLOR (no-color.org) is not set.
fn is_painted(rt: &HostRuntime) -> bool {
    rt.stdout().is_terminal() && std::env::var(rt, "NO_COLOR").is_err()
}

// A run of `check`. The exit status.
fn check(rt: &HostRuntime, words: &Words) -> u8 {
    let mut files = SystemFiles::new(rt);
    let mut src = StdSource::new(rt.stdin());
    let mut out = StdSink::new(rt.stdout());
    let mut err = StdSink::new(rt.stderr());
    let painted = is_painted(rt);
    let shown = rt.stderr().is_terminal();
    let mut progress = Meter::new(rt.alloc(), StdSink::new(rt.stderr()), shown);
    let done = check_command::run(
        rt.alloc(),
        words,
        painted,
        &mut files,
        &mut src,
        &mut out,
        &mut err,
        &mut progress,
    );
    match done {
        Ok(status) => status.code(),
        Err(failure) => failure.code(),
    }
}

// A run of `explain`. The exit status.
fn explain(rt: &HostRuntime, words: &Words) -> u8 {
    let mut out = StdSink::new(rt.stdout());
    let mut err = StdSink::new(rt.stderr());
    match explain_command::run(rt.alloc(), words, &mut out, &mut err) {
        Ok(()) => 0,
        Err(failure) => failure.code(),
    }
}

// A run of `fix`. The exit status.
fn fix(rt: &HostRuntime, words: &Words) -> u8 {
    let mut files = SystemFiles::new(rt);
    let mut writer = SystemWriter::new(rt);
    let mut src = StdSource::new(rt.stdin());
    let mut out = StdSink::new(rt.stdout());
    let mut err = StdSink::new(rt.stderr());
    let done = fix_command::run(
        rt.alloc(),
        words,
        &mut files,
        &mut writer,
        &mut src,
        &mut out,
        &mut err,
    );
    match done {
        Ok(status) => status.code(),
        Err(failure) => failure.code(),
    }
}

// A run of `gate`. The exit status.
fn gate(rt: &HostRuntime, words: &Words) -> u8 {
    let mut files = SystemFiles::new(rt);
    let mut out = StdSink::new(rt.stdout());
    let mut err = StdSink::new(rt.stderr());
    match gate_command::run(rt.alloc(), words, &mut files, &mut out, &mut err) {
        Ok(status) => status.code(),
        Err(failure) => failure.code(),
    }
}

// A run of `server`. The exit status.
fn serve(rt: &HostRuntime, words: &Words) -> u8 {
    let files = SystemFiles::new(rt);
    let mut src = StdSource::new(rt.stdin());
    let mut out = StdSink::new(rt.stdout());
    let mut err = StdSink::new(rt.stderr());
    let outcome = server_command::run(rt.alloc(), words, files, &mut src, &mut out, &mut err);
    outcome.code()
}

// The first word, which names a command.
fn first(words: &Words) -> &str {
    if words.is_empty() { "" } else { words.get(0) }
}

// A run of the command that the words name; `check` says what is wrong where they name none. The exit status.
fn run_words(rt: &HostRuntime, words: &Words) -> u8 {
    match first(words) {
        "explain" => explain(rt, words),
        "fix" => fix(rt, words),
        "gate" => gate(rt, words),
        "server" => serve(rt, words),
        _ => check(rt, words),
    }
}

fn main(rt: HostRuntime) -> ExitCode {
    let mut words = Words::new(rt.alloc());
    let code = match take_words(&rt, &mut words) {
        Ok(()) => run_words(&rt, &words),
        Err(stop) => {
            let mut err = StdSink::new(rt.stderr());
            say_stop(&mut err, stop);
            stop.code()
        }
    };
    ExitCode::from(code)
}
