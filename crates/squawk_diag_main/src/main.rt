//! The program: it takes the words after its name, reads a migration from standard input, and writes its diagnostics as JSON.
#![tactic(auto)]

use squawk_diag::{Status, StdSink, StdSource, Words, diag_run, say, take_words};
use std::process::ExitCode;

fn main(rt: HostRuntime) -> ExitCode {
    let mut src = StdSource::new(rt.stdin());
    let mut out = StdSink::new(rt.stdout());
    let mut err = StdSink::new(rt.stderr());
    let mut words = Words::new(rt.alloc());
    let status = match take_words(&rt, &mut words) {
        Ok(()) => diag_run(rt.alloc(), &words, &mut src, &mut out, &mut err),
        Err(stop) => {
            let status = Status::from(stop);
            say(&mut err, &status);
            status
        }
    };
    ExitCode::from(status.code())
}
