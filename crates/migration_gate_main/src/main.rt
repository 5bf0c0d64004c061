//! The gate as a program: it takes the words after its name, reads a bundle of migration files from standard input, and writes the verdict.
#![tactic(auto)]

use migration_gate::{GateStatus, StdSink, StdSource, Words, gate_run, say, take_words};
use std::process::ExitCode;

fn main(rt: HostRuntime) -> ExitCode {
    let mut src = StdSource::new(rt.stdin());
    let mut out = StdSink::new(rt.stdout());
    let mut err = StdSink::new(rt.stderr());
    let mut words = Words::new(rt.alloc());
    let status = match take_words(&rt, &mut words) {
        Ok(()) => gate_run(rt.alloc(), &words, &mut src, &mut out, &mut err),
        Err(stop) => {
            let status = GateStatus::from(stop);
            say(&mut err, &status);
            status
        }
    };
    ExitCode::from(status.code())
}
