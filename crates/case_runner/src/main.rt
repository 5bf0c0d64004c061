//! Runs the cases on standard input through the linter's programs, over memory.
#![tactic(auto)]

mod checks;
mod config;
mod facts;
mod files;
mod memory;
mod programs;
mod ranges;
mod read;
mod row;
mod runs;
mod shown;
mod shown_body;
mod talks;
mod trees;
mod view;

use case_format::run_table;
use programs::Programs;
use std::io;
use std::process::ExitCode;

fn main(rt: HostRuntime) -> io::Result<ExitCode> {
    run_table(&rt, &Programs)
}
