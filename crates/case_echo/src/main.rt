//! Runs the cases on standard input against a program that prints its text and its words: the format's own cases.
#![tactic(auto)]

use case_format::{Answer, Fault, Subject, run_table};
use std::alloc::Global;
use std::io;
use std::process::ExitCode;

struct Echo;

impl Subject for Echo {
    fn answer(&self, alloc: Global, words: &[String], text: &[u8]) -> Result<Answer, Fault> {
        let mut answer = Answer::new(alloc);
        answer.out.extend_from_slice(text)?;
        for word in words {
            answer.out.extend_from_slice(b"[")?;
            answer.out.extend_from_slice(word.as_bytes())?;
            answer.out.extend_from_slice(b"]\n")?;
        }
        Ok(answer)
    }

    fn row(&self, alloc: Global, _words: &[String], text: &str) -> Result<String, Fault> {
        Ok(String::from_str(alloc, text)?)
    }
}

fn main(rt: HostRuntime) -> io::Result<ExitCode> {
    run_table(&rt, &Echo)
}
