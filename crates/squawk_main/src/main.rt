//! The program: it takes the words after its name and runs over standard input, output and error.
#![tactic(auto)]

ghost use Rattle.std.specs.Prelude.{◌≡◌, ◌⊎◌, IfErr};

use squawk_cli::{Status, StdSink, StdSource, Words, run, say};
use std::io::ErrorKind;
use std::process::ExitCode;

/// Adds the words after the program's name. A word that is not UTF-8 is `BadArguments`; the error is `NoMemory` if memory
/// runs out.
fn take_words(rt: &HostRuntime, words: &mut Words) -> Result<(), Status>
    ensures { IfErr result (λ s. (s ≡ Status.BadArguments) ⊎ (s ≡ Status.NoMemory)) }
{
    match std::env::args(rt) {
        Ok(mut all) => {
            let _program = all.next();
            for word in all {
                if words.push(word.as_str()).is_err() {
                    return Err(Status::NoMemory);
                }
            }
            Ok(())
        }
        Err(refused) => match refused.kind() {
            ErrorKind::InvalidData => Err(Status::BadArguments),
            _ => Err(Status::NoMemory),
        },
    }
}

fn main(rt: HostRuntime) -> ExitCode {
    let mut src = StdSource::new(rt.stdin());
    let mut out = StdSink::new(rt.stdout());
    let mut err = StdSink::new(rt.stderr());
    let mut words = Words::new(rt.alloc());
    let status = match take_words(&rt, &mut words) {
        Ok(()) => run(rt.alloc(), &words, &mut src, &mut out, &mut err),
        Err(refused) => {
            say(&mut err, &refused);
            refused
        }
    };
    ExitCode::from(status.code())
}
