//! The words that the system gives.

ghost use Rattle.std.specs.Prelude.{◌≡◌, ◌⊎◌, IfErr};
ghost use Rattle.squawk_run.specs.declared.stop.Stop.TheVariants as Stop;

use crate::stop::Stop;
use squawk_words::Words;
use std::io::ErrorKind;

/// Adds the words after the program's name. A word that is not UTF-8 is `BadArguments`; `NoMemory` comes when memory runs
/// out.
pub fn take_words(rt: &HostRuntime, words: &mut Words) -> Result<(), Stop>
    ensures { IfErr result (λ stop. (stop ≡ Stop.BadArguments) ⊎ (stop ≡ Stop.NoMemory)) }
{
    match std::env::args(rt) {
        Ok(mut all) => {
            let _program = all.next();
            for word in all {
                if words.push(word.as_str()).is_err() {
                    return Err(Stop::NoMemory);
                }
            }
            Ok(())
        }
        Err(refused) => match refused.kind() {
            ErrorKind::InvalidData => Err(Stop::BadArguments),
            _ => Err(Stop::NoMemory),
        },
    }
}
