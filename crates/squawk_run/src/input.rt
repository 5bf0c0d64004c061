//! From a source to the text of an input.

ghost use Rattle.std.specs.Prelude.{◌≡◌, ◌<◌, ◌^◌, length, IfOk, IfErr, IfSome, MatchResult};
ghost use Rattle.std.specs.Str.{IsUtf8};
ghost use Rattle.std.specs.Io.KnownBytes.{Consumes, IsAtEnd};
ghost use Rattle.squawk_run.specs.declared.stop.Stop.TheVariants as Stop;
ghost use Rattle.squawk_run.specs.Ends.{ReadFor, SourceCause, Stopped};
ghost use Rattle.squawk_run.specs.Stops.{IsReadStop};

use crate::stop::Stop;
use devices::{ReadError, Source, read_to_end};
use std::alloc::Global;

/// All that is left of a source.
pub fn read_input<S: Source>(alloc: Global, src: &mut S) -> Result<Vec<u8>, Stop>
    ensures taken { IfOk result (λ input. Consumes (S.left src.old) (S.left src.new) input.items) }
    ensures whole { IfOk result (λ input. IfSome (S.left src.old) (λ t. t ≡ input.items)) }
    ensures ended { IfOk result (λ _. IsAtEnd (S.left src.new)) }
    ensures short { IfOk result (λ input. length input.items < 2 ^ 32) }
    ensures stop { IfErr result IsReadStop }
    ensures stop_read { IfErr result (λ stop. ReadFor (Stopped stop) (S.left src.old) (S.left src.new)) }
    ensures stop_source { IfErr result (λ stop. SourceCause (Stopped stop) (S.faults src.old) (S.faults src.new)) }
{
    match read_to_end(alloc, src) {
        Ok(input) => Ok(input),
        Err(ReadError::TooLong) => Err(Stop::TooLong),
        Err(ReadError::Fault) => Err(Stop::ReadFault),
        Err(ReadError::NoMemory) => Err(Stop::NoMemory),
    }
}

/// The text that bytes are. It is tested in place and not copied.
pub fn text_in(input: &[u8]) -> Result<&str, Stop>
    ensures { MatchResult result
        (λ text. (text.now ≡ input.now) × IsUtf8 input.now)
        (λ stop. (stop ≡ Stop.NotUtf8) × (¬ (IsUtf8 input.now))) }
{
    match simdutf8::compat::from_utf8(input) {
        Ok(text) => Ok(text),
        Err(_) => Err(Stop::NotUtf8),
    }
}
