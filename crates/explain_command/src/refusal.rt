//! Why words ask for no text.
ghost use Rattle.std.specs.Prelude.{◌≡◌, IfOk};
ghost use Rattle.explain_command.specs.Failures.{IsRefusal};
ghost use Rattle.explain_command.specs.Lines.{IsUnknownLine, one_name_line, option_line, unknown_line};

use crate::failure::Failure;
use refused_word::nearest_code::nearest_code;
use refused_word::{Code, NoMemory, Stop, Text, WordFault, fault_line, push_escaped};
use std::alloc::Global;

// The line about a name, with the name that is nearest.
fn line_with(alloc: Global, name: &str, nearest: Code) -> Result<Vec<u8>, NoMemory>
    ensures { IfOk result (λ line. line.items ≡ unknown_line name.now nearest) }
{
    let mut line = Vec::new(alloc);
    line.extend_from_slice(b"error: explain: unknown rule: ")?;
    push_escaped(&mut line, name.as_bytes())?;
    line.extend_from_slice(b"; the nearest name is ")?;
    line.extend_from_slice(nearest.name().as_bytes())?;
    line.push(b'\n')?;
    Ok(line)
}

// The line about a name, which is nearest to what a text is nearest to.
fn unknown_line(alloc: Global, name: &str, text: &str) -> Result<Vec<u8>, NoMemory>
    ensures { IfOk result (λ line. IsUnknownLine name.now text.now line.items) }
{
    let nearest = nearest_code(alloc, text)?;
    line_with(alloc, name, nearest)
}

// The line about an option.
fn option_line(alloc: Global, word: &str) -> Result<Vec<u8>, NoMemory>
    ensures { IfOk result (λ line. line.items ≡ option_line word.now) }
{
    let word = Text::made(String::from_str(alloc, word)?);
    fault_line(alloc, &WordFault::UnknownWord(word))
}

// The line about several names.
fn one_name_line(alloc: Global) -> Result<Vec<u8>, NoMemory>
    ensures { IfOk result (λ line. line.items ≡ one_name_line) }
{
    let mut line = Vec::new(alloc);
    line.extend_from_slice(b"error: explain takes one name; --help lists what there is\n")?;
    Ok(line)
}

/// Why a name has no page, if there was memory to say so. The text is the name as rules have it.
pub(crate) fn unknown(alloc: Global, name: &str, text: &str) -> Failure
    ensures { IsRefusal (IsUnknownLine name.now text.now) result }
{
    match unknown_line(alloc, name, text) {
        Ok(line) => Failure::Refused(line),
        Err(NoMemory) => Failure::Stop(Stop::NoMemory),
    }
}

/// Why an option has no page, if there was memory to say so.
pub(crate) fn no_name(alloc: Global, word: &str) -> Failure
    ensures { IsRefusal (λ line. line ≡ option_line word.now) result }
{
    match option_line(alloc, word) {
        Ok(line) => Failure::Refused(line),
        Err(NoMemory) => Failure::Stop(Stop::NoMemory),
    }
}

/// Why several names have no page, if there was memory to say so.
pub(crate) fn several(alloc: Global) -> Failure
    ensures { IsRefusal (λ line. line ≡ one_name_line) result }
{
    match one_name_line(alloc) {
        Ok(line) => Failure::Refused(line),
        Err(NoMemory) => Failure::Stop(Stop::NoMemory),
    }
}
