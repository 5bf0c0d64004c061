//! The line that says why a configuration is refused.
ghost use Rattle.std.specs.Prelude.{◌≡◌, ◌++◌, ◌<◌, ◌^◌, IfOk, length};
ghost use Rattle.config_file.specs.Lines.{IsFaultLine, IsPlaceOf, fault_line, opening};

use check_config::{ConfigFault, fault_place};
use report_lines::{
    NoMemory, Place, SourceFile, TextSize, push, push_escaped, push_escaped_name, push_number,
};
use std::alloc::Global;

// The beginning of a line about a file.
fn opened(alloc: Global, name: &str) -> Result<Vec<u8>, NoMemory>
    ensures { IfOk result (λ line. line.items ≡ opening name.now) }
{
    let mut line = Vec::new(alloc);
    push(&mut line, b"error: ")?;
    push_escaped_name(&mut line, name.as_bytes())?;
    push(&mut line, b":")?;
    Ok(line)
}

/// The line about a whole file, with what is wrong with it. The error comes when memory runs out.
pub fn file_line(alloc: Global, name: &str, what: &str) -> Result<Vec<u8>, NoMemory>
    ensures { IfOk result (λ line. line.items ≡ opening name.now ++ what.now) }
{
    let mut line = opened(alloc, name)?;
    push(&mut line, what.as_bytes())?;
    Ok(line)
}

// The place of a byte, or the start where a character is cut there.
fn place_of(file: &SourceFile<'_>, at: usize) -> Place
    requires { length file.now.text < 2 ^ 32 }
    ensures { IsPlaceOf file.now.text at result }
{
    if file.text().is_char_boundary(at) {
        file.place(TextSize::new(at as u32))
    } else {
        Place { line: 1, column: 1 }
    }
}

/// The line about a place of a file, with what is wrong there. The error comes when memory runs out.
pub fn line_at(alloc: Global, name: &str, place: Place, message: &str) -> Result<Vec<u8>, NoMemory>
    ensures { IfOk result (λ line. line.items ≡ fault_line name.now place message.now) }
{
    let mut line = opened(alloc, name)?;
    push_number(&mut line, place.line)?;
    push(&mut line, b":")?;
    push_number(&mut line, place.column)?;
    push(&mut line, b": ")?;
    push_escaped(&mut line, message.as_bytes())?;
    push(&mut line, b"\n")?;
    Ok(line)
}

/// The line about the fault of a text.
pub(crate) fn text_line(
    alloc: Global,
    name: &str,
    text: &str,
    fault: &ConfigFault,
) -> Result<Vec<u8>, NoMemory>
    requires { length text.now < 2 ^ 32 }
    ensures { IfOk result (λ line. IsFaultLine name.now text.now fault.now line.items) }
{
    let file = SourceFile::new(alloc, name, text)?;
    let place = place_of(&file, fault_place(text, fault));
    let message = fault.message(alloc)?;
    line_at(alloc, name, place, message.as_str())
}
