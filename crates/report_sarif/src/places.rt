//! Places of a file.
ghost use Rattle.std.specs.Prelude.{◌≡◌, IfOk, IsTrue, string_bytes};
ghost use Rattle.std.specs.Str.{IsCharBoundary};
ghost use Rattle.serde_json.specs.View.{view};
ghost use Rattle.json_value.specs.source_file.File.{IsRangeIn};
ghost use Rattle.report_sarif.specs.Places.{artifact_location, is_boundary, is_range_in, physical_location, region, uri_of};

use json_value::SourceFile;
use lint_report::TextRange;
use percent_encoding::{AsciiSet, CONTROLS, ascii_set, utf8_percent_encode};
use serde_json::{Value, json};
use std::alloc::{AllocError, Global};

// The bytes of ASCII that are neither unreserved in a URI nor a slash.
const ESCAPED: AsciiSet = ascii_set!(
    CONTROLS
        .add(b' ')
        .add(b'!')
        .add(b'"')
        .add(b'#')
        .add(b'$')
        .add(b'%')
        .add(b'&')
        .add(b'\'')
        .add(b'(')
        .add(b')')
        .add(b'*')
        .add(b'+')
        .add(b',')
        .add(b':')
        .add(b';')
        .add(b'<')
        .add(b'=')
        .add(b'>')
        .add(b'?')
        .add(b'@')
        .add(b'[')
        .add(b'\\')
        .add(b']')
        .add(b'^')
        .add(b'`')
        .add(b'{')
        .add(b'|')
        .add(b'}')
);

// A name as the path of a URI reference.
fn uri_of(alloc: Global, name: &str) -> Result<String, AllocError>
    ensures { IfOk result (λ uri. string_bytes uri ≡ uri_of name.now) }
{
    let mut uri = String::new(alloc);
    utf8_percent_encode(name, ESCAPED).append_to(&mut uri)?;
    Ok(uri)
}

/// Where a file is.
pub(crate) fn artifact_location(alloc: Global, name: &str) -> Result<Value, AllocError>
    ensures { IfOk result (λ value. view value ≡ artifact_location name.now) }
{
    let uri = uri_of(alloc, name)?;
    json!(in alloc; {"uri": (uri.as_str())})
}

/// A part of a text.
pub(crate) fn region(
    alloc: Global,
    file: &SourceFile<'_>,
    range: TextRange,
) -> Result<Value, AllocError>
    requires { IsRangeIn file.now.text range }
    ensures { IfOk result (λ value. view value ≡ region file.now.text range) }
{
    let first = file.place(range.start());
    let last = file.place(range.end());
    json!(in alloc; {
        "byteLength": (range.len().raw()),
        "byteOffset": (range.start().raw()),
        "endColumn": (last.column as u64),
        "endLine": (last.line as u64),
        "startColumn": (first.column as u64),
        "startLine": (first.line as u64)
    })
}

/// A part of a file.
pub(crate) fn physical_location(
    alloc: Global,
    file: &SourceFile<'_>,
    range: TextRange,
) -> Result<Value, AllocError>
    requires { IsRangeIn file.now.text range }
    ensures { IfOk result (λ value. view value ≡ physical_location file.now range) }
{
    let artifact = artifact_location(alloc, file.name())?;
    let part = region(alloc, file, range)?;
    json!(in alloc; {"artifactLocation": artifact, "region": part})
}

// Whether a place is between two characters of a text, or at an end of it.
#[tactic(auto, unfolding(crate::specs::Places::is_boundary))]
fn is_boundary(text: &str, at: usize) -> bool
    ensures value { result ≡ is_boundary text.now at }
    ensures boundary { IsTrue result → IsCharBoundary text.now at }
{
    let bytes = text.as_bytes();
    if at > bytes.len() {
        return false;
    }
    if at == bytes.len() {
        return true;
    }
    bytes[at] < 128 || bytes[at] >= 192
}

/// Whether a range begins and ends between two characters of a text.
#[tactic(auto, unfolding(crate::specs::Places::is_range_in))]
pub(crate) fn is_range_in(text: &str, range: TextRange) -> bool
    ensures value { result ≡ is_range_in text.now range }
    ensures range { IsTrue result → IsRangeIn text.now range }
{
    is_boundary(text, range.start().raw() as usize) && is_boundary(text, range.end().raw() as usize)
}
