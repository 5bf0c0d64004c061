//! Reading a source to its end, and writing a whole piece to a sink.
ghost use Rattle.std.specs.Prelude.{◌≡◌, ◌++◌, ◌<◌, ◌≤◌, ◌^◌, [], length, vec_len, OnOk, IfOk, IfErr};
ghost use Rattle.std.specs.Io.KnownBytes.{Consumes, Appends, IsAtEnd};
ghost use Rattle.devices.specs.Faults.{HasCause};
ghost use Rattle.devices.specs.Parts.{AppendsPart};
ghost use Rattle.devices.specs.Reading.{StopFits};

use crate::stream::{Failed, Sink, Source};
use std::alloc::Global;
use text_pos::NoMemory;

/// How many bytes a read asks for.
const CHUNK: usize = 65536;

/// Why a source was not read to its end.
#[derive(Clone, Copy, Debug, PartialEq, Eq)]
pub enum ReadError {
    /// 2^32 bytes or more were read. No further read is made.
    TooLong,
    /// A read failed.
    Fault,
    /// Memory ran out.
    NoMemory,
}

/// Adds a piece at the end, and where memory is short of it takes a quarter more than there is, so that adding many
/// pieces copies each byte a few times only and little memory is left unused.
fn append(input: &mut Vec<u8>, piece: &[u8]) -> Result<(), NoMemory>
    ensures { OnOk result (input.new.items ≡ input.old.items ++ piece.now) }
{
    let more = (input.len() / 4).max(piece.len());
    if input.capacity() - input.len() < piece.len() && input.reserve_exact(more).is_err() {
        input.reserve_exact(piece.len())?;
    }
    input.extend_from_slice(piece)?;
    Ok(())
}

/// As many zero bytes as asked for.
fn zeros(alloc: Global, count: usize) -> Result<Vec<u8>, NoMemory>
    ensures { IfOk result (λ v. vec_len v ≡ count) }
{
    Ok(vec![in alloc; 0u8; count]?)
}

/// Reads to the end of the source through `chunk`, and adds all that comes to `input`.
fn read_through<S: Source>(
    source: &mut S,
    chunk: &mut [u8],
    input: &mut Vec<u8>,
) -> Result<(), ReadError>
    requires chunk { 0 < length chunk.old }
    requires input { input.old.items ≡ [] }
    ensures taken { OnOk result (Consumes (S.left source.old) (S.left source.new) input.new.items) }
    ensures ended { OnOk result (IsAtEnd (S.left source.new)) }
    ensures short { OnOk result (length input.new.items < 2 ^ 32) }
    ensures later { S.faults source.old ≤ S.faults source.new }
    ensures stopped { IfErr result (λ e. StopFits e (S.left source.old) (S.left source.new)
        (S.faults source.old) (S.faults source.new)) }
{
    'reading: for _turn in 0..4294967296u64 {
        match source.read(chunk) {
            Err(_) => return Err(ReadError::Fault),
            Ok(0) => return Ok(()),
            Ok(count) => {
                if append(input, &chunk[..count]).is_err() {
                    return Err(ReadError::NoMemory);
                }
            }
        }
        if input.len() >= 4294967296 {
            return Err(ReadError::TooLong);
        }
    }
    Err(ReadError::TooLong)
}

/// Reads to the end of the source, and stops once 2^32 bytes were read. Each turn takes at least one byte, so there are
/// at most 2^32 turns and a last one that meets the end.
pub fn read_to_end<S: Source>(alloc: Global, source: &mut S) -> Result<Vec<u8>, ReadError>
    ensures taken { IfOk result (λ input. Consumes (S.left source.old) (S.left source.new) input.items) }
    ensures ended { OnOk result (IsAtEnd (S.left source.new)) }
    ensures short { IfOk result (λ input. length input.items < 2 ^ 32) }
    ensures later { S.faults source.old ≤ S.faults source.new }
    ensures stopped { IfErr result (λ e. StopFits e (S.left source.old) (S.left source.new)
        (S.faults source.old) (S.faults source.new)) }
{
    let mut input = Vec::new(alloc);
    match zeros(alloc, CHUNK) {
        Ok(mut chunk) => match read_through(source, &mut chunk, &mut input) {
            Ok(()) => Ok(input),
            Err(stopped) => Err(stopped),
        },
        Err(NoMemory) => Err(ReadError::NoMemory),
    }
}

/// Writes all of `bytes`, in as many writes as the sink makes of it. After a failure the sink holds a prefix of them.
pub fn write_all<K: Sink>(sink: &mut K, bytes: &[u8]) -> Result<(), Failed>
    ensures whole { OnOk result (Appends (K.held sink.old) (K.held sink.new) bytes.now) }
    ensures part { AppendsPart (K.held sink.old) (K.held sink.new) bytes.now }
    ensures cause { HasCause (K.faults sink.old) (K.faults sink.new) result }
{
    let mut at = 0;
    'writing: while at < bytes.len() {
        match sink.write(&bytes[at..]) {
            Ok(count) => at += count,
            Err(_) => return Err(Failed),
        }
    }
    Ok(())
}
