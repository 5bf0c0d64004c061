//! Sources and sinks: steps, calls that fail, a full sink, and the loops over them.

ghost use Rattle.std.specs.Prelude.{◌≤◌};

use crate::shown::{is_shown, is_text};
use case_format::TextBuilder;
use squawk_cli::{
    MemSink, MemSource, Sink, SliceSource, Source, StdSink, StdSource, read_to_end, write_all,
};
use std::alloc::Global;
use std::collections::VecDeque;
use std::test::Fail;

/// Reads of five bytes from a source over `abcdef`: how many bytes a call gives at most, which calls fail, how many are
/// made, and what each gives with a comma after it; `!` where it fails.
const READS: &[(usize, &[u32], usize, &str)] = &[
    (4, &[], 4, "abcd,ef,,,"),
    (4, &[1], 4, "abcd,!,ef,,"),
    (1, &[0, 1, 3], 6, "!,!,a,!,b,c,"),
    (100, &[2], 4, "abcde,f,!,,"),
];

/// Writes to a sink: how many bytes it holds at most, which calls fail, the pieces, how many bytes of each are taken, and
/// what is held in the end.
const WRITES: &[(usize, &[u32], &[&str], &str, &str)] = &[
    (5, &[1], &["abc", "", "def", "", "f"], "3,!,2,0,!,", "abcde"),
    (0, &[], &["", "a"], "0,!,", ""),
    (3, &[0], &["ab", "ab", "ab"], "!,2,1,", "aba"),
    (100, &[], &["ab", "c"], "2,1,", "abc"),
];

/// Reading `abcdef` to its end: how many bytes a call gives at most, which calls fail, and what comes of it.
const ENDS: &[(usize, &[u32], &str)] = &[
    (1, &[], "abcdef"),
    (4, &[], "abcdef"),
    (4, &[3], "abcdef"),
    (4, &[2], "Fault"),
    (4, &[0], "Fault"),
    (1, &[6], "Fault"),
    (1, &[7], "abcdef"),
];

/// Writing all of `abcdef`: how many bytes the sink holds at most, which calls fail, whether all was written, and what is
/// held.
const WHOLE: &[(usize, &[u32], bool, &str)] = &[
    (6, &[], true, "abcdef"),
    (100, &[], true, "abcdef"),
    (5, &[], false, "abcde"),
    (0, &[], false, ""),
    (100, &[0], false, ""),
    (100, &[1], true, "abcdef"),
];

const TEXT: &[u8] = b"abcdef";

// What so many reads give, in the form of the rows.
fn given<S: Source>(alloc: Global, source: &mut S, calls: usize) -> TextBuilder {
    let mut out = TextBuilder::new(alloc);
    for _ in 0..calls {
        let mut buf = [0u8; 5];
        match source.read(&mut buf) {
            Ok(count) => out.add(str::from_utf8(&buf[..count]).unwrap_or("?")),
            Err(_) => out.add("!"),
        }
        out.add(",");
    }
    out
}

// How many bytes of each piece are taken, in the form of the rows.
fn taken<K: Sink>(alloc: Global, sink: &mut K, pieces: &[&str]) -> TextBuilder {
    let mut out = TextBuilder::new(alloc);
    for piece in pieces {
        match sink.write(piece.as_bytes()) {
            Ok(count) => out.display("", &count),
            Err(_) => out.add("!"),
        }
        out.add(",");
    }
    out
}

// What comes of reading to the end.
fn end_of(alloc: Global, step: usize, fails: &[u32]) -> Result<String, Fail>
    requires { 1 ≤ step }
{
    let mut source = MemSource::new(alloc, TEXT, step, fails)?;
    match read_to_end(alloc, &mut source) {
        Ok(bytes) => Ok(String::from_str(alloc, str::from_utf8(bytes.as_slice())?)?),
        Err(stopped) => Ok(format!(in alloc; "{stopped:?}")?),
    }
}

#[test]
fn reads(rt: HostRuntime) -> Result<(), Fail> {
    for row in READS {
        assert!(rt; row.0 >= 1);
        let mut source = MemSource::new(rt.alloc(), TEXT, row.0, row.1)?;
        let shown = given(rt.alloc(), &mut source, row.2);
        is_shown(&rt, &shown, "reads", row.3);
    }
    Ok(())
}

#[test]
fn reads_of_a_slice(rt: HostRuntime) {
    let mut slice = SliceSource::new(TEXT);
    let shown = given(rt.alloc(), &mut slice, 4);
    is_shown(&rt, &shown, "a slice", "abcde,f,,,");
}

#[test]
fn writes(rt: HostRuntime) -> Result<(), Fail> {
    for row in WRITES {
        let mut sink = MemSink::new(rt.alloc(), row.0, row.1)?;
        let shown = taken(rt.alloc(), &mut sink, row.2);
        is_shown(&rt, &shown, row.4, row.3);
        assert_eq!(rt; sink.bytes(), row.4.as_bytes());
    }
    Ok(())
}

#[test]
fn to_the_end(rt: HostRuntime) -> Result<(), Fail> {
    for row in ENDS {
        assert!(rt; row.0 >= 1);
        let end = end_of(rt.alloc(), row.0, row.1)?;
        is_text(&rt, "the end", end.as_str(), row.2);
    }
    Ok(())
}

#[test]
fn all_is_written(rt: HostRuntime) -> Result<(), Fail> {
    for row in WHOLE {
        let mut sink = MemSink::new(rt.alloc(), row.0, row.1)?;
        assert_eq!(rt; write_all(&mut sink, TEXT).is_ok(), row.2);
        assert_eq!(rt; sink.bytes(), row.3.as_bytes());
    }
    Ok(())
}

// A queue of std, written as a sink and read as a source.
#[test]
fn readers_and_writers_of_std(rt: HostRuntime) {
    let mut queue: VecDeque<u8> = VecDeque::new(rt.alloc());
    let mut sink = StdSink::new(&mut queue);
    assert!(rt; write_all(&mut sink, TEXT).is_ok());
    let mut source = StdSource::new(&mut queue);
    let shown = given(rt.alloc(), &mut source, 3);
    is_shown(&rt, &shown, "a queue", "abcde,f,,");
}
