//! Runs of the command over sources and sinks that fail.

use crate::held::Held;
use squawk_cli::{MemSink, MemSource, Source, Status, Words, run};
use std::alloc::Global;
use std::test::Fail;

/// What a run is made over: how many bytes a read gives at most and which reads fail; and of the sink and of the error sink
/// how many bytes it holds at most and which writes fail.
#[derive(Clone, Copy)]
pub(crate) struct Devices<'a> {
    pub(crate) step: usize,
    pub(crate) read_fails: &'a [u32],
    pub(crate) room: usize,
    pub(crate) write_fails: &'a [u32],
    pub(crate) error_room: usize,
    pub(crate) error_fails: &'a [u32],
}

/// Devices of which none fails.
pub(crate) const SOUND: Devices<'static> = Devices {
    step: 100,
    read_fails: &[],
    room: 1000,
    write_fails: &[],
    error_room: 100,
    error_fails: &[],
};

/// The texts that are wanted of both sinks.
#[derive(Clone, Copy)]
pub(crate) struct Wanted<'a> {
    pub(crate) out: &'a str,
    pub(crate) err: &'a str,
}

/// What is left of a run: its status, what both sinks hold, and what two more reads give.
#[derive(Clone, Copy)]
pub(crate) struct Outcome {
    pub(crate) status: Status,
    pub(crate) out: Held,
    pub(crate) err: Held,
    pub(crate) reads: [Option<usize>; 2],
}

impl Outcome {
    /// Whether the status is this one, and both sinks hold what is wanted.
    pub(crate) fn is(&self, status: Status) -> bool {
        self.status == status && self.out.is_whole && self.err.is_whole
    }
}

fn words_of(alloc: Global, list: &[&str]) -> Result<Words, Fail> {
    let mut words = Words::new(alloc);
    for word in list {
        words.push(word)?;
    }
    Ok(words)
}

/// A run. It is the only call of `run` here, since each of them is proved.
pub(crate) fn ran(
    alloc: Global,
    words: &[&str],
    text: &[u8],
    on: Devices<'_>,
    want: Wanted<'_>,
) -> Result<Outcome, Fail> {
    if on.step == 0 {
        return Err(Fail::from("a source without a step"));
    }
    let words = words_of(alloc, words)?;
    let mut src = MemSource::new(alloc, text, on.step, on.read_fails)?;
    let mut out = MemSink::new(alloc, on.room, on.write_fails)?;
    let mut err = MemSink::new(alloc, on.error_room, on.error_fails)?;
    let status = run(alloc, &words, &mut src, &mut out, &mut err);
    let mut buf = [0u8; 10];
    Ok(Outcome {
        status,
        out: Held::by(&out, want.out),
        err: Held::by(&err, want.err),
        reads: [src.read(&mut buf).ok(), src.read(&mut buf).ok()],
    })
}
