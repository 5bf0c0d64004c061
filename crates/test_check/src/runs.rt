//! A run of the command over memory.

use check_command::run;
use check_progress::{MemFiles, MemSink, MemSource, Meter, Words};
use std::alloc::Global;
use std::process::Abort;
use std::test::Fail;

/// What a run is made over: the files, and the numbers of the calls for them that fail; how many bytes a read of the input gives at most,
/// and which reads fail; how many bytes both sinks hold at most.
#[derive(Clone, Copy)]
pub(crate) struct Devices<'a> {
    pub(crate) files: &'a [(&'a str, &'a [u8])],
    pub(crate) file_fails: &'a [u32],
    pub(crate) step: usize,
    pub(crate) read_fails: &'a [u32],
    pub(crate) room: usize,
    pub(crate) error_room: usize,
}

/// Devices of which none fails.
pub(crate) const SOUND: Devices<'static> = Devices {
    files: &[],
    file_fails: &[],
    step: 100,
    read_fails: &[],
    room: 1000,
    error_room: 100,
};

/// What is wanted of a run: its status, and what both sinks hold.
#[derive(Clone, Copy)]
pub(crate) struct Wanted<'a> {
    pub(crate) status: u8,
    pub(crate) out: &'a [u8],
    pub(crate) err: &'a [u8],
}

fn words_of(alloc: Global, list: &[&str]) -> Result<Words, Fail> {
    let mut words = Words::new(alloc);
    for word in list {
        words.push(word)?;
    }
    Ok(words)
}

fn holds(sink: &MemSink, want: &[u8]) -> bool {
    sink.bytes() == want
}

/// Makes a run, and asserts that it ends as is wanted. It is the only call of `run` here, since each of them is proved.
pub(crate) fn run_is(
    rt: &impl Abort,
    alloc: Global,
    words: &[&str],
    input: &[u8],
    on: Devices<'_>,
    want: Wanted<'_>,
) -> Result<(), Fail> {
    if on.step == 0 {
        return Err(Fail::from("a source without a step"));
    }
    let words = words_of(alloc, words)?;
    let mut files = MemFiles::new(on.files, &[], on.file_fails);
    let mut src = MemSource::new(alloc, input, on.step, on.read_fails)?;
    let mut out = MemSink::new(alloc, on.room, &[])?;
    let mut err = MemSink::new(alloc, on.error_room, &[])?;
    let mut progress = Meter::new(alloc, MemSink::new(alloc, 0, &[])?, false);
    let code = match run(
        alloc,
        &words,
        false,
        &mut files,
        &mut src,
        &mut out,
        &mut err,
        &mut progress,
    ) {
        Ok(status) => status.code(),
        Err(stop) => stop.code(),
    };
    let is_wanted = code == want.status && holds(&out, want.out) && holds(&err, want.err);
    assert!(rt; is_wanted, "where {} bytes are wanted", want.out.len());
    Ok(())
}
