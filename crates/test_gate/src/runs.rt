//! Runs of the gate over memory.

use migration_gate::{GateStatus, MemSink, MemSource, Words, gate_run};
use std::alloc::Global;
use std::test::Fail;

/// What a run is made over: how many bytes a read gives at most, which reads fail, and how many bytes the sink and the error sink hold at
/// most.
#[derive(Clone, Copy)]
pub(crate) struct Devices<'a> {
    pub(crate) step: usize,
    pub(crate) fails: &'a [u32],
    pub(crate) room: usize,
    pub(crate) error_room: usize,
}

/// Devices of which none fails.
pub(crate) const SOUND: Devices<'static> = Devices {
    step: 100,
    fails: &[],
    room: 1000,
    error_room: 100,
};

/// What is left of a run: its status, whether each sink holds what is wanted or its beginning, and how many bytes the first one holds.
#[derive(Clone, Copy)]
pub(crate) struct Outcome {
    pub(crate) status: GateStatus,
    pub(crate) is_whole: bool,
    pub(crate) is_part: bool,
    pub(crate) length: usize,
}

/// A run without words. It is the only call of `gate_run` here, since each of them is proved.
pub(crate) fn ran(
    alloc: Global,
    bundle: &[u8],
    on: Devices<'_>,
    out_wanted: &str,
    err_wanted: &str,
) -> Result<Outcome, Fail> {
    if on.step == 0 {
        return Err(Fail::from("a source without a step"));
    }
    let words = Words::new(alloc);
    let mut src = MemSource::new(alloc, bundle, on.step, on.fails)?;
    let mut out = MemSink::new(alloc, on.room, &[])?;
    let mut err = MemSink::new(alloc, on.error_room, &[])?;
    let status = gate_run(alloc, &words, &mut src, &mut out, &mut err);
    let (out, err) = (out.bytes(), err.bytes());
    Ok(Outcome {
        status,
        is_whole: out == out_wanted.as_bytes() && err == err_wanted.as_bytes(),
        is_part: out_wanted.as_bytes().starts_with(out) && err_wanted.as_bytes().starts_with(err),
        length: out.len(),
    })
}
