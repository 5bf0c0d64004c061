//! How far a run is.

use check_progress::{MemSink, Meter, Progress};
use std::alloc::Global;
use std::process::Abort;
use std::test::Fail;

// Asserts what is shown of a run over so many files.
fn shows(rt: &impl Abort, alloc: Global, all: usize, shown: bool, want: &[u8]) -> Result<(), Fail> {
    let mut meter = Meter::new(alloc, MemSink::new(alloc, 1000, &[])?, shown);
    for done in 0..all {
        meter.show(done, all);
    }
    meter.end();
    let is_wanted = meter.sink().bytes() == want;
    assert!(rt; is_wanted, "of {all} files");
    Ok(())
}

#[test]
fn a_meter_shows_each_tenth_file_of_many(rt: HostRuntime) -> Result<(), Fail> {
    let alloc = rt.alloc();
    shows(&rt, alloc, 100, true, b"")?;
    shows(&rt, alloc, 101, false, b"")?;
    let want =
        b"\r0 of 101 files\r10 of 101 files\r20 of 101 files\r30 of 101 files\r40 of 101 files\r50 of 101 files\
        \r60 of 101 files\r70 of 101 files\r80 of 101 files\r90 of 101 files\r100 of 101 files\r\x1b[K";
    shows(&rt, alloc, 101, true, want)
}
