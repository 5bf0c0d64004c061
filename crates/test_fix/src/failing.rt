//! Runs over devices of which one fails.

use crate::runs::{Devices, SOUND, Wanted, run_is};
use squawk_fix::Status;
use std::test::Fail;

const TEXT: &[u8] = b"DROP INDEX i;";

const WORDS: &[&str] = &["--only", "require-concurrent-index-deletion"];

const FIXED: &[u8] = b"DROP INDEX concurrently i;";

const SAID: &[u8] = b"fixed: 1\n";

// Byte by byte there are fourteen reads, of which the last one meets the end.
#[test]
fn each_read_fails(rt: HostRuntime) -> Result<(), Fail> {
    for call in 0..14u32 {
        let on = Devices {
            step: 1,
            read_fails: &[call],
            ..SOUND
        };
        let want = Wanted {
            status: Status::ReadFault,
            out: b"",
            err: b"error: read failed\n",
        };
        run_is(&rt, rt.alloc(), WORDS, TEXT, on, want)?;
    }
    Ok(())
}

#[test]
fn each_size_of_the_sink(rt: HostRuntime) -> Result<(), Fail> {
    for room in 0..FIXED.len() {
        let on = Devices { room, ..SOUND };
        let want = Wanted {
            status: Status::WriteFault,
            out: &FIXED[..room],
            err: b"error: write failed\n",
        };
        run_is(&rt, rt.alloc(), WORDS, TEXT, on, want)?;
    }
    Ok(())
}

// A failure there changes no status.
#[test]
fn each_size_of_the_error_sink(rt: HostRuntime) -> Result<(), Fail> {
    for error_room in 0..SAID.len() {
        let on = Devices {
            error_room,
            ..SOUND
        };
        let want = Wanted {
            status: Status::Clean,
            out: FIXED,
            err: &SAID[..error_room],
        };
        run_is(&rt, rt.alloc(), WORDS, TEXT, on, want)?;
    }
    Ok(())
}
