//! Runs over devices of which one fails.

use crate::runs::{Devices, SOUND, Wanted, run_is};
use std::test::Fail;

const TEXT: &[u8] = b"DROP VIEW v;";

const WORDS: &[&str] = &["check", "--only", "ban-drop-view", "--format", "concise"];

const FOUND: &[u8] =
    b"stdin:1:1: warning[ban-drop-view]: dropping a view may break existing clients\n";

const UNREAD: &[u8] = b"stdin:1:1: error[unreadable-file]: the file can't be read\n";

// Byte by byte there are thirteen reads, of which the last one meets the end. The one after them is never made.
#[test]
fn each_read_fails(rt: HostRuntime) -> Result<(), Fail> {
    for call in 0..14u32 {
        let on = Devices {
            step: 1,
            read_fails: &[call],
            ..SOUND
        };
        let (status, out) = if call < 13 { (5, UNREAD) } else { (1, FOUND) };
        let want = Wanted {
            status,
            out,
            err: b"",
        };
        run_is(&rt, rt.alloc(), WORDS, TEXT, on, want)?;
    }
    Ok(())
}

#[test]
fn each_size_of_the_sink(rt: HostRuntime) -> Result<(), Fail> {
    for room in 0..FOUND.len() {
        let on = Devices { room, ..SOUND };
        let want = Wanted {
            status: 6,
            out: &FOUND[..room],
            err: b"error: write failed\n",
        };
        run_is(&rt, rt.alloc(), WORDS, TEXT, on, want)?;
    }
    Ok(())
}
