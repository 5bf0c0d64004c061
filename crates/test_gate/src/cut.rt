//! A bundle that is cut at each byte.

use crate::runs::{SOUND, ran};
use migration_gate::GateStatus;
use std::test::Fail;

/// Three files: the second has an empty text, and the name of the third has characters of two, three and four bytes.
const BUNDLE: &str = "file 9 a.sql\nselect 1;\nfile 0 b\n\nfile 7 é€😀.sql\nCLOSE;\n\n";

/// Where so many entries end, what is printed of them, and the line for more bytes than these and fewer than of the next entry.
const ENDS: [(u32, &str, &str); 4] = [
    (0, "accepted: 0\n", "error: bundle at 0\n"),
    (23, "ok a.sql\naccepted: 1\n", "error: bundle at 23\n"),
    (33, "ok a.sql\nok b\naccepted: 2\n", "error: bundle at 33\n"),
    (62, "ok a.sql\nok b\nok é€😀.sql\naccepted: 3\n", ""),
];

/// Places inside of a character.
const INSIDE: [usize; 6] = [41, 43, 44, 46, 47, 48];

/// What is wanted of the bundle's first bytes, so many of them: the status, and what both sinks hold.
fn wanted(length: usize) -> (GateStatus, &'static str, &'static str) {
    if INSIDE.contains(&length) {
        return (GateStatus::NotUtf8, "", "error: input is not UTF-8\n");
    }
    let mut found = (GateStatus::NoMemory, "", "");
    for (end, printed, line) in &ENDS {
        if length == *end as usize {
            found = (GateStatus::Accepted, *printed, "");
        } else if length > *end as usize {
            found = (GateStatus::BadBundle { at: *end }, "", *line);
        }
    }
    found
}

#[test]
fn cut_at_each_byte(rt: HostRuntime) -> Result<(), Fail> {
    let bundle = BUNDLE.as_bytes();
    for length in 0..bundle.len() + 1 {
        let (status, out, err) = wanted(length);
        let left = ran(rt.alloc(), &bundle[..length], SOUND, out, err)?;
        assert!(rt; left.is_whole && left.status == status, "at {length}");
    }
    Ok(())
}
