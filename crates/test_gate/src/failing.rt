//! Runs in which each read fails in turn, and sinks of every size that is too small.

use crate::runs::{Devices, SOUND, ran};
use migration_gate::GateStatus;
use std::test::Fail;

/// A bundle of 38 bytes.
const BUNDLE: &[u8] = b"file 9 a\nselect 1;\nfile 9 b\nselect 2;\n";

const PRINTED: &str = "ok a\nok b\naccepted: 2\n";

const READ_FAILED: &str = "error: read failed\n";

const WRITE_FAILED: &str = "error: write failed\n";

// Byte by byte there are 39 reads, of which the last one meets the end. The one after them is never made.
#[test]
fn each_read_fails(rt: HostRuntime) -> Result<(), Fail> {
    for call in 0..40u32 {
        let on = Devices {
            step: 1,
            fails: &[call],
            ..SOUND
        };
        let (status, out, err) = if call < 39 {
            (GateStatus::ReadFault, "", READ_FAILED)
        } else {
            (GateStatus::Accepted, PRINTED, "")
        };
        let left = ran(rt.alloc(), BUNDLE, on, out, err)?;
        assert!(rt; left.is_whole && left.status == status, "at {call}");
    }
    Ok(())
}

#[test]
fn each_size_of_the_sink(rt: HostRuntime) -> Result<(), Fail> {
    for size in 0..PRINTED.len() {
        let on = Devices {
            room: size,
            ..SOUND
        };
        let left = ran(rt.alloc(), BUNDLE, on, PRINTED, WRITE_FAILED)?;
        assert!(rt;
            left.is_part && left.length <= size && left.status == GateStatus::WriteFault,
            "at {size}"
        );
    }
    Ok(())
}

#[test]
fn each_size_of_the_error_sink(rt: HostRuntime) -> Result<(), Fail> {
    for size in 0..READ_FAILED.len() {
        let on = Devices {
            fails: &[0],
            error_room: size,
            ..SOUND
        };
        let left = ran(rt.alloc(), BUNDLE, on, "", READ_FAILED)?;
        assert!(rt;
            left.is_part && left.status == GateStatus::ReadFault,
            "at {size}"
        );
    }
    Ok(())
}
