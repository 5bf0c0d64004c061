//! Talks over devices of which one fails.

use crate::talk::{Devices, SOUND, TALK, input, output, serves};
use lsp_serve::End;
use std::test::Fail;

const IN_ORDER: End = End::Exited { in_order: true };

// The talk of 353 bytes is read in 45 pieces of eight. What came whole before the failure is answered, and nothing is read after the exit.
#[test]
fn each_read_fails(rt: HostRuntime) -> Result<(), Fail> {
    let talk = input(rt.alloc())?;
    for call in 0..46u32 {
        let on = Devices {
            step: 8,
            read_fails: &[call],
            ..SOUND
        };
        let said = output(rt.alloc(), call as usize * 8)?;
        let end = if call < 45 { End::ReadFault } else { IN_ORDER };
        serves(&rt, rt.alloc(), talk.as_bytes(), on, end, said.as_bytes())?;
    }
    Ok(())
}

// The sink holds fewer bytes than the 453 of all replies.
#[test]
fn sizes_of_the_sink(rt: HostRuntime) -> Result<(), Fail> {
    let talk = input(rt.alloc())?;
    let said = output(rt.alloc(), talk.len())?;
    let bytes = said.as_bytes();
    for part in 0..20usize {
        let room = bytes.len().min(part * 23);
        let on = Devices { room, ..SOUND };
        serves(
            &rt,
            rt.alloc(),
            talk.as_bytes(),
            on,
            End::WriteFault,
            &bytes[..room],
        )?;
    }
    Ok(())
}

// Each reply is one write.
#[test]
fn each_write_fails(rt: HostRuntime) -> Result<(), Fail> {
    let talk = input(rt.alloc())?;
    let mut said = String::new(rt.alloc());
    let mut call: u32 = 0;
    for (_, reply) in TALK {
        if !reply.is_empty() {
            let on = Devices {
                write_fails: &[call],
                ..SOUND
            };
            serves(
                &rt,
                rt.alloc(),
                talk.as_bytes(),
                on,
                End::WriteFault,
                said.as_bytes(),
            )?;
            said.push_str(reply)?;
            call = call.saturating_add(1);
        }
    }
    Ok(())
}
