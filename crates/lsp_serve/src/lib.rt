//! The loop of a language server, over any source, any sink and any checker: it reads a frame, handles the message in it, and writes what is
//! said to it, until the client asks to exit, the input ends or something fails.
//!
//! `specs/Served.antt` says what was read, said and written, and why it ended. A frame is a message with headers, as the base protocol of
//! language servers has them: `Content-Length: N`, further fields, a blank line, and N bytes. `specs/Frame.antt` says what is written for a
//! message and what some bytes begin with.
#![tactic(auto)]

mod end;
mod front;
mod reader;
mod respond;
mod serving;
mod written;

pub use end::End;
pub use front::{Fault, Front, read_front};
pub use reader::{FrameError, Frames};
pub use serving::serve;
pub use written::push_frame;

// What crates above reach through this one.
pub use devices::{MemSink, MemSource, NoMemory};
pub use lsp_read::{Checker, Enter, Report, Text};
