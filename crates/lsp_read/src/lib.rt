//! The messages that a client sends, read from their JSON.
//!
//! `specs/Message.antt` says which message some bytes are. Members that it does not name are passed over.
#![tactic(auto)]

mod message;
mod method;
mod params;
mod place;
mod root;
mod text;

pub use message::read_message;

// What crates above reach through this one.
pub use lsp_session::{Answer, Checker, Enter, Reply, Report, Session, Stage, Text};
