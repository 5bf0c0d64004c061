//! What a server says, as JSON text.
//!
//! `specs/Reply.antt` says which JSON a reply is, by the Language Server Protocol 3.17. It is written without spaces.
#![tactic(auto)]

mod action;
mod diagnostic;
mod fence;
mod hover;
mod place;
mod reply;
mod response;

pub use reply::write_reply;
