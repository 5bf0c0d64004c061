//! Findings in GitLab's Code Quality report format: an array of objects, of which each finding is one.
//!
//! `specs/Issues.antt` says which object each is; `serde_json` says what text an object has.
#![tactic(auto)]

mod issues;
mod text;

pub use issues::report_fingerprint;
pub use text::{push_refusal, push_report};
