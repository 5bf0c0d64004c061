//! What the server says.
use crate::Report;
use crate::message::Id;
use lint_report::Text;
use text_utf16::Pos;

/// What the server says to a message.
#[derive(Drop)]
pub enum Reply {
    /// The answer to a request.
    Answer {
        id: Id,
        answer: Answer,
    },
    /// A document has these reports now, and no others. The version is that of the text that has them; none of a document that
    /// was closed.
    Reports {
        uri: Text,
        version: Option<i64>,
        reports: Vec<Report>,
    },
}

/// The answer to a request.
#[derive(Drop)]
pub enum Answer {
    /// What the server can do.
    Capabilities,
    /// It was done.
    Done,
    /// The remedies of those reports of a document that lie in this part of it.
    Remedies {
        uri: Text,
        reports: Vec<Report>,
        start: Pos,
        end: Pos,
    },
    /// What is to be known of those reports that lie at this place.
    Explanation {
        reports: Vec<Report>,
        at: Pos,
    },
    /// The request is refused.
    Refused(Refusal),
    /// The request was well formed, and failed. This says why.
    Failed {
        why: Text,
    },
}

/// Why a request is refused.
#[derive(Clone, Copy, Debug, PartialEq, Eq)]
pub enum Refusal {
    /// The text is no JSON.
    NotJson,
    /// The JSON is no message, or the message may not come now.
    BadRequest,
    /// The server knows no such method.
    NoMethod,
    /// The parameters of the method can't be read.
    BadParams,
    /// The server was not initialized.
    NotInitialized,
}
