//! Messages that come, as far as the server looks at them.
use crate::reply::Refusal;
use lint_report::Text;
use text_utf16::Pos;

/// The name by which a client knows a request of its own.
#[derive(Debug, Drop, PartialEq, Eq)]
pub enum Id {
    /// The request has no name that could be read.
    Null,
    /// A number.
    Number(i64),
    /// A text.
    Text(Text),
}

/// A message that comes.
#[derive(Drop)]
pub enum Message {
    /// A request, which is answered once.
    Request { id: Id, call: Call },
    /// A notification, which is not answered.
    Notice(Notice),
    /// An answer to the server, which asks for nothing.
    Response,
    /// What is no message. It is refused once, under no name.
    Unreadable(Refusal),
}

/// What a request asks for.
#[derive(Drop)]
pub enum Call {
    /// To begin, in the workspace whose root is this path, if the client names one.
    Initialize { root: Option<Text> },
    /// To begin, where what is to be shown can't be settled: this line says why. No client asks for it: a session takes an
    /// [`Call::Initialize`] for it.
    ConfigRefused { line: Text },
    /// To end soon.
    Shutdown,
    /// The remedies of a part of a document.
    Actions { uri: Text, start: Pos, end: Pos },
    /// What is to be known of a place of a document.
    Hover { uri: Text, at: Pos },
    /// Something that the server knows, with parameters that can't be read.
    Misread,
    /// Something that the server does not know.
    Unknown,
}

/// What a notification tells.
#[derive(Drop)]
pub enum Notice {
    /// The server is to end.
    Exit,
    /// A document was opened.
    Opened { uri: Text, document: Document },
    /// A document was changed to this, if it is open.
    Changed { uri: Text, document: Document },
    /// A document was closed.
    Closed { uri: Text },
    /// Something that changes nothing here.
    Other,
}

/// What an open document is.
#[derive(Drop)]
pub struct Document {
    /// The client's number of this state of the document, if it gave one.
    pub version: Option<i64>,
    /// The whole text.
    pub text: Text,
}
