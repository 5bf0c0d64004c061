//! The session.
ghost use Rattle.std.specs.Prelude.{◌≡◌, IfOk, OnOk, List, [], ℕ, None, Some};
ghost use Rattle.lsp_session.specs.declared.message.Message.TheVariants as message;
ghost use Rattle.lsp_session.specs.declared.message.Notice.TheVariants.{Changed, Closed, Opened};
ghost use Rattle.lsp_session.specs.declared.stage.Stage.TheVariants.{Fresh};
ghost use Rattle.lsp_session.specs.Entry.{BeginsAs, IsCallAs, IsTakenAs};
ghost use Rattle.lsp_session.specs.Session.{answered, asked, document_after, document_by, document_of, published, AnswerFits, AreReportsOf, IsPublication, PublishesNow, Says, SaysOf};
ghost use Rattle.lsp_session.specs.Stages.{stage_after};

use crate::entry::Enter;
use crate::stage::{Stage, refusal_at, stage_called, stage_heard};
use crate::{Answer, Call, Checker, Document, Id, Message, Notice, Reply, Report};
use lint_report::{NoMemory, Text};
use std::alloc::Global;
use std::collections::BTreeMap;

/// A session of a language server. Its state is how far it is, and the documents that are open.
#[derive(Drop)]
pub struct Session<C> {
    alloc: Global,
    checker: C,
    stage: Stage,
    documents: BTreeMap<String, Document>,
}

impl<C: Checker> Session<C> {
    /// A session that has not begun.
    pub fn new(alloc: Global, checker: C) -> Session<C>
        ensures checker { result.checker ≡ checker }
        ensures stage { result.stage ≡ Fresh }
        ensures documents { (uri : List ℕ) → document_of uri result ≡ None }
    {
        Session {
            alloc,
            checker,
            stage: Stage::Fresh,
            documents: BTreeMap::new(alloc),
        }
    }

    /// How far the session is.
    pub fn stage(&self) -> Stage
        ensures { result ≡ self.now.stage }
    {
        self.stage
    }

    /// Takes the next message, and gives what is to be said to it. After an error the session is of no more use.
    ///
    /// The requests, the notifications and their order are those of the Language Server Protocol 3.17. A document is checked
    /// when it is opened and when it is changed, and again for each request that asks for its reports.
    pub fn step(&mut self, message: Message) -> Result<Option<Reply>, NoMemory>
        ensures checker { self.new.checker ≡ self.old.checker }
        ensures stage { OnOk result (self.new.stage ≡ stage_after self.old.stage message) }
        ensures documents { OnOk result ((uri : List ℕ) → document_of uri self.new ≡ document_after message self.old.stage uri (document_of uri self.old)) }
        ensures published { IfOk result (λ said. (uri : List ℕ) → PublishesNow (C.shows self.old.checker) (document_of uri self.old) (document_of uri self.new) (published uri said)) }
        ensures answered { IfOk result (λ said. answered said ≡ asked message) }
        ensures silent { IfOk result (λ said. self.old.stage ≡ Fresh → (uri : List ℕ) → published uri said ≡ None) }
        ensures says { IfOk result (λ said. Says (C.shows self.old.checker) self.old.stage (λ uri. document_of uri self.old) message said) }
    {
        match message {
            Message::Request { id, call } => {
                let stage = stage_called(self.stage, &call);
                let answer = self.answer(call)?;
                self.stage = stage;
                Ok(Some(Reply::Answer { id, answer }))
            }
            Message::Notice(notice) => self.handle_notice(notice),
            Message::Response => Ok(None),
            Message::Unreadable(refusal) => Ok(Some(Reply::Answer {
                id: Id::Null,
                answer: Answer::Refused(refusal),
            })),
        }
    }

    /// The answer to a request.
    fn answer(&mut self, call: Call) -> Result<Answer, NoMemory>
        ensures same { self.new ≡ self.old }
        ensures fits { IfOk result (λ answer. AnswerFits (C.shows self.old.checker) self.old.stage (λ uri. document_of uri self.old) call answer) }
    {
        if let Some(refusal) = refusal_at(self.stage, &call) {
            return Ok(Answer::Refused(refusal));
        }
        match call {
            Call::Initialize { root: _root } => Ok(Answer::Capabilities),
            Call::ConfigRefused { line } => Ok(Answer::Failed { why: line }),
            Call::Actions { uri, start, end } => {
                let reports = self.reports_of(uri.as_str())?;
                Ok(Answer::Remedies {
                    uri,
                    reports,
                    start,
                    end,
                })
            }
            Call::Hover { uri, at } => {
                let reports = self.reports_of(uri.as_str())?;
                Ok(Answer::Explanation { reports, at })
            }
            Call::Shutdown | Call::Misread | Call::Unknown => Ok(Answer::Done),
        }
    }

    /// The reports of the text that a document has; none of one that is not open.
    fn reports_of(&mut self, uri: &str) -> Result<Vec<Report>, NoMemory>
        ensures same { self.new ≡ self.old }
        ensures shown { IfOk result (λ found. AreReportsOf (C.shows self.old.checker) (document_of uri.now self.old) found.items) }
    {
        match self.documents.get(uri) {
            Some(document) => self.checker.check(self.alloc, document.text.as_str()),
            None => Ok(Vec::new(self.alloc)),
        }
    }

    /// Takes a notification, and gives what is to be said to it.
    fn handle_notice(&mut self, notice: Notice) -> Result<Option<Reply>, NoMemory>
        ensures checker { self.new.checker ≡ self.old.checker }
        ensures stage { OnOk result (self.new.stage ≡ stage_after self.old.stage (message.Notice notice)) }
        ensures documents { OnOk result ((uri : List ℕ) → document_of uri self.new ≡ document_after (message.Notice notice) self.old.stage uri (document_of uri self.old)) }
        ensures published { IfOk result (λ said. (uri : List ℕ) → PublishesNow (C.shows self.old.checker) (document_of uri self.old) (document_of uri self.new) (published uri said)) }
        ensures quiet { IfOk result (λ said. answered said ≡ []) }
        ensures says { IfOk result (λ said. Says (C.shows self.old.checker) self.old.stage (λ uri. document_of uri self.old) (message.Notice notice) said) }
        ensures silent { IfOk result (λ said. self.old.stage ≡ Fresh → (uri : List ℕ) → published uri said ≡ None) }
    {
        let stage = self.stage;
        self.stage = stage_heard(stage, &notice);
        match stage {
            Stage::Running => self.heed(notice),
            Stage::Fresh | Stage::Down | Stage::Gone { .. } => Ok(None),
        }
    }

    /// Does what a notification says, and gives what is to be said to it.
    fn heed(&mut self, notice: Notice) -> Result<Option<Reply>, NoMemory>
        ensures checker { self.new.checker ≡ self.old.checker }
        ensures stage { self.new.stage ≡ self.old.stage }
        ensures documents { OnOk result ((uri : List ℕ) → document_of uri self.new ≡ document_by notice uri (document_of uri self.old)) }
        ensures published { IfOk result (λ said. (uri : List ℕ) → PublishesNow (C.shows self.old.checker) (document_of uri self.old) (document_of uri self.new) (published uri said)) }
        ensures quiet { IfOk result (λ said. answered said ≡ []) }
        ensures says { IfOk result (λ said. SaysOf (C.shows self.old.checker) (λ uri. document_of uri self.old) notice said) }
    {
        match notice {
            Notice::Opened { uri, document } => self.renew(uri, document),
            Notice::Changed { uri, document } => self.change(uri, document),
            Notice::Closed { uri } => Ok(Some(self.close(uri))),
            Notice::Exit | Notice::Other => Ok(None),
        }
    }

    /// Gives a document a text if it is open, and publishes its reports.
    fn change(&mut self, uri: Text, document: Document) -> Result<Option<Reply>, NoMemory>
        ensures checker { self.new.checker ≡ self.old.checker }
        ensures stage { self.new.stage ≡ self.old.stage }
        ensures documents { OnOk result ((name : List ℕ) → document_of name self.new ≡ document_by (Changed uri document) name (document_of name self.old)) }
        ensures published { IfOk result (λ said. (name : List ℕ) → PublishesNow (C.shows self.old.checker) (document_of name self.old) (document_of name self.new) (published name said)) }
        ensures quiet { IfOk result (λ said. answered said ≡ []) }
        ensures says { IfOk result (λ said. SaysOf (C.shows self.old.checker) (λ name. document_of name self.old) (Changed uri document) said) }
    {
        if self.documents.contains_key(uri.as_str()) {
            self.renew(uri, document)
        } else {
            Ok(None)
        }
    }

    /// Forgets a document, and publishes that it has no reports.
    fn close(&mut self, uri: Text) -> Reply
        ensures checker { self.new.checker ≡ self.old.checker }
        ensures stage { self.new.stage ≡ self.old.stage }
        ensures documents { (name : List ℕ) → document_of name self.new ≡ document_by (Closed uri) name (document_of name self.old) }
        ensures published { (name : List ℕ) → PublishesNow (C.shows self.old.checker) (document_of name self.old) (document_of name self.new) (published name (Some result)) }
        ensures quiet { answered (Some result) ≡ [] }
        ensures says { IsPublication (C.shows self.old.checker) uri None (Some result) }
    {
        let _closed = self.documents.remove(uri.as_str());
        Reply::Reports {
            uri,
            version: None,
            reports: Vec::new(self.alloc),
        }
    }

    /// Gives a document a text, and publishes its reports.
    fn renew(&mut self, uri: Text, document: Document) -> Result<Option<Reply>, NoMemory>
        ensures checker { self.new.checker ≡ self.old.checker }
        ensures stage { self.new.stage ≡ self.old.stage }
        ensures documents { OnOk result ((name : List ℕ) → document_of name self.new ≡ document_by (Opened uri document) name (document_of name self.old)) }
        ensures published { IfOk result (λ said. (name : List ℕ) → PublishesNow (C.shows self.old.checker) (document_of name self.old) (document_of name self.new) (published name said)) }
        ensures quiet { IfOk result (λ said. answered said ≡ []) }
        ensures says { IfOk result (λ said. IsPublication (C.shows self.old.checker) uri (Some document) said) }
    {
        let reports = self.checker.check(self.alloc, document.text.as_str())?;
        let version = document.version;
        let name = String::from_str(self.alloc, uri.as_str())?;
        match self.documents.insert(name, document) {
            Ok(_) => Ok(Some(Reply::Reports {
                uri,
                version,
                reports,
            })),
            Err(_) => Err(NoMemory),
        }
    }
}

impl<C: Enter> Session<C> {
    /// The message as a session takes it. Where it is the `initialize` of a session that has not begun, the checker is entered at the root
    /// that it names; where that is refused, the message is a [`Call::ConfigRefused`] of the same name. Every other message stays as it is.
    /// Call it before [`Session::step`]. After an error the session is of no more use.
    pub fn take(&mut self, message: Message) -> Result<Message, NoMemory>
        ensures stage { self.new.stage ≡ self.old.stage }
        ensures documents { (uri : List ℕ) → document_of uri self.new ≡ document_of uri self.old }
        ensures taken { IfOk result (λ taken. IsTakenAs C.enters C.refuses self.old.stage message taken self.old.checker self.new.checker) }
    {
        match message {
            Message::Request { id, call } => {
                let call = self.entry(call)?;
                Ok(Message::Request { id, call })
            }
            other => Ok(other),
        }
    }

    /// What a request asks for, as a session takes it.
    fn entry(&mut self, call: Call) -> Result<Call, NoMemory>
        ensures stage { self.new.stage ≡ self.old.stage }
        ensures documents { (uri : List ℕ) → document_of uri self.new ≡ document_of uri self.old }
        ensures taken { IfOk result (λ taken. IsCallAs C.enters C.refuses self.old.stage call taken self.old.checker self.new.checker) }
    {
        match self.stage {
            Stage::Fresh => self.begin(call),
            Stage::Running | Stage::Down | Stage::Gone { .. } => Ok(call),
        }
    }

    /// What the first request asks for, as a session takes it.
    fn begin(&mut self, call: Call) -> Result<Call, NoMemory>
        ensures stage { self.new.stage ≡ self.old.stage }
        ensures documents { (uri : List ℕ) → document_of uri self.new ≡ document_of uri self.old }
        ensures taken { IfOk result (λ taken. BeginsAs C.enters C.refuses call taken self.old.checker self.new.checker) }
    {
        match call {
            Call::Initialize { root } => match self.checker.enter(self.alloc, &root)? {
                None => Ok(Call::Initialize { root }),
                Some(line) => Ok(Call::ConfigRefused { line }),
            },
            other => Ok(other),
        }
    }
}
