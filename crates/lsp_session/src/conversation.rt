//! Whole conversations.
ghost use Rattle.std.specs.Prelude.{◌≡◌, IfOk, OnOk, List, ℕ};
ghost use Rattle.lsp_session.specs.Conversation.{all_answered, all_asked, last_published, stage_behind, document_behind};
ghost use Rattle.lsp_session.specs.Session.{document_of, PublishesNow};

use crate::session::Session;
use crate::{Checker, Message, Reply};
use lint_report::NoMemory;
use std::alloc::Global;

/// Takes messages one after the other, and gives all that is said to them, in order. The error comes when memory runs out.
pub fn converse<C: Checker>(
    alloc: Global,
    session: &mut Session<C>,
    messages: Vec<Message>,
) -> Result<Vec<Reply>, NoMemory>
    ensures checker { session.new.checker ≡ session.old.checker }
    ensures stage { OnOk result (session.new.stage ≡ stage_behind session.old.stage messages.items) }
    ensures documents { OnOk result ((uri : List ℕ) → document_of uri session.new ≡ document_behind session.old.stage messages.items uri (document_of uri session.old)) }
    ensures answered { IfOk result (λ replies. all_answered replies.items ≡ all_asked messages.items) }
    ensures published { IfOk result (λ replies. (uri : List ℕ) → PublishesNow (C.shows session.old.checker) (document_of uri session.old) (document_of uri session.new) (last_published uri replies.items)) }
{
    let mut all = Vec::new(alloc);
    for message in messages {
        if let Some(reply) = session.step(message)? {
            all.push(reply)?;
        }
    }
    Ok(all)
}
