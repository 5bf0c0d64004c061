//! Reading diagnostics.
ghost use Rattle.std.specs.Prelude.{◌≡◌, ◌≢◌, ◌<◌, ◌^◌, List, Some, None, length, option_and_then, IfOk, IfErr};
ghost use Rattle.std.specs.List.{AllByRecursion};
ghost use Rattle.serde_json.specs.Read.{read};
ghost use Rattle.diag_json.specs.Answers.{AreFit, IsCause, IsDiagnostic, IsItemCause, IsRead, OkOrNoMemory};
ghost use Rattle.diag_json.specs.Json.{diagnostic_json, json};
ghost use Rattle.diag_json.specs.declared.diagnostic.Diagnostic.{Diagnostic};
ghost use Rattle.serde_json.specs.Find.{as_str};
ghost use Rattle.serde_json.specs.View.{items_view, view};
ghost use Rattle.diag_json.specs.Left.{left};
ghost use Rattle.diag_json.specs.MessageValue.{message};
ghost use Rattle.diag_json.specs.Reading.{read_diagnostic, read_message, rule_with_name};
ghost use Rattle.diag_json.specs.declared.read.Unread.TheVariants as Unread;

use crate::diagnostic::Diagnostic;
use crate::members::MembersLeft;
use crate::parts::{fix_if, place_of, text_if, text_of};
use crate::rules::rule_with_name;
use lint_base::{Rule, Text};
use serde_json::Value;
use std::alloc::{AllocError, AllocFailed, Global};

/// Why a value is read as no part of a diagnostic.
#[derive(Clone, Copy, Debug, PartialEq, Eq)]
pub(crate) enum Unread {
    /// It is the JSON of none.
    Shape,
    /// Memory ran out.
    NoMemory,
}

impl From<AllocError> for Unread {
    ghost use Rattle.std.specs.Prelude.{◌≡◌};

    ghost from_gives = { λ _ e. e ≡ Unread.NoMemory };

    fn from(_error: AllocError) -> Unread {
        Unread::NoMemory
    }
}

impl<T: Drop> From<AllocFailed<T>> for Unread {
    ghost use Rattle.std.specs.Prelude.{◌≡◌};

    ghost from_gives = { λ _ e. e ≡ Unread.NoMemory };

    fn from(_failed: AllocFailed<T>) -> Unread {
        Unread::NoMemory
    }
}

/// Why a text is not read as diagnostics.
#[derive(Clone, Copy, Debug, PartialEq, Eq)]
pub enum DiagError {
    /// The text is no JSON, or nests too deep.
    NotJson,
    /// Its value is no list.
    NotList,
    /// This item is the first that is the JSON of no diagnostic.
    Shape { item: u32 },
    /// Memory ran out.
    NoMemory,
}

/// What comes before the place of a diagnostic.
#[derive(Drop)]
struct MessageRead<'v> {
    help: Option<Text>,
    message: Text,
    others: MembersLeft<'v>,
}

#[tactic(auto, unfolding(crate::specs::Reading::read_message))]
fn message_of<'v>(alloc: Global, members: MembersLeft<'v>) -> Result<MessageRead<'v>, Unread>
    ensures ok { IfOk result (λ m. read_message (left members.entry) ≡ Some (message m)) }
    ensures shape { IfErr result (λ e. e ≡ Unread.Shape → read_message (left members.entry) ≡ None) }
{
    let (help, members) = members.take_if("help");
    let help = text_if(alloc, help)?;
    let (message, others) = members.take("message")?;
    let message = text_of(alloc, message)?;
    Ok(MessageRead {
        help,
        message,
        others,
    })
}

fn rule_of(value: &Value) -> Result<Rule, Unread>
    ensures ok { IfOk result (λ r. option_and_then rule_with_name (as_str (view value.now)) ≡ Some r) }
    ensures err { IfErr result (λ _. option_and_then rule_with_name (as_str (view value.now)) ≡ None) }
{
    let name = value.as_str().ok_or(Unread::Shape)?;
    rule_with_name(name).ok_or(Unread::Shape)
}

#[tactic(auto, unfolding(crate::specs::Reading::read_diagnostic))]
fn diagnostic_of(alloc: Global, value: &Value) -> Result<Diagnostic, Unread>
    ensures ok { IfOk result (λ d. read_diagnostic (view value.now) ≡ Some d) }
    ensures shape { IfErr result (λ e. e ≡ Unread.Shape → read_diagnostic (view value.now) ≡ None) }
{
    let (code, members) = MembersLeft::of(value)?.take("code")?;
    let rule = rule_of(code)?;
    let (fix, members) = members.take_if("fix");
    let fix = fix_if(alloc, fix)?;
    let said = message_of(alloc, members)?;
    let place = place_of(alloc, said.others)?;
    Ok(Diagnostic {
        start: place.start,
        end: place.end,
        rule,
        message: said.message,
        note: place.note,
        help: said.help,
        fix,
    })
}

/// The diagnostic whose JSON a value is.
fn fit_of(alloc: Global, value: &Value) -> Result<Diagnostic, Unread>
    ensures json { IfOk result (λ d. view value.now ≡ diagnostic_json d) }
    ensures positions { IfOk result IsDiagnostic }
    ensures shape { IfErr result (λ e. e ≡ Unread.Shape → (d : Diagnostic) → IsDiagnostic d → diagnostic_json d ≢ view value.now) }
{
    diagnostic_of(alloc, value)
}

#[tactic(auto, using(crate::proofs::Back::read_more, crate::proofs::Back::all_read, crate::proofs::Back::not_read))]
fn read_items(alloc: Global, items: &[Value]) -> Result<Vec<Diagnostic>, DiagError>
    requires { length items.now < 2 ^ 32 }
    ensures ok { IfOk result (λ ds. AreFit (items_view items.now) ds.items) }
    ensures cause { IfErr result (IsItemCause (items_view items.now)) }
{
    let mut diagnostics = Vec::new(alloc);
    for (at, item) in items.iter().enumerate() {
        match fit_of(alloc, item) {
            Ok(diagnostic) => {
                if diagnostics.push(diagnostic).is_err() {
                    return Err(DiagError::NoMemory);
                }
            }
            Err(Unread::Shape) => return Err(DiagError::Shape { item: at as u32 }),
            Err(Unread::NoMemory) => return Err(DiagError::NoMemory),
        }
    }
    Ok(diagnostics)
}

fn value_of(alloc: Global, text: &str) -> Result<Value, DiagError>
    ensures ok { IfOk result (λ v. read text.now ≡ Some (view v)) }
    ensures cause { IfErr result (IsCause (read text.now)) }
{
    match Value::from_str(alloc, text) {
        Ok(value) => Ok(value),
        Err(error) => {
            if error.is_memory() {
                Err(DiagError::NoMemory)
            } else {
                Err(DiagError::NotJson)
            }
        }
    }
}

#[tactic(auto, using(crate::proofs::Back::fit_is_read, crate::proofs::Back::item_cause))]
fn read_value(alloc: Global, text: &str) -> Result<Vec<Diagnostic>, DiagError>
    requires { length text.now < 2 ^ 32 }
    ensures ok { IfOk result (λ ds. IsRead (read text.now) ds.items) }
    ensures cause { IfErr result (IsCause (read text.now)) }
{
    let value = value_of(alloc, text)?;
    let items = value.as_array().ok_or(DiagError::NotList)?;
    read_items(alloc, items.as_slice())
}

/// The diagnostics whose JSON a text is, with or without spaces.
///
/// `NotJson` comes exactly where the text is no JSON that `serde_json` reads, `NotList` where its value is no list, and `Shape`
/// where that item is the first that is the JSON of no diagnostic. `NoMemory` comes because memory ran out. What
/// [`crate::write_json`] writes is read back.
pub fn read_json(alloc: Global, text: &str) -> Result<Vec<Diagnostic>, DiagError>
    requires { length text.now < 2 ^ 32 }
    ensures ok { IfOk result (λ ds. IsRead (read text.now) ds.items) }
    ensures cause { IfErr result (IsCause (read text.now)) }
    ensures reads_back { (d : List Diagnostic) → AllByRecursion IsDiagnostic d → read text.now ≡ Some (json d)
        → OkOrNoMemory result (λ ds. ds.items ≡ d) }
{
    read_value(alloc, text)
}
