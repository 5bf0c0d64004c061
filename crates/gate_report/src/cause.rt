//! Why a file is not accepted.
ghost use Rattle.std.specs.Prelude.{◌≡◌};
ghost use Rattle.gate_report.specs.Causes as spec;

use migration_gate::Why;
use report_lines::{Hint, Refusal, Rule, TextSize};

/// Why a file is not accepted.
#[derive(Clone, Copy, Debug, PartialEq, Eq)]
pub enum Cause {
    /// It was not read as a text.
    Unread(Refusal),
    /// It does not pass.
    Against(Why),
    /// It passes, and ends inside a transaction.
    Open,
}

// The name of why a file does not pass.
fn why_name(why: Why) -> &'static str
    ensures { result.now ≡ spec.why_name why }
{
    match why {
        Why::Unterminated { .. } => "unterminated",
        Why::Syntax { .. } => "syntax-error",
        Why::Ignored { .. } => "ignore-comment",
        Why::NotPlain => "not-plain",
        Why::Found { rule, .. } => rule.name(),
    }
}

// What is wrong with a file that does not pass.
fn why_message(why: Why) -> &'static str
    ensures { result.now ≡ spec.why_message why }
{
    match why {
        Why::Unterminated { .. } => "what begins here does not end",
        Why::Syntax { .. } => "the statement that begins here can't be read",
        Why::Ignored { .. } => "an ignore comment",
        Why::NotPlain => "the file is not plain: what it does under locks is not all known",
        Why::Found { .. } => "the first report begins here",
    }
}

// The place of what is wrong with a file that does not pass.
fn why_place(why: Why) -> Option<TextSize>
    ensures { result ≡ spec.why_place why }
{
    match why {
        Why::Unterminated { at }
        | Why::Syntax { at }
        | Why::Ignored { at }
        | Why::Found { at, .. } => Some(TextSize::new(at)),
        Why::NotPlain => None,
    }
}

// What to do with a file that does not pass. Of a report there is more to say.
fn why_help(why: Why) -> &'static str
    ensures { result.now ≡ spec.why_help why }
{
    match why {
        Why::Unterminated { .. } => Hint::End.text(),
        Why::Syntax { .. } => Hint::Statement.text(),
        Why::Ignored { .. } => "take the comment out: of an accepted file no report is left out",
        Why::NotPlain => {
            "take out what divides a transaction or changes search_path, as SAVEPOINT and DISCARD"
        }
        Why::Found { .. } => "says why, and what to write instead",
    }
}

// The rule of the first report.
fn why_rule(why: Why) -> Option<Rule>
    ensures { result ≡ spec.why_rule why }
{
    match why {
        Why::Found { rule, .. } => Some(rule),
        Why::Unterminated { .. } | Why::Syntax { .. } | Why::Ignored { .. } | Why::NotPlain => None,
    }
}

// What to do with a file that was not read.
fn refusal_help(refusal: Refusal) -> &'static str
    ensures { result.now ≡ spec.refusal_help refusal }
{
    match refusal {
        Refusal::Missing => "name a file or a folder that is there",
        Refusal::Unreadable => "see that it is a file, and that it may be read",
        Refusal::NotUtf8 { .. } => Hint::Utf8.text(),
        Refusal::TooLong => "split the file",
        Refusal::Unterminated { .. } => Hint::End.text(),
        Refusal::Syntax { .. } => Hint::Statement.text(),
    }
}

impl Cause {
    /// A name for it, as rules have them.
    pub(crate) fn name(&self) -> &'static str
        ensures { result.now ≡ spec.name_of self.now }
    {
        match self {
            Cause::Unread(refusal) => refusal.name(),
            Cause::Against(why) => why_name(*why),
            Cause::Open => "open-transaction",
        }
    }

    /// What is wrong.
    pub(crate) fn message(&self) -> &'static str
        ensures { result.now ≡ spec.message_of self.now }
    {
        match self {
            Cause::Unread(refusal) => refusal.message(),
            Cause::Against(why) => why_message(*why),
            Cause::Open => "the file ends inside a transaction",
        }
    }

    /// The place of what is wrong, where it has one.
    pub(crate) fn place(&self) -> Option<TextSize>
        ensures { result ≡ spec.place_of self.now }
    {
        match self {
            Cause::Unread(refusal) => {
                if refusal.has_place() {
                    Some(refusal.place())
                } else {
                    None
                }
            }
            Cause::Against(why) => why_place(*why),
            Cause::Open => None,
        }
    }

    /// What to do; of a report what follows the name of the command that explains it.
    pub(crate) fn help(&self) -> &'static str
        ensures { result.now ≡ spec.help_of self.now }
    {
        match self {
            Cause::Unread(refusal) => refusal_help(*refusal),
            Cause::Against(why) => why_help(*why),
            Cause::Open => "end it in this file, by COMMIT or ROLLBACK without AND CHAIN",
        }
    }

    /// The rule whose page says more, where there is one.
    pub(crate) fn rule(&self) -> Option<Rule>
        ensures { result ≡ spec.rule_of self.now }
    {
        match self {
            Cause::Against(why) => why_rule(*why),
            Cause::Unread(_) | Cause::Open => None,
        }
    }
}
