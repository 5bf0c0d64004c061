//! Identifiers that are too long.

ghost use Rattle.std.specs.Prelude.{◌≡◌, ◌++◌, length, is_some, string_bytes, IfOk, IfSome, OnOk, OnErr};
ghost use Rattle.std.specs.List.{list_all, list_any};
ghost use Rattle.lint_pass.specs.sql_name.Name.{cut_to};
ghost use Rattle.lint_pass.specs.lint_base.Grown.{GrownBy};
ghost use Rattle.lint_pass.specs.Those.{that};
ghost use Rattle.lint_pass.specs.lint_transaction.Names.{name_at};
ghost use Rattle.pass_name.specs.IdentifierTooLong as spec;
ghost use Rattle.pass_name.specs.IdentifierTooLong.{kind_at, reports_of_identifier_too_long, token_numbers};

use lint_pass::{
    Fix, FullName, LinterSettings, NoMemory, Parse, Reports, Rule, StatementPass, Stmt, Text,
    Violation, replacement_fix,
};
use sql_token::TokKind;
use std::alloc::Global;

/// How many bytes PostgreSQL keeps of an identifier: `NAMEDATALEN` less 1.
const KEPT_LEN: usize = 63;

/// Reports each identifier of more than 63 bytes, of which PostgreSQL keeps the first 63, or fewer where a character would be cut.
///
/// The name that is kept is not the one that was written: a second long name may become the same, so that a statement fails or changes
/// the wrong object, and tools that look for the whole name in the catalogs find nothing. PostgreSQL only notes it, as a NOTICE.
///
/// PostgreSQL manual, section 4.1.1, "Identifiers and Key Words".
#[derive(Drop)]
pub struct IdentifierTooLong;

fn is_quoted(kind: TokKind) -> bool
    ensures { result ≡ spec.is_quoted_kind kind }
{
    match kind {
        TokKind::Quoted => true,
        _ => false,
    }
}

/// Whether a byte may begin a word that needs no quotes.
fn begins_word(byte: u8) -> bool
    ensures { result ≡ spec.begins_word byte }
{
    matches!(byte, b'a'..=b'z' | b'_')
}

/// Whether a byte may follow in it.
fn continues_word(byte: u8) -> bool
    ensures { result ≡ spec.continues_word byte }
{
    begins_word(byte) || matches!(byte, b'0'..=b'9' | b'$')
}

fn continue_word(bytes: &[u8]) -> bool
    ensures { result ≡ list_all spec.continues_word bytes.now }
{
    bytes.iter().all(|byte| continues_word(*byte))
}

/// Whether a name means itself without quotes.
fn is_plain_word(name: &[u8]) -> bool
    ensures { result ≡ spec.is_plain_word name.now }
{
    match name.split_first() {
        Some((first, rest)) => begins_word(*first) && continue_word(rest),
        None => false,
    }
}

/// As much of a full text as PostgreSQL keeps.
fn cut(full: &str) -> &str
    ensures { result.now ≡ cut_to 63 full.now }
{
    &full[..full.floor_char_boundary(KEPT_LEN)]
}

/// The name that PostgreSQL keeps of this one, as it is written.
#[tactic(auto, unfolding(crate::specs::IdentifierTooLong::kept_name))]
fn kept_name(alloc: Global, kind: TokKind, full: &str) -> Result<String, NoMemory>
    ensures { IfOk result (λ name. string_bytes name ≡ spec.kept_name kind full.now) }
{
    let name = cut(full);
    if is_quoted(kind) || !is_plain_word(name.as_bytes()) {
        Ok(format!(in alloc; "\"{name}\"")?)
    } else {
        Ok(format!(in alloc; "{name}")?)
    }
}

fn message(alloc: Global, name: &str) -> Result<Text, NoMemory>
    ensures { IfOk result (λ text. text ≡ spec.message name.now) }
{
    Ok(Text::made(format!(in alloc; "`{name}` is too long and will be truncated to 63 bytes")?))
}

fn title(alloc: Global, name: &str) -> Result<Text, NoMemory>
    ensures { IfOk result (λ text. text ≡ spec.title name.now) }
{
    Ok(Text::made(format!(in alloc; "Rename to `{name}`")?))
}

/// Whether a quoted identifier of this full text has a doubled `"`.
fn has_doubled(kind: TokKind, full: &str) -> bool
    ensures { result ≡ spec.has_doubled kind full.now }
{
    is_quoted(kind) && full.as_bytes().contains(&b'"')
}

/// The kind of a token.
fn kind_at(p: &Parse<'_>, number: u32) -> TokKind
    ensures { result ≡ kind_at p.now number }
{
    match p.tokens().get(number as usize) {
        Some(tok) => tok.kind,
        None => TokKind::Other,
    }
}

/// The fix that puts the name that is kept in place of the whole one.
#[tactic(auto, unfolding(crate::specs::IdentifierTooLong::rename))]
fn rename(alloc: Global, p: &Parse<'_>, number: u32, full: &str) -> Result<Fix, NoMemory>
    requires { full.now ≡ name_at p.now number }
    ensures { IfOk result (λ fix. fix ≡ spec.rename p.now number) }
{
    let name = kept_name(alloc, kind_at(p, number), full)?;
    let title = title(alloc, name.as_str())?;
    replacement_fix(alloc, title, Text::made(name), p.span_range(number, number))
}

#[tactic(auto, unfolding(crate::specs::IdentifierTooLong::fix_of))]
fn fix_of(alloc: Global, p: &Parse<'_>, number: u32, full: &str) -> Result<Option<Fix>, NoMemory>
    requires { full.now ≡ name_at p.now number }
    ensures { IfOk result (λ fix. fix ≡ spec.fix_of p.now number) }
{
    if has_doubled(kind_at(p, number), full) {
        return Ok(None);
    }
    Ok(Some(rename(alloc, p, number, full)?))
}

/// The report of an identifier of this full text.
#[tactic(auto, unfolding(crate::specs::IdentifierTooLong::report))]
fn report(alloc: Global, p: &Parse<'_>, number: u32, full: &str) -> Result<Violation, NoMemory>
    requires { full.now ≡ name_at p.now number }
    ensures { IfOk result (λ v. v ≡ spec.report p.now number) }
{
    Ok(Violation {
        code: Rule::IdentifierTooLong,
        message: message(alloc, full)?,
        text_range: p.span_range(number, number),
        note: None,
        help: None,
        fix: fix_of(alloc, p, number, full)?,
    })
}

/// Whether the token of this number has more than 63 bytes. Only then it may be an identifier that is too long.
#[inline(always)]
fn is_long_at(p: &Parse<'_>, number: usize) -> bool
    ensures { result ≡ spec.is_long_at p.now number }
{
    match p.tokens().get(number) {
        Some(tok) => tok.start as usize + KEPT_LEN < tok.end as usize,
        None => false,
    }
}

/// Whether a statement has a token of more than 63 bytes. Few have, so that this is looked at first.
#[inline(always)]
fn has_long_token(p: &Parse<'_>, s: &Stmt) -> bool
    ensures { result ≡ list_any (spec.is_long_at p.now) (token_numbers s.now) }
{
    let end = s.last as usize + 1;
    for number in s.first as usize..end {
        if is_long_at(p, number) {
            return true;
        }
    }
    false
}

/// The full text of an identifier that is too long. It is built only for a token of more than 63 bytes.
#[tactic(auto, using(crate::proofs::NameCuts::full_within))]
fn long_name(alloc: Global, p: &Parse<'_>, number: u32) -> Result<Option<String>, NoMemory>
    ensures found { IfOk result (λ name. is_some name ≡ spec.is_too_long p.now number) }
    ensures text { IfOk result (λ name. IfSome name (λ s. string_bytes s ≡ name_at p.now number)) }
{
    let index = number as usize;
    if index >= p.tokens().len() || !p.tokens()[index].kind.is_name() {
        return Ok(None);
    }
    let text = p.token_text(index);
    if text.len() <= KEPT_LEN {
        return Ok(None);
    }
    let full = FullName::of(text).folded(alloc)?;
    if full.len() <= KEPT_LEN {
        return Ok(None);
    }
    Ok(Some(full))
}

/// Reports a token, where it is an identifier that is too long.
fn report_token(
    alloc: Global,
    p: &Parse<'_>,
    number: u32,
    out: &mut Reports,
) -> Result<(), NoMemory>
    ensures { OnOk result (out.new ≡ out.old ++ that (spec.is_too_long p.now) (spec.report p.now) number) }
{
    match long_name(alloc, p, number)? {
        Some(full) => out.push(report(alloc, p, number, full.as_str())?),
        None => Ok(()),
    }
}

/// Reports the identifiers of a statement.
#[tactic(auto, unfolding(crate::specs::IdentifierTooLong::reports_of_identifier_too_long))]
fn report_tokens(alloc: Global, p: &Parse<'_>, s: &Stmt, out: &mut Reports) -> Result<(), NoMemory>
    ensures { OnOk result (out.new ≡ out.old ++ reports_of_identifier_too_long p.now s.now) }
{
    let end = s.last as usize + 1;
    for number in s.first as usize..end {
        report_token(alloc, p, number as u32, out)?;
    }
    Ok(())
}

impl StatementPass for IdentifierTooLong {
    ghost use Rattle.lint_pass.specs.lint_base.declared.rule.Rule.TheVariants as rule;
    ghost use Rattle.pass_name.specs.IdentifierTooLong.{reports_of_identifier_too_long};
    ghost use Rattle.pass_name.specs.IdentifierTooLongLaws.{long_coded, long_placed};

    ghost code = { λ _. rule.IdentifierTooLong };

    ghost reports = { λ _ tree _ s. reports_of_identifier_too_long tree s };

    ghost coded = { λ _ tree _ s. long_coded tree s };

    ghost placed = { λ _ tree _ s. long_placed tree s };

    fn code(&self) -> Rule {
        Rule::IdentifierTooLong
    }

    fn report(
        &self,
        alloc: Global,
        p: &Parse<'_>,
        s: &Stmt,
        _set: &LinterSettings,
        out: &mut Reports,
    ) -> Result<(), NoMemory> {
        if !has_long_token(p, s) {
            return Ok(());
        }
        let mut made = Reports::new(alloc);
        report_tokens(alloc, p, s, &mut made)?;
        out.append(made)
    }
}
