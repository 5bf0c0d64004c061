//! Making many fixes of one answer.
//!
//! What a fix does to the other reports is known (`law_fix_steps`), if the text has no ignore comment and the rule's fixes are followed. So
//! such fixes are made one after another without linting the text again, each at its place in the text as it is then.
ghost use Rattle.std.specs.Prelude.{◌≡◌, ◌≤◌, ◌<◌, ◌^◌, ◌+◌, [], ◌∷◌, All, IfOk, IfSome, MatchOption, drop, length, string_bytes, true, false};
ghost use Rattle.squawk_run.specs.lint_base.Fixes.{FixValue};
ghost use Rattle.law_next_fix.specs.law_fix_steps.Step.{has_ignore_comment};
ghost use Rattle.law_next_fix.specs.fix_choice.Fits.{CanBeTried, ListedCanBeTried, next_text};
ghost use Rattle.squawk_fix.specs.Round as spec;

use law_next_fix::laws::fitting_fixes_step;
use law_next_fix::{
    Found, Parse, answers_ascend, answers_leave, answers_placed, find_ignores, is_followed,
    is_listed, load_is_small, made_by, next_text,
};
use squawk_run::{Edit, Fix, NoMemory, Text, TextRange, TextSize, Violation};
use std::alloc::Global;

/// A text in which fixes were made, and how many.
#[derive(Drop)]
pub(crate) struct Round {
    pub text: String,
    pub applied: u64,
}

/// Whether a text is known to have no ignore comment.
pub(crate) fn is_plain(alloc: Global, file: &Parse<'_>) -> Result<bool, NoMemory>
    ensures { IfOk result (λ plain. plain ≡ true → has_ignore_comment file.now ≡ false) }
{
    let mut found = Found::new(alloc);
    find_ignores(alloc, file, &mut found)?;
    if found.ignores.is_empty() {
        return Ok(true);
    }
    Ok(false)
}

// Whether the next report of a listed rule begins behind this one and its edit.
fn comes_first(report: &Violation, edit: &Edit, later: &[Violation]) -> bool
    ensures { result ≡ spec.comes_first report.now.text_range.start edit.now.text_range.end later.now }
{
    let start = report.text_range.start().raw();
    let end = edit.text_range.end().raw();
    for next in later {
        if is_listed(next.code) {
            let place = next.text_range.start().raw();
            return start < place && end <= place;
        }
    }
    true
}

// The only edit of a report's fix.
fn only_edit(report: &Violation) -> Option<&Edit>
    ensures { IfSome result (λ edit. spec.HasOnly report.now edit.now) }
{
    match &report.fix {
        Some(fix) => {
            let (edit, more) = fix.edits.as_slice().split_first()?;
            if more.is_empty() { Some(edit) } else { None }
        }
        None => None,
    }
}

// The edit of a report whose fix can be made without linting the text again.
fn ready_edit<'a>(report: &'a Violation, later: &[Violation]) -> Option<&'a Edit>
    ensures { IfSome result (λ edit. spec.IsReady report.now later.now edit.now) }
{
    let edit = only_edit(report)?;
    if is_followed(report.code) && comes_first(report, edit, later) {
        Some(edit)
    } else {
        None
    }
}

// Where a place is, if a text of `from` bytes became one of `to` bytes before it.
fn place_moved(place: TextSize, from: usize, to: usize) -> Option<TextSize>
    requires { to < 2 ^ 32 }
    ensures { IfSome result (λ moved. moved + from ≡ place + to) }
{
    let moved = (place.raw() as usize + to).checked_sub(from)?;
    if moved > u32::MAX as usize {
        return None;
    }
    Some(TextSize::new(moved as u32))
}

// The same of a range.
fn range_moved(range: TextRange, from: usize, to: usize) -> Option<TextRange>
    requires { to < 2 ^ 32 }
    ensures start { IfSome result (λ moved. moved.start + from ≡ range.start + to) }
    ensures end { IfSome result (λ moved. moved.end + from ≡ range.end + to) }
{
    let start = place_moved(range.start(), from, to)?;
    let end = place_moved(range.end(), from, to)?;
    Some(TextRange::new(start, end))
}

fn text_copied(alloc: Global, text: &Option<Text>) -> Result<Option<Text>, NoMemory>
    ensures { IfOk result (λ copy. copy ≡ text.now) }
{
    match text {
        Some(text) => Ok(Some(Text::made(String::from_str(alloc, text.as_str())?))),
        None => Ok(None),
    }
}

// A fix that puts the text of an edit at this range.
fn fix_at(alloc: Global, text_range: TextRange, edit: &Edit) -> Result<Fix, NoMemory>
    ensures { IfOk result (λ fix. fix.edits ≡ record { text_range = text_range; text = edit.now.text } ∷ []) }
{
    let text = text_copied(alloc, &edit.text)?;
    let mut edits = Vec::new(alloc);
    edits.push(Edit { text_range, text })?;
    Ok(Fix {
        title: Text::fixed(""),
        edits,
    })
}

// The fix of a report, if it can be made without linting the text again, at its place in the text of `to` bytes that a text of `from`
// bytes became.
fn next_fix(
    alloc: Global,
    report: &Violation,
    later: &[Violation],
    from: usize,
    to: usize,
) -> Result<Option<Fix>, NoMemory>
    requires { to < 2 ^ 32 }
    ensures { IfOk result (λ next. IfSome next (λ fix. spec.IsNextFix report.now later.now from to fix)) }
{
    let Some(edit) = ready_edit(report, later) else {
        return Ok(None);
    };
    match range_moved(edit.text_range, from, to) {
        Some(range) => Ok(Some(fix_at(alloc, range, edit)?)),
        None => Ok(None),
    }
}

// The text with the fix of a report made, if that can be done without linting it again, and fits.
fn next_made(
    alloc: Global,
    from: usize,
    made: &str,
    report: &Violation,
    later: &[Violation],
) -> Result<Option<String>, NoMemory>
    requires short { length made.now < 2 ^ 32 }
    requires tried { (fix : FixValue) → spec.IsNextFix report.now later.now from (length made.now) fix → CanBeTried made.now fix }
    ensures { IfOk result (λ next. IfSome next
        (λ text. spec.IsNextText report.now later.now from (length made.now) made.now (string_bytes text))) }
{
    match next_fix(alloc, report, later, from, made.len())? {
        Some(fix) => made_by(alloc, made, &fix),
        None => Ok(None),
    }
}

// The text with all fixes made of the first reports that can be made without linting it again.
fn run(alloc: Global, text: &str, reports: &[Violation]) -> Result<Round, NoMemory>
    requires short { length text.now < 2 ^ 32 }
    requires answered { spec.Answered text.now reports.now }
    ensures { IfOk result (λ round. (a : spec.Answered text.now reports.now)
        → spec.Ran text.now reports.now a (string_bytes round.text) round.applied) }
{
    answers_placed();
    fitting_fixes_step();
    answers_ascend();
    answers_leave();
    load_is_small();
    let mut made = String::from_str(alloc, text)?;
    let mut applied = 0;
    let mut rest = reports;
    while let Some((report, later)) = rest.split_first() {
        rest = later;
        if is_listed(report.code) {
            let Some(next) = next_made(alloc, text.len(), made.as_str(), report, later)? else {
                break;
            };
            made = next;
            applied += 1;
        }
    }
    Ok(Round {
        text: made,
        applied,
    })
}

/// The text with one fix or more made of these reports, or `None` where none fits. More than the first are made where the text has no
/// ignore comment, which `is_plain` says, and what they do is known. The error comes when memory runs out.
#[tactic(auto, using(crate::proofs::Rounds::many_round, crate::proofs::Rounds::one_round))]
pub(crate) fn next_round(
    alloc: Global,
    is_plain: bool,
    text: &str,
    reports: &[Violation],
) -> Result<Option<Round>, NoMemory>
    requires short { length text.now < 2 ^ 32 }
    requires tried { All (ListedCanBeTried text.now) reports.now }
    requires answered { is_plain ≡ true → spec.Answered text.now reports.now }
    ensures { IfOk result (λ next. MatchOption next (next_text text.now reports.now ≡ None)
        (λ round. spec.IsRound is_plain text.now reports.now (string_bytes round.text) round.applied)) }
{
    if is_plain {
        let round = run(alloc, text, reports)?;
        if round.applied > 0 {
            return Ok(Some(round));
        }
    }
    match next_text(alloc, text, reports)? {
        Some(text) => Ok(Some(Round { text, applied: 1 })),
        None => Ok(None),
    }
}
