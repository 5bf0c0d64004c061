//! Constraints that are added to tables in use.

ghost use Rattle.std.specs.Prelude.{◌≡◌, ◌++◌, ◌∷◌, [], ◌&&◌, ◌||◌, not, ℕ, Bool, List, Some, OnOk, OnErr, if◌then◌else◌};
ghost use Rattle.std.specs.List.{flat_map, list_any};
ghost use Rattle.sql_tree.specs.Statement.{Tree};
ghost use Rattle.lint_pass.specs.lint_base.Grown.{GrownBy};
ghost use Rattle.lint_pass.specs.lint_base.declared.settings.LinterSettings.{LinterSettings};
ghost use Rattle.lint_pass.specs.lint_node.Parts.{added_constraint, is_checked, table_actions};
ghost use Rattle.lint_pass.specs.lint_transaction.Tracking.{IsTracking};
ghost use Rattle.lint_pass.specs.lint_transaction.Transaction as track;
ghost use Rattle.lint_pass.specs.lint_transaction.declared.span_key.SpanKey.TheVariants as by;
ghost use Rattle.pass_constraint.specs.ConstraintMissingNotValid as spec;
ghost use Rattle.pass_constraint.specs.ConstraintMissingNotValid.{adds_not_valid, addition, additions_of, report_on, validation, validations};
ghost use Rattle.pass_constraint.specs.ConstraintWalk.{has_name};

use lint_pass::{
    LinterSettings, NoMemory, OpenTransaction, Pair, Reports, Rule, RulePass, RuleSet, Seen, Span,
    SpanKey, SpanSet, StepPass, TablesCreatedInTransaction, Text, Violation, added_constraint,
    ends, is_checked, path_in, same_action, table_actions,
};
use sql_tree::{Action, ActionKind, Parse, Stmt};
use std::alloc::Global;

const VALIDATED_MESSAGE: &str =
    "using `not valid` and `validate constraint` in the same transaction will block all reads while the constraint is validated";

const VALIDATED_HELP: &str =
    "add constraint as `not valid` in one transaction and `validate constraint` in a separate transaction";

const ADDED_MESSAGE: &str =
    "by default new constraints require a table scan and block writes to the table while that scan occurs";

const ADDED_HELP: &str = "use `not valid` with a later `validate constraint` call";

/// Reports each ADD CONSTRAINT of an ALTER TABLE that is neither NOT VALID nor by USING INDEX, except on a table that the
/// same open transaction created; and, before these, each VALIDATE CONSTRAINT in the transaction that added the constraint
/// as not valid.
///
/// Adding a constraint scans the whole table under a lock that writers, and mostly readers too, wait for. With NOT VALID the
/// scan is left out, and a later VALIDATE CONSTRAINT makes it under a weaker lock; but in the same transaction the strong
/// lock of the addition is still held.
///
/// PostgreSQL manual, ALTER TABLE, "ADD table_constraint [ NOT VALID ]", "VALIDATE CONSTRAINT" and Notes.
#[derive(Drop)]
pub struct ConstraintMissingNotValid;

/// What the parts of the pass remember.
#[derive(Drop)]
pub struct ConstraintMissingNotValidState {
    parts: <Parts as StepPass>::State,
}

/// Validations in the transaction that added the constraint.
#[derive(Drop)]
struct Validations;

/// Whether a transaction is open, and the names of the constraints that it added as not valid.
#[derive(Drop)]
struct ValidationsMemory {
    open: OpenTransaction,
    names: SpanSet,
}

/// Constraints that are added so that the table is scanned.
#[derive(Drop)]
struct Additions;

type Parts = Pair<Validations, Additions>;

const PARTS: Parts = Pair {
    first: Validations,
    second: Additions,
};

/// The number of the name of the constraint that an action adds as not valid.
fn not_valid_name(a: &Action) -> Option<u32>
    ensures { result ≡ spec.name_if_not_valid (added_constraint a.now) }
{
    match added_constraint(a) {
        Some(constraint) if constraint.not_valid => constraint.name,
        _ => None,
    }
}

/// The path of the constraint that an action validates.
fn validated(a: &Action) -> Option<Span>
    ensures { result ≡ spec.validated a.now }
{
    if same_action(a.kind, ActionKind::ValidateConstraint) {
        a.path
    } else {
        None
    }
}

/// The report of an action.
fn report_on(p: &Parse<'_>, message: Text, help: Text, a: &Action) -> Violation
    ensures { result ≡ report_on p.now message help a.now }
{
    Violation {
        code: Rule::ConstraintMissingNotValid,
        message,
        text_range: p.span_range(a.first, a.last),
        note: None,
        help: Some(help),
        fix: None,
    }
}

#[tactic(auto, unfolding(crate::specs::ConstraintMissingNotValid::validation_report))]
fn validation_report(p: &Parse<'_>, a: &Action) -> Violation
    ensures { result ≡ spec.validation_report p.now a.now }
{
    let message = Text::plain(VALIDATED_MESSAGE);
    let help = Text::plain(VALIDATED_HELP);
    report_on(p, message, help, a)
}

#[tactic(auto, unfolding(crate::specs::ConstraintMissingNotValid::addition_report))]
fn addition_report(p: &Parse<'_>, a: &Action) -> Violation
    ensures { result ≡ spec.addition_report p.now a.now }
{
    let message = Text::plain(ADDED_MESSAGE);
    let help = Text::plain(ADDED_HELP);
    report_on(p, message, help, a)
}

/// Whether the path's last name is one of these.
fn is_known(names: &SpanSet, p: &Parse<'_>, path: Option<Span>) -> bool
    requires { names.now.key ≡ by.LastName }
    ensures { result ≡ spec.is_known_path p.now (has_name p.now names.now) path }
{
    match path {
        Some(path) => names.contains(p, path),
        None => false,
    }
}

/// Reports an action that validates one of these constraints.
fn report_validation(
    names: &SpanSet,
    p: &Parse<'_>,
    a: &Action,
    out: &mut Reports,
) -> Result<(), NoMemory>
    requires { names.now.key ≡ by.LastName }
    ensures ok { OnOk result (out.new ≡ out.old ++ validation p.now (has_name p.now names.now) (Some a.now)) }
    ensures err { OnErr result (out.new ≡ out.old) }
{
    if is_known(names, p, validated(a)) {
        out.push(validation_report(p, a))
    } else {
        Ok(())
    }
}

/// Puts the name in, where the action adds a constraint as not valid.
fn put_name(names: &mut SpanSet, p: &Parse<'_>, a: &Action) -> Result<(), NoMemory>
    requires { names.old.key ≡ by.LastName }
    ensures key { names.new.key ≡ by.LastName }
    ensures ok { OnOk result ((name : List ℕ) → has_name p.now names.new name
        ≡ (adds_not_valid p.now name a.now || has_name p.now names.old name)) }
{
    match not_valid_name(a) {
        Some(number) => names.insert(
            p,
            Span {
                first: number,
                last: number,
            },
        ),
        None => Ok(()),
    }
}

/// Goes over the actions of a statement of an open transaction.
fn watch_actions(
    names: &mut SpanSet,
    p: &Parse<'_>,
    actions: &[Action],
    out: &mut Reports,
) -> Result<(), NoMemory>
    requires { names.old.key ≡ by.LastName }
    ensures key { names.new.key ≡ by.LastName }
    ensures names { OnOk result ((name : List ℕ) → has_name p.now names.new name
        ≡ (has_name p.now names.old name || list_any (adds_not_valid p.now name) actions.now)) }
    ensures ok { OnOk result (out.new ≡ out.old ++ validations p.now (has_name p.now names.old) actions.now) }
    ensures err { OnErr result (GrownBy out.old out.new (validations p.now (has_name p.now names.old) actions.now)) }
{
    for a in actions {
        report_validation(names, p, a, out)?;
        put_name(names, p, a)?;
    }
    Ok(())
}

impl ValidationsMemory {
    /// Goes over a statement.
    fn watch(&mut self, p: &Parse<'_>, s: &Stmt, out: &mut Reports) -> Result<(), NoMemory>
        requires { self.old.names.key ≡ by.LastName }
        ensures open { self.new.open ≡ self.old.open }
        ensures key { self.new.names.key ≡ by.LastName }
        ensures names { OnOk result ((name : List ℕ) → has_name p.now self.new.names name
            ≡ (has_name p.now self.old.names name || (self.old.open && list_any (adds_not_valid p.now name) (table_actions s.now)))) }
        ensures ok { OnOk result (out.new ≡ out.old ++ (if self.old.open then validations p.now (has_name p.now self.old.names) (table_actions s.now) else [])) }
        ensures err { OnErr result (GrownBy out.old out.new (if self.old.open then validations p.now (has_name p.now self.old.names) (table_actions s.now) else [])) }
    {
        if self.open.inside() {
            watch_actions(&mut self.names, p, table_actions(s), out)
        } else {
            Ok(())
        }
    }

    /// Goes after a statement.
    fn go_after(&mut self, s: &Stmt)
        requires { self.old.names.key ≡ by.LastName }
        ensures open { self.new.open ≡ (track.begins s.now || track.chains s.now || (self.old.open && not (track.ends s.now))) }
        ensures key { self.new.names.key ≡ by.LastName }
        ensures names { (tree : Tree) (name : List ℕ) → has_name tree self.new.names name
            ≡ (has_name tree self.old.names name && not (track.ends s.now)) }
    {
        self.open.update(s);
        forget_at_end(&mut self.names, s);
    }
}

/// Takes all names out at the end of a transaction.
fn forget_at_end(names: &mut SpanSet, s: &Stmt)
    ensures key { names.new.key ≡ names.old.key }
    ensures names { (tree : Tree) (name : List ℕ) → has_name tree names.new name
        ≡ (has_name tree names.old name && not (track.ends s.now)) }
{
    if ends(s) {
        names.clear();
    }
}

impl RulePass for Validations {
    ghost use Rattle.std.specs.Prelude.{false};
    ghost use Rattle.lint_pass.specs.lint_base.declared.rule.Rule.TheVariants as rule;
    ghost use Rattle.pass_constraint.specs.ConstraintMissingNotValid.{validations_in};
    ghost use Rattle.pass_constraint.specs.ConstraintReports.{validations_coded, validations_placed};
    ghost use Rattle.pass_constraint.specs.ConstraintWalk.{IsWatching};

    type Memory = ValidationsMemory;

    ghost code = { λ _. rule.ConstraintMissingNotValid };

    ghost knows = { λ _ memory tree set i. IsWatching tree set.assume_in_transaction i memory.open memory.names };

    ghost wants = { λ _. false };

    ghost reports = { λ _ tree set i. validations_in set tree i };

    ghost coded = { λ _. validations_coded };

    ghost placed = { λ _. validations_placed };

    fn code(&self) -> Rule {
        Rule::ConstraintMissingNotValid
    }

    fn wants_blocks(&self) -> bool {
        false
    }

    fn begin(&self, alloc: Global, set: &LinterSettings) -> Result<ValidationsMemory, NoMemory> {
        Ok(ValidationsMemory {
            open: OpenTransaction::new(set.assume_in_transaction),
            names: SpanSet::new(alloc, SpanKey::LastName),
        })
    }

    fn visit(
        &self,
        memory: &mut ValidationsMemory,
        p: &Parse<'_>,
        _i: u32,
        s: &Stmt,
        _seen: &Seen<'_>,
        _set: &LinterSettings,
        out: &mut Reports,
    ) -> Result<(), NoMemory> {
        memory.watch(p, s, out)?;
        memory.go_after(s);
        Ok(())
    }
}

/// Reports a constraint that an action adds so that the table is scanned.
fn report_addition(p: &Parse<'_>, a: &Action, out: &mut Reports) -> Result<(), NoMemory>
    ensures ok { OnOk result (out.new ≡ out.old ++ addition p.now a.now) }
    ensures err { OnErr result (out.new ≡ out.old) }
{
    if is_checked(added_constraint(a)) {
        out.push(addition_report(p, a))
    } else {
        Ok(())
    }
}

/// Reports all of them.
fn report_additions(p: &Parse<'_>, actions: &[Action], out: &mut Reports) -> Result<(), NoMemory>
    ensures ok { OnOk result (out.new ≡ out.old ++ flat_map (addition p.now) actions.now) }
    ensures err { OnErr result (GrownBy out.old out.new (flat_map (addition p.now) actions.now)) }
{
    for a in actions {
        report_addition(p, a, out)?;
    }
    Ok(())
}

/// Reports the constraints that a statement adds to a table that is not new.
fn report_statement(
    created: &TablesCreatedInTransaction<'_>,
    p: &Parse<'_>,
    s: &Stmt,
    out: &mut Reports,
) -> Result<(), NoMemory>
    ensures ok { OnOk result ((settings : LinterSettings) (i : ℕ) → IsTracking p.now settings.assume_in_transaction i created.now
        → out.new ≡ out.old ++ additions_of settings p.now i s.now) }
    ensures err { OnErr result ((settings : LinterSettings) (i : ℕ) → IsTracking p.now settings.assume_in_transaction i created.now
        → GrownBy out.old out.new (additions_of settings p.now i s.now)) }
{
    let actions = table_actions(s);
    if !has_addition(actions) {
        return Ok(());
    }
    let is_on_new = created.has_table(p, path_in(&s.body))?;
    if is_on_new {
        return Ok(());
    }
    report_additions(p, actions, out)
}

/// Whether some action adds a constraint so that the table is scanned.
fn has_addition(actions: &[Action]) -> bool
    ensures { result ≡ list_any (λ a. is_checked (added_constraint a)) actions.now }
{
    actions.iter().any(|a| is_checked(added_constraint(a)))
}

impl RulePass for Additions {
    ghost use Rattle.std.specs.Prelude.{false};
    ghost use Rattle.lint_pass.specs.lint_base.declared.rule.Rule.TheVariants as rule;
    ghost use Rattle.lint_pass.specs.lint_transaction.Transaction.{stmt_at};
    ghost use Rattle.pass_constraint.specs.ConstraintMissingNotValid.{additions_of};
    ghost use Rattle.pass_constraint.specs.ConstraintReports.{additions_coded, additions_placed};

    type Memory = ();

    ghost code = { λ _. rule.ConstraintMissingNotValid };

    ghost knows = { λ _ _ _ _ _. Unit {0} };

    ghost wants = { λ _. false };

    ghost reports = { λ _ tree set i. additions_of set tree i (stmt_at tree i) };

    ghost coded = { λ _ tree set i. additions_coded tree set i (stmt_at tree i) };

    ghost placed = { λ _ tree set i. additions_placed tree set i (stmt_at tree i) };

    fn code(&self) -> Rule {
        Rule::ConstraintMissingNotValid
    }

    fn wants_blocks(&self) -> bool {
        false
    }

    fn begin(&self, _alloc: Global, _set: &LinterSettings) -> Result<(), NoMemory> {
        Ok(())
    }

    fn visit(
        &self,
        _memory: &mut (),
        p: &Parse<'_>,
        _i: u32,
        s: &Stmt,
        seen: &Seen<'_>,
        _set: &LinterSettings,
        out: &mut Reports,
    ) -> Result<(), NoMemory> {
        report_statement(&seen.created, p, s, out)
    }
}

impl StepPass for ConstraintMissingNotValid {
    ghost use Rattle.pass_constraint.specs.ConstraintMissingNotValid.{reports_of_constraint_missing_not_valid};
    ghost use Rattle.pass_constraint.specs.declared.constraint_missing_not_valid.TheConstants.{PARTS};

    type State = ConstraintMissingNotValidState;

    ghost own = { λ _. ⟦<Parts as StepPass>⟧.own PARTS };

    ghost at = { λ _ state tree r s i. ⟦<Parts as StepPass>⟧.at PARTS state.parts tree r s i };

    ghost wants = { λ _. ⟦<Parts as StepPass>⟧.wants PARTS };

    ghost reports_at = { λ _. ⟦<Parts as StepPass>⟧.reports_at PARTS };

    ghost tail = { λ _. ⟦<Parts as StepPass>⟧.tail PARTS };

    ghost table = { λ _. reports_of_constraint_missing_not_valid };

    ghost whole = { λ _. ⟦<Parts as StepPass>⟧.whole PARTS };

    ghost coded = { λ _. ⟦<Parts as StepPass>⟧.coded PARTS };

    ghost placed = { λ _. ⟦<Parts as StepPass>⟧.placed PARTS };

    ghost apart = { λ _. ⟦<Parts as StepPass>⟧.apart PARTS };

    fn rules(&self) -> RuleSet {
        StepPass::rules(&PARTS)
    }

    fn wants_blocks(&self, rules: &RuleSet) -> bool {
        StepPass::wants_blocks(&PARTS, rules)
    }

    fn start(
        &self,
        alloc: Global,
        set: &LinterSettings,
    ) -> Result<ConstraintMissingNotValidState, NoMemory> {
        Ok(ConstraintMissingNotValidState {
            parts: PARTS.start(alloc, set)?,
        })
    }

    fn step(
        &self,
        state: &mut ConstraintMissingNotValidState,
        p: &Parse<'_>,
        i: u32,
        s: &Stmt,
        seen: &Seen<'_>,
        rules: &RuleSet,
        set: &LinterSettings,
        out: &mut Reports,
    ) -> Result<(), NoMemory> {
        PARTS.step(&mut state.parts, p, i, s, seen, rules, set, out)
    }

    fn finish(
        &self,
        alloc: Global,
        state: ConstraintMissingNotValidState,
        p: &Parse<'_>,
        rules: &RuleSet,
        set: &LinterSettings,
        out: &mut Reports,
    ) -> Result<(), NoMemory> {
        let ConstraintMissingNotValidState { parts } = state;
        PARTS.finish(alloc, parts, p, rules, set, out)
    }
}
