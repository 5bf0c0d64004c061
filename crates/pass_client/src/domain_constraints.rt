//! Constraints of domains.

ghost use Rattle.std.specs.Prelude.{◌≡◌, ◌++◌, OnOk, OnErr};
ghost use Rattle.lint_pass.specs.lint_base.Grown.{GrownBy};
ghost use Rattle.lint_pass.specs.Those.{that, those};
ghost use Rattle.pass_client.specs.DomainConstraints as spec;
ghost use Rattle.pass_client.specs.DomainConstraints.{added_report, adds_constraint, created};

use lint_pass::{
    Action, ActionKind, Body, Constraint, LinterSettings, NoMemory, Parse, Reports, Rule,
    StatementPass, Stmt, StmtKind, Text, Violation, actions_of, same_action, same_kind,
};
use std::alloc::Global;

const MESSAGE: &str = "domains with constraints have poor support for online migrations";

const HELP: &str = "use table and column constraints instead";

/// Reports the constraints of each CREATE DOMAIN that has any, from the first one to the last one.
///
/// A domain's constraint can't be changed without a look at every column of the domain, under locks on all their tables, and
/// it can't be added as not valid to some of them.
///
/// PostgreSQL manual, CREATE DOMAIN and ALTER DOMAIN, Notes.
#[derive(Drop)]
pub struct BanCreateDomainWithConstraint;

/// Reports each constraint that an ALTER DOMAIN adds.
///
/// All tables with a column of the domain are scanned, and locked against writes for as long. With NOT VALID nothing is scanned; it
/// is reported all the same, since values that break the constraint stay.
///
/// PostgreSQL manual, ALTER DOMAIN, "ADD domain_constraint [ NOT VALID ]" and Notes.
#[derive(Drop)]
pub struct BanAlterDomainWithAddConstraint;

/// The report of a rule from one token to another.
#[tactic(auto, unfolding(crate::specs::DomainConstraints::report))]
fn report(code: Rule, p: &Parse<'_>, first: u32, last: u32) -> Violation
    ensures { result ≡ spec.report code p.now first last }
{
    Violation {
        code,
        message: Text::plain(MESSAGE),
        text_range: p.span_range(first, last),
        note: None,
        help: Some(Text::plain(HELP)),
        fix: None,
    }
}

/// Reports the constraints of a domain, where it has any.
fn report_created(
    p: &Parse<'_>,
    constraints: &[Constraint],
    out: &mut Reports,
) -> Result<(), NoMemory>
    ensures ok { OnOk result (out.new ≡ out.old ++ created p.now constraints.now) }
    ensures err { OnErr result (out.new ≡ out.old) }
{
    match constraints {
        [] => Ok(()),
        [first, ..] => {
            let last = &constraints[constraints.len() - 1];
            out.push(report(
                Rule::BanCreateDomainWithConstraint,
                p,
                first.first,
                last.last,
            ))
        }
    }
}

/// Reports an action that adds a constraint.
fn report_action(p: &Parse<'_>, a: &Action, out: &mut Reports) -> Result<(), NoMemory>
    ensures ok { OnOk result (out.new ≡ out.old ++ that adds_constraint (added_report p.now) a.now) }
    ensures err { OnErr result (out.new ≡ out.old) }
{
    if same_action(a.kind, ActionKind::AddConstraint) {
        out.push(report(Rule::BanAlterDomainWithAddConstraint, p, a.first, a.last))
    } else {
        Ok(())
    }
}

/// Reports each action that adds a constraint.
fn report_added(p: &Parse<'_>, actions: &[Action], out: &mut Reports) -> Result<(), NoMemory>
    ensures ok { OnOk result (out.new ≡ out.old ++ those adds_constraint (added_report p.now) actions.now) }
    ensures err { OnErr result (GrownBy out.old out.new (those adds_constraint (added_report p.now) actions.now)) }
{
    for a in actions {
        report_action(p, a, out)?;
    }
    Ok(())
}

impl StatementPass for BanCreateDomainWithConstraint {
    ghost use Rattle.lint_pass.specs.lint_base.declared.rule.Rule.TheVariants as rule;
    ghost use Rattle.pass_client.specs.DomainConstraints.{reports_of_ban_create_domain_with_constraint};
    ghost use Rattle.pass_client.specs.DomainConstraintsLaws.{created_coded, created_placed};

    ghost code = { λ _. rule.BanCreateDomainWithConstraint };

    ghost reports = { λ _ tree _ s. reports_of_ban_create_domain_with_constraint tree s.body };

    ghost coded = { λ _ tree _ s. created_coded tree s };

    ghost placed = { λ _ tree _ s. created_placed tree s };

    fn code(&self) -> Rule {
        Rule::BanCreateDomainWithConstraint
    }

    fn report(
        &self,
        _alloc: Global,
        p: &Parse<'_>,
        s: &Stmt,
        _set: &LinterSettings,
        out: &mut Reports,
    ) -> Result<(), NoMemory> {
        match &s.body {
            Body::Domain { constraints } => report_created(p, constraints.as_slice(), out),
            _ => Ok(()),
        }
    }
}

impl StatementPass for BanAlterDomainWithAddConstraint {
    ghost use Rattle.lint_pass.specs.lint_base.declared.rule.Rule.TheVariants as rule;
    ghost use Rattle.pass_client.specs.DomainConstraints.{reports_of_ban_alter_domain_with_add_constraint};
    ghost use Rattle.pass_client.specs.DomainConstraintsLaws.{added_coded, added_placed};

    ghost code = { λ _. rule.BanAlterDomainWithAddConstraint };

    ghost reports = { λ _ tree _ s. reports_of_ban_alter_domain_with_add_constraint tree s };

    ghost coded = { λ _ tree _ s. added_coded tree s };

    ghost placed = { λ _ tree _ s. added_placed tree s };

    fn code(&self) -> Rule {
        Rule::BanAlterDomainWithAddConstraint
    }

    fn report(
        &self,
        _alloc: Global,
        p: &Parse<'_>,
        s: &Stmt,
        _set: &LinterSettings,
        out: &mut Reports,
    ) -> Result<(), NoMemory> {
        if same_kind(s.kind, StmtKind::AlterDomain) {
            report_added(p, actions_of(s), out)
        } else {
            Ok(())
        }
    }
}
