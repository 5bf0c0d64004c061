//! Changes of who may do what, and of how the server behaves.

ghost use Rattle.std.specs.Prelude.{◌≡◌, ◌++◌, OnOk, OnErr, map};
ghost use Rattle.lint_pass.specs.Ruled.{lent_ruled};
ghost use Rattle.pass_client.specs.SecurityCompatibility.{rows_of_security_compatibility, security_rules};

use lint_pass::{
    ActionKind, LinterSettings, NoMemory, Parse, PieceKind, Reports, Rule, RuleSet, RuledRows,
    Seen, Spot, StepPass, Stmt, StmtKind, report_ruled,
};
use std::alloc::Global;

/// Reports changes of policies, roles, options, row security, extensions and the server's configuration, by ten rules.
///
/// What a role may see or do changes for sessions that are open already, or at their next login; options of functions, views
/// and databases change how clients' statements are run.
///
/// PostgreSQL manual, CREATE POLICY, ALTER POLICY, ALTER FUNCTION, ALTER PROCEDURE, ALTER ROUTINE, ALTER VIEW, ALTER ROLE, ALTER
/// DATABASE, ALTER SYSTEM, ALTER EXTENSION, and ALTER TABLE, "ROW LEVEL SECURITY".
#[derive(Drop)]
pub struct SecurityCompatibility;

const SECURITY_COMPATIBILITY: [(Rule, Spot, &str); 26] = [
    (
        Rule::BanCreatePolicy,
        Spot::Statement(StmtKind::CreatePolicy),
        "creating a policy may change access for existing clients",
    ),
    (
        Rule::BanAlterPolicyRoles,
        Spot::Piece(StmtKind::AlterPolicy, PieceKind::PolicyTo),
        "changing policy roles may change access for existing clients",
    ),
    (
        Rule::BanAlterPolicyCondition,
        Spot::Piece(StmtKind::AlterPolicy, PieceKind::PolicyUsing),
        "changing a policy condition may change access for existing clients",
    ),
    (
        Rule::BanAlterPolicyCondition,
        Spot::Piece(StmtKind::AlterPolicy, PieceKind::PolicyCheck),
        "changing a policy condition may change access for existing clients",
    ),
    (
        Rule::BanAlterFunctionOptions,
        Spot::Action(StmtKind::AlterFunction, ActionKind::Options),
        "changing function options may change behavior for existing clients",
    ),
    (
        Rule::BanAlterFunctionOptions,
        Spot::Action(StmtKind::AlterProcedure, ActionKind::Options),
        "changing procedure options may change behavior for existing clients",
    ),
    (
        Rule::BanAlterFunctionOptions,
        Spot::Action(StmtKind::AlterRoutine, ActionKind::Options),
        "changing routine options may change behavior for existing clients",
    ),
    (
        Rule::BanAlterViewOptions,
        Spot::Action(StmtKind::AlterView, ActionKind::SetOptions),
        "changing view options may change behavior for existing clients",
    ),
    (
        Rule::BanAlterViewOptions,
        Spot::Action(StmtKind::AlterView, ActionKind::ResetOptions),
        "changing view options may change behavior for existing clients",
    ),
    (
        Rule::BanAlterRoleOptions,
        Spot::Action(StmtKind::AlterRole, ActionKind::Options),
        "changing role options may change access for existing clients",
    ),
    (
        Rule::BanAlterRoleOptions,
        Spot::Action(StmtKind::AlterRole, ActionKind::SetConfig),
        "changing role configuration may change behavior for existing clients",
    ),
    (
        Rule::BanAlterRoleOptions,
        Spot::Action(StmtKind::AlterRole, ActionKind::ResetConfig),
        "changing role configuration may change behavior for existing clients",
    ),
    (
        Rule::BanAlterRoleOptions,
        Spot::Action(StmtKind::AlterUser, ActionKind::Options),
        "changing role options may change access for existing clients",
    ),
    (
        Rule::BanAlterRoleOptions,
        Spot::Action(StmtKind::AlterUser, ActionKind::SetConfig),
        "changing role configuration may change behavior for existing clients",
    ),
    (
        Rule::BanAlterRoleOptions,
        Spot::Action(StmtKind::AlterUser, ActionKind::ResetConfig),
        "changing role configuration may change behavior for existing clients",
    ),
    (
        Rule::BanAlterDatabaseOptions,
        Spot::Action(StmtKind::AlterDatabase, ActionKind::Options),
        "changing database options may change behavior for existing clients",
    ),
    (
        Rule::BanAlterDatabaseOptions,
        Spot::Action(StmtKind::AlterDatabase, ActionKind::SetConfig),
        "changing database configuration may change behavior for existing clients",
    ),
    (
        Rule::BanAlterDatabaseOptions,
        Spot::Action(StmtKind::AlterDatabase, ActionKind::ResetConfig),
        "changing database configuration may change behavior for existing clients",
    ),
    (
        Rule::BanAlterSystemOptions,
        Spot::Action(StmtKind::AlterSystem, ActionKind::SetConfig),
        "changing server configuration may change behavior for existing clients",
    ),
    (
        Rule::BanAlterSystemOptions,
        Spot::Action(StmtKind::AlterSystem, ActionKind::ResetConfig),
        "changing server configuration may change behavior for existing clients",
    ),
    (
        Rule::BanAlterExtension,
        Spot::Action(StmtKind::AlterExtension, ActionKind::ExtensionUpdate),
        "updating an extension can change or remove objects used by existing clients",
    ),
    (
        Rule::BanAlterExtension,
        Spot::Action(StmtKind::AlterExtension, ActionKind::ExtensionDrop),
        "removing an object from an extension changes how the object is managed for existing clients",
    ),
    (
        Rule::BanAlterRowLevelSecurity,
        Spot::Action(StmtKind::AlterTable, ActionKind::EnableRls),
        "changing row level security may change access for existing clients",
    ),
    (
        Rule::BanAlterRowLevelSecurity,
        Spot::Action(StmtKind::AlterTable, ActionKind::DisableRls),
        "changing row level security may change access for existing clients",
    ),
    (
        Rule::BanAlterRowLevelSecurity,
        Spot::Action(StmtKind::AlterTable, ActionKind::ForceRls),
        "changing row level security may change access for existing clients",
    ),
    (
        Rule::BanAlterRowLevelSecurity,
        Spot::Action(StmtKind::AlterTable, ActionKind::NoForceRls),
        "changing row level security may change access for existing clients",
    ),
];

fn rows() -> RuledRows
    ensures { map lent_ruled result.now ≡ rows_of_security_compatibility }
{
    &SECURITY_COMPATIBILITY
}

fn rules() -> RuleSet
    ensures { result ≡ security_rules }
{
    let mut rules = RuleSet::empty();
    rules.insert(Rule::BanCreatePolicy);
    rules.insert(Rule::BanAlterPolicyRoles);
    rules.insert(Rule::BanAlterPolicyCondition);
    rules.insert(Rule::BanAlterFunctionOptions);
    rules.insert(Rule::BanAlterViewOptions);
    rules.insert(Rule::BanAlterRoleOptions);
    rules.insert(Rule::BanAlterDatabaseOptions);
    rules.insert(Rule::BanAlterSystemOptions);
    rules.insert(Rule::BanAlterExtension);
    rules.insert(Rule::BanAlterRowLevelSecurity);
    rules
}

impl StepPass for SecurityCompatibility {
    ghost use Rattle.std.specs.Prelude.{[], false};
    ghost use Rattle.std.proofs.lemmas.List.{append-nil};
    ghost use Rattle.lint_pass.specs.Ruled.{ruled_at, ruled_table};
    ghost use Rattle.lint_pass.specs.RuledLaws.{ruled_apart, ruled_coded, ruled_placed};
    ghost use Rattle.pass_client.specs.SecurityCompatibility.{rows_of_security_compatibility, security_rules};
    ghost use Rattle.pass_client.specs.SecurityCompatibilityLaws.{security_owned};

    type State = ();

    ghost own = { λ _. security_rules };

    ghost at = { λ _ _ _ _ _ _. Unit {0} };

    ghost wants = { λ _ _. false };

    ghost reports_at = { λ _ tree r _ i. ruled_at rows_of_security_compatibility tree r i };

    ghost tail = { λ _ _ _ _. [] };

    ghost table = { λ _ tree r _. ruled_table rows_of_security_compatibility tree r };

    ghost whole = { λ _ tree r _. append-nil (ruled_table rows_of_security_compatibility tree r) };

    ghost coded = { λ _ tree r _. ruled_coded security_rules rows_of_security_compatibility tree r security_owned };

    ghost placed = { λ _ tree r _ read. ruled_placed security_rules rows_of_security_compatibility tree r security_owned read };

    ghost apart = { λ _ tree _ q some others same. ruled_apart rows_of_security_compatibility tree q some others same };

    fn rules(&self) -> RuleSet {
        rules()
    }

    fn wants_blocks(&self, _rules: &RuleSet) -> bool {
        false
    }

    fn start(&self, _alloc: Global, _set: &LinterSettings) -> Result<(), NoMemory> {
        Ok(())
    }

    fn step(
        &self,
        _state: &mut (),
        p: &Parse<'_>,
        _i: u32,
        s: &Stmt,
        _seen: &Seen<'_>,
        rules: &RuleSet,
        _set: &LinterSettings,
        out: &mut Reports,
    ) -> Result<(), NoMemory> {
        report_ruled(rows(), rules, p, s, out)
    }

    fn finish(
        &self,
        _alloc: Global,
        _state: (),
        _p: &Parse<'_>,
        _rules: &RuleSet,
        _set: &LinterSettings,
        _out: &mut Reports,
    ) -> Result<(), NoMemory> {
        Ok(())
    }
}
