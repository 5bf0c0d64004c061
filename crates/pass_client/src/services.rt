//! What acts, is replicated, may be done, or is replaced.

ghost use Rattle.std.specs.Prelude.{◌≡◌, map};
ghost use Rattle.lint_pass.specs.Bans.{lent};

use lint_pass::{ActionKind, BanPass, BanRows, Rule, Spot, StmtKind};

/// Reports each trigger and each rule of a table that is enabled or disabled, and each change of its row security but ENABLE ROW LEVEL
/// SECURITY, which has a rule of its own.
///
/// A trigger or a rule that is disabled, or fires on replicas alone, no longer does its work for the application; a table whose
/// policies change shows other rows, or refuses others.
///
/// PostgreSQL manual, ALTER TABLE, "DISABLE/ENABLE TRIGGER", "DISABLE/ENABLE RULE" and "ROW LEVEL SECURITY".
#[derive(Drop)]
pub struct BanDisableTrigger;

const BAN_DISABLE_TRIGGER: [(Spot, &str, &str); 11] = [
    (
        Spot::Action(StmtKind::AlterTable, ActionKind::EnableReplicaTrigger),
        "making a trigger or rule replica-only stops it firing for normal application writes",
        "earlier application revisions may depend on its side effects",
    ),
    (
        Spot::Action(StmtKind::AlterTable, ActionKind::EnableReplicaRule),
        "making a trigger or rule replica-only stops it firing for normal application writes",
        "earlier application revisions may depend on its side effects",
    ),
    (
        Spot::Action(StmtKind::AlterTable, ActionKind::EnableTrigger),
        "changing trigger or rule firing may change database side effects for existing clients",
        "",
    ),
    (
        Spot::Action(StmtKind::AlterTable, ActionKind::EnableAlwaysTrigger),
        "changing trigger or rule firing may change database side effects for existing clients",
        "",
    ),
    (
        Spot::Action(StmtKind::AlterTable, ActionKind::DisableTrigger),
        "changing trigger or rule firing may change database side effects for existing clients",
        "",
    ),
    (
        Spot::Action(StmtKind::AlterTable, ActionKind::EnableRule),
        "changing trigger or rule firing may change database side effects for existing clients",
        "",
    ),
    (
        Spot::Action(StmtKind::AlterTable, ActionKind::EnableAlwaysRule),
        "changing trigger or rule firing may change database side effects for existing clients",
        "",
    ),
    (
        Spot::Action(StmtKind::AlterTable, ActionKind::DisableRule),
        "changing trigger or rule firing may change database side effects for existing clients",
        "",
    ),
    (
        Spot::Action(StmtKind::AlterTable, ActionKind::DisableRls),
        "changing row level security can change visible rows or reject access for existing clients",
        "",
    ),
    (
        Spot::Action(StmtKind::AlterTable, ActionKind::ForceRls),
        "changing row level security can change visible rows or reject access for existing clients",
        "",
    ),
    (
        Spot::Action(StmtKind::AlterTable, ActionKind::NoForceRls),
        "changing row level security can change visible rows or reject access for existing clients",
        "",
    ),
];

impl BanPass for BanDisableTrigger {
    ghost use Rattle.lint_pass.specs.lint_base.declared.rule.Rule.TheVariants as rule;
    ghost use Rattle.pass_client.specs.Services.{rows_of_ban_disable_trigger};

    ghost code = { λ _. rule.BanDisableTrigger };

    ghost rows = { λ _. rows_of_ban_disable_trigger };

    fn code(&self) -> Rule {
        Rule::BanDisableTrigger
    }

    fn rows(&self) -> BanRows {
        &BAN_DISABLE_TRIGGER
    }
}

/// Reports each REPLICA IDENTITY, each publication that is dropped, and the DROP and SET of ALTER PUBLICATION. ADD is not reported.
///
/// Subscribers stop to get rows, or updates and deletes fail on the publisher where no row can be identified.
///
/// PostgreSQL manual, ALTER TABLE, "REPLICA IDENTITY"; DROP PUBLICATION; ALTER PUBLICATION.
#[derive(Drop)]
pub struct BanReplicaIdentity;

const BAN_REPLICA_IDENTITY: [(Spot, &str, &str); 4] = [
    (
        Spot::Action(StmtKind::AlterTable, ActionKind::ReplicaIdentity),
        "changing replica identity may silently change replication for existing clients",
        "",
    ),
    (
        Spot::Statement(StmtKind::DropPublication),
        "dropping a publication stops replication for existing consumers",
        "",
    ),
    (
        Spot::Action(StmtKind::AlterPublication, ActionKind::PublicationDrop),
        "changing publication tables or options can stop or change replication for existing consumers",
        "",
    ),
    (
        Spot::Action(StmtKind::AlterPublication, ActionKind::PublicationSet),
        "changing publication tables or options can stop or change replication for existing consumers",
        "",
    ),
];

impl BanPass for BanReplicaIdentity {
    ghost use Rattle.lint_pass.specs.lint_base.declared.rule.Rule.TheVariants as rule;
    ghost use Rattle.pass_client.specs.Services.{rows_of_ban_replica_identity};

    ghost code = { λ _. rule.BanReplicaIdentity };

    ghost rows = { λ _. rows_of_ban_replica_identity };

    fn code(&self) -> Rule {
        Rule::BanReplicaIdentity
    }

    fn rows(&self) -> BanRows {
        &BAN_REPLICA_IDENTITY
    }
}

/// Reports each REVOKE, also that of default privileges, each OWNER TO, each role or user that is dropped, what is dropped or
/// reassigned of a role's objects, and each member that a group loses. A GRANT is not reported, nor is DROP GROUP.
///
/// Clients that rely on it are refused from then on, some of them only at their next login.
///
/// PostgreSQL manual, REVOKE, DROP OWNED, REASSIGN OWNED, DROP ROLE, ALTER GROUP, ALTER DEFAULT PRIVILEGES, and the OWNER TO forms of
/// the ALTER pages.
#[derive(Drop)]
pub struct BanRevoke;

const BAN_REVOKE: [(Spot, &str, &str); 8] = [
    (
        Spot::AnyAction(ActionKind::OwnerTo),
        "changing object ownership may break existing clients",
        "",
    ),
    (
        Spot::Statement(StmtKind::Revoke),
        "revoking privileges may break existing clients",
        "",
    ),
    (
        Spot::Having(
            StmtKind::AlterDefaultPrivileges,
            ActionKind::RevokePrivileges,
        ),
        "revoking privileges may break existing clients",
        "",
    ),
    (
        Spot::Statement(StmtKind::DropOwned),
        "dropping owned objects or privileges may break existing clients",
        "",
    ),
    (
        Spot::Statement(StmtKind::Reassign),
        "reassigning owned objects may break existing clients",
        "",
    ),
    (
        Spot::Statement(StmtKind::DropUser),
        "dropping a user may break existing clients",
        "",
    ),
    (
        Spot::Statement(StmtKind::DropRole),
        "dropping a role may break existing clients",
        "",
    ),
    (
        Spot::Action(StmtKind::AlterGroup, ActionKind::GroupDrop),
        "removing role membership may break existing clients",
        "",
    ),
];

impl BanPass for BanRevoke {
    ghost use Rattle.lint_pass.specs.lint_base.declared.rule.Rule.TheVariants as rule;
    ghost use Rattle.pass_client.specs.Services.{rows_of_ban_revoke};

    ghost code = { λ _. rule.BanRevoke };

    ghost rows = { λ _. rows_of_ban_revoke };

    fn code(&self) -> Rule {
        Rule::BanRevoke
    }

    fn rows(&self) -> BanRows {
        &BAN_REVOKE
    }
}

/// Reports each CREATE OR REPLACE of a view, a function, a procedure, a trigger, a rule or an aggregate.
///
/// Clients of the version that is being replaced get the new behavior at once.
///
/// PostgreSQL manual, CREATE VIEW, CREATE FUNCTION, CREATE PROCEDURE, CREATE TRIGGER, CREATE RULE and CREATE AGGREGATE.
#[derive(Drop)]
pub struct BanReplaceViewFunction;

const BAN_REPLACE_VIEW_FUNCTION: [(Spot, &str, &str); 6] = [
    (
        Spot::Replacing(StmtKind::CreateView),
        "replacing a view, function, or procedure may silently change behavior for existing clients",
        "",
    ),
    (
        Spot::Replacing(StmtKind::CreateFunction),
        "replacing a view, function, or procedure may silently change behavior for existing clients",
        "",
    ),
    (
        Spot::Replacing(StmtKind::CreateProcedure),
        "replacing a view, function, or procedure may silently change behavior for existing clients",
        "",
    ),
    (
        Spot::Replacing(StmtKind::CreateTrigger),
        "replacing a trigger may silently change behavior for existing clients",
        "",
    ),
    (
        Spot::Replacing(StmtKind::CreateRule),
        "replacing a rule may silently change behavior for existing clients",
        "",
    ),
    (
        Spot::Replacing(StmtKind::CreateAggregate),
        "replacing an aggregate may silently change behavior for existing clients",
        "",
    ),
];

impl BanPass for BanReplaceViewFunction {
    ghost use Rattle.lint_pass.specs.lint_base.declared.rule.Rule.TheVariants as rule;
    ghost use Rattle.pass_client.specs.Services.{rows_of_ban_replace_view_function};

    ghost code = { λ _. rule.BanReplaceViewFunction };

    ghost rows = { λ _. rows_of_ban_replace_view_function };

    fn code(&self) -> Rule {
        Rule::BanReplaceViewFunction
    }

    fn rows(&self) -> BanRows {
        &BAN_REPLACE_VIEW_FUNCTION
    }
}
