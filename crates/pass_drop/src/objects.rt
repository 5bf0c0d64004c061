//! Objects that are dropped.

ghost use Rattle.std.specs.Prelude.{◌≡◌, map};
ghost use Rattle.lint_pass.specs.Bans.{lent};

use lint_pass::{BanPass, BanRows, Rule, Spot, StmtKind};

/// Reports each DROP DATABASE.
///
/// It removes a database with all that is in it, at once and for good: it runs in no transaction block and cannot be undone. Each
/// client that still uses the database fails from then on.
///
/// PostgreSQL manual, DROP DATABASE.
#[derive(Drop)]
pub struct BanDropDatabase;

const BAN_DROP_DATABASE: [(Spot, &str, &str); 1] = [(
    Spot::Statement(StmtKind::DropDatabase),
    "dropping a database may break existing clients",
    "",
)];

impl BanPass for BanDropDatabase {
    ghost use Rattle.lint_pass.specs.lint_base.declared.rule.Rule.TheVariants as rule;
    ghost use Rattle.pass_drop.specs.Objects.{rows_of_ban_drop_database};

    ghost code = { λ _. rule.BanDropDatabase };

    ghost rows = { λ _. rows_of_ban_drop_database };

    fn code(&self) -> Rule {
        Rule::BanDropDatabase
    }

    fn rows(&self) -> BanRows {
        &BAN_DROP_DATABASE
    }
}

/// Reports each DROP TABLE and DROP FOREIGN TABLE.
///
/// The table goes with its rows, indexes and triggers, and every client that still uses it fails from then on. The lock that it
/// takes, ACCESS EXCLUSIVE, waits for all of them, and they wait for it.
///
/// PostgreSQL manual, DROP TABLE and DROP FOREIGN TABLE.
#[derive(Drop)]
pub struct BanDropTable;

const BAN_DROP_TABLE: [(Spot, &str, &str); 2] = [
    (
        Spot::Statement(StmtKind::DropTable),
        "dropping a table may break existing clients",
        "",
    ),
    (
        Spot::Statement(StmtKind::DropForeignTable),
        "dropping a table may break existing clients",
        "",
    ),
];

impl BanPass for BanDropTable {
    ghost use Rattle.lint_pass.specs.lint_base.declared.rule.Rule.TheVariants as rule;
    ghost use Rattle.pass_drop.specs.Objects.{rows_of_ban_drop_table};

    ghost code = { λ _. rule.BanDropTable };

    ghost rows = { λ _. rows_of_ban_drop_table };

    fn code(&self) -> Rule {
        Rule::BanDropTable
    }

    fn rows(&self) -> BanRows {
        &BAN_DROP_TABLE
    }
}

/// Reports each DROP VIEW and DROP MATERIALIZED VIEW.
///
/// Clients that read the view fail from then on; the rows of a materialized view are lost.
///
/// PostgreSQL manual, DROP VIEW and DROP MATERIALIZED VIEW.
#[derive(Drop)]
pub struct BanDropView;

const BAN_DROP_VIEW: [(Spot, &str, &str); 2] = [
    (
        Spot::Statement(StmtKind::DropView),
        "dropping a view may break existing clients",
        "",
    ),
    (
        Spot::Statement(StmtKind::DropMaterializedView),
        "dropping a view may break existing clients",
        "",
    ),
];

impl BanPass for BanDropView {
    ghost use Rattle.lint_pass.specs.lint_base.declared.rule.Rule.TheVariants as rule;
    ghost use Rattle.pass_drop.specs.Objects.{rows_of_ban_drop_view};

    ghost code = { λ _. rule.BanDropView };

    ghost rows = { λ _. rows_of_ban_drop_view };

    fn code(&self) -> Rule {
        Rule::BanDropView
    }

    fn rows(&self) -> BanRows {
        &BAN_DROP_VIEW
    }
}

/// Reports each DROP AGGREGATE, FUNCTION, PROCEDURE and ROUTINE.
///
/// Clients that call it fail from then on, and so do statements that the application has prepared.
///
/// PostgreSQL manual, DROP AGGREGATE, DROP FUNCTION, DROP PROCEDURE and DROP ROUTINE.
#[derive(Drop)]
pub struct BanDropFunction;

const BAN_DROP_FUNCTION: [(Spot, &str, &str); 4] = [
    (
        Spot::Statement(StmtKind::DropAggregate),
        "dropping an aggregate may break existing clients",
        "",
    ),
    (
        Spot::Statement(StmtKind::DropFunction),
        "dropping a function may break existing clients",
        "",
    ),
    (
        Spot::Statement(StmtKind::DropProcedure),
        "dropping a function may break existing clients",
        "",
    ),
    (
        Spot::Statement(StmtKind::DropRoutine),
        "dropping a routine may break existing clients",
        "",
    ),
];

impl BanPass for BanDropFunction {
    ghost use Rattle.lint_pass.specs.lint_base.declared.rule.Rule.TheVariants as rule;
    ghost use Rattle.pass_drop.specs.Objects.{rows_of_ban_drop_function};

    ghost code = { λ _. rule.BanDropFunction };

    ghost rows = { λ _. rows_of_ban_drop_function };

    fn code(&self) -> Rule {
        Rule::BanDropFunction
    }

    fn rows(&self) -> BanRows {
        &BAN_DROP_FUNCTION
    }
}

/// Reports each DROP TYPE, CAST, OPERATOR, OPERATOR CLASS and OPERATOR FAMILY.
///
/// Queries that cast to the type, or that rest on the cast or the operator, fail from then on, or are planned without the indexes
/// that the operator class made possible.
///
/// PostgreSQL manual, DROP TYPE, DROP CAST, DROP OPERATOR, DROP OPERATOR CLASS and DROP OPERATOR FAMILY.
#[derive(Drop)]
pub struct BanDropType;

const BAN_DROP_TYPE: [(Spot, &str, &str); 5] = [
    (
        Spot::Statement(StmtKind::DropOperator),
        "dropping an operator may break existing clients",
        "",
    ),
    (
        Spot::Statement(StmtKind::DropOperatorClass),
        "dropping an operator class may break existing clients",
        "",
    ),
    (
        Spot::Statement(StmtKind::DropOperatorFamily),
        "dropping an operator family may break existing clients",
        "",
    ),
    (
        Spot::Statement(StmtKind::DropCast),
        "dropping a cast may break existing clients",
        "",
    ),
    (
        Spot::Statement(StmtKind::DropType),
        "dropping a type may break existing clients",
        "",
    ),
];

impl BanPass for BanDropType {
    ghost use Rattle.lint_pass.specs.lint_base.declared.rule.Rule.TheVariants as rule;
    ghost use Rattle.pass_drop.specs.Objects.{rows_of_ban_drop_type};

    ghost code = { λ _. rule.BanDropType };

    ghost rows = { λ _. rows_of_ban_drop_type };

    fn code(&self) -> Rule {
        Rule::BanDropType
    }

    fn rows(&self) -> BanRows {
        &BAN_DROP_TYPE
    }
}

/// Reports each DROP TRIGGER.
///
/// What the trigger did, checks, audit rows, copies of values, is no longer done, and no client gets an error.
///
/// PostgreSQL manual, DROP TRIGGER.
#[derive(Drop)]
pub struct BanDropTrigger;

const BAN_DROP_TRIGGER: [(Spot, &str, &str); 1] = [(
    Spot::Statement(StmtKind::DropTrigger),
    "dropping a trigger may silently change behavior for existing clients",
    "",
)];

impl BanPass for BanDropTrigger {
    ghost use Rattle.lint_pass.specs.lint_base.declared.rule.Rule.TheVariants as rule;
    ghost use Rattle.pass_drop.specs.Objects.{rows_of_ban_drop_trigger};

    ghost code = { λ _. rule.BanDropTrigger };

    ghost rows = { λ _. rows_of_ban_drop_trigger };

    fn code(&self) -> Rule {
        Rule::BanDropTrigger
    }

    fn rows(&self) -> BanRows {
        &BAN_DROP_TRIGGER
    }
}

/// Reports each DROP SCHEMA.
///
/// With CASCADE all objects in it go too; clients that name one of them, or have the schema in their search path, fail or find
/// another object.
///
/// PostgreSQL manual, DROP SCHEMA.
#[derive(Drop)]
pub struct BanDropSchema;

const BAN_DROP_SCHEMA: [(Spot, &str, &str); 1] = [(
    Spot::Statement(StmtKind::DropSchema),
    "dropping a schema may break existing clients",
    "",
)];

impl BanPass for BanDropSchema {
    ghost use Rattle.lint_pass.specs.lint_base.declared.rule.Rule.TheVariants as rule;
    ghost use Rattle.pass_drop.specs.Objects.{rows_of_ban_drop_schema};

    ghost code = { λ _. rule.BanDropSchema };

    ghost rows = { λ _. rows_of_ban_drop_schema };

    fn code(&self) -> Rule {
        Rule::BanDropSchema
    }

    fn rows(&self) -> BanRows {
        &BAN_DROP_SCHEMA
    }
}

/// Reports each DROP SEQUENCE.
///
/// Clients that take numbers from it fail from then on, and so do defaults that call `nextval`, where CASCADE has not removed them.
///
/// PostgreSQL manual, DROP SEQUENCE.
#[derive(Drop)]
pub struct BanDropSequence;

const BAN_DROP_SEQUENCE: [(Spot, &str, &str); 1] = [(
    Spot::Statement(StmtKind::DropSequence),
    "dropping a sequence may break existing clients",
    "",
)];

impl BanPass for BanDropSequence {
    ghost use Rattle.lint_pass.specs.lint_base.declared.rule.Rule.TheVariants as rule;
    ghost use Rattle.pass_drop.specs.Objects.{rows_of_ban_drop_sequence};

    ghost code = { λ _. rule.BanDropSequence };

    ghost rows = { λ _. rows_of_ban_drop_sequence };

    fn code(&self) -> Rule {
        Rule::BanDropSequence
    }

    fn rows(&self) -> BanRows {
        &BAN_DROP_SEQUENCE
    }
}

/// Reports each DROP DOMAIN.
///
/// Queries and functions that name the domain fail from then on; with CASCADE the columns of the domain go too.
///
/// PostgreSQL manual, DROP DOMAIN.
#[derive(Drop)]
pub struct BanDropDomain;

const BAN_DROP_DOMAIN: [(Spot, &str, &str); 1] = [(
    Spot::Statement(StmtKind::DropDomain),
    "dropping a domain may break existing clients",
    "",
)];

impl BanPass for BanDropDomain {
    ghost use Rattle.lint_pass.specs.lint_base.declared.rule.Rule.TheVariants as rule;
    ghost use Rattle.pass_drop.specs.Objects.{rows_of_ban_drop_domain};

    ghost code = { λ _. rule.BanDropDomain };

    ghost rows = { λ _. rows_of_ban_drop_domain };

    fn code(&self) -> Rule {
        Rule::BanDropDomain
    }

    fn rows(&self) -> BanRows {
        &BAN_DROP_DOMAIN
    }
}
