//! Objects that are dropped beside those of `pass_drop`.

ghost use Rattle.std.specs.Prelude.{◌≡◌, map};
ghost use Rattle.lint_pass.specs.Bans.{lent};

use lint_pass::{BanPass, BanRows, Rule, Spot, StmtKind};

/// Reports each DROP EXTENSION.
///
/// Its functions, types and operators go with it, and clients that use one of them fail from then on.
///
/// PostgreSQL manual, DROP EXTENSION.
#[derive(Drop)]
pub struct BanDropExtension;

const BAN_DROP_EXTENSION: [(Spot, &str, &str); 1] = [(
    Spot::Statement(StmtKind::DropExtension),
    "dropping an extension also removes its functions, types, and other objects, which may break existing clients",
    "",
)];

impl BanPass for BanDropExtension {
    ghost use Rattle.lint_pass.specs.lint_base.declared.rule.Rule.TheVariants as rule;
    ghost use Rattle.pass_drop.specs.Others.{rows_of_ban_drop_extension};

    ghost code = { λ _. rule.BanDropExtension };

    ghost rows = { λ _. rows_of_ban_drop_extension };

    fn code(&self) -> Rule {
        Rule::BanDropExtension
    }

    fn rows(&self) -> BanRows {
        &BAN_DROP_EXTENSION
    }
}

/// Reports each DROP INDEX.
///
/// Queries that the index served are planned without it, and a unique index no longer keeps duplicates out.
///
/// PostgreSQL manual, DROP INDEX.
#[derive(Drop)]
pub struct BanDropIndex;

const BAN_DROP_INDEX: [(Spot, &str, &str); 1] = [(
    Spot::Statement(StmtKind::DropIndex),
    "dropping an index may remove a guarantee or change query plans for existing clients",
    "",
)];

impl BanPass for BanDropIndex {
    ghost use Rattle.lint_pass.specs.lint_base.declared.rule.Rule.TheVariants as rule;
    ghost use Rattle.pass_drop.specs.Others.{rows_of_ban_drop_index};

    ghost code = { λ _. rule.BanDropIndex };

    ghost rows = { λ _. rows_of_ban_drop_index };

    fn code(&self) -> Rule {
        Rule::BanDropIndex
    }

    fn rows(&self) -> BanRows {
        &BAN_DROP_INDEX
    }
}

/// Reports each DROP POLICY and DROP RULE.
///
/// Without its policy a table shows other rows than before, or none; without its rule a statement does something else. No client
/// gets an error.
///
/// PostgreSQL manual, DROP POLICY and DROP RULE.
#[derive(Drop)]
pub struct BanDropPolicy;

const BAN_DROP_POLICY: [(Spot, &str, &str); 2] = [
    (
        Spot::Statement(StmtKind::DropPolicy),
        "dropping a policy or rule may silently change behavior for existing clients",
        "",
    ),
    (
        Spot::Statement(StmtKind::DropRule),
        "dropping a policy or rule may silently change behavior for existing clients",
        "",
    ),
];

impl BanPass for BanDropPolicy {
    ghost use Rattle.lint_pass.specs.lint_base.declared.rule.Rule.TheVariants as rule;
    ghost use Rattle.pass_drop.specs.Others.{rows_of_ban_drop_policy};

    ghost code = { λ _. rule.BanDropPolicy };

    ghost rows = { λ _. rows_of_ban_drop_policy };

    fn code(&self) -> Rule {
        Rule::BanDropPolicy
    }

    fn rows(&self) -> BanRows {
        &BAN_DROP_POLICY
    }
}
