//! Changes of tables, types and sequences that clients may use already.

ghost use Rattle.std.specs.Prelude.{◌≡◌, ◌++◌, OnOk, OnErr};
ghost use Rattle.lint_base.specs.Grown.{GrownBy};
ghost use Rattle.pass_object.specs.ExistingObjectCompatibility.{changes_in, existing_rules, is_enabled, unless_known};

use crate::change_rows::rows_of;
use crate::changes::Changes;
use crate::known_objects::KnownObjects;
use lint_base::{LinterSettings, Reports, Rule, RuleSet};
use lint_pass::{NoMemory, Parse, Seen, StepPass, Stmt};
use std::alloc::Global;

/// Reports what an existing table, foreign table, domain, type or sequence newly asks of its clients, by six rules:
///
/// - a column that is added, so that rows have one more value (`ban-add-column`);
/// - a constraint, a NOT NULL or a unique index that is added, or a constraint that is enforced at another time, so that a write
///   which went well before may be refused (`ban-new-write-restriction`);
/// - a value that is added to an enum type (`ban-add-enum-value`), and an attribute that is added to a composite type
///   (`ban-add-composite-attribute`), so that clients receive what they do not know;
/// - a partition that is detached, and a child that no longer inherits, so that the parent table has fewer rows
///   (`ban-detach-inheritance`);
/// - a sequence that gives other values (`ban-alter-sequence-values`).
///
/// While a migration is deployed, clients of the old version are still running: they were written before the change, and they are
/// not asked. A table, a type or a sequence that an earlier statement of the text creates has no such clients, so nothing is
/// reported of it. With IF NOT EXISTS the object may be an old one. Whether an ALTER FOREIGN TABLE or an ALTER DOMAIN is of a new
/// object is not looked at.
///
/// PostgreSQL manual, ALTER TABLE, "Description" and Notes; ALTER FOREIGN TABLE; ALTER DOMAIN; CREATE INDEX, "UNIQUE"; ALTER TYPE;
/// ALTER SEQUENCE, Notes; section 5.12, "Table Partitioning".
#[derive(Drop)]
pub struct ExistingObjectCompatibility;

fn rules() -> RuleSet
    ensures { result ≡ existing_rules }
{
    let mut rules = RuleSet::empty();
    rules.insert(Rule::BanNewWriteRestriction);
    rules.insert(Rule::BanAddEnumValue);
    rules.insert(Rule::BanAddCompositeAttribute);
    rules.insert(Rule::BanAddColumn);
    rules.insert(Rule::BanDetachInheritance);
    rules.insert(Rule::BanAlterSequenceValues);
    rules
}

/// Whether some rule of the pass is enabled.
fn is_some_enabled(enabled: &RuleSet) -> bool
    ensures { result ≡ is_enabled enabled.now }
{
    enabled.intersects(rules())
}

fn report_changes(
    rules: &RuleSet,
    p: &Parse<'_>,
    s: &Stmt,
    out: &mut Reports,
) -> Result<(), NoMemory>
    ensures ok { OnOk result (out.new ≡ out.old ++ changes_in p.now rules.now s.now) }
    ensures err { OnErr result (GrownBy out.old out.new (changes_in p.now rules.now s.now)) }
{
    let changes = Changes {
        rules: *rules,
        rows: rows_of(s.kind),
    };
    changes.report(p, s, out)
}

/// Reports a statement, unless it changes an object that the text creates.
fn report_unless(
    is_known: bool,
    rules: &RuleSet,
    p: &Parse<'_>,
    s: &Stmt,
    out: &mut Reports,
) -> Result<(), NoMemory>
    ensures ok { OnOk result (out.new ≡ out.old ++ unless_known is_known p.now rules.now s.now) }
    ensures err { OnErr result (GrownBy out.old out.new (unless_known is_known p.now rules.now s.now)) }
{
    if is_known {
        Ok(())
    } else {
        report_changes(rules, p, s, out)
    }
}

impl StepPass for ExistingObjectCompatibility {
    ghost use Rattle.std.specs.Prelude.{◌≡◌, [], true, false};
    ghost use Rattle.std.proofs.lemmas.List.{append-nil};
    ghost use Rattle.pass_object.specs.ChangeLaws.{existing_apart, existing_coded, existing_placed};
    ghost use Rattle.pass_object.specs.ExistingObjectCompatibility.{existing_at, existing_rules, reports_of_existing_object_compatibility, is_enabled};
    ghost use Rattle.pass_object.specs.KnownObjects.{IsKnowing};

    type State = KnownObjects;

    ghost own = { λ _. existing_rules };

    ghost at = { λ _ known tree r _ i. is_enabled r ≡ true → IsKnowing tree i known };

    ghost wants = { λ _ _. false };

    ghost reports_at = { λ _ tree r _ i. existing_at tree r i };

    ghost tail = { λ _ _ _ _. [] };

    ghost table = { λ _ tree r _. reports_of_existing_object_compatibility tree r };

    ghost whole = { λ _ tree r _. append-nil (reports_of_existing_object_compatibility tree r) };

    ghost coded = { λ _ tree r _. existing_coded tree r };

    ghost placed = { λ _ tree r _ read. existing_placed tree r read };

    ghost apart = { λ _ tree _ q some others same. existing_apart tree q some others same };

    fn rules(&self) -> RuleSet {
        rules()
    }

    fn wants_blocks(&self, _rules: &RuleSet) -> bool {
        false
    }

    fn start(&self, alloc: Global, _set: &LinterSettings) -> Result<KnownObjects, NoMemory> {
        Ok(KnownObjects::new(alloc))
    }

    fn step(
        &self,
        known: &mut KnownObjects,
        p: &Parse<'_>,
        _i: u32,
        s: &Stmt,
        _seen: &Seen<'_>,
        rules: &RuleSet,
        _set: &LinterSettings,
        out: &mut Reports,
    ) -> Result<(), NoMemory> {
        if !is_some_enabled(rules) {
            return Ok(());
        }
        let is_known = known.has_changed(p, s);
        report_unless(is_known, rules, p, s, out)?;
        known.update(p, s)?;
        Ok(())
    }

    fn finish(
        &self,
        _alloc: Global,
        _known: KnownObjects,
        _p: &Parse<'_>,
        _rules: &RuleSet,
        _set: &LinterSettings,
        _out: &mut Reports,
    ) -> Result<(), NoMemory> {
        Ok(())
    }
}
