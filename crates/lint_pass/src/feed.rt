//! The walk that feeds a step pass.

ghost use Rattle.std.specs.Prelude.{◌≡◌, ◌+◌, ◌*◌, ◌<◌, ◌≤◌, ◌++◌, length, true, OnOk, OnErr, IfOk};
ghost use Rattle.lint_pass.specs.Blocks.{blocks_of};
ghost use Rattle.lint_base.specs.Grown.{GrownBy};
ghost use Rattle.lint_pass.specs.Cleared.{IsCleared};

use crate::blocks::{Block, find_blocks};
use crate::cursor::Cursor;
use crate::seen::Seen;
use crate::step::StepPass;
use crate::steps::Steps;
use lint_base::{LinterSettings, NoMemory, Reports, RuleSet};
use lint_ignore::Parse;
use lint_transaction::TablesCreatedInTransaction;
use std::alloc::Global;
use std::marker::Brand;
use std::sync::ledger::{Blank, Ledger};

/// The blocks of the cursor's tree, where the pass looks at them, and none where it does not.
fn wanted_blocks<P: StepPass, L: Ledger>(
    alloc: Global,
    pass: &P,
    rules: &RuleSet,
    cursor: &mut Cursor<'_, '_>,
    steps: &mut Steps<L>,
) -> Result<Vec<Block>, NoMemory>
    requires { cursor.old.next ≡ 0 }
    ensures tree { cursor.new.tree ≡ cursor.old.tree }
    ensures blocks { IfOk result (λ blocks. P.wants pass.now rules.now ≡ true → blocks.items ≡ blocks_of cursor.old.tree) }
    ensures steps { steps.new ≤ steps.old + length cursor.old.tree.stmts }
{
    if pass.wants_blocks(rules) {
        find_blocks(alloc, cursor, steps)
    } else {
        Ok(Vec::new(alloc))
    }
}

/// Feeds a pass with the statements of a tree, in order, and adds its reports. It goes over the statements once, and once
/// before for the blocks, where the pass looks at them; and it keeps the tables that the open transaction created, which all passes
/// ask. The error comes when memory runs out; then a first part of the reports has been added.
pub fn drive<P: StepPass, L: Ledger>(
    alloc: Global,
    pass: &P,
    p: &Parse<'_>,
    rules: &RuleSet,
    set: &LinterSettings,
    out: &mut Reports,
    steps: &mut Steps<L>,
) -> Result<(), NoMemory>
    requires { IsCleared p.now set.now }
    ensures ok { OnOk result (out.new ≡ out.old ++ P.table pass.now p.now rules.now set.now) }
    ensures err { OnErr result (GrownBy out.old out.new (P.table pass.now p.now rules.now set.now)) }
    ensures steps { steps.new ≤ steps.old + 2 * length p.now.stmts }
{
    let mut cursor = Cursor::new(p);
    let blocks = wanted_blocks(alloc, pass, rules, &mut cursor, steps)?;
    cursor.rewind();
    let mut state = pass.start(alloc, set)?;
    let created = TablesCreatedInTransaction::new(alloc, set.assume_in_transaction);
    let mut seen = Seen { blocks, created };
    while let Some((i, s)) = cursor.next(steps) {
        pass.step(&mut state, p, i, s, &seen, rules, set, out)?;
        seen.created.update(p, s)?;
    }
    pass.finish(alloc, state, p, rules, set, out)
}

// The walk over a new ledger, which the caller picks.
fn drive_blank<P: StepPass, L: Ledger>(
    blank: Blank,
    alloc: Global,
    pass: &P,
    p: &Parse<'_>,
    rules: &RuleSet,
    set: &LinterSettings,
    out: &mut Reports,
) -> Result<(), NoMemory>
    requires name { blank.name ≡ L.name }
    requires parts { blank.parts ≡ L.parts }
    requires some { 0 < blank.parts }
    requires cleared { IsCleared p.now set.now }
    ensures ok { OnOk result (out.new ≡ out.old ++ P.table pass.now p.now rules.now set.now) }
    ensures err { OnErr result (GrownBy out.old out.new (P.table pass.now p.now rules.now set.now)) }
{
    let mut steps = Steps::<L>::new(blank);
    drive(alloc, pass, p, rules, set, out, &mut steps)
}

/// The same walk, whose steps nobody counts.
pub fn walk<P: StepPass>(
    alloc: Global,
    pass: &P,
    p: &Parse<'_>,
    rules: &RuleSet,
    set: &LinterSettings,
    out: &mut Reports,
) -> Result<(), NoMemory>
    requires { IsCleared p.now set.now }
    ensures ok { OnOk result (out.new ≡ out.old ++ P.table pass.now p.now rules.now set.now) }
    ensures err { OnErr result (GrownBy out.old out.new (P.table pass.now p.now rules.now set.now)) }
{
    drive_blank::<P, Brand>(Blank::new(1), alloc, pass, p, rules, set, out)
}
