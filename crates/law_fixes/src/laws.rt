//! What is reported of a text in which a fix was made.

ghost use Rattle.pass_concurrent.specs.lint_base.declared.rule.Rule.TheVariants as rule;
ghost use Rattle.law_fixes.specs.Mended as table;
ghost use Rattle.law_fixes.specs.Mended.{FixesMend};
ghost use Rattle.law_fixes.specs.Stays.{DetachesStay, TableStays};
ghost use Rattle.law_fixes.specs.Timeouts.{TimeoutsMend};

/// The fix of each report of an index that is built, dropped or rebuilt, or of a partition that is detached, makes a text that
/// has a tree. Its terminals are those of the old text but for the word CONCURRENTLY, and the rule reports nothing where that
/// report began.
pub fn fixes_mend()
    ensures builds { FixesMend table.builds }
    ensures dropped { FixesMend table.dropped }
    ensures rebuilt { FixesMend table.rebuilt }
    ensures detached { FixesMend table.detached }
{}

/// A statement with the word, or an action with it, is not reported, and all other reports are the old ones, moved: no more of
/// them, and no fewer.
pub fn tables_stay()
    ensures builds { TableStays rule.RequireConcurrentIndexCreation table.builds_of }
    ensures dropped { TableStays rule.RequireConcurrentIndexDeletion table.deletions_of }
    ensures rebuilt { TableStays rule.RequireConcurrentReindex table.rebuilds_of }
    ensures detached { DetachesStay }
{}

/// The fix of each report on timeouts makes a text that has a tree: the Set, which is right before the first significant token,
/// and then the statements of the old text. The rule reports nothing there.
pub fn timeouts_mend()
    ensures { TimeoutsMend }
{}
