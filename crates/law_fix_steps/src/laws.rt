//! What is reported of a text in which a fix was made, by all listed rules.

ghost use Rattle.law_type_fixes.specs.law_fixes.Mended as word;
ghost use Rattle.law_type_fixes.specs.Rules as column;
ghost use Rattle.law_fix_steps.specs.Leaves.{FixesLeave};
ghost use Rattle.law_fix_steps.specs.Step.{FixesStep, LoadIsSmall, timeouts};

/// The fix of each report of a listed rule makes a text that has a tree, if it joins no word. In the tables of all ten
/// listed rules no report is new there, by its rule and place, and there is at least one less.
pub fn fixes_step()
    ensures builds { FixesStep word.builds }
    ensures dropped { FixesStep word.dropped }
    ensures rebuilt { FixesStep word.rebuilt }
    ensures detached { FixesStep word.detached }
    ensures varchars { FixesStep (column.type_table column.varchars) }
    ensures timestamps { FixesStep (column.type_table column.timestamps) }
    ensures ints { FixesStep (column.type_table column.ints) }
    ensures smallints { FixesStep (column.type_table column.smallints) }
    ensures timeouts { FixesStep timeouts }
{}

/// The fix of each report of a rule whose fixes are followed leaves all other reports of these rules, with their fixes, but
/// for those that begin at the same place. So what is found in one text is known of the next one too, without looking for it again.
pub fn fixes_leave()
    ensures builds { FixesLeave word.builds }
    ensures dropped { FixesLeave word.dropped }
    ensures rebuilt { FixesLeave word.rebuilt }
    ensures varchars { FixesLeave (column.type_table column.varchars) }
    ensures timestamps { FixesLeave (column.type_table column.timestamps) }
    ensures ints { FixesLeave (column.type_table column.ints) }
    ensures smallints { FixesLeave (column.type_table column.smallints) }
{}

/// A text has less than 2^64 reports of listed rules, so fixes can be counted in a `u64`: each report is of a statement,
/// an action or a column type, and these begin at different tokens.
pub fn load_is_small()
    ensures { LoadIsSmall }
{}
