//! Laws of the definitions.

ghost use Rattle.sql_tree.specs.Leads.{LeadsInTheirFamily, LongestLeadWins};
ghost use Rattle.sql_tree.specs.Split.{ChunksFollow};
ghost use Rattle.sql_tree.specs.Statement.{OneTree, OneFault, NeverTreeAndFault};

/// A text has at most one tree, and at most one first statement that is none, and not both.
pub fn one_answer()
    ensures tree { OneTree }
    ensures fault { OneFault }
    ensures not_both { NeverTreeAndFault }
{}

/// The chunks of a list are its first one and those of what follows it, whatever tells how long they are.
pub fn chunks_follow()
    ensures { ChunksFollow }
{}

/// The first row whose lead words match is the one with the longest lead: in each table, no lead of an earlier row is the
/// beginning of a longer one of a later row.
pub fn longest_lead_wins()
    ensures { LongestLeadWins }
{}

/// No row of CREATE, ALTER or DROP is missed because a statement is looked up in the table of one family alone: each lead of
/// a row is found in the table of the family that its first word tells.
pub fn leads_in_their_family()
    ensures { LeadsInTheirFamily }
{}
