//! Laws of the names and of the sets.

ghost use Rattle.std.specs.Prelude.{◌≡◌, None};
ghost use Rattle.lint_base.specs.RuleNames.{rule_named};
ghost use Rattle.hazard_base.specs.declared.hazard.Hazard.{Hazard};
ghost use Rattle.hazard_base.specs.declared.hazard_set.HazardSet.{HazardSet};
ghost use Rattle.hazard_base.specs.Hazards.{name_of};
ghost use Rattle.hazard_base.specs.HazardSets.{has};

/// No hazard's name names a rule.
pub fn names_are_apart()
    ensures { (h : Hazard) → rule_named (name_of h) ≡ None }
{}

/// Two sets with the same hazards are equal.
pub fn sets_are_their_hazards()
    ensures { (a b : HazardSet) → ((h : Hazard) → has a h ≡ has b h) → a ≡ b }
{}
