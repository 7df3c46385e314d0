//! What holds of every rule that another hides. The function does nothing: its contract is the law.
ghost use Rattle.std.specs.Prelude.{◌≡◌, ◌≢◌, ◌<◌, ℕ, true, List, slice_get, Some};
ghost use Rattle.access_rules.specs.Deciding.{Deed, SiteRules, deciding, rules_in};
ghost use Rattle.access_rules.specs.declared.rule.Rule.{Rule};
ghost use Rattle.site_check.specs.Hiding.{hides};

/// A rule that an earlier one hides never decides.
pub fn a_hidden_rule_never_decides()
    ensures { (rules : SiteRules) (first later : ℕ) (wide narrow : Rule) → first < later → slice_get (rules_in rules) first ≡ Some wide → slice_get (rules_in rules) later ≡ Some narrow
        → hides wide narrow ≡ true → (d : Deed) (scope : List ℕ) → (deciding rules d scope).rule ≢ Some later }
{}
