//! What holds of every list of rules. The functions do nothing: their contracts are the laws.
ghost use Rattle.std.specs.Prelude.{◌≡◌, ◌≢◌, ◌<◌, ◌&&◌, ℕ, true, false, List, slice_get, Some, None};
ghost use Rattle.std.specs.List.{list_all, list_any};
ghost use Rattle.access_rules.specs.Deciding.{Deed, SiteRules, deciding, deed, fits, is_own, is_owners, is_without_owners, may_show, rules_in};
ghost use Rattle.access_rules.specs.declared.rule.Action.{Action};
ghost use Rattle.access_rules.specs.declared.rule.Action.TheVariants.{See};
ghost use Rattle.service_url.specs.Types.{covers};
ghost use Rattle.access_rules.specs.declared.rule.Rule.{Rule};

/// The rule that decides fits, its word is the verdict, and no rule before it fits.
pub fn the_first_rule_that_fits_decides()
    ensures { (rules : SiteRules) (d : Deed) (scope : List ℕ) (place : ℕ) → (deciding rules d scope).rule ≡ Some place
        → (r : Rule) × (slice_get (rules_in rules) place ≡ Some r) × (fits d scope r ≡ true) × ((deciding rules d scope).allow ≡ r.allow)
        × ((other : ℕ) (s : Rule) → other < place → slice_get (rules_in rules) other ≡ Some s → fits d scope s ≡ false) }
{}

/// What no rule allows is denied, and where no rule fits it is denied by default.
pub fn what_no_rule_allows_is_denied()
    ensures denied { (rules : SiteRules) (d : Deed) (scope : List ℕ)
        → list_any (λ r. fits d scope r && r.allow) (rules_in rules) ≡ false → (deciding rules d scope).allow ≡ false }
    ensures by_default { (rules : SiteRules) (d : Deed) (scope : List ℕ)
        → list_any (fits d scope) (rules_in rules) ≡ false → deciding rules d scope ≡ record { allow = false; rule = None } }
{}

/// What no rule may show of the types that one covers is denied, of each of these.
pub fn what_no_rule_may_show_is_denied()
    ensures { (rules : SiteRules) (d : Deed) (kind scope : List ℕ) → d.action ≡ See → covers kind d.kind ≡ true
        → list_any (may_show d.asker kind scope) (rules_in rules) ≡ false → (deciding rules d scope).allow ≡ false }
{}

/// A rule never decides that stands after one which fits whatever it fits.
pub fn a_covered_rule_never_decides()
    ensures { (rules : SiteRules) (first later : ℕ) (wide narrow : Rule) → first < later → slice_get (rules_in rules) first ≡ Some wide → slice_get (rules_in rules) later ≡ Some narrow
        → ((d : Deed) (scope : List ℕ) → fits d scope narrow ≡ true → fits d scope wide ≡ true)
        → (d : Deed) (scope : List ℕ) → (deciding rules d scope).rule ≢ Some later }
{}

/// Where each rule about an action is about owners alone, nobody is allowed it with what another registered.
pub fn owners_alone_are_allowed()
    ensures { (rules : SiteRules) (d : Deed) (scope : List ℕ) → list_all (is_owners d.action) (rules_in rules) ≡ true → is_own d ≡ false → (deciding rules d scope).allow ≡ false }
{}

/// Rules without owners decide the same whoever registered.
pub fn without_owners_nobody_is_asked_for()
    ensures { (rules : SiteRules) (asker : ℕ) (action : Action) (kind : List ℕ) (one other : ℕ) (scope : List ℕ) → is_without_owners rules ≡ true
        → deciding rules (deed asker action kind one) scope ≡ deciding rules (deed asker action kind other) scope }
{}
