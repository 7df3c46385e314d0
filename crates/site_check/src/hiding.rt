//! Which rules no deed ever comes to.
ghost use Rattle.std.specs.Prelude.{◌≡◌};
ghost use Rattle.std.specs.List.{list_all, list_any};
ghost use Rattle.access_rules.specs.Deciding.{action_eq};
ghost use Rattle.slp_text.specs.Words.{bytes_eq};
ghost use Rattle.site_check.specs.Hiding as spec;
ghost use Rattle.site_check.specs.Hiding.{hides_kind, hides_scopes};

use access_rules::{Action, Rule};
use addresses::Prefix;
use slp_scopes::ScopeList;

// Whether each address of a prefix is one of another.
fn is_inside(prefix: &Prefix, wide: &Prefix) -> bool
    ensures { result ≡ spec.is_inside prefix.now wide.now }
{
    wide.bits <= prefix.bits && wide.holds(prefix.addr)
}

// Whether a prefix lies inside one of others.
fn is_inside_one(prefix: &Prefix, wide: &[Prefix]) -> bool
    ensures { result ≡ list_any (spec.is_inside prefix.now) wide.now }
{
    wide.iter().any(|other| is_inside(prefix, other))
}

// Whether each prefix lies inside one of others.
fn are_inside(prefixes: &[Prefix], wide: &[Prefix]) -> bool
    ensures { result ≡ list_all (λ p. list_any (spec.is_inside p) wide.now) prefixes.now }
{
    prefixes.iter().all(|prefix| is_inside_one(prefix, wide))
}

// Whether a rule is about each asker that another is about.
fn is_from_all(wide: &Rule, narrow: &Rule) -> bool
    ensures { result ≡ list_all (λ p. list_any (spec.is_inside p) wide.now.from) narrow.now.from }
{
    are_inside(narrow.from.as_slice(), wide.from.as_slice())
}

/// Whether two actions are one.
pub(crate) fn is_same(a: Action, b: Action) -> bool
    ensures { result ≡ action_eq a b }
{
    match a {
        Action::Register => matches!(b, Action::Register),
        Action::Withdraw => matches!(b, Action::Withdraw),
        Action::See => matches!(b, Action::See),
    }
}

// Whether a rule is about each type that another is about.
fn is_of_all(wide: &Rule, narrow: &Rule) -> bool
    ensures { result ≡ hides_kind wide.now.kind narrow.now.kind }
{
    match (&wide.kind, &narrow.kind) {
        (None, _) => true,
        (Some(_), None) => false,
        (Some(wide), Some(narrow)) => wide.covers(narrow),
    }
}

// Whether each of some scopes is one of others.
fn has_all(wide: &ScopeList, narrow: &ScopeList) -> bool
    ensures { result ≡ list_all (λ s. list_any (λ k. bytes_eq k s) wide.now) narrow.now }
{
    for i in 0..narrow.len() {
        if let Some(scope) = narrow.at(i) {
            if !wide.has(scope) {
                return false;
            }
        }
    }
    true
}

// Whether a rule is about each scope that another is about.
fn is_in_all(wide: &Rule, narrow: &Rule) -> bool
    ensures { result ≡ hides_scopes wide.now.scopes narrow.now.scopes }
{
    match (&wide.scopes, &narrow.scopes) {
        (None, _) => true,
        (Some(_), None) => false,
        (Some(wide), Some(narrow)) => has_all(wide, narrow),
    }
}

/// Whether a rule fits whatever another fits, so that the other never decides after it. Takes no memory.
pub fn hides(wide: &Rule, narrow: &Rule) -> bool
    ensures { result ≡ spec.hides wide.now narrow.now }
{
    is_same(wide.action, narrow.action)
        && is_from_all(wide, narrow)
        && is_of_all(wide, narrow)
        && is_in_all(wide, narrow)
        && (!wide.owner || narrow.owner)
}
