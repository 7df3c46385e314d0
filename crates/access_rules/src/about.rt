//! What of the rules and hide tables is about one asker.
ghost use Rattle.std.specs.Prelude.{◌≡◌, ℕ, List, length, nat_eq};
ghost use Rattle.std.specs.List.{list_any};
ghost use Rattle.access_rules.specs.Deciding.{deciding, deed_in, hides_in, is_hidden, is_hidden_from, may_show, number, part_in, rules_in, IsPart, SeeAlike};

use crate::hide::{FittingHides, Hide, fitting, some_hides};
use crate::rule::{Action, Deed, Rule, is_from};
use crate::rules::{Rules, first_fitting};
use addresses::Addr;
use service_url::ServiceType;
use slp_text::Key;

// What names the askers that it is about.
trait Concerns {
    ghost use Rattle.std.specs.Prelude.{ℕ, Bool};

    // Whether it is about what an asker sees.
    ghost is_about: { Self → ℕ → Bool };

    // Takes no memory.
    fn concerns(&self, asker: Addr) -> bool
        ensures { result ≡ is_about self.now asker };
}

impl Concerns for Rule {
    ghost use Rattle.access_rules.specs.Deciding.{is_rule_about};

    ghost is_about = { is_rule_about };

    fn concerns(&self, asker: Addr) -> bool {
        matches!(self.action, Action::See) && is_from(&self.from, asker)
    }
}

impl Concerns for Hide {
    ghost use Rattle.access_rules.specs.Deciding.{is_hide_about};

    ghost is_about = { is_hide_about };

    fn concerns(&self, asker: Addr) -> bool {
        is_from(&self.from, asker)
    }
}

// The part of a list from the first that is about an asker to the last.
fn part_about<T: Concerns>(all: &[T], asker: Addr) -> &[T]
    ensures { IsPart (λ x. T.is_about x asker) result.now all.now }
{
    let mut part = all;
    while let Some((first, rest)) = part.split_first() {
        if first.concerns(asker) {
            break;
        }
        part = rest;
    }
    while let Some((last, rest)) = part.split_last() {
        if last.concerns(asker) {
            break;
        }
        part = rest;
    }
    part
}

/// The rules and the hide tables that are about what one asker sees: each from the first to the last, with those of others that lie between. A
/// question is answered by these alone.
#[derive(Clone, Copy)]
pub struct RulesAbout<'a> {
    rules: &'a [Rule],
    hides: &'a [Hide],
}

impl Rules {
    /// What of these is about what an asker sees. Each is asked once at most whether it is. Takes no memory.
    pub fn about(&self, asker: Addr) -> RulesAbout<'_>
        ensures { SeeAlike asker (part_in result) self.now }
    {
        RulesAbout {
            rules: part_about(self.as_slice(), asker),
            hides: part_about(self.hide_tables(), asker),
        }
    }
}

impl<'a> RulesAbout<'a> {
    /// How many rules there are, with those of others that lie between. Takes no memory.
    pub fn len(&self) -> usize
        ensures { result ≡ number (part_in self.now) }
    {
        self.rules.len()
    }

    /// Whether nothing is hidden, whatever is asked. Takes no memory.
    pub fn hide_nothing(&self) -> bool
        ensures { result ≡ nat_eq (length (hides_in (part_in self.now))) 0 }
    {
        self.hides.is_empty()
    }

    /// Whether the first rule that fits a deed in a scope allows it. Takes no memory.
    // Inlined, so that a deed lies in registers while the rules are passed over.
    #[inline(always)]
    pub fn allow(&self, deed: &Deed<'_>, scope: &Key) -> bool
        ensures { result ≡ (deciding (part_in self.now) (deed_in deed.now) scope.now).allow }
    {
        match first_fitting(self.rules, deed, scope) {
            Some((_, rule)) => rule.allow,
            None => false,
        }
    }

    /// Whether some rule may show something to an asker, of the types that one covers, in a scope. Where none may, all of these are denied
    /// there. Takes no memory.
    pub fn may_show(&self, asker: Addr, kind: &ServiceType, scope: &Key) -> bool
        ensures { result ≡ list_any (may_show asker kind.now scope.now) (rules_in (part_in self.now)) }
    {
        self.rules
            .iter()
            .any(|rule| rule.may_show(asker, kind, scope))
    }

    /// The hide tables that fit what is asked in a scope, if there are any: each is asked once, up to the first that fits. Takes no memory.
    pub fn fitting_hides(&self, deed: &Deed<'_>, scope: &Key) -> Option<FittingHides<'a>>
        ensures { (tag : List ℕ) → is_hidden_from result (deed_in deed.now) scope.now tag ≡ is_hidden (part_in self.now) (deed_in deed.now) scope.now tag }
    {
        fitting(self.hides, deed, scope)
    }

    /// Whether some hide table that fits what is asked in a scope selects a tag: no rule is asked. Takes no memory.
    pub fn hide_tag(&self, deed: &Deed<'_>, scope: &Key, tag: &Key) -> bool
        ensures { result ≡ is_hidden (part_in self.now) (deed_in deed.now) scope.now tag.now }
    {
        some_hides(self.hides, deed, scope, tag)
    }
}
