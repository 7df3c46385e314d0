ghost use Rattle.std.specs.Prelude.{◌≡◌, ◌<◌, position, slice_get, Some, IfSome};
ghost use Rattle.std.specs.Option.{option_map};
ghost use Rattle.access_rules.specs.Deciding.{deciding, deed_in, fits, hides_in, number, rules_in};

use crate::hide::Hide;
use crate::rule::{Deed, Rule};
use slp_text::Key;
use std::marker::Model;

/// What was decided, and the place of the rule that decided it. `None` is the default, which denies.
#[derive(Clone, Copy, Debug)]
pub struct Verdict {
    pub allow: bool,
    pub rule: Option<usize>,
}

/// Rules in their order, and what is hidden beside them.
pub struct Rules {
    rules: Vec<Rule>,
    hides: Vec<Hide>,
}

impl Drop for Rules {
    fn drop(self) {
        let Rules { rules: _, hides: _ } = self;
    }
}

impl Model for Rules {
    ghost use Rattle.access_rules.specs.Codes.{rules_code};
    ghost use Rattle.access_rules.specs.Deciding.{SiteRules};

    ghost Value = { SiteRules };

    ghost coded = { rules_code };

    ghost view = { λ a. record { rules = a.rules.items; hides = a.hides.items } };
}

// The first rule that fits, with its place.
#[inline(always)]
pub(crate) fn first_fitting<'a>(
    rules: &'a [Rule],
    deed: &Deed<'_>,
    scope: &Key,
) -> Option<(usize, &'a Rule)>
    ensures place { option_map (λ p. p.0) result ≡ position (fits (deed_in deed.now) scope.now) rules.now }
    ensures rule { IfSome result (λ p. slice_get rules.now p.0 ≡ Some p.1.now) }
{
    let mut place = 0;
    let mut rest = rules;
    while let Some((rule, more)) = rest.split_first() {
        if rule.fits(deed, scope) {
            return Some((place, rule));
        }
        place += 1;
        rest = more;
    }
    None
}

impl Rules {
    /// These rules, of which the first that fits decides, and these hide tables.
    pub fn new(rules: Vec<Rule>, hides: Vec<Hide>) -> Rules
        ensures { result ≡ record { rules = rules.items; hides = hides.items } }
    {
        Rules { rules, hides }
    }

    /// The rules, in their order. Takes no memory.
    pub fn as_slice(&self) -> &[Rule]
        ensures { result.now ≡ rules_in self.now }
    {
        &self.rules
    }

    /// The hide tables, in their order. Takes no memory.
    pub fn hide_tables(&self) -> &[Hide]
        ensures { result.now ≡ hides_in self.now }
    {
        &self.hides
    }

    /// How many rules there are. Takes no memory.
    pub fn len(&self) -> usize
        ensures { result ≡ number self.now }
    {
        self.rules.len()
    }

    /// The name of the rule at a place. Takes no memory.
    pub fn name(&self, place: usize) -> &str
        requires { place < number self.now }
        ensures { option_map (λ r. r.name) (slice_get (rules_in self.now) place) ≡ Some result.now }
    {
        self.rules[place].name.as_str()
    }

    /// The verdict of the first rule that fits a deed in a scope, else a denial by default. Takes no memory.
    // Inlined, as the search is, so that a deed lies in registers while the rules are passed over.
    #[inline(always)]
    pub fn verdict(&self, deed: &Deed<'_>, scope: &Key) -> Verdict
        ensures value { result ≡ deciding self.now (deed_in deed.now) scope.now }
        ensures within { IfSome result.rule (λ place. place < number self.now) }
    {
        match first_fitting(&self.rules, deed, scope) {
            Some((place, rule)) => Verdict {
                allow: rule.allow,
                rule: Some(place),
            },
            None => Verdict {
                allow: false,
                rule: None,
            },
        }
    }
}
