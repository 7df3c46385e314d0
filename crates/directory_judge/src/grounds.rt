ghost use Rattle.std.specs.Prelude.{◌≡◌, is_none, nat_le, IfSome};
ghost use Rattle.std.specs.Option.{option_copied, option_map};
ghost use Rattle.std.specs.FinMap as fin;
ghost use Rattle.access_rules.specs.Deciding.{deciding, deed};
ghost use Rattle.registry_core.specs.Entries.{pair_of};
ghost use Rattle.srv_template.specs.Conformity.{template_fault};
ghost use Rattle.directory_judge.specs.Judgements.{because_of, by_rule, ruling_on, ruling_in};

use crate::reason::Finding;
use crate::site::Site;
use access_rules::{Action, Deed, Rules};
use addresses::Addr;
use attr_list::Attrs;
use registry_core::{Entry, Registry};
use service_url::{ServiceType, Url};
use slp_scopes::ScopeList;
use slp_text::Key;
use std::marker::Model;

/// What a message is judged on: the entries, of which those count that are live, the rules, the site,
/// the moment in seconds at which the message acts, and who sent it. All of it is lent.
#[derive(Drop)]
pub struct Grounds<'a, R: Registry> {
    pub registry: &'a R,
    pub rules: &'a Rules,
    pub site: &'a Site,
    pub moment: u32,
    pub asker: Addr,
}

impl<'a, R: Registry> Model for Grounds<'a, R> {
    ghost use Rattle.registry_core.specs.Entries.{outlives, passing_entries};
    ghost use Rattle.directory_judge.specs.Judgements as spec;
    ghost use Rattle.directory_judge.specs.Judgements.{grounds_code};

    ghost Value = { spec.Grounds };

    ghost coded = { grounds_code };

    ghost view = { λ g. record { rules = g.rules.now; site = g.site.now; live = passing_entries (outlives g.moment) (R.contents g.registry.now); now = g.moment; asker = g.asker } };
}

impl<'a, R: Registry> Grounds<'a, R> {
    // What the rules say of an action on what a registrant has of a type in a scope.
    // Inlined, so that the deed lies in registers.
    #[inline(always)]
    fn rule_in<'b>(
        &self,
        action: Action,
        kind: &'b ServiceType,
        scope: &'b Key,
        registrant: Addr,
    ) -> Finding<'b>
        ensures allow { result.allow ≡ (deciding self.now.rules (deed self.now.asker action kind.now registrant) scope.now).allow }
        ensures because { because_of result ≡ by_rule self.now.rules (deed self.now.asker action kind.now registrant) scope.now }
    {
        let deed = Deed {
            asker: self.asker,
            action,
            kind,
            registrant,
        };
        let verdict = self.rules.verdict(&deed, scope);
        Finding::by_rules(verdict, kind, scope)
    }

    /// What the rules say of an action on what a registrant has of a type in some scopes, if there are any: what denies it in the first of
    /// them, in key order, in which it is denied, else what allows it in the first of all. Each scope is asked once, and no memory is taken.
    pub fn rule<'b>(
        &self,
        action: Action,
        kind: &'b ServiceType,
        scopes: &'b ScopeList,
        registrant: Addr,
    ) -> Option<Finding<'b>>
        ensures { option_map ruling_in result ≡ ruling_on self.now.rules (deed self.now.asker action kind.now registrant) scopes.now }
    {
        let Some(scope) = scopes.at(0) else {
            return None;
        };
        let first = self.rule_in(action, kind, scope, registrant);
        if !first.allow {
            return Some(first);
        }
        for place in 1..scopes.len() {
            if let Some(scope) = scopes.at(place) {
                let next = self.rule_in(action, kind, scope, registrant);
                if !next.allow {
                    return Some(next);
                }
            }
        }
        Some(first)
    }

    /// The entry of a pair, where it is live.
    pub fn live_entry(&self, url: &Url, language: &Key) -> Option<&'a Entry>
        ensures value { option_copied result ≡ fin.get self.now.live (url.now, language.now) }
        ensures pair { IfSome result (λ e. pair_of e.now ≡ (url.now, language.now)) }
    {
        match self.registry.find(url, language) {
            Some(entry) if entry.deadline > u64::from(self.moment) => Some(entry),
            _ => None,
        }
    }

    /// Whether attributes conform to the template of a type, if it has one. Takes no memory.
    pub fn conforms(&self, kind: &ServiceType, attributes: &Attrs) -> bool
        ensures { result ≡ is_none (template_fault self.now.site.templates kind.now attributes.now) }
    {
        self.site.templates().check(kind, attributes).is_none()
    }

    /// Whether the entries that are live fill the capacity of the site. They are counted only where
    /// all entries fill it.
    pub fn is_full(&self) -> bool
        ensures { result ≡ nat_le self.now.site.capacity (fin.len self.now.live) }
    {
        if self.registry.len() < self.site.capacity() {
            return false;
        }
        self.registry.live(u64::from(self.moment)) >= self.site.capacity()
    }
}
