//! What the rules and hide tables say, where what is asked comes in parts: for a caller that has no deed. Takes no memory. No program calls these.
ghost use Rattle.std.specs.Prelude.{◌≡◌, ◌<◌, IfSome};
ghost use Rattle.access_rules.specs.Deciding.{deciding, deed, is_hidden, number};
ghost use Rattle.access_rules.specs.declared.rule.Action.TheVariants.{See};

use crate::hide::some_hides;
use crate::rule::{Action, Deed};
use crate::rules::{Rules, Verdict};
use addresses::Addr;
use service_url::ServiceType;
use slp_text::Key;

impl Rules {
    /// What `verdict` answers.
    pub fn decide(
        &self,
        asker: Addr,
        action: Action,
        kind: &ServiceType,
        scope: &Key,
        registrant: Addr,
    ) -> Verdict
        ensures value { result ≡ deciding self.now (deed asker action kind.now registrant) scope.now }
        ensures within { IfSome result.rule (λ place. place < number self.now) }
    {
        self.verdict(
            &Deed {
                asker,
                action,
                kind,
                registrant,
            },
            scope,
        )
    }

    /// Whether some hide table that fits what an asker sees in a scope selects a tag: no rule is asked.
    pub fn hidden(
        &self,
        asker: Addr,
        kind: &ServiceType,
        scope: &Key,
        registrant: Addr,
        tag: &Key,
    ) -> bool
        ensures { result ≡ is_hidden self.now (deed asker See kind.now registrant) scope.now tag.now }
    {
        some_hides(
            self.hide_tables(),
            &Deed {
                asker,
                action: Action::See,
                kind,
                registrant,
            },
            scope,
            tag,
        )
    }
}
