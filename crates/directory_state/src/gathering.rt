//! How what a question is about is gathered.
ghost use Rattle.std.specs.Prelude.{◌≡◌, map, IfOk, IfNone, IfSome, IsTrue, false};
ghost use Rattle.std.specs.Arc.{arc_value};
ghost use Rattle.std.specs.List.{list_any};
ghost use Rattle.registry_core.specs.Entries.{is_of_url, IsListing};
ghost use Rattle.directory_judge.specs.Judgements.{supports};
ghost use Rattle.directory_questions.specs.declared.query.Target.{Target as Targets};
ghost use Rattle.directory_state.specs.Sources.{IsGathered};
ghost use Rattle.directory_state.specs.State.{State};
ghost use Rattle.directory_state.specs.Viewers.{IsViewerOf};

use crate::asked::Viewer;
use crate::gathered::Gathered;
use access_rules::Rules;
use addresses::Addr;
use registry_core::{Entry, Registry};
use service_url::Url;
use slp_scopes::ScopeList;
use slp_text::NoMemory;
use std::alloc::Global;
use std::sync::Arc;

// Shares of the entries of a URL, in the order of their walk.
pub(crate) fn shares_of_url<R: Registry>(
    alloc: Global,
    registry: &R,
    url: &Url,
) -> Result<Vec<Arc<Entry>>, NoMemory>
    ensures { IfOk result (λ v. IsListing (is_of_url url.now) (R.contents registry.now) (map arc_value v.items)) }
{
    let mut shares = Vec::new(alloc);
    let mut from = 0;
    while let Some((share, next)) = registry.share_by_url(url, from) {
        shares.push(Arc::try_clone(share)?)?;
        from = next;
    }
    Ok(shares)
}

impl Gathered {
    /// The rules.
    pub fn rules(&self) -> &Rules
        ensures { result.now ≡ arc_value self.now.rules }
    {
        &self.rules
    }

    // Who asks, in which scopes, and what decides on what is open; none where no scope is supported.
    #[inline(never)]
    pub(crate) fn viewer(&self, moment: u32, asker: Addr, scopes: &ScopeList) -> Option<Viewer<'_>>
        ensures none { IfNone result (list_any (supports (arc_value self.now.site)) scopes.now ≡ false) }
        ensures some { IfSome result (λ _. IsTrue (list_any (supports (arc_value self.now.site)) scopes.now)) }
        ensures viewer { (t : Targets) (s : State) → IsGathered t s self.now → IfSome result (λ v. IsViewerOf s moment asker scopes.now v) }
    {
        Viewer::of(
            &self.rules,
            &self.site,
            moment.max(self.clock),
            asker,
            scopes,
        )
    }
}
