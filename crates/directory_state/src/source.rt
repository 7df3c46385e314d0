//! What a question is answered from.
ghost use Rattle.std.specs.Prelude.{◌≡◌, max, filter, ℕ, List, IfOk, IfNone, IfSome, IsErrOf, IsTrue, ◌≤◌, ◌↔◌, false};
ghost use Rattle.std.specs.List.{list_any};
ghost use Rattle.registry_core.specs.declared.entry.Entry as spec;
ghost use Rattle.slp_messages.specs.declared.message.UrlEntry.{UrlEntry};
ghost use Rattle.directory_judge.specs.History.{History};
ghost use Rattle.directory_judge.specs.Judgements.{supports};
ghost use Rattle.directory_questions.specs.Calls.{Opening, standpoint};
ghost use Rattle.directory_questions.specs.Items.{AreAttributesOf, AreServices, IsAskedAbout, IsElsewhere, IsForeign, IsOpenNow};
ghost use Rattle.directory_questions.specs.Verdicts.{IsLegal};
ghost use Rattle.directory_questions.specs.declared.query.Target.{Target as Targets};
ghost use Rattle.directory_questions.specs.declared.query.Target.TheVariants.{Kind};
ghost use Rattle.directory_state.specs.Fronts.{IsFront, items_in, size_in};
ghost use Rattle.directory_state.specs.Sources.{clock_of, site_of, AreEntriesOf, IsSourceAt, IsSourceOf, IsUnbounded};
ghost use Rattle.directory_state.specs.Searches.{entries_in, entries_seen, is_seen, AreSeenBy, HasOneOfEachPair, IsIn};
ghost use Rattle.directory_state.specs.State.{State};
ghost use Rattle.directory_state.specs.Viewers.{IsViewerOf};

use crate::arranging::lend;
use crate::asked::Viewer;
use crate::directory::Directory;
use crate::gathered::Gathered;
use crate::search::{FoundItems, Room};
use crate::viewer::{Seen, SeenEntries};
use addresses::Addr;
use attr_union::AttrUnion;
use directory_questions::{AttrQuery, QueryFault, ServiceQuery, Target};
use registry_core::Registry;
use slp_scopes::ScopeList;
use slp_text::NoMemory;
use std::alloc::Global;

/// A directory that is read while a question is answered, where a search looks at no more than so many entries; or what was gathered of one for it.
#[derive(Drop)]
pub enum Source<'a, R: Registry> {
    Whole(&'a Directory<R>, usize),
    Part(&'a Gathered),
}

impl<'a, R: Registry> Source<'a, R> {
    /// The moment at which a call acts: the greater of its own and the clock.
    #[inline(always)]
    pub fn now(&self, moment: u32) -> u32
        ensures { result ≡ max moment (clock_of self.now) }
    {
        match self {
            Source::Whole(directory, _) => directory.now(moment),
            Source::Part(gathered) => moment.max(gathered.clock),
        }
    }

    // Who asks, in which scopes, and what decides on what is open; none where no scope is supported.
    #[inline(always)]
    pub(crate) fn viewer(&self, moment: u32, asker: Addr, scopes: &ScopeList) -> Option<Viewer<'a>>
        ensures none { IfNone result (list_any (supports (site_of self.now)) scopes.now ≡ false) }
        ensures some { IfSome result (λ _. IsTrue (list_any (supports (site_of self.now)) scopes.now)) }
        ensures viewer { (t : Targets) (s : State) → IsSourceOf t s self.now → IfSome result (λ v. IsViewerOf s moment asker scopes.now v) }
    {
        match self {
            Source::Whole(directory, _) => directory.viewer(moment, asker, scopes),
            Source::Part(gathered) => gathered.viewer(moment, asker, scopes),
        }
    }

    // What is open of what a question is about.
    fn gather(
        &self,
        alloc: Global,
        viewer: &Viewer<'_>,
        target: &Target,
    ) -> Result<Vec<Seen<'a>>, NoMemory>
        ensures found { IfOk result (λ v. (all : List spec.Entry) × AreEntriesOf target.now self.now all × (entries_in v.items ≡ filter (is_seen viewer.now) all)) }
        ensures once { IfOk result (λ v. HasOneOfEachPair (entries_in v.items)) }
        ensures seen { IfOk result (λ v. AreSeenBy viewer.now v.items) }
    {
        match self {
            Source::Whole(directory, _) => {
                viewer.gather_about(alloc, directory.registry(), target)
            }
            Source::Part(gathered) => viewer.gather_shares(alloc, &gathered.entries),
        }
    }

    /// The URLs of the live entries that are open to the asker and match the question, in byte order,
    /// each once and with the greatest remaining lifetime in seconds (RFC 2608, section 8.2): lent where they lie, from the
    /// front as many as there is room for. With a filter they are those in the language of the question on which it holds;
    /// where something matches, but nothing in that language, the answer is `Language`. There is no answer where it would have to look at more entries
    /// than it may.
    #[inline(always)]
    pub fn find(
        &self,
        alloc: Global,
        moment: u32,
        asker: Addr,
        query: &ServiceQuery,
        room: Room,
    ) -> Result<Option<FoundItems<'a>>, QueryFault>
        requires small { room.bytes ≤ 65535 }
        requires small_each { room.each ≤ 65535 }
        ensures scope { IsErrOf result QueryFault.Scope ↔ (list_any (supports (site_of self.now)) query.now.scopes ≡ false) }
        ensures language { (o : Opening) (h : History) → IsSourceAt o h (Kind query.now.kind) self.now → IsLegal o h
            → (IsErrOf result QueryFault.Language → IsForeign (IsOpenNow (standpoint o h moment asker) query.now.scopes) query.now) × IfOk result (λ told. IfSome told (λ _. ¬ IsForeign (IsOpenNow (standpoint o h moment asker) query.now.scopes) query.now)) }
        ensures items { (o : Opening) (h : History) → IsSourceAt o h (Kind query.now.kind) self.now → IsLegal o h
            → IfOk result (λ told. IfSome told (λ found. (all : List UrlEntry) × AreServices (standpoint o h moment asker) query.now all × IsFront room all (items_in found) found.is_cut)) }
        ensures fits { IfOk result (λ told. IfSome told (λ found. size_in room (items_in found) ≤ room.bytes)) }
        ensures ended { IfOk result (λ told. IfNone told (¬ IsUnbounded self.now)) }
    {
        let Some(kept) = self.search(alloc, moment, asker, query, Some(room))? else {
            return Ok(None);
        };
        Ok(Some(kept.fitting(u64::from(self.now(moment)))))
    }

    /// What is open to the asker of what a question is about.
    pub(crate) fn find_about(
        &self,
        alloc: Global,
        moment: u32,
        asker: Addr,
        query: &AttrQuery,
    ) -> Result<SeenEntries<'a>, QueryFault>
        ensures scope { IsErrOf result QueryFault.Scope ↔ (list_any (supports (site_of self.now)) query.now.scopes ≡ false) }
        ensures spoken { IsErrOf result QueryFault.Language → ⊥ }
        ensures once { IfOk result (λ f. HasOneOfEachPair (entries_in f.entries.items)) }
        ensures seen { IfOk result (λ f. AreSeenBy f.viewer f.entries.items) }
        ensures found { (o : Opening) (h : History) → IsSourceAt o h query.now.target self.now
            → IfOk result (λ f. (e : spec.Entry) → IsIn (entries_seen f) e ↔ IsAskedAbout (IsOpenNow (standpoint o h moment asker) query.now.scopes) query.now e) }
    {
        let Some(viewer) = self.viewer(moment, asker, &query.scopes) else {
            return Err(QueryFault::Scope);
        };
        let entries = self.gather(alloc, &viewer, &query.target)?;
        Ok(SeenEntries { viewer, entries })
    }

    /// What the tags of a question select of the attributes of the live entries that are open to the asker,
    /// match it and are in its language, joined in the byte order of their URLs (RFC 2608, section 10.4): lent where it
    /// lies. Where something matches, but nothing in that language, the answer is `Language`.
    pub fn find_attributes(
        &self,
        alloc: Global,
        moment: u32,
        asker: Addr,
        query: &AttrQuery,
    ) -> Result<AttrUnion<'a>, QueryFault>
        ensures scope { IsErrOf result QueryFault.Scope ↔ (list_any (supports (site_of self.now)) query.now.scopes ≡ false) }
        ensures language { (o : Opening) (h : History) → IsSourceAt o h query.now.target self.now → IsLegal o h
            → (IsErrOf result QueryFault.Language → IsElsewhere (IsAskedAbout (IsOpenNow (standpoint o h moment asker) query.now.scopes) query.now) query.now.language)
            × IfOk result (λ _. ¬ IsElsewhere (IsAskedAbout (IsOpenNow (standpoint o h moment asker) query.now.scopes) query.now) query.now.language) }
        ensures joined { (o : Opening) (h : History) → IsSourceAt o h query.now.target self.now → IsLegal o h
            → IfOk result (λ a. AreAttributesOf (standpoint o h moment asker) query.now a) }
    {
        let found = self.find_about(alloc, moment, asker, query)?;
        lend(alloc, found, query)
    }
}
