ghost use Rattle.std.specs.Prelude.{◌≡◌, ◌∷◌, [], max, map, ℕ, List, IfOk, IfNone, IfSome, IsErrOf, IsTrue, ◌↔◌, false};
ghost use Rattle.std.specs.List.{list_any};
ghost use Rattle.std.specs.Arc.{arc_value};
ghost use Rattle.std.specs.FinMap as fin;
ghost use Rattle.directory_judge.specs.History.{History, Event};
ghost use Rattle.directory_judge.specs.Judgements.{Judgement, judgement_in, supports};
ghost use Rattle.directory_judge.specs.Contents.{content, Reloads, Sweeps};
ghost use Rattle.directory_judge.specs.ReadChanges.{message_read, IsReadAt};
ghost use Rattle.directory_questions.specs.Calls.{Opening, standpoint};
ghost use Rattle.directory_questions.specs.Items.{is_target, AreTypesOf};
ghost use Rattle.directory_questions.specs.declared.query.Target.{Target as Spec};
ghost use Rattle.directory_questions.specs.declared.query.Target.TheVariants.{Kind};
ghost use Rattle.registry_core.specs.Entries.{IsListing};
ghost use Rattle.directory_state.specs.Viewers.{IsViewerOf};
ghost use Rattle.directory_state.specs.Sources.{IsGathered};
ghost use Rattle.directory_state.specs.Searches.{entries_lent, HasOneOfEachPair};
ghost use Rattle.directory_state.specs.TypeRooms.{IsTypesFront};
ghost use Rattle.directory_state.specs.Folds.{Fold, StandsFor};
ghost use Rattle.directory_state.specs.State.{State, opening_state, state_changed, state_made, swept};
ghost use Rattle.directory_questions.specs.Verdicts.{IsLegal, IsVerdict};
ghost use Rattle.directory_state.specs.Folds.{IsJudgedAs};

use crate::arranging::by_type;
use crate::asked::{Asked, Viewer};
use crate::gathered::Gathered;
use crate::gathering::shares_of_url;
use access_rules::Rules;
use addresses::Addr;
use directory_judge::{Change, Decision, Grounds, ReadChange, Site};
use directory_questions::{QueryFault, Target, TypeQuery};
use registry_core::{Entry, Registry};
use service_url::ServiceType;
use slp_scopes::ScopeList;
use slp_text::NoMemory;
use std::alloc::Global;
use std::marker::Model;
use std::sync::Arc;

/// A registry with its rules, its site and its clock: the greatest moment of all changes, in seconds.
pub struct Directory<R: Registry> {
    registry: R,
    rules: Arc<Rules>,
    site: Arc<Site>,
    clock: u32,
}

impl<R: Registry + Drop> Drop for Directory<R> {
    fn drop(self) {
        let Directory {
            registry: _,
            rules: _,
            site: _,
            clock: _,
        } = self;
    }
}

impl<R: Registry> Model for Directory<R> {
    ghost use Rattle.std.specs.Prelude.{◌≡◌};
    ghost use Rattle.std.specs.Arc.{arc_value};
    ghost use Rattle.directory_state.specs.State.{State, state_code};

    ghost Value = { State };

    ghost coded = { state_code };

    ghost view = { λ d. record { entries = R.contents d.registry; rules = arc_value d.rules; site = arc_value d.site; clock = d.clock } };

    ghost invariant = { λ d. R.limit d.registry ≡ (arc_value d.site).capacity };
}

impl<R: Registry + Drop> Directory<R> {
    /// A directory of an empty registry of the site's capacity, to which nothing happened.
    pub fn open(
        alloc: Global,
        registry: R,
        site: &Site,
        rules: Arc<Rules>,
    ) -> Result<Directory<R>, NoMemory>
        requires empty { R.contents registry ≡ fin.empty }
        requires capacity { R.limit registry ≡ site.now.capacity }
        ensures state { IfOk result (λ d. d ≡ opening_state (record { rules = arc_value rules; site = site.now })) }
        ensures fold { IfOk result (λ d. Fold (record { rules = arc_value rules; site = site.now }) [] d) }
    {
        let site = Arc::new(alloc, site.copy(alloc)?)?;
        Ok(Directory {
            registry,
            rules,
            site,
            clock: 0,
        })
    }
}

impl<R: Registry> Directory<R> {
    /// The moment at which a call acts: the greater of its own and the clock.
    pub fn now(&self, moment: u32) -> u32
        ensures { result ≡ max moment self.now.clock }
    {
        moment.max(self.clock)
    }

    /// The entries.
    pub fn registry(&self) -> &R
        ensures entries { R.contents result.now ≡ self.now.entries }
        ensures limit { R.limit result.now ≡ self.now.site.capacity }
    {
        &self.registry
    }

    /// The rules.
    pub fn rules(&self) -> &Rules
        ensures { result.now ≡ self.now.rules }
    {
        &self.rules
    }

    /// What stays the same.
    pub fn site(&self) -> &Site
        ensures { result.now ≡ self.now.site }
    {
        &self.site
    }

    /// Judges a message that may change something, of which this was read at the site. Nothing is changed, and what a founded entry has is not copied.
    pub fn judge_change(
        &self,
        alloc: Global,
        moment: u32,
        asker: Addr,
        change: ReadChange<'_>,
    ) -> Result<Decision, NoMemory>
        requires { IsReadAt self.now.site change }
        ensures { (o : Opening) (h : History) → Fold o h self.now → IsLegal o h
            → IfOk result (λ j. (v : Judgement) × IsVerdict (standpoint o h moment asker) (message_read change.entry) v × IsJudgedAs h (judgement_in j) v) }
    {
        let grounds = Grounds {
            registry: &self.registry,
            rules: &self.rules,
            site: &self.site,
            moment: self.now(moment),
            asker,
        };
        grounds.judge(alloc, change)
    }

    // Drops what is dead at a moment, and raises the clock.
    fn drop_dead(&mut self, moment: u32)
        ensures { self.new ≡ swept moment self.old }
    {
        self.clock = self.now(moment);
        self.registry.sweep(u64::from(moment));
    }

    // Makes a change where nothing is dead any more. That there is room for an entry was judged, so what `put` answers is passed over.
    fn make(&mut self, change: Change)
        ensures { self.new ≡ state_changed (content change) self.old }
    {
        match change {
            Change::Put(placed) => {
                let _ = self.registry.put(placed.entry);
            }
            Change::Edit(placed) => {
                let entry = placed.entry;
                if self.registry.find(&entry.url, &entry.language).is_some() {
                    self.registry.edit(entry);
                }
            }
            Change::Withdraw(_, withdrawn) => {
                self.registry.remove_url(&withdrawn.url, &withdrawn.scopes);
            }
            Change::Sweep(_) => {}
            Change::Reload(_, rules) => self.rules = rules,
        }
    }

    /// Makes a change: what is dead at its moment is dropped, and the clock raised. It has no answer for want of memory.
    pub fn apply(&mut self, change: Change)
        ensures made { self.new ≡ state_made (content change) self.old }
        ensures fold { (o : Opening) (h : History) (c : Event) → Fold o h self.old → IsLegal o (c ∷ h)
            → StandsFor h (content change) c → Fold o (c ∷ h) self.new }
    {
        self.drop_dead(change.moment());
        self.make(change);
    }

    /// Drops what is dead at a moment, in seconds, or at the clock where that is greater.
    pub fn sweep(&mut self, moment: u32)
        ensures made { self.new ≡ state_made (Sweeps (max moment self.old.clock)) self.old }
        ensures fold { (o : Opening) (h : History) (c : Event) → Fold o h self.old → IsLegal o (c ∷ h)
            → StandsFor h (Sweeps (max moment self.old.clock)) c → Fold o (c ∷ h) self.new }
    {
        let now = self.now(moment);
        self.apply(Change::Sweep(now));
    }

    /// From a moment on, in seconds, or from the clock on where that is greater, these rules decide.
    pub fn reload(&mut self, moment: u32, rules: Arc<Rules>)
        ensures made { self.new ≡ state_made (Reloads (max moment self.old.clock) (arc_value rules)) self.old }
        ensures fold { (o : Opening) (h : History) (c : Event) → Fold o h self.old → IsLegal o (c ∷ h)
            → StandsFor h (Reloads (max moment self.old.clock) (arc_value rules)) c → Fold o (c ∷ h) self.new }
    {
        let now = self.now(moment);
        self.apply(Change::Reload(now, rules));
    }

    /// Whether the site supports one of these scopes.
    pub fn supports(&self, scopes: &ScopeList) -> bool
        ensures { result ≡ list_any (supports self.now.site) scopes.now }
    {
        !Asked::of(&self.site, scopes).is_empty()
    }

    // Who asks, in which scopes, and what decides on what is open; none where no scope is supported.
    pub(crate) fn viewer(&self, moment: u32, asker: Addr, scopes: &ScopeList) -> Option<Viewer<'_>>
        ensures none { IfNone result (list_any (supports self.now.site) scopes.now ≡ false) }
        ensures some { IfSome result (λ _. IsTrue (list_any (supports self.now.site) scopes.now)) }
        ensures viewer { IfSome result (λ v. IsViewerOf self.now moment asker scopes.now v) }
    {
        Viewer::of(&self.rules, &self.site, self.now(moment), asker, scopes)
    }

    /// Gathers what a question about a type is about.
    pub fn gather_kind(&self, alloc: Global, kind: &ServiceType) -> Result<Gathered, NoMemory>
        ensures { IfOk result (IsGathered (Kind kind.now) self.now) }
    {
        let entries = self.registry.shares_of_kind(alloc, kind)?;
        self.gathered(entries)
    }

    /// Gathers what a question is about.
    pub fn gather_about(&self, alloc: Global, target: &Target) -> Result<Gathered, NoMemory>
        ensures { IfOk result (IsGathered target.now self.now) }
    {
        match target {
            Target::Kind(kind) => self.gather_kind(alloc, kind),
            Target::Place(url) => {
                let entries = shares_of_url(alloc, &self.registry, url)?;
                self.gathered(entries)
            }
        }
    }

    /// How many entries are of a type, dead ones and hidden ones as well.
    pub fn count_of_kind(&self, kind: &ServiceType) -> usize {
        self.registry.count_of_kind(kind)
    }

    // These entries with what decides on them.
    fn gathered(&self, entries: Vec<Arc<Entry>>) -> Result<Gathered, NoMemory>
        requires { HasOneOfEachPair (map arc_value entries.items) }
        ensures { (t : Spec) → IsListing (is_target t) self.now.entries (map arc_value entries.items) → IfOk result (IsGathered t self.now) }
    {
        let rules = Arc::try_clone(&self.rules)?;
        let site = Arc::try_clone(&self.site)?;
        Ok(Gathered {
            entries,
            rules,
            site,
            clock: self.clock,
        })
    }

    /// The types of the live entries, of every language, that are open to the asker and of the naming
    /// authority that is asked for, in key order, each once (RFC 2608, section 10.2): lent, an entry of each. Where they are more than there is
    /// room for, in bytes, it may be the first of them alone, which are more, too.
    pub fn find_types(
        &self,
        alloc: Global,
        moment: u32,
        asker: Addr,
        query: &TypeQuery,
        room: Option<usize>,
    ) -> Result<Vec<&Entry>, QueryFault>
        ensures scope { IsErrOf result QueryFault.Scope ↔ (list_any (supports self.now.site) query.now.scopes ≡ false) }
        ensures spoken { IsErrOf result QueryFault.Language → ⊥ }
        ensures types { (o : Opening) (h : History) → Fold o h self.now → IsLegal o h
            → IfOk result (λ v. (all : List (List ℕ)) × AreTypesOf (standpoint o h moment asker) query.now all × IsTypesFront room all (map (λ e. e.kind) (entries_lent v.items))) }
    {
        let Some(viewer) = self.viewer(moment, asker, &query.scopes) else {
            return Err(QueryFault::Scope);
        };
        let found = viewer.gather_types(alloc, &self.registry, &query.authority, room)?;
        Ok(by_type(found))
    }
}
