ghost use Rattle.std.specs.Prelude.{◌≡◌, ◌-◌, ◌<◌, ◌≤◌, ◌&&◌, [], ◌∷◌, IfOk, IfSome, MatchOption, OnErr, None, Some, position};
ghost use Rattle.std.specs.Arc.{arc_value};
ghost use Rattle.std.specs.FinMap as fin;
ghost use Rattle.std.specs.Option.{option_copied};
ghost use Rattle.registry_core.specs.Lists.{entries_from, kinds_from};
ghost use Rattle.registry_core.specs.Entries.{is_of, is_at_place, is_kind, is_of_url, is_within, entries_of_list};

use crate::entry::Entry;
use crate::registry::{Registry, RegistryFault};
use service_url::{ServiceType, Url};
use slp_scopes::ScopeList;
use slp_text::{Key, NoMemory};
use std::alloc::Global;
use std::marker::Model;
use std::sync::Arc;

/// A registry that is searched from the front.
#[derive(Drop)]
pub struct ListRegistry {
    entries: Vec<Arc<Entry>>,
    limit: usize,
}

impl Model for ListRegistry {
    ghost use Rattle.std.specs.Prelude.{ℕ, List, map};
    ghost use Rattle.std.specs.Arc.{arc_value};
    ghost use Rattle.registry_core.specs.Lists.{ListState, list_state_code, IsListRegistry};

    ghost Value = { ListState };

    ghost coded = { list_state_code };

    ghost view = { λ r. record { entries = map arc_value r.entries.items; limit = r.limit } };

    ghost invariant = { λ r. IsListRegistry r.entries r.limit };
}

impl ListRegistry {
    /// A registry of no entry, with all the memory that it will use. The capacity is that of a site.
    pub fn new(alloc: Global, capacity: usize) -> Result<ListRegistry, RegistryFault>
        requires some { 0 < capacity }
        requires few { capacity ≤ 65536 }
        ensures entries { IfOk result (λ r. r.entries ≡ []) }
        ensures limit { IfOk result (λ r. r.limit ≡ capacity) }
        ensures memory { OnErr result (result ≡ Err RegistryFault.NoMemory) }
        ensures empty { IfOk result (λ r. entries_of_list r.entries ≡ fin.empty) }
    {
        let entries = Vec::with_capacity(alloc, capacity)?;
        Ok(ListRegistry {
            entries,
            limit: capacity,
        })
    }
}

// Where the entry of a pair is.
fn place_of(entries: &[Arc<Entry>], url: &Url, language: &Key) -> Option<usize>
    ensures { result ≡ position (λ a. is_of (url.now, language.now) (arc_value a)) entries.now }
{
    entries
        .iter()
        .position(|e| *url == e.url && *language == e.language)
}

// The next entry of a type that is covered, with the place after it. It is a call of its own in the machine's code, since its
// loop passes over most entries.
#[inline(never)]
fn next_of_kind<'a>(
    entries: &'a [Arc<Entry>],
    kind: &ServiceType,
    from: usize,
) -> Option<(&'a Entry, usize)>
    ensures next { MatchOption result (kinds_from (Some kind.now) entries.now from ≡ []) (λ p. kinds_from (Some kind.now) entries.now from ≡ p.0.now ∷ kinds_from (Some kind.now) entries.now p.1) }
    ensures there { IfSome result (λ p. kinds_from (Some kind.now) entries.now (p.1 - 1) ≡ p.0.now ∷ kinds_from (Some kind.now) entries.now p.1) }
    ensures onward { IfSome result (λ p. from < p.1) }
{
    for at in from..entries.len() {
        let entry: &Entry = &entries[at];
        if kind.covers(&entry.kind) {
            return Some((entry, at + 1));
        }
    }
    None
}

// The entry at a place, with the place after it.
fn next_entry(entries: &[Arc<Entry>], from: usize) -> Option<(&Entry, usize)>
    ensures next { MatchOption result (entries_from entries.now from ≡ []) (λ p. entries_from entries.now from ≡ p.0.now ∷ entries_from entries.now p.1) }
    ensures there { IfSome result (λ p. entries_from entries.now (p.1 - 1) ≡ p.0.now ∷ entries_from entries.now p.1) }
    ensures onward { IfSome result (λ p. from < p.1) }
{
    if from >= entries.len() {
        return None;
    }
    let entry: &Entry = &entries[from];
    Some((entry, from + 1))
}

// The next entry of a type that is covered. In most walks it is the next one of all.
#[inline(always)]
fn next_of<'a>(
    entries: &'a [Arc<Entry>],
    kind: &ServiceType,
    from: usize,
) -> Option<(&'a Entry, usize)>
    ensures next { MatchOption result (kinds_from (Some kind.now) entries.now from ≡ []) (λ p. kinds_from (Some kind.now) entries.now from ≡ p.0.now ∷ kinds_from (Some kind.now) entries.now p.1) }
    ensures there { IfSome result (λ p. kinds_from (Some kind.now) entries.now (p.1 - 1) ≡ p.0.now ∷ kinds_from (Some kind.now) entries.now p.1) }
    ensures onward { IfSome result (λ p. from < p.1) }
{
    let Some((entry, next)) = next_entry(entries, from) else {
        return None;
    };
    if kind.covers(&entry.kind) {
        return Some((entry, next));
    }
    next_of_kind(entries, kind, next)
}

// Whether an entry is of a type that is covered.
fn is_of_kind(entry: &Entry, kind: Option<&ServiceType>) -> bool
    ensures { result ≡ is_kind (option_copied kind.entry) entry.now }
{
    match kind {
        None => true,
        Some(kind) => kind.covers(&entry.kind),
    }
}

// The same of an entry whose URL does not come after a bound, which is asked first.
fn is_of_kind_within(entry: &Entry, kind: Option<&ServiceType>, bound: &Url) -> bool
    ensures { result ≡ (is_within bound.now entry.now && is_kind (option_copied kind.entry) entry.now) }
{
    entry.url <= *bound && is_of_kind(entry, kind)
}

// Whether an entry stands in a scope and is of a type that is covered.
fn is_here(entry: &Entry, scope: &Key, kind: Option<&ServiceType>) -> bool
    ensures { result ≡ is_at_place scope.now (option_copied kind.entry) entry.now }
{
    is_of_kind(entry, kind) && entry.scopes.has(scope)
}

impl Registry for ListRegistry {
    ghost use Rattle.std.specs.Prelude.{filter, drop};
    ghost use Rattle.registry_core.specs.Entries.{entries_of_list, is_at_place, is_kind, is_of_url};

    ghost contents = { λ r. entries_of_list r.entries };

    ghost limit = { λ r. r.limit };

    ghost rest_at = { λ r scope kind from. filter (is_at_place scope kind) (drop from r.entries) };

    ghost rest_of_kind = { λ r kind from. filter (is_kind kind) (drop from r.entries) };

    ghost rest_of_url = { λ r url from. filter (is_of_url url) (drop from r.entries) };

    fn put(&mut self, entry: Arc<Entry>) -> Result<(), RegistryFault> {
        let held: &Entry = &entry;
        match place_of(&self.entries, &held.url, &held.language) {
            Some(at) => {
                self.entries[at] = entry;
                Ok(())
            }
            None => {
                if self.entries.len() == self.limit {
                    return Err(RegistryFault::Full);
                }
                self.entries.push(entry).unwrap();
                Ok(())
            }
        }
    }

    fn edit(&mut self, entry: Arc<Entry>) {
        let named: &Entry = &entry;
        if let Some(place) = place_of(&self.entries, &named.url, &named.language) {
            self.entries[place] = entry;
        }
    }

    fn sweep(&mut self, now: u64) {
        self.entries.retain(|e| e.deadline > now);
    }

    fn remove_url(&mut self, url: &Url, scopes: &ScopeList) {
        self.entries
            .retain(|e| !(e.url == *url && e.scopes == *scopes));
    }

    fn find(&self, url: &Url, language: &Key) -> Option<&Entry> {
        match place_of(&self.entries, url, language) {
            Some(at) => Some(&*self.entries[at]),
            None => None,
        }
    }

    fn by_place(
        &self,
        scope: &Key,
        kind: Option<&ServiceType>,
        from: usize,
    ) -> Option<(&Entry, usize)> {
        for at in from..self.entries.len() {
            let entry: &Entry = &self.entries[at];
            if is_here(entry, scope, kind) {
                return Some((entry, at + 1));
            }
        }
        None
    }

    #[inline(always)]
    fn by_kind(&self, kind: Option<&ServiceType>, from: usize) -> Option<(&Entry, usize)> {
        match kind {
            Some(kind) => next_of(&self.entries, kind, from),
            None => next_entry(&self.entries, from),
        }
    }

    fn next_alike(&self, _kind: Option<&ServiceType>, _from: usize) -> Option<&Entry> {
        None
    }

    #[inline(never)]
    fn by_kind_within(
        &self,
        kind: Option<&ServiceType>,
        bound: &Url,
        from: usize,
    ) -> Option<(&Entry, usize)> {
        for at in from..self.entries.len() {
            let entry: &Entry = &self.entries[at];
            if is_of_kind_within(entry, kind, bound) {
                return Some((entry, at + 1));
            }
        }
        None
    }

    fn past_kind(&self, _kind: &ServiceType, from: usize) -> usize {
        from
    }

    fn past_alike(&self, _kind: Option<&ServiceType>, _entry: &Entry, from: usize) -> usize {
        from
    }

    fn walks_by_type(&self) -> bool {
        false
    }

    fn by_url(&self, url: &Url, from: usize) -> Option<(&Entry, usize)> {
        for at in from..self.entries.len() {
            let entry: &Entry = &self.entries[at];
            if entry.url == *url {
                return Some((entry, at + 1));
            }
        }
        None
    }

    fn shares_of_kind(
        &self,
        alloc: Global,
        kind: &ServiceType,
    ) -> Result<Vec<Arc<Entry>>, NoMemory> {
        let mut shares = Vec::new(alloc);
        for at in 0..self.entries.len() {
            let share = &self.entries[at];
            if kind.covers(&share.kind) {
                shares.push(Arc::try_clone(share)?)?;
            }
        }
        Ok(shares)
    }

    fn count_of_kind(&self, kind: &ServiceType) -> usize {
        self.entries.iter().filter(|e| kind.covers(&e.kind)).count()
    }

    fn share_by_url(&self, url: &Url, from: usize) -> Option<(&Arc<Entry>, usize)> {
        for at in from..self.entries.len() {
            let share = &self.entries[at];
            if share.url == *url {
                return Some((share, at + 1));
            }
        }
        None
    }

    fn live(&self, now: u64) -> usize {
        self.entries.iter().filter(|e| e.deadline > now).count()
    }

    fn len(&self) -> usize {
        self.entries.len()
    }

    fn capacity(&self) -> usize {
        self.limit
    }
}
