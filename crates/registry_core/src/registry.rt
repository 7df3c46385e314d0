ghost use Rattle.std.specs.Prelude.{◌≡◌, ◌+◌, ◌-◌, ◌<◌, ◌≤◌, ◌∷◌, [], ◌↔◌, length, filter, map, is_some, not, true, IsErrOf, OnOk, OnErr, IfOk, IfSome, IsTrue, MatchOption, None, Some};
ghost use Rattle.std.specs.Arc.{arc_value};
ghost use Rattle.std.specs.FinMap as fin;
ghost use Rattle.std.specs.Option.{option_copied};
ghost use Rattle.registry_core.specs.Entries.{Pair, are_alike, pair_of, outlives, if_kept, passing_entries, is_at_place, is_kind, is_of_url, is_within, is_registered, AreByType, IsListing, Passes, PassesAlike};
ghost use Rattle.registry_core.specs.declared.entry.Entry.{Entry as Held};
ghost use Rattle.registry_core.specs.declared.registry.RegistryFault.TheVariants as fault;

use crate::entry::Entry;
use service_url::{ServiceType, Url};
use slp_scopes::ScopeList;
use slp_text::{Key, NoMemory};
use std::alloc::{AllocError, Global};
use std::sync::Arc;
use thiserror::Error;

/// Why a registry takes no entry, or is not made.
#[derive(Clone, Copy, Debug, PartialEq, Eq, Error)]
pub enum RegistryFault {
    /// `put` alone.
    #[error("the registry is full")]
    Full = 1,
    /// The constructors alone.
    #[error("out of memory")]
    NoMemory = 2,
}

impl From<AllocError> for RegistryFault {
    ghost from_gives = { λ _ e. e ≡ fault.NoMemory };

    fn from(_e: AllocError) -> RegistryFault {
        RegistryFault::NoMemory
    }
}

/// Entries by URL and language, in memory that was taken when the registry was made: no call takes
/// more, but for a list that it answers. They are held as shares, and never change.
pub trait Registry {
    ghost use Rattle.std.specs.Prelude.{ℕ, List, Option};
    ghost use Rattle.registry_core.specs.declared.entry.Entry.{Entry};
    ghost use Rattle.registry_core.specs.Entries.{Entries};

    /// The entries, by their pairs.
    ghost contents: { Self → Entries };

    /// How many pairs it takes.
    ghost limit: { Self → ℕ };

    /// What `by_place` still gives of a scope and a type from a number on.
    ghost rest_at: { Self → List ℕ → Option (List ℕ) → ℕ → List Entry };

    /// What `by_kind` still gives of a type from a number on.
    ghost rest_of_kind: { Self → Option (List ℕ) → ℕ → List Entry };

    /// What `by_url` still gives of a URL from a number on.
    ghost rest_of_url: { Self → List ℕ → ℕ → List Entry };

    /// Sets the entry of one pair. A registry that has no place for a pair that is not held is
    /// `Full`, and stays as it is.
    fn put(&mut self, entry: Arc<Entry>) -> Result<(), RegistryFault>
        requires scoped { 0 < length (arc_value entry).scopes }
        requires few_scopes { length (arc_value entry).scopes ≤ 16 }
        ensures ok { OnOk result (contents self.new ≡ fin.insert (contents self.old) (pair_of (arc_value entry)) (arc_value entry)) }
        ensures full { IsErrOf result RegistryFault.Full ↔ ((fin.get (contents self.old) (pair_of (arc_value entry)) ≡ None) × (fin.len (contents self.old) ≡ limit self.old)) }
        ensures only_full { OnErr result (IsErrOf result RegistryFault.Full) }
        ensures err { OnErr result (contents self.new ≡ contents self.old) }
        ensures room { limit self.new ≡ limit self.old };

    /// Sets the entry of a pair that is held, and of no other.
    fn edit(&mut self, entry: Arc<Entry>)
        requires scoped { 0 < length (arc_value entry).scopes }
        requires few_scopes { length (arc_value entry).scopes ≤ 16 }
        requires held { is_some (fin.get (contents self.old) (pair_of (arc_value entry))) ≡ true }
        ensures edited { contents self.new ≡ fin.insert (contents self.old) (pair_of (arc_value entry)) (arc_value entry) }
        ensures room { limit self.new ≡ limit self.old };

    /// Drops the entries whose deadline is at most `now`, a moment in seconds.
    fn sweep(&mut self, now: u64)
        ensures each { (q : Pair) → fin.get (contents self.new) q ≡ if_kept (outlives now) (fin.get (contents self.old) q) }
        ensures room { limit self.new ≡ limit self.old };

    /// Drops the entries of a URL, in every language, whose scopes are exactly these.
    fn remove_url(&mut self, url: &Url, scopes: &ScopeList)
        ensures each { (q : Pair) → fin.get (contents self.new) q ≡ if_kept (λ e. not (is_registered url.now scopes.now e)) (fin.get (contents self.old) q) }
        ensures room { limit self.new ≡ limit self.old };

    /// The entry of a URL and a language.
    fn find(&self, url: &Url, language: &Key) -> Option<&Entry>
        ensures value { option_copied result ≡ fin.get (contents self.now) (url.now, language.now) }
        ensures pair { IfSome result (λ e. pair_of e.now ≡ (url.now, language.now)) };

    /// The next entry that stands in a scope and is of a type that the given one covers (`None`: of
    /// any type), with the number to go on from. The first number is 0. On a registry that stays as
    /// it is each such entry comes once.
    fn by_place(
        &self,
        scope: &Key,
        kind: Option<&ServiceType>,
        from: usize,
    ) -> Option<(&Entry, usize)>
        ensures next { MatchOption result (rest_at self.now scope.now (option_copied kind.entry) from ≡ []) (λ p. rest_at self.now scope.now (option_copied kind.entry) from ≡ p.0.now ∷ rest_at self.now scope.now (option_copied kind.entry) p.1) }
        ensures whole { IsListing (is_at_place scope.now (option_copied kind.entry)) (contents self.now) (rest_at self.now scope.now (option_copied kind.entry) 0) };

    /// The next entry of a type that the given one covers (`None`: of any type), in whatever scopes, with the
    /// number to go on from. The first number is 0. On a registry that stays as it is each such entry comes once.
    fn by_kind(&self, kind: Option<&ServiceType>, from: usize) -> Option<(&Entry, usize)>
        ensures next { MatchOption result (rest_of_kind self.now (option_copied kind.entry) from ≡ []) (λ p. rest_of_kind self.now (option_copied kind.entry) from ≡ p.0.now ∷ rest_of_kind self.now (option_copied kind.entry) p.1) }
        ensures whole { IsListing (is_kind (option_copied kind.entry)) (contents self.now) (rest_of_kind self.now (option_copied kind.entry) 0) }
        ensures there { IfSome result (λ p. rest_of_kind self.now (option_copied kind.entry) (p.1 - 1) ≡ p.0.now ∷ rest_of_kind self.now (option_copied kind.entry) p.1) }
        ensures onward { IfSome result (λ p. from < p.1) };

    /// The entry that `by_kind` gives at a number, if it is known to be alike to the one that it gives at the number before: of its type, its
    /// scopes and its registrant. The next number is the one after it.
    fn next_alike(&self, kind: Option<&ServiceType>, from: usize) -> Option<&Entry>
        ensures next { IfSome result (λ f. (e : Held) → rest_of_kind self.now (option_copied kind.entry) (from - 1) ≡ e ∷ rest_of_kind self.now (option_copied kind.entry) from
            → (rest_of_kind self.now (option_copied kind.entry) from ≡ f.now ∷ rest_of_kind self.now (option_copied kind.entry) (from + 1)) × (are_alike e f.now ≡ true)) }
        ensures within { IfSome result (λ _. from < 65536) };

    /// The same without the entries whose URL comes after a bound, in byte order. A registry that walks in that order
    /// ends there.
    fn by_kind_within(
        &self,
        kind: Option<&ServiceType>,
        bound: &Url,
        from: usize,
    ) -> Option<(&Entry, usize)>
        ensures next { MatchOption result (filter (is_within bound.now) (rest_of_kind self.now (option_copied kind.entry) from) ≡ [])
            (λ p. filter (is_within bound.now) (rest_of_kind self.now (option_copied kind.entry) from) ≡ p.0.now ∷ filter (is_within bound.now) (rest_of_kind self.now (option_copied kind.entry) p.1)) }
        ensures whole { IsListing (is_kind (option_copied kind.entry)) (contents self.now) (rest_of_kind self.now (option_copied kind.entry) 0) }
        ensures onward { IfSome result (λ p. from < p.1) };

    /// A number from which on `by_kind` gives, of all types, what it gives from another one on without some entries of one type at its
    /// front. A registry that walks by type passes over all that come next, another one over none.
    fn past_kind(&self, kind: &ServiceType, from: usize) -> usize
        ensures passes { Passes kind.now (rest_of_kind self.now None from) (rest_of_kind self.now None result) }
        ensures onward { from ≤ result };

    /// A number from which on `by_kind` gives what it gives from another one on without some entries at its front that are alike to one:
    /// of its type, its scopes and its registrant. A registry that knows where such a run ends passes over all of it, another one over none.
    fn past_alike(&self, kind: Option<&ServiceType>, entry: &Entry, from: usize) -> usize
        ensures passes { PassesAlike entry.now (rest_of_kind self.now (option_copied kind.entry) from) (rest_of_kind self.now (option_copied kind.entry) result) }
        ensures onward { from ≤ result };

    /// Whether `by_kind` gives the entries of all types in the key order of their types.
    fn walks_by_type(&self) -> bool
        ensures { IsTrue result → AreByType (rest_of_kind self.now None 0) };

    /// The next entry of a URL, with the number to go on from. The first number is 0. On a registry
    /// that stays as it is each such entry comes once.
    fn by_url(&self, url: &Url, from: usize) -> Option<(&Entry, usize)>
        ensures next { MatchOption result (rest_of_url self.now url.now from ≡ []) (λ p. rest_of_url self.now url.now from ≡ p.0.now ∷ rest_of_url self.now url.now p.1) }
        ensures whole { IsListing (is_of_url url.now) (contents self.now) (rest_of_url self.now url.now 0) };

    /// Shares of the entries of a type that the given one covers, in the order of `by_kind`: a list of its own.
    fn shares_of_kind(&self, alloc: Global, kind: &ServiceType) -> Result<Vec<Arc<Entry>>, NoMemory>
        ensures order { IfOk result (λ v. map arc_value v.items ≡ rest_of_kind self.now (Some kind.now) 0) }
        ensures whole { IfOk result (λ v. IsListing (is_kind (Some kind.now)) (contents self.now) (map arc_value v.items)) };

    /// How many entries there are of a type that the given one covers.
    fn count_of_kind(&self, kind: &ServiceType) -> usize
        ensures count { result ≡ length (rest_of_kind self.now (Some kind.now) 0) }
        ensures whole { IsListing (is_kind (Some kind.now)) (contents self.now) (rest_of_kind self.now (Some kind.now) 0) };

    /// What `by_url` gives, lent as the share that the registry holds: another one of it may be kept.
    fn share_by_url(&self, url: &Url, from: usize) -> Option<(&Arc<Entry>, usize)>
        ensures next { MatchOption result (rest_of_url self.now url.now from ≡ []) (λ p. rest_of_url self.now url.now from ≡ arc_value p.0.now ∷ rest_of_url self.now url.now p.1) }
        ensures whole { IsListing (is_of_url url.now) (contents self.now) (rest_of_url self.now url.now 0) };

    /// How many entries have a deadline greater than `now`, a moment in seconds.
    fn live(&self, now: u64) -> usize
        ensures { result ≡ fin.len (passing_entries (outlives now) (contents self.now)) };

    /// How many pairs are held.
    fn len(&self) -> usize
        ensures value { result ≡ fin.len (contents self.now) }
        ensures within { fin.len (contents self.now) ≤ limit self.now };

    /// How many pairs it takes.
    fn capacity(&self) -> usize
        ensures { result ≡ limit self.now };
}
