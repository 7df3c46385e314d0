//! Walks along the orders: of a type, of a URL.
ghost use Rattle.std.specs.Prelude.{◌≡◌, ◌-◌, ◌<◌, ◌≤◌, [], ◌∷◌, length, slice_index, not, IfSome, Bool, MatchOption, None, Some, Option, true, false};
ghost use Rattle.std.specs.Option.{option_copied};
ghost use Rattle.registry_core.specs.declared.entry.Entry.{Entry as Held};
ghost use Rattle.registry_core.specs.Entries.{is_kind, is_registered, is_of_url, is_within, IsListing, PassesAlike};
ghost use Rattle.registry_slots.specs.Slots.{slot_at, tests};
ghost use Rattle.registry_slots.specs.Orders.{IsOrder, place_in, rank_behind};
ghost use Rattle.table_registry.specs.Tables.{NoneIn, contents_of, order_of, by_for as by_for_kind, walked, in_bound, in_scope, is_wanted, is_past as is_past_in};
ghost use Rattle.registry_slots.specs.declared.orders.By.TheVariants as by;

use crate::table::TableRegistry;
use registry_core::Entry;
use registry_slots::{By, Slots, Spot, place_of};
use service_url::{ServiceType, Url};
use slot_list::SlotList;
use slp_scopes::ScopeList;
use slp_text::Key;
use std::cmp::Ordering;

// The order in which what a type covers stands together: for `service:A` by root, else by type.
#[inline(always)]
pub(super) fn by_for(kind: Option<&ServiceType>) -> By
    ensures { result ≡ by_for_kind (option_copied kind.entry) }
{
    match kind {
        None => By::Kind,
        Some(kind) => {
            if kind.is_abstract() {
                By::Root
            } else {
                By::Kind
            }
        }
    }
}

#[inline(always)]
fn is_in_bound(entry: &Entry, bound: Option<&Url>) -> bool
    ensures { result ≡ in_bound (option_copied bound.entry) entry.now }
{
    match bound {
        None => true,
        Some(bound) => entry.url <= *bound,
    }
}

#[inline(always)]
fn is_in_scope(entry: &Entry, scope: Option<&Key>) -> bool
    ensures { result ≡ in_scope (option_copied scope.entry) entry.now }
{
    match scope {
        None => true,
        Some(scope) => entry.scopes.has(scope),
    }
}

#[inline(always)]
pub(super) fn is_of_kind(entry: &Entry, kind: Option<&ServiceType>) -> bool
    ensures { result ≡ is_kind (option_copied kind.entry) entry.now }
{
    match kind {
        None => true,
        Some(kind) => kind.covers(&entry.kind),
    }
}

// Whether a walk is for an entry. Its URL is asked first.
#[inline(always)]
fn takes(
    entry: &Entry,
    bound: Option<&Url>,
    kind: Option<&ServiceType>,
    scope: Option<&Key>,
) -> bool
    ensures { result ≡ is_wanted (option_copied bound.entry) (option_copied kind.entry) (option_copied scope.entry) entry.now }
{
    is_in_bound(entry, bound) && is_of_kind(entry, kind) && is_in_scope(entry, scope)
}

// Whether nothing after an entry is wanted, in the order for the type.
fn is_past(by: By, entry: &Entry, kind: Option<&ServiceType>, bound: Option<&Url>) -> bool
    ensures { result ≡ is_past_in by (option_copied kind.entry) (option_copied bound.entry) entry.now }
{
    match kind {
        None => false,
        Some(kind) => match by.cmp_front(entry, kind.text().as_bytes()) {
            Ordering::Less => false,
            Ordering::Greater => true,
            Ordering::Equal => !is_in_bound(entry, bound),
        },
    }
}

impl TableRegistry {
    #[inline(always)]
    pub(super) fn order(&self, by: By) -> &SlotList
        ensures items { result.now.items ≡ order_of by self.now }
        ensures order { IsOrder by self.now.slots result.now.items }
        ensures whole { (p : Held → Bool) → IsListing p (contents_of self.now) (walked by self.now p 0) }
    {
        match by {
            By::Place => &self.places,
            By::Root => &self.roots,
            By::Kind => &self.kinds,
        }
    }

    // Where a walk for a type begins: from 0 on, at the first place in the order at which an entry of the type may
    // stand.
    fn start(&self, kind: Option<&ServiceType>, from: usize) -> usize
        ensures onward { from ≤ result }
        ensures none { NoneIn (is_kind (option_copied kind.entry)) self.now.slots (order_of (by_for_kind (option_copied kind.entry)) self.now) from result }
    {
        if from > 0 {
            return from;
        }
        match kind {
            None => 0,
            Some(named) => {
                let by = by_for(kind);
                let spot = Spot::before(named.text().as_bytes());
                place_of(&self.slots, self.order(by), by, &spot)
            }
        }
    }

    // The next place in the order for a type of an entry that a walk is for.
    #[inline(never)]
    pub(super) fn next_wanted(
        &self,
        bound: Option<&Url>,
        kind: Option<&ServiceType>,
        scope: Option<&Key>,
        from: usize,
    ) -> Option<usize>
        ensures { let p = is_wanted (option_copied bound.entry) (option_copied kind.entry) (option_copied scope.entry) in let order = order_of (by_for_kind (option_copied kind.entry)) self.now in
            MatchOption result (NoneIn p self.now.slots order from (length order))
            (λ i. (from ≤ i) × (i < length order) × NoneIn p self.now.slots order from i × (tests p (slot_at self.now.slots (slice_index order i)) ≡ true)) }
    {
        let by = by_for(kind);
        let order = self.order(by);
        let mut at = self.start(kind, from);
        while at < order.len() {
            let entry = self.slots.held(order.at(at));
            if takes(entry, bound, kind, scope) {
                return Some(at);
            }
            if is_past(by, entry, kind, bound) {
                return None;
            }
            at += 1;
        }
        None
    }

    // The next entry that a walk is for, with the number to go on from.
    #[inline(always)]
    pub(super) fn walk(
        &self,
        bound: Option<&Url>,
        kind: Option<&ServiceType>,
        scope: Option<&Key>,
        from: usize,
    ) -> Option<(&Entry, usize)>
        ensures next { let b = by_for_kind (option_copied kind.entry) in let p = is_wanted (option_copied bound.entry) (option_copied kind.entry) (option_copied scope.entry) in
            MatchOption result (walked b self.now p from ≡ []) (λ r. walked b self.now p from ≡ r.0.now ∷ walked b self.now p r.1) }
        ensures whole { (p : Held → Bool) → IsListing p (contents_of self.now) (walked (by_for_kind (option_copied kind.entry)) self.now p 0) }
        ensures there { let b = by_for_kind (option_copied kind.entry) in let p = is_wanted (option_copied bound.entry) (option_copied kind.entry) (option_copied scope.entry) in
            IfSome result (λ r. walked b self.now p (r.1 - 1) ≡ r.0.now ∷ walked b self.now p r.1) }
        ensures onward { IfSome result (λ r. from < r.1) }
    {
        let order = self.order(by_for(kind));
        match self.next_wanted(bound, kind, scope, from) {
            Some(at) => Some((self.slots.held(order.at(at)), at + 1)),
            None => None,
        }
    }
}

// Whether a slot has an entry of a URL.
fn slot_is_of_url(slots: &Slots, x: usize, url: &Url) -> bool
    ensures { result ≡ tests (is_of_url url.now) (slot_at slots.now.slots x) }
{
    match slots.entry_at(x) {
        Some(entry) => entry.url == *url,
        None => false,
    }
}

// Whether a slot has an entry whose URL comes after one.
fn slot_is_after(slots: &Slots, x: usize, url: &Url) -> bool
    ensures { result ≡ tests (λ e. not (is_within url.now e)) (slot_at slots.now.slots x) }
{
    match slots.entry_at(x) {
        Some(entry) => !(entry.url <= *url),
        None => false,
    }
}

impl TableRegistry {
    // Where a walk for a URL begins: from 0 on, at the first place at which an entry of it may stand.
    fn start_of_url(&self, url: &Url, from: usize) -> usize
        ensures onward { from ≤ result }
        ensures none { NoneIn (is_of_url url.now) self.now.slots self.now.places from result }
    {
        if from > 0 {
            return from;
        }
        let spot = Spot::of_pair(url.text(), "");
        place_of(&self.slots, &self.places, By::Place, &spot)
    }

    // The next place of an entry of a URL.
    pub(super) fn next_of_url(&self, url: &Url, from: usize) -> Option<usize>
        ensures { MatchOption result (NoneIn (is_of_url url.now) self.now.slots self.now.places from (length self.now.places))
            (λ i. (from ≤ i) × (i < length self.now.places) × NoneIn (is_of_url url.now) self.now.slots self.now.places from i × (tests (is_of_url url.now) (slot_at self.now.slots (slice_index self.now.places i)) ≡ true)) }
    {
        let mut at = self.start_of_url(url, from);
        while at < self.places.len() {
            let x = self.places.at(at);
            if slot_is_of_url(&self.slots, x, url) {
                return Some(at);
            }
            if slot_is_after(&self.slots, x, url) {
                return None;
            }
            at += 1;
        }
        None
    }

    // The next place of an entry of a URL in just these scopes.
    pub(super) fn next_registered(
        &self,
        url: &Url,
        scopes: &ScopeList,
        from: usize,
    ) -> Option<usize>
        ensures sorted { IsOrder by.Place self.now.slots self.now.places }
        ensures found { let p = is_registered url.now scopes.now in
            MatchOption result (NoneIn p self.now.slots self.now.places from (length self.now.places))
            (λ i. (from ≤ i) × (i < length self.now.places) × NoneIn p self.now.slots self.now.places from i × (tests p (slot_at self.now.slots (slice_index self.now.places i)) ≡ true)) }
    {
        let mut at = from;
        while let Some(place) = self.next_of_url(url, at) {
            if self
                .slots
                .is_registered_at(self.places.at(place), url, scopes)
            {
                return Some(place);
            }
            at = place + 1;
        }
        None
    }

    // Where what a type covers stands in the order for the type: from the first number up to the second.
    #[inline(never)]
    pub(super) fn range_of(&self, kind: &ServiceType) -> (usize, usize)
        ensures start { result.0 ≡ place_in (by_for_kind (Some kind.now)) self.now.slots (order_of (by_for_kind (Some kind.now)) self.now) (kind.now, ([], [])) }
        ensures end { result.1 ≡ place_in (by_for_kind (Some kind.now)) self.now.slots (order_of (by_for_kind (Some kind.now)) self.now) (rank_behind kind.now) }
    {
        let by = by_for(Some(kind));
        let order = self.order(by);
        let front = kind.text().as_bytes();
        let start = place_of(&self.slots, order, by, &Spot::before(front));
        let end = place_of(&self.slots, order, by, &Spot::behind(front));
        (start, end)
    }

    // Where the entries of a type end in the order by type.
    #[inline(never)]
    pub(super) fn end_of_kind(&self, kind: &ServiceType) -> usize
        ensures { result ≡ place_in by.Kind self.now.slots self.now.kinds (rank_behind kind.now) }
    {
        let spot = Spot::behind(kind.text().as_bytes());
        place_of(&self.slots, &self.kinds, By::Kind, &spot)
    }

    // Where a run of entries ends that are alike to one, from a number on: the slots of those after the first have its number.
    #[inline(never)]
    pub(super) fn end_of_run(&self, by: By, entry: &Entry, from: usize) -> usize
        ensures passes { (p : Held → Bool) → PassesAlike entry.now (walked by self.now p from) (walked by self.now p result) }
        ensures onward { from ≤ result }
    {
        let order = self.order(by);
        if from >= order.len() {
            return from;
        }
        let first = order.at(from);
        if !entry.is_alike(self.slots.held(first)) {
            return from;
        }
        let mut at = from + 1;
        while at < order.len() && self.are_one(first, order.at(at)) {
            at += 1;
        }
        at
    }
}
