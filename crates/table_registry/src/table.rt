ghost use Rattle.std.specs.Prelude.{◌≡◌, ◌≢◌, ℕ, ◌<◌, ◌≤◌, length, slice_index, slice_set, not, IfOk, IsTrue, OnErr, MatchOption, None, Some, Option, true, false};
ghost use Rattle.std.specs.List.{remove};
ghost use Rattle.std.specs.Arc.{arc_value};
ghost use Rattle.std.specs.FinMap as fin;
ghost use Rattle.registry_core.specs.declared.entry.Entry.{Entry as Held};
ghost use Rattle.slp_text.specs.Words.{bytes_eq};
ghost use Rattle.registry_core.specs.Entries.{are_alike, pair_of, is_kind, is_registered, is_of_url, if_kept, outlives};
ghost use Rattle.registry_slots.specs.Slots.{Apart, slot_at, tests, is_due};
ghost use Rattle.table_registry.specs.Tables.{contents_of, walked};
ghost use Rattle.registry_slots.specs.declared.orders.By.TheVariants as by;

mod walks;

use self::walks::{by_for, is_of_kind};
use registry_core::{Entry, Registry, RegistryFault};
use registry_slots::{
    Alikes, By, Slots, alike_beside, find_slot, keep_held, put_in, stand_of, take_out,
};
use service_url::{ServiceType, Url};
use slot_list::SlotList;
use slp_scopes::ScopeList;
use slp_text::{Key, NoMemory};
use std::alloc::Global;
use std::marker::Model;
use std::sync::Arc;

/// How many entries a sweep or a withdrawal takes out of the orders one by one. More are taken out by one pass.
const FEW: usize = 64;

/// A registry of fixed slots. All its memory is taken when it is made.
pub struct TableRegistry {
    slots: Slots,
    // The held slots by URL, by root of the type, and by type.
    places: SlotList,
    roots: SlotList,
    kinds: SlotList,
    // Which slots have entries alike.
    alikes: Alikes,
}

impl Drop for TableRegistry {
    fn drop(self) {
        let TableRegistry {
            slots: _,
            places: _,
            roots: _,
            kinds: _,
            alikes: _,
        } = self;
    }
}

impl Model for TableRegistry {
    ghost use Rattle.table_registry.specs.Tables.{Table, table_code, IsTable};

    ghost Value = { Table };

    ghost coded = { table_code };

    ghost view = { λ r. record { slots = r.slots.slots; places = r.places.items; roots = r.roots.items; kinds = r.kinds.items } };

    ghost invariant = { λ r. IsTable r.slots.slots r.places r.roots r.kinds r.alikes };
}

impl TableRegistry {
    /// A registry of no entry, with all the memory that it will use. The capacity is that of a site.
    pub fn with_capacity(alloc: Global, capacity: usize) -> Result<TableRegistry, RegistryFault>
        requires some { 0 < capacity }
        requires few { capacity ≤ 65536 }
        ensures limit { IfOk result (λ r. length r.slots ≡ capacity) }
        ensures memory { OnErr result (result ≡ Err RegistryFault.NoMemory) }
        ensures empty { IfOk result (λ r. contents_of r ≡ fin.empty) }
    {
        let slots = Slots::with_capacity(alloc, capacity)?;
        let places = SlotList::with_capacity(alloc, capacity)?;
        let roots = SlotList::with_capacity(alloc, capacity)?;
        let kinds = SlotList::with_capacity(alloc, capacity)?;
        let alikes = Alikes::with_capacity(alloc, capacity)?;
        Ok(TableRegistry {
            slots,
            places,
            roots,
            kinds,
            alikes,
        })
    }

    // The slot of a pair.
    fn slot_of(&self, url: &Url, language: &Key) -> Option<usize>
        ensures apart { Apart self.now.slots }
        ensures found { MatchOption result ((x : ℕ) (e : Held) → slot_at self.now.slots x ≡ Some e → pair_of e ≢ (url.now, language.now)) (λ x. (e : Held) × (slot_at self.now.slots x ≡ Some e) × (pair_of e ≡ (url.now, language.now))) }
    {
        find_slot(&self.slots, &self.places, url, language)
    }

    // Empties the slot at a place by URL.
    fn take_at(&mut self, at: usize)
        requires { at < length self.old.places }
        ensures slots { self.new.slots ≡ slice_set self.old.slots (slice_index self.old.places at) None }
        ensures places { self.new.places ≡ remove self.old.places at }
    {
        let x = self.places.at(at);
        take_out(&self.slots, &mut self.roots, By::Root, x);
        take_out(&self.slots, &mut self.kinds, By::Kind, x);
        self.places.remove(at);
        self.slots.clear(x);
    }

    // Empties a slot, which has an entry.
    fn take(&mut self, x: usize)
        requires { (e : Held) × (slot_at self.old.slots x ≡ Some e) }
        ensures { self.new.slots ≡ slice_set self.old.slots x None }
    {
        let at = stand_of(&self.slots, &self.places, By::Place, x);
        self.take_at(at);
    }

    // Puts an entry of a new pair into a slot that has none.
    fn add(&mut self, x: usize, entry: Arc<Entry>)
        requires inside { x < length self.old.slots }
        requires empty { slot_at self.old.slots x ≡ None }
        requires fresh { (y : ℕ) (f : Held) → slot_at self.old.slots y ≡ Some f → pair_of f ≢ pair_of (arc_value entry) }
        ensures { self.new.slots ≡ slice_set self.old.slots x (Some (arc_value entry)) }
    {
        let held: &Entry = &entry;
        put_in(&self.slots, &mut self.places, By::Place, x, held);
        put_in(&self.slots, &mut self.roots, By::Root, x, held);
        let at = put_in(&self.slots, &mut self.kinds, By::Kind, x, held);
        let like = alike_beside(&self.slots, &self.kinds, at, held);
        self.alikes.give(x, like);
        self.slots.fill(x, entry);
    }

    // Puts an entry in place of one of its pair that is alike, which stays where it is in each order.
    fn renew(&mut self, x: usize, entry: Arc<Entry>)
        requires { (e : Held) × (slot_at self.old.slots x ≡ Some e) × (pair_of e ≡ pair_of (arc_value entry)) × (are_alike e (arc_value entry) ≡ true) }
        ensures { self.new.slots ≡ slice_set self.old.slots x (Some (arc_value entry)) }
    {
        self.slots.fill(x, entry);
    }

    // Whether a slot has an entry of a type.
    fn has_kind(&self, x: usize, kind: &ServiceType) -> bool
        ensures { result ≡ tests (λ e. bytes_eq e.kind kind.now) (slot_at self.now.slots x) }
    {
        match self.slots.entry_at(x) {
            Some(entry) => entry.kind.text() == kind.text(),
            None => false,
        }
    }

    // Whether two slots have one number: then their entries are alike.
    #[inline(always)]
    pub(super) fn are_one(&self, x: usize, y: usize) -> bool
        requires x { x < length self.now.slots }
        requires y { y < length self.now.slots }
        ensures { IsTrue result → (e f : Held) → slot_at self.now.slots x ≡ Some e → slot_at self.now.slots y ≡ Some f → are_alike e f ≡ true }
    {
        self.alikes.are_one(x, y)
    }

    // Whether a slot has an entry that is alike to another one.
    fn has_alike(&self, x: usize, entry: &Entry) -> bool
        ensures apart { Apart self.now.slots }
        ensures value { result ≡ tests (λ e. are_alike e entry.now) (slot_at self.now.slots x) }
    {
        match self.slots.entry_at(x) {
            Some(held) => held.is_alike(entry),
            None => false,
        }
    }

    // Puts an entry in place of one of its pair.
    fn replace(&mut self, x: usize, entry: Arc<Entry>)
        requires { (e : Held) × (slot_at self.old.slots x ≡ Some e) × (pair_of e ≡ pair_of (arc_value entry)) }
        ensures { self.new.slots ≡ slice_set self.old.slots x (Some (arc_value entry)) }
    {
        let held: &Entry = &entry;
        if self.has_alike(x, held) {
            self.renew(x, entry);
        } else {
            self.take(x);
            self.add(x, entry);
        }
    }

    // Empties the slots of a URL in just these scopes by one pass.
    fn drop_registered(&mut self, url: &Url, scopes: &ScopeList)
        ensures each { (x : ℕ) → slot_at self.new.slots x ≡ if_kept (λ e. not (is_registered url.now scopes.now e)) (slot_at self.old.slots x) }
        ensures room { length self.new.slots ≡ length self.old.slots }
    {
        self.slots.clear_registered(url, scopes);
        keep_held(&self.slots, &mut self.places);
        keep_held(&self.slots, &mut self.roots);
        keep_held(&self.slots, &mut self.kinds);
    }

    // Empties the slots of dead entries by one pass.
    fn drop_due(&mut self, now: u64)
        ensures each { (x : ℕ) → slot_at self.new.slots x ≡ if_kept (outlives now) (slot_at self.old.slots x) }
        ensures room { length self.new.slots ≡ length self.old.slots }
    {
        self.slots.clear_due(now);
        keep_held(&self.slots, &mut self.places);
        keep_held(&self.slots, &mut self.roots);
        keep_held(&self.slots, &mut self.kinds);
    }

    // A slot whose entry is dead.
    fn due_slot(&mut self, now: u64) -> Option<usize>
        ensures found { MatchOption result ((x : ℕ) (e : Held) → slot_at self.old.slots x ≡ Some e → is_due now e ≡ false) (λ x. tests (is_due now) (slot_at self.old.slots x) ≡ true) }
        ensures slots { self.new.slots ≡ self.old.slots }
    {
        self.slots.due_slot(now)
    }
}

impl Registry for TableRegistry {
    ghost use Rattle.std.specs.Prelude.{length};
    ghost use Rattle.registry_core.specs.Entries.{is_at_place, is_kind, is_of_url};
    ghost use Rattle.registry_slots.specs.declared.orders.By.TheVariants as by;
    ghost use Rattle.table_registry.specs.Tables.{contents_of, by_for, walked};

    ghost contents = { contents_of };

    ghost limit = { λ r. length r.slots };

    ghost rest_at = { λ r scope kind from. walked (by_for kind) r (is_at_place scope kind) from };

    ghost rest_of_kind = { λ r kind from. walked (by_for kind) r (is_kind kind) from };

    ghost rest_of_url = { λ r url from. walked by.Place r (is_of_url url) from };

    fn put(&mut self, entry: Arc<Entry>) -> Result<(), RegistryFault> {
        let held: &Entry = &entry;
        match self.slot_of(&held.url, &held.language) {
            Some(x) => {
                self.replace(x, entry);
                Ok(())
            }
            None => match self.slots.free_slot() {
                Some(x) => {
                    self.add(x, entry);
                    Ok(())
                }
                None => Err(RegistryFault::Full),
            },
        }
    }

    fn edit(&mut self, entry: Arc<Entry>) {
        let held: &Entry = &entry;
        match self.slot_of(&held.url, &held.language) {
            Some(x) => self.replace(x, entry),
            None => unreachable!(),
        }
    }

    fn sweep(&mut self, now: u64) {
        let few = if self.slots.is_far(now) {
            0
        } else {
            self.places.len().min(FEW)
        };
        for _ in 0..few {
            match self.due_slot(now) {
                Some(x) => self.take(x),
                None => return,
            }
        }
        self.drop_due(now);
    }

    fn remove_url(&mut self, url: &Url, scopes: &ScopeList) {
        let mut from = 0;
        for _ in 0..self.places.len().min(FEW) {
            match self.next_registered(url, scopes, from) {
                Some(at) => {
                    self.take_at(at);
                    from = at;
                }
                None => return,
            }
        }
        self.drop_registered(url, scopes);
    }

    fn find(&self, url: &Url, language: &Key) -> Option<&Entry> {
        match self.slot_of(url, language) {
            Some(x) => self.slots.entry_at(x),
            None => None,
        }
    }

    fn by_place(
        &self,
        scope: &Key,
        kind: Option<&ServiceType>,
        from: usize,
    ) -> Option<(&Entry, usize)> {
        self.walk(None, kind, Some(scope), from)
    }

    // In most walks the next entry is at the number itself: it is the first of all, or comes after the last one.
    #[inline(always)]
    fn by_kind(&self, kind: Option<&ServiceType>, from: usize) -> Option<(&Entry, usize)> {
        let order = self.order(by_for(kind));
        if from >= order.len() {
            return None;
        }
        let entry = self.slots.held(order.at(from));
        if is_of_kind(entry, kind) {
            return Some((entry, from + 1));
        }
        self.walk(None, kind, None, from)
    }

    #[inline(always)]
    fn next_alike(&self, kind: Option<&ServiceType>, from: usize) -> Option<&Entry> {
        let order = self.order(by_for(kind));
        if from == 0 || from >= order.len() {
            return None;
        }
        let (last, next) = (order.at(from - 1), order.at(from));
        if !self.are_one(last, next) {
            return None;
        }
        Some(self.slots.held(next))
    }

    fn by_kind_within(
        &self,
        kind: Option<&ServiceType>,
        bound: &Url,
        from: usize,
    ) -> Option<(&Entry, usize)> {
        self.walk(Some(bound), kind, None, from)
    }

    #[inline(always)]
    fn past_kind(&self, kind: &ServiceType, from: usize) -> usize {
        if from >= self.kinds.len() || !self.has_kind(self.kinds.at(from), kind) {
            return from;
        }
        self.end_of_kind(kind)
    }

    fn past_alike(&self, kind: Option<&ServiceType>, entry: &Entry, from: usize) -> usize {
        self.end_of_run(by_for(kind), entry, from)
    }

    #[inline(always)]
    fn walks_by_type(&self) -> bool {
        // What the order keeps is known where it is read.
        let _kinds = &self.kinds;
        true
    }

    fn by_url(&self, url: &Url, from: usize) -> Option<(&Entry, usize)> {
        let slots = &self.slots;
        match self.next_of_url(url, from) {
            Some(at) => match slots.entry_at(self.places.at(at)) {
                Some(entry) => Some((entry, at + 1)),
                None => unreachable!(),
            },
            None => None,
        }
    }

    // What a type covers stands together, so that no entry is looked at.
    fn shares_of_kind(
        &self,
        alloc: Global,
        kind: &ServiceType,
    ) -> Result<Vec<Arc<Entry>>, NoMemory> {
        let order = self.order(by_for(Some(kind)));
        let (start, end) = self.range_of(kind);
        let mut shares = Vec::new(alloc);
        for at in start..end {
            shares.push(Arc::try_clone(self.slots.share(order.at(at)))?)?;
        }
        Ok(shares)
    }

    fn count_of_kind(&self, kind: &ServiceType) -> usize {
        // That what is covered stands together is known where the order is read.
        let _order = self.order(by_for(Some(kind)));
        let (start, end) = self.range_of(kind);
        end.saturating_sub(start)
    }

    fn share_by_url(&self, url: &Url, from: usize) -> Option<(&Arc<Entry>, usize)> {
        match self.next_of_url(url, from) {
            Some(at) => Some((self.slots.share(self.places.at(at)), at + 1)),
            None => None,
        }
    }

    fn live(&self, now: u64) -> usize {
        if self.slots.has_due(now) {
            self.slots.live(now)
        } else {
            self.places.len()
        }
    }

    fn len(&self) -> usize {
        self.places.len()
    }

    fn capacity(&self) -> usize {
        self.slots.len()
    }
}
