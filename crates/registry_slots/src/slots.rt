ghost use Rattle.std.specs.Prelude.{◌≡◌, ◌≢◌, ◌⊎◌, ℕ, ◌+◌, ◌<◌, ◌≤◌, [], length, filter, not, slice_set, slice_index, slice_index_or, IfOk, MatchOption, None, Some, map, true, false};
ghost use Rattle.std.specs.Arc.{arc_value};
ghost use Rattle.std.specs.Option.{option_copied, option_map};
ghost use Rattle.registry_core.specs.declared.entry.Entry.{Entry as Held};
ghost use Rattle.registry_core.specs.Entries.{if_kept, is_registered, outlives};
ghost use Rattle.registry_slots.specs.Slots.{slot_at, somes, tests, is_due, due_spot as due_spot_of};
ghost use Rattle.slot_chains.specs.Links.{rest};

use registry_core::Entry;
use service_url::Url;
use slot_chains::Chains;
use slp_scopes::ScopeList;
use std::alloc::{AllocError, Global};
use std::marker::Model;
use std::sync::Arc;

/// How many chains there are of slots with entries: by deadline, modulo this number.
const TURN: usize = 65_536;

/// Slots for entries, in memory that was taken when they were made.
pub struct Slots {
    slots: Vec<Option<Arc<Entry>>>,
    // By deadline, modulo `TURN`; the last chain has the slots with no entry.
    dues: Chains,
    // No deadline is below this.
    since: u64,
}

impl Drop for Slots {
    fn drop(self) {
        let Slots {
            slots: _,
            dues: _,
            since: _,
        } = self;
    }
}

impl Model for Slots {
    ghost use Rattle.std.specs.Prelude.{map};
    ghost use Rattle.std.specs.Option.{option_map};
    ghost use Rattle.std.specs.Arc.{arc_value};
    ghost use Rattle.registry_slots.specs.Slots.{Slots, slots_code, IsSlots};

    ghost Value = { Slots };

    ghost coded = { slots_code };

    ghost view = { λ r. record { slots = map (option_map arc_value) r.slots.items; dues = r.dues; since = r.since } };

    ghost invariant = { λ r. IsSlots (record { slots = map (option_map arc_value) r.slots.items; dues = r.dues; since = r.since }) };
}

/// A slot with a dead entry, and a moment that no deadline is below.
#[derive(Clone, Copy)]
struct Due {
    slot: usize,
    moment: u64,
}

fn due_spot(deadline: u64) -> usize
    ensures value { result ≡ due_spot_of deadline }
    ensures bound { result < 65536 }
{
    (deadline % 65_536) as usize
}

// Slots with no entry.
fn free_slots(alloc: Global, n: usize) -> Result<Vec<Option<Arc<Entry>>>, AllocError>
    ensures len { IfOk result (λ v. length v.items ≡ n) }
    ensures each { IfOk result (λ v. (x : ℕ) → slice_index_or v.items x None ≡ None) }
{
    let mut slots = Vec::with_capacity(alloc, n)?;
    for _ in 0..n {
        let free: Option<Arc<Entry>> = None;
        slots.push(free)?;
    }
    Ok(slots)
}

// The chains with each slot in the last one.
fn free_chain(alloc: Global, n: usize) -> Result<Chains, AllocError>
    requires { n ≤ 65536 }
    ensures heads { IfOk result (λ c. c.heads ≡ 65537) }
    ensures nodes { IfOk result (λ c. length c.home ≡ n) }
    ensures free { IfOk result (λ c. (x : ℕ) → x < n → slice_index c.home x ≡ 65536) }
{
    let mut chains = Chains::with_capacity(alloc, n, TURN + 1)?;
    for x in 0..n {
        chains.move_to(x, TURN);
    }
    Ok(chains)
}

// The entry in a slot.
#[inline(always)]
fn entry_in(slots: &[Option<Arc<Entry>>], x: usize) -> Option<&Entry>
    ensures { option_copied result ≡ slot_at (map (option_map arc_value) slots.now) x }
{
    if x < slots.len() {
        match &slots[x] {
            Some(held) => Some(&**held),
            None => None,
        }
    } else {
        None
    }
}

// Whether a slot has an entry whose deadline is at most `now`.
fn is_dead(slots: &[Option<Arc<Entry>>], x: usize, now: u64) -> bool
    ensures { result ≡ tests (is_due now) (slot_at (map (option_map arc_value) slots.now) x) }
{
    match entry_in(slots, x) {
        Some(entry) => entry.deadline <= now,
        None => false,
    }
}

// Whether a slot has an entry whose deadline is greater than `now`.
fn is_alive(slots: &[Option<Arc<Entry>>], x: usize, now: u64) -> bool
    ensures { result ≡ tests (outlives now) (slot_at (map (option_map arc_value) slots.now) x) }
{
    match entry_in(slots, x) {
        Some(entry) => entry.deadline > now,
        None => false,
    }
}

impl Slots {
    /// So many slots with no entry, at most as many as the chains by deadline.
    pub fn with_capacity(alloc: Global, capacity: usize) -> Result<Slots, AllocError>
        requires { capacity ≤ 65536 }
        ensures room { IfOk result (λ r. length r.slots ≡ capacity) }
        ensures free { IfOk result (λ r. (x : ℕ) → slot_at r.slots x ≡ None) }
        ensures none { IfOk result (λ r. somes r.slots ≡ []) }
    {
        let slots = free_slots(alloc, capacity)?;
        let dues = free_chain(alloc, capacity)?;
        Ok(Slots {
            slots,
            dues,
            since: 0,
        })
    }

    /// How many there are.
    pub fn len(&self) -> usize
        ensures { result ≡ length self.now.slots }
    {
        self.slots.len()
    }

    /// The entry in a slot.
    #[inline(always)]
    pub fn entry_at(&self, x: usize) -> Option<&Entry>
        ensures { option_copied result ≡ slot_at self.now.slots x }
    {
        entry_in(&self.slots, x)
    }

    /// The entry in a slot that has one.
    #[inline(always)]
    pub fn held(&self, x: usize) -> &Entry
        requires { (e : Held) × (slot_at self.now.slots x ≡ Some e) }
        ensures { slot_at self.now.slots x ≡ Some result.now }
    {
        match &self.slots[x] {
            Some(held) => held,
            None => unreachable!(),
        }
    }

    /// The share of the entry in a slot that has one.
    #[inline(always)]
    pub fn share(&self, x: usize) -> &Arc<Entry>
        requires { (e : Held) × (slot_at self.now.slots x ≡ Some e) }
        ensures { slot_at self.now.slots x ≡ Some (arc_value result.now) }
    {
        match &self.slots[x] {
            Some(share) => share,
            None => unreachable!(),
        }
    }

    /// A slot with no entry.
    pub fn free_slot(&self) -> Option<usize>
        ensures { MatchOption result ((x : ℕ) → x < length self.now.slots → slot_at self.now.slots x ≢ None) (λ x. (x < length self.now.slots) × (slot_at self.now.slots x ≡ None)) }
    {
        let x = self.dues.first(TURN);
        match self.dues.after(x) {
            Some(_) => Some(x),
            None => None,
        }
    }

    /// Empties a slot.
    pub fn clear(&mut self, x: usize)
        requires { x < length self.old.slots }
        ensures { self.new.slots ≡ slice_set self.old.slots x None }
    {
        self.dues.move_to(x, TURN);
        self.slots[x] = None;
    }

    /// Puts an entry into a slot, in place of one that is there.
    pub fn fill(&mut self, x: usize, entry: Arc<Entry>)
        requires { x < length self.old.slots }
        ensures { self.new.slots ≡ slice_set self.old.slots x (Some (arc_value entry)) }
    {
        let held: &Entry = &entry;
        self.dues.move_to(x, due_spot(held.deadline));
        self.since = self.since.min(held.deadline);
        self.slots[x] = Some(entry);
    }

    // A slot in a chain by deadline whose entry is dead.
    fn dead_in(&self, h: usize, now: u64) -> Option<usize>
        requires { h < 65536 }
        ensures { MatchOption result ((x : ℕ) (e : Held) → slot_at self.now.slots x ≡ Some e → is_due now e ≡ true → due_spot_of e.deadline ≢ h) (λ x. tests (is_due now) (slot_at self.now.slots x) ≡ true) }
    {
        let mut at = self.dues.first(h);
        while let Some(next) = self.dues.after(at) {
            if is_dead(&self.slots, at, now) {
                return Some(at);
            }
            at = next;
        }
        None
    }

    // A slot whose entry is dead.
    fn next_due(&self, now: u64) -> Option<Due>
        ensures { MatchOption result ((x : ℕ) (e : Held) → slot_at self.now.slots x ≡ Some e → is_due now e ≡ false)
            (λ d. (tests (is_due now) (slot_at self.now.slots d.slot) ≡ true) × ((x : ℕ) (e : Held) → slot_at self.now.slots x ≡ Some e → d.moment ≤ e.deadline)) }
    {
        if now < self.since {
            return None;
        }
        let from = self.since;
        let turns = (now - from).min(65_535) + 1;
        for k in 0..turns {
            if let Some(slot) = self.dead_in(due_spot(from + k), now) {
                return Some(Due {
                    slot,
                    moment: from + k,
                });
            }
        }
        None
    }

    /// Whether there is an entry whose deadline is at most `now`.
    pub fn has_due(&self, now: u64) -> bool
        ensures { result ≡ false → (x : ℕ) (e : Held) → slot_at self.now.slots x ≡ Some e → is_due now e ≡ false }
    {
        self.next_due(now).is_some()
    }

    /// A slot with an entry whose deadline is at most `now`.
    pub fn due_slot(&mut self, now: u64) -> Option<usize>
        ensures found { MatchOption result ((x : ℕ) (e : Held) → slot_at self.old.slots x ≡ Some e → is_due now e ≡ false) (λ x. tests (is_due now) (slot_at self.old.slots x) ≡ true) }
        ensures slots { self.new.slots ≡ self.old.slots }
    {
        match self.next_due(now) {
            Some(due) => {
                self.since = due.moment;
                Some(due.slot)
            }
            None => {
                self.raise(now);
                None
            }
        }
    }

    // Where nothing is dead at a moment, no deadline is below it.
    fn raise(&mut self, now: u64)
        requires { (x : ℕ) (e : Held) → slot_at self.old.slots x ≡ Some e → is_due now e ≡ false }
        ensures { self.new.slots ≡ self.old.slots }
    {
        self.since = self.since.max(now);
    }

    /// Whether more seconds went by since the last sweep than there are chains by deadline. To look at each slot is less then.
    pub fn is_far(&self, now: u64) -> bool {
        now.saturating_sub(self.since) >= TURN as u64
    }

    // Empties the slots of the entries whose deadline is at most `now`, chain by chain.
    fn clear_chained(&mut self, now: u64)
        ensures each { (x : ℕ) → slot_at self.new.slots x ≡ if_kept (outlives now) (slot_at self.old.slots x) }
        ensures room { length self.new.slots ≡ length self.old.slots }
    {
        while let Some(x) = self.due_slot(now) {
            self.clear(x);
        }
    }

    // Whether a slot has an entry whose deadline is at most `now`.
    fn is_dead_at(&self, x: usize, now: u64) -> bool
        ensures { result ≡ tests (is_due now) (slot_at self.now.slots x) }
    {
        is_dead(&self.slots, x, now)
    }

    // The same, slot by slot.
    fn clear_dead(&mut self, now: u64)
        ensures each { (x : ℕ) → slot_at self.new.slots x ≡ if_kept (outlives now) (slot_at self.old.slots x) }
        ensures room { length self.new.slots ≡ length self.old.slots }
    {
        for x in 0..self.len() {
            if !self.is_dead_at(x, now) {
                continue;
            }
            self.clear(x);
        }
        self.raise(now);
    }

    /// Empties the slots of the entries whose deadline is at most `now`.
    pub fn clear_due(&mut self, now: u64)
        ensures each { (x : ℕ) → slot_at self.new.slots x ≡ if_kept (outlives now) (slot_at self.old.slots x) }
        ensures room { length self.new.slots ≡ length self.old.slots }
    {
        if self.is_far(now) {
            self.clear_dead(now);
        } else {
            self.clear_chained(now);
        }
    }

    /// Whether a slot has an entry of a URL in just these scopes.
    pub fn is_registered_at(&self, x: usize, url: &Url, scopes: &ScopeList) -> bool
        ensures { result ≡ tests (is_registered url.now scopes.now) (slot_at self.now.slots x) }
    {
        match self.entry_at(x) {
            Some(entry) => entry.url == *url && entry.scopes == *scopes,
            None => false,
        }
    }

    /// Empties the slots of a URL in just these scopes.
    pub fn clear_registered(&mut self, url: &Url, scopes: &ScopeList)
        ensures each { (x : ℕ) → slot_at self.new.slots x ≡ if_kept (λ e. not (is_registered url.now scopes.now e)) (slot_at self.old.slots x) }
        ensures room { length self.new.slots ≡ length self.old.slots }
    {
        for x in 0..self.len() {
            if !self.is_registered_at(x, url, scopes) {
                continue;
            }
            self.clear(x);
        }
    }

    /// How many entries have a deadline greater than `now`.
    pub fn live(&self, now: u64) -> usize
        ensures { result ≡ length (filter (outlives now) (somes self.now.slots)) }
    {
        let mut live = 0;
        for x in 0..self.slots.len() {
            if is_alive(&self.slots, x, now) {
                live += 1;
            }
        }
        live
    }
}
