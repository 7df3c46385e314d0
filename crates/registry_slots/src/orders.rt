//! Numbers of slots, in the order of their entries.
ghost use Rattle.std.specs.Prelude.{◌≡◌, ℕ, ◌<◌, ◌≤◌, ◌≢◌, length, slice_index, slice_set, filter, [], true, IfSome, MatchOption, Some, None};
ghost use Rattle.std.specs.Ordering.{is_lt};
ghost use Rattle.registry_core.specs.declared.entry.Entry.{Entry as Held};
ghost use Rattle.registry_slots.specs.Slots.{slot_at};
ghost use Rattle.registry_slots.specs.Orders.{IsOrder, front_of, is_held, place_in, rank_behind, rank_cmp, rank_of, spot_rank};
ghost use Rattle.registry_slots.specs.declared.orders.By.TheVariants as by;
ghost use Rattle.registry_core.specs.Entries.{are_alike, pair_cmp, pair_of};
ghost use Rattle.slp_text.specs.Words.{bytes_cmp};

use crate::slots::Slots;
use registry_core::Entry;
use service_url::Url;
use slot_list::SlotList;
use slp_text::Key;
use std::cmp::Ordering;

/// What comes before URL and language in an order.
#[derive(Clone, Copy)]
pub enum By {
    /// Nothing.
    Place,
    /// The type that others are made from.
    Root,
    /// The type.
    Kind,
}

/// A place in an order: where an entry of this front and pair belongs, or behind all entries of the front.
#[derive(Clone, Copy)]
pub struct Spot<'a> {
    pub front: &'a [u8],
    pub url: &'a str,
    pub language: &'a str,
    pub is_behind: bool,
}

impl<'a> Spot<'a> {
    /// Before all entries of a front.
    pub fn before(front: &'a [u8]) -> Spot<'a>
        ensures { spot_rank result ≡ (front.now, ([], [])) }
    {
        Spot {
            front,
            url: "",
            language: "",
            is_behind: false,
        }
    }

    /// Behind them.
    pub fn behind(front: &'a [u8]) -> Spot<'a>
        ensures { spot_rank result ≡ rank_behind front.now }
    {
        Spot {
            front,
            url: "",
            language: "",
            is_behind: true,
        }
    }

    /// Where the entry of a pair belongs in the order by pairs.
    pub fn of_pair(url: &'a str, language: &'a str) -> Spot<'a>
        ensures { spot_rank result ≡ ([], (url.now, language.now)) }
    {
        Spot {
            front: b"",
            url,
            language,
            is_behind: false,
        }
    }
}

impl By {
    // What comes first of an entry.
    fn front(self, entry: &Entry) -> &[u8]
        ensures { result.now ≡ front_of self entry.now }
    {
        match self {
            By::Place => b"",
            By::Root => entry.kind.root(),
            By::Kind => entry.kind.text().as_bytes(),
        }
    }

    /// How what comes first of an entry stands to a front. Takes no memory.
    #[inline(always)]
    pub fn cmp_front(self, entry: &Entry, front: &[u8]) -> Ordering
        ensures { result ≡ bytes_cmp (front_of self entry.now) front.now }
    {
        match self {
            By::Place => {
                if front.is_empty() {
                    Ordering::Equal
                } else {
                    Ordering::Less
                }
            }
            By::Root => entry.kind.root().cmp(front),
            By::Kind => entry.kind.text().as_bytes().cmp(front),
        }
    }

    // Where an entry belongs.
    fn spot(self, entry: &Entry) -> Spot<'_>
        ensures { spot_rank result ≡ rank_of self entry.now }
    {
        Spot {
            front: self.front(entry),
            url: entry.url.text(),
            language: entry.language.as_str(),
            is_behind: false,
        }
    }
}

// Whether the pair of an entry comes before another one.
#[inline(always)]
fn is_pair_before(entry: &Entry, url: &str, language: &str) -> bool
    ensures { result ≡ is_lt (pair_cmp (pair_of entry.now) (url.now, language.now)) }
{
    match entry.url.text().cmp(url) {
        Ordering::Less => true,
        Ordering::Greater => false,
        Ordering::Equal => entry.language.as_str().cmp(language).is_lt(),
    }
}

// Whether an entry comes before a place in the order.
#[inline(always)]
fn is_before(by: By, entry: &Entry, spot: &Spot<'_>) -> bool
    ensures { result ≡ is_lt (rank_cmp (rank_of by entry.now) (spot_rank spot.now)) }
{
    match by.cmp_front(entry, spot.front) {
        Ordering::Less => true,
        Ordering::Greater => false,
        Ordering::Equal => spot.is_behind || is_pair_before(entry, spot.url, spot.language),
    }
}

/// How many slots come before a place in the order.
pub fn place_of(slots: &Slots, order: &SlotList, by: By, spot: &Spot<'_>) -> usize
    requires { IsOrder by slots.now.slots order.now.items }
    ensures { result ≡ place_in by slots.now.slots order.now.items (spot_rank spot.now) }
{
    let mut low = 0;
    let mut high = order.len();
    while low < high {
        let middle = low + (high - low) / 2;
        if is_before(by, slots.held(order.at(middle)), spot) {
            low = middle + 1;
        } else {
            high = middle;
        }
    }
    low
}

// How the pair of an entry stands to another one.
#[inline(always)]
fn cmp_pair(entry: &Entry, url: &Url, language: &Key) -> Ordering
    ensures { result ≡ pair_cmp (pair_of entry.now) (url.now, language.now) }
{
    match entry.url.text().cmp(url.text()) {
        Ordering::Equal => entry.language.as_str().cmp(language.as_str()),
        unequal => unequal,
    }
}

/// The slot of a pair, by the order of pairs.
pub fn find_slot(slots: &Slots, order: &SlotList, url: &Url, language: &Key) -> Option<usize>
    requires { IsOrder by.Place slots.now.slots order.now.items }
    ensures { MatchOption result ((x : ℕ) (e : Held) → slot_at slots.now.slots x ≡ Some e → pair_of e ≢ (url.now, language.now))
        (λ x. (e : Held) × (slot_at slots.now.slots x ≡ Some e) × (pair_of e ≡ (url.now, language.now))) }
{
    let mut low = 0;
    let mut high = order.len();
    while low < high {
        let middle = low + (high - low) / 2;
        let x = order.at(middle);
        match cmp_pair(slots.held(x), url, language) {
            Ordering::Less => low = middle + 1,
            Ordering::Greater => high = middle,
            Ordering::Equal => return Some(x),
        }
    }
    None
}

/// Puts a slot with no entry where this entry of a new pair belongs. It says at which place.
pub fn put_in(slots: &Slots, order: &mut SlotList, by: By, x: usize, entry: &Entry) -> usize
    requires order { IsOrder by slots.now.slots order.old.items }
    requires inside { x < length slots.now.slots }
    requires empty { slot_at slots.now.slots x ≡ None }
    requires fresh { (y : ℕ) (f : Held) → slot_at slots.now.slots y ≡ Some f → rank_of by f ≢ rank_of by entry.now }
    requires few { length slots.now.slots ≤ 65536 }
    requires room { length slots.now.slots ≤ order.old.room }
    ensures order { IsOrder by (slice_set slots.now.slots x (Some entry.now)) order.new.items }
    ensures there { slice_index order.new.items result ≡ x }
    ensures room { order.new.room ≡ order.old.room }
{
    let at = place_of(slots, order, by, &by.spot(entry));
    order.insert(at, x);
    at
}

// The slot at a place, if its entry is alike to another one.
fn alike_at(slots: &Slots, order: &SlotList, at: usize, entry: &Entry) -> Option<usize>
    ensures { IfSome result (λ y. (f : Held) × (slot_at slots.now.slots y ≡ Some f) × (are_alike entry.now f ≡ true)) }
{
    if at >= order.len() {
        return None;
    }
    let y = order.at(at);
    match slots.entry_at(y) {
        Some(held) if entry.is_alike(held) => Some(y),
        _ => None,
    }
}

/// A slot before or after a place whose entry is alike to another one.
pub fn alike_beside(slots: &Slots, order: &SlotList, at: usize, entry: &Entry) -> Option<usize>
    ensures { IfSome result (λ y. (f : Held) × (slot_at slots.now.slots y ≡ Some f) × (are_alike entry.now f ≡ true)) }
{
    if at > 0
        && let Some(y) = alike_at(slots, order, at - 1, entry)
    {
        return Some(y);
    }
    alike_at(slots, order, at.saturating_add(1), entry)
}

/// Where a held slot stands.
pub fn stand_of(slots: &Slots, order: &SlotList, by: By, x: usize) -> usize
    requires order { IsOrder by slots.now.slots order.now.items }
    requires held { (e : Held) × (slot_at slots.now.slots x ≡ Some e) }
    ensures within { result < length order.now.items }
    ensures there { slice_index order.now.items result ≡ x }
{
    match slots.entry_at(x) {
        Some(entry) => place_of(slots, order, by, &by.spot(entry)),
        None => unreachable!(),
    }
}

/// Takes out a slot that is about to be emptied.
pub fn take_out(slots: &Slots, order: &mut SlotList, by: By, x: usize)
    requires order { IsOrder by slots.now.slots order.old.items }
    requires held { (e : Held) × (slot_at slots.now.slots x ≡ Some e) }
    ensures order { IsOrder by (slice_set slots.now.slots x None) order.new.items }
    ensures room { order.new.room ≡ order.old.room }
{
    let at = stand_of(slots, order, by, x);
    order.remove(at);
}

/// Takes out the slots that were emptied.
pub fn keep_held(slots: &Slots, order: &mut SlotList)
    ensures items { order.new.items ≡ filter (is_held slots.now.slots) order.old.items }
    ensures room { order.new.room ≡ order.old.room }
{
    let mut kept = 0;
    for i in 0..order.len() {
        let x = order.at(i);
        if slots.entry_at(x).is_none() {
            continue;
        }
        order.set(kept, x);
        kept += 1;
    }
    order.truncate(kept);
}
