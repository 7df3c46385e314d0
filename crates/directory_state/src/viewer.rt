//! What is open to who asks.
ghost use Rattle.std.specs.declared.cmp.Ordering.TheVariants.{Equal, Less};
ghost use Rattle.std.specs.Prelude.{◌≡◌, ◌≤◌, ◌∷◌, [], ◌++◌, false, true, filter, length, map, IfOk, Contains, IfSome, IsTrue, MatchOption, None, Some};
ghost use Rattle.std.specs.Arc.{arc_value};
ghost use Rattle.std.specs.Option.{option_copied};
ghost use Rattle.access_rules.specs.Deciding.{deed, deed_in};
ghost use Rattle.access_rules.specs.declared.rule.Action.TheVariants.{See};
ghost use Rattle.registry_core.specs.declared.entry.Entry as spec;
ghost use Rattle.registry_core.specs.Entries.{is_kind, outlives, AreByType, IsListing, Passes, Skips};
ghost use Rattle.directory_questions.specs.Sights.{is_open_in};
ghost use Rattle.directory_state.specs.Searches.{are_alike_to, entries_in, entries_lent, is_listed, is_over, is_seen, left_after, rest_about, AreByKind, AreFoundIn, AreKindsFor, AreSeenBy, IsFirst, IsFirstOpen, IsLook, IsSeenFrom, PassesUnseen};
ghost use Rattle.directory_questions.specs.Items.{is_target};

use crate::asked::Viewer;
use access_rules::{Action, Deed};
use directory_questions::{Authority, Target};
use registry_core::{Entry, Registry};
use service_url::ServiceType;
use slp_text::{Key, NoMemory};
use std::alloc::Global;
use std::cmp::Ordering;
use std::sync::Arc;

/// An entry that is seen, and the place of the first scope in which it is open, of those that are asked for.
#[derive(Clone, Copy)]
pub struct Seen<'a> {
    pub entry: &'a Entry,
    pub first: usize,
}

/// What was found of an entry when its scopes were asked: the place of the first in which it is open, of those that are asked for, if it is in one.
#[derive(Clone, Copy)]
pub struct Look<'a> {
    entry: &'a Entry,
    first: Option<usize>,
}

/// Entries that are open to who asks, and what shows what of them.
#[derive(Drop)]
pub struct SeenEntries<'a> {
    pub viewer: Viewer<'a>,
    pub entries: Vec<Seen<'a>>,
}

/// Memory is taken for so many types at once.
const AT_ONCE: usize = 64;

/// Of what is open an entry of each type, or more, or the first for which there is room and one more; and whether they stand in the key order of their types, one of each.
#[derive(Drop)]
pub struct KindEntries<'a> {
    pub entries: Vec<&'a Entry>,
    pub are_ordered: bool,
}

// How the type of the last one that was found stands to that of an entry: before it, where there is none.
#[inline(always)]
fn last_to(found: &[&Entry], entry: &Entry) -> Ordering
    ensures equal { result ≡ Equal → (f : spec.Entry) × Contains (entries_lent found.now) f × (f.kind ≡ entry.now.kind) }
    ensures less { result ≡ Less → AreByKind (entries_lent found.now) → AreByKind (entries_lent found.now ++ entry.now ∷ []) }
{
    match found.last() {
        Some(last) => last.kind.text().cmp(entry.kind.text()),
        None => Ordering::Less,
    }
}

#[inline(always)]
fn is_equal(order: Ordering) -> bool
    ensures { IsTrue result → order ≡ Equal }
{
    matches!(order, Ordering::Equal)
}

// Whether entries that stood in order, or did not, do so with one more.
#[inline(always)]
fn still_ordered(before: bool, order: Ordering) -> bool
    ensures { IsTrue result → IsTrue before × (order ≡ Less) }
{
    before && matches!(order, Ordering::Less)
}

// The room for types, if the registry walks by type: else a walk ends at no type.
#[inline(always)]
fn counted_room<R: Registry>(registry: &R, room: Option<usize>) -> Option<usize>
    ensures counted { IfSome result (λ n. room ≡ Some n) }
    ensures by_type { IfSome result (λ _. AreByType (R.rest_of_kind registry.now None 0)) }
{
    if registry.walks_by_type() { room } else { None }
}

// Whether there is too little room left for a type.
#[inline(always)]
fn is_over(left: Option<usize>, kind: &ServiceType) -> bool
    ensures { result ≡ is_over left (length kind.now) }
{
    match left {
        Some(left) => left < kind.text().len(),
        None => false,
    }
}

// The room that is left after a type.
#[inline(always)]
fn left_after(left: Option<usize>, kind: &ServiceType) -> Option<usize>
    ensures { result ≡ left_after left (length kind.now) }
{
    match left {
        Some(left) => Some(left.saturating_sub(kind.text().len())),
        None => None,
    }
}

// From which number on a walk goes that has met an entry of a type: past the others of the type, where types repeat; and whether there
// were others.
#[inline(always)]
fn past_if<R: Registry>(
    repeats: bool,
    registry: &R,
    kind: &ServiceType,
    next: usize,
) -> (usize, bool)
    ensures passes { Passes kind.now (R.rest_of_kind registry.now None next) (R.rest_of_kind registry.now None result.0) }
    ensures onward { next ≤ result.0 }
{
    if !repeats {
        return (next, false);
    }
    let past = registry.past_kind(kind, next);
    (past, past > next)
}

// The next entry of what a question is about, with the number to go on from.
#[inline(always)]
fn next_about<'a, R: Registry>(
    registry: &'a R,
    target: &Target,
    from: usize,
) -> Option<(&'a Entry, usize)>
    ensures next { let rest = rest_about (R.rest_of_kind registry.now) (R.rest_of_url registry.now) target.now in
        MatchOption result (rest from ≡ []) (λ p. rest from ≡ p.0.now ∷ rest p.1) }
    ensures whole { IsListing (is_target target.now) (R.contents registry.now) (rest_about (R.rest_of_kind registry.now) (R.rest_of_url registry.now) target.now 0) }
{
    match target {
        Target::Kind(kind) => registry.by_kind(Some(kind), from),
        Target::Place(url) => registry.by_url(url, from),
    }
}

impl Viewer<'_> {
    /// What is asked of the rules about an entry.
    #[inline(always)]
    pub fn seeing<'a>(&self, entry: &'a Entry) -> Deed<'a>
        ensures { deed_in result ≡ deed self.now.asker See entry.now.kind entry.now.owner }
    {
        Deed {
            asker: self.asker,
            action: Action::See,
            kind: &entry.kind,
            registrant: entry.owner,
        }
    }

    /// Whether an entry stands in a scope in which the asker may see what its owner registered of its type.
    #[inline(always)]
    pub fn is_open_in(&self, entry: &Entry, scope: &Key) -> bool
        ensures { result ≡ is_open_in self.now.rules.now self.now.asker entry.now scope.now }
    {
        entry.scopes.has(scope) && self.about.allow(&self.seeing(entry), scope)
    }

    /// Whether some rule may show something of the types that one covers to the asker, in a scope that is asked for: else nothing of them is
    /// seen, whatever the entries. Takes no memory.
    pub fn may_see(&self, kind: &ServiceType) -> bool
        ensures { result ≡ false → (e : spec.Entry) → is_kind (Some kind.now) e ≡ true → is_seen self.now e ≡ false }
    {
        for place in 0..self.asked.len() {
            if self.about.may_show(self.asker, kind, self.asked.at(place)) {
                return true;
            }
        }
        false
    }

    // The place of the first scope in which an entry is open, of those that are asked for. Each of these is asked once, up to that one.
    #[inline(always)]
    fn first_open(&self, entry: &Entry) -> Option<usize>
        ensures { IsFirstOpen self.now entry.now result }
    {
        for place in 0..self.asked.len() {
            if self.is_open_in(entry, self.asked.at(place)) {
                return Some(place);
            }
        }
        None
    }

    // Whether two entries have the same type and scopes, and the same registrant, or two others than the asker: the rules say the same of both.
    fn are_alike(&self, entry: &Entry, other: &Entry) -> bool
        ensures { result ≡ are_alike_to self.now.asker entry.now other.now }
    {
        (entry.owner == other.owner || (self.asker != entry.owner && self.asker != other.owner))
            && entry.kind.text() == other.kind.text()
            && entry.scopes == other.scopes
    }

    // The same, as it was found of the last entry, where that was alike. A call of its own in the machine's code, so that the walk over entries
    // keeps its registers where it is not made.
    #[cold]
    #[inline(never)]
    fn first_open_as_last<'a>(&self, entry: &'a Entry, last: &mut Option<Look<'a>>) -> Option<usize>
        requires { IfSome last.old (IsLook self.now) }
        ensures last { IfSome last.new (IsLook self.now) }
        ensures first { IsFirstOpen self.now entry.now result }
    {
        if let Some(look) = *last
            && self.are_alike(look.entry, entry)
        {
            return look.first;
        }
        let first = self.first_open(entry);
        *last = Some(Look { entry, first });
        first
    }

    // Whether an entry lives at the moment.
    #[inline(always)]
    fn lives(&self, entry: &Entry) -> bool
        ensures { result ≡ outlives self.now.moment entry.now }
    {
        entry.deadline > self.moment
    }

    /// The place of the first scope in which an entry is open, of those that are asked for, where it is seen: it is live, and open to the
    /// asker in one of them. The last look is kept, where that saves much: the scopes are asked once for a run of entries of one type,
    /// with the same scopes and registrant. Takes no memory.
    #[inline(always)]
    pub fn sees<'a>(&self, entry: &'a Entry, last: &mut Option<Look<'a>>) -> Option<usize>
        requires { IfSome last.old (IsLook self.now) }
        ensures last { IfSome last.new (IsLook self.now) }
        ensures seen { MatchOption result (is_seen self.now entry.now ≡ false) (IsSeenFrom self.now entry.now) }
    {
        if !self.lives(entry) {
            return None;
        }
        if self.asks_much {
            return self.first_open_as_last(entry, last);
        }
        self.first_open(entry)
    }

    /// The place of the first scope in which an entry is open, where it is live.
    #[inline(always)]
    pub fn if_live(&self, entry: &Entry, first: usize) -> Option<usize>
        requires { IsFirst self.now entry.now first }
        ensures { MatchOption result (is_seen self.now entry.now ≡ false) (IsSeenFrom self.now entry.now) }
    {
        if !self.lives(entry) {
            return None;
        }
        Some(first)
    }

    /// A number to go on from after an entry that is not seen: past those that come next and are as little open, where it lives.
    // A call of its own in the machine's code, so that walks keep their registers.
    #[inline(never)]
    pub fn past_unseen<R: Registry>(
        &self,
        registry: &R,
        kind: Option<&ServiceType>,
        entry: &Entry,
        next: usize,
    ) -> usize
        requires { is_seen self.now entry.now ≡ false }
        ensures passes { PassesUnseen self.now (R.rest_of_kind registry.now (option_copied kind.entry) next) (R.rest_of_kind registry.now (option_copied kind.entry) result) }
        ensures onward { next ≤ result }
    {
        if !self.lives(entry) {
            return next;
        }
        registry.past_alike(kind, entry, next)
    }

    // The same of what a question is about.
    fn past_about<R: Registry>(
        &self,
        registry: &R,
        target: &Target,
        entry: &Entry,
        next: usize,
    ) -> usize
        requires { is_seen self.now entry.now ≡ false }
        ensures { let rest = rest_about (R.rest_of_kind registry.now) (R.rest_of_url registry.now) target.now in PassesUnseen self.now (rest next) (rest result) }
    {
        match target {
            Target::Kind(kind) => self.past_unseen(registry, Some(kind), entry, next),
            Target::Place(_) => next,
        }
    }

    /// What is open of what a question is about.
    pub fn gather_about<'a, R: Registry>(
        &self,
        alloc: Global,
        registry: &'a R,
        target: &Target,
    ) -> Result<Vec<Seen<'a>>, NoMemory>
        ensures found { IfOk result (λ v. AreFoundIn (is_target target.now) self.now (R.contents registry.now) (entries_in v.items)) }
        ensures seen { IfOk result (λ v. AreSeenBy self.now v.items) }
    {
        let mut found = Vec::new(alloc);
        let mut last = None;
        let mut from = 0;
        while let Some((entry, next)) = next_about(registry, target, from) {
            let Some(first) = self.sees(entry, &mut last) else {
                from = self.past_about(registry, target, entry, next);
                continue;
            };
            found.push(Seen { entry, first })?;
            from = next;
        }
        Ok(found)
    }

    /// What is open of entries that were gathered.
    pub fn gather_shares<'a>(
        &self,
        alloc: Global,
        shares: &'a [Arc<Entry>],
    ) -> Result<Vec<Seen<'a>>, NoMemory>
        ensures found { IfOk result (λ v. entries_in v.items ≡ filter (is_seen self.now) (map arc_value shares.now)) }
        ensures seen { IfOk result (λ v. AreSeenBy self.now v.items) }
    {
        let mut found = Vec::new(alloc);
        let mut last = None;
        for share in shares {
            let entry: &Entry = share;
            if let Some(first) = self.sees(entry, &mut last) {
                found.push(Seen { entry, first })?;
            }
        }
        Ok(found)
    }

    // Whether an entry is seen, and its type of a naming authority.
    #[inline(always)]
    fn lists<'a>(
        &self,
        entry: &'a Entry,
        authority: &Authority,
        last: &mut Option<Look<'a>>,
    ) -> bool
        requires { IfSome last.old (IsLook self.now) }
        ensures last { IfSome last.new (IsLook self.now) }
        ensures listed { result ≡ is_listed self.now authority.now entry.now }
    {
        authority.is_over(entry) && self.sees(entry, last).is_some()
    }

    // A number to go on from after an entry that is not seen, or of another authority.
    #[inline(never)]
    fn past_unlisted<R: Registry>(
        &self,
        registry: &R,
        authority: &Authority,
        entry: &Entry,
        next: usize,
    ) -> usize
        requires { is_listed self.now authority.now entry.now ≡ false }
        ensures { Skips (λ e. is_listed self.now authority.now e ≡ false) (R.rest_of_kind registry.now None next) (R.rest_of_kind registry.now None result) }
    {
        if !authority.is_over(entry) {
            return next;
        }
        self.past_unseen(registry, None, entry, next)
    }

    /// Of what is open an entry of each type of a naming authority, and it may be more. Where one of a type was seen, the walk goes on past the others
    /// of the type, if the registry knows where they end: after a look at the next one, and where the type before had others, without.
    /// Where the registry walks by type, it ends at the first for which there is no room, in bytes.
    // A call of its own in the machine's code, so that the walk keeps its registers.
    #[inline(never)]
    pub fn gather_types<'a, R: Registry>(
        &self,
        alloc: Global,
        registry: &'a R,
        authority: &Authority,
        room: Option<usize>,
    ) -> Result<KindEntries<'a>, NoMemory>
        ensures found { IfOk result (λ k. AreKindsFor room (filter (is_listed self.now authority.now) (R.rest_of_kind registry.now None 0)) k) }
        ensures ordered { IfOk result (λ k. IsTrue k.are_ordered → AreByKind (entries_lent k.entries.items)) }
        ensures listing { IfOk result (λ _. IsListing (is_kind None) (R.contents registry.now) (R.rest_of_kind registry.now None 0)) }
    {
        let mut entries = Vec::with_capacity(alloc, AT_ONCE)?;
        let mut are_ordered = true;
        let mut repeats = false;
        let mut left = counted_room(registry, room);
        let mut last = None;
        let mut from = 0;
        while let Some((entry, next)) = registry.by_kind(None, from) {
            let order = last_to(&entries, entry);
            if is_equal(order) {
                from = registry.past_kind(&entry.kind, next);
                repeats = true;
                continue;
            }
            if !self.lists(entry, authority, &mut last) {
                from = self.past_unlisted(registry, authority, entry, next);
                continue;
            }
            are_ordered = still_ordered(are_ordered, order);
            entries.push(entry)?;
            if are_ordered && is_over(left, &entry.kind) {
                break;
            }
            left = left_after(left, &entry.kind);
            (from, repeats) = past_if(repeats, registry, &entry.kind, next);
        }
        Ok(KindEntries {
            entries,
            are_ordered,
        })
    }
}
