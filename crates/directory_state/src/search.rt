ghost use Rattle.std.specs.Prelude.{◌≡◌, ◌≢◌, Bool, ◌+◌, ◌-◌, ◌<◌, ◌↔◌, [], ◌∷◌, List, true, false, max, length, map, filter, take, IfOk, IfErr, IsErrOf, IfSome, IfNone, IsTrue, Some};
ghost use Rattle.std.specs.List.{list_any};
ghost use Rattle.registry_core.specs.declared.entry.Entry.{Entry as Entries};
ghost use Rattle.directory_judge.specs.History.{History};
ghost use Rattle.directory_judge.specs.Judgements.{supports};
ghost use Rattle.directory_questions.specs.Calls.{Opening, standpoint};
ghost use Rattle.directory_questions.specs.Verdicts.{IsLegal};
ghost use Rattle.directory_questions.specs.declared.query.Target.TheVariants.{Kind};
ghost use Rattle.directory_state.specs.Sources.{clock_of, site_of, IsSourceAt, IsUnbounded};
ghost use Rattle.directory_state.specs.Deadlines.{UrlDeadline, with_deadline, total_cost};
ghost use Rattle.directory_state.specs.Searches.{deadlines_with, is_found, is_seen, joined, spoken_of, item_at, cost_in, bytes_in, cut_in, seen_of, IsBound, IsCounted, IsFirst, IsLook, IsSeenFrom, IsSmall, IsKept};
ghost use Rattle.directory_questions.specs.Items.{is_wanted, AreServices, IsForeign, IsOpenNow};
ghost use Rattle.directory_state.specs.Fronts.{IsFront, items_in};

mod walks;

use crate::asked::Viewer;
use crate::deadlines::Deadlines;
use crate::source::Source;
use crate::viewer::{Look, Seen};
use addresses::Addr;
use directory_questions::{QueryFault, ServiceQuery};
use registry_core::{Entry, Registry};
use service_url::Url;
use slp_messages::UrlEntry;
use slp_text::{NoMemory, Text};
use std::alloc::Global;
use std::sync::Arc;

/// How many bytes there are for what is found, and how many each item takes beside its URL.
#[derive(Clone, Copy, Debug)]
pub struct Room {
    pub bytes: usize,
    pub each: usize,
}

/// URLs in byte order, lent, each once with the latest deadline of what was found of it, from the
/// front as many as there is room for.
#[derive(Drop)]
pub struct FoundItems<'a> {
    pub latest: Deadlines<'a>,
    /// The moment, in seconds, from which lifetimes are counted.
    pub moment: u64,
    /// Whether there is more than there is room for.
    pub is_cut: bool,
}

/// What is asked, and by whom.
#[derive(Drop)]
pub struct Search<'q> {
    pub query: &'q ServiceQuery,
    pub viewer: Viewer<'q>,
}

impl Search<'_> {
    // Whether an entry that is seen is asked for: all are, where there is no filter; else those in the language, on what is
    // shown of which the filter holds.
    #[inline(always)]
    fn wants(&self, seen: Seen<'_>) -> bool
        requires { IsFirst self.now.viewer seen.entry.now seen.first }
        ensures { result ≡ is_wanted self.now.query.now (seen_of self.now.viewer seen.entry.entry.now) }
    {
        match &self.query.filter {
            Some(filter) => {
                seen.entry.language == self.query.language && self.viewer.holds(filter, seen)
            }
            None => true,
        }
    }
}

/// What was seen, by its language.
#[derive(Clone, Copy)]
pub enum Spoken {
    Nothing,
    /// Something, and nothing in the language that is asked for.
    Others,
    /// Something in the language that is asked for.
    Asked,
}

impl Spoken {
    // With one more entry that is seen.
    #[inline(always)]
    fn with_entry(self, query: &ServiceQuery, entry: &Entry) -> Spoken
        ensures { result ≡ joined self (spoken_of query.now (entry.now ∷ [])) }
    {
        match self {
            Spoken::Asked => Spoken::Asked,
            _ => {
                if entry.language == query.language {
                    Spoken::Asked
                } else {
                    Spoken::Others
                }
            }
        }
    }
}

/// What is kept of the URLs that were seen so far, in byte order: from the front as many as there is
/// room for, and one more, where there is one; all, where there is no bound.
#[derive(Drop)]
pub struct Shortlist<'a> {
    latest: Deadlines<'a>,
    used: usize,
    room: Option<Room>,
}

// The bytes that an item of this URL takes. They are counted where there is a bound.
#[inline(always)]
fn cost(room: Option<Room>, url: &Url) -> usize
    requires { IsSmall room }
    ensures { result ≡ cost_in room url.now }
{
    match room {
        Some(room) => room.each + url.text().len(),
        None => 0,
    }
}

impl<'a> Shortlist<'a> {
    // Whether this many bytes are more than there are.
    #[inline(always)]
    fn is_over(&self, used: usize) -> bool
        ensures { IsTrue result ↔ (bytes_in self.now.room < used) }
    {
        match self.room {
            Some(room) => used > room.bytes,
            None => used > 0,
        }
    }

    // A URL joins what is kept.
    #[inline(always)]
    fn put(&mut self, url: &'a Url, deadline: u64) -> Result<(), NoMemory>
        requires counted { IsCounted self.old }
        requires small { IsSmall self.old.room }
        ensures room { self.new.room ≡ self.old.room }
        ensures counted { IfOk result (λ _. IsCounted self.new) }
        ensures joins { IfOk result (λ _. self.new.latest ≡ with_deadline url.now deadline self.old.latest) }
    {
        // A sum that is not a number of bytes is more than there is memory for.
        let used = self.used.checked_add(cost(self.room, url)).ok_or(NoMemory)?;
        self.latest.make_room()?;
        if self.latest.join(url, deadline)? {
            self.used = used;
        }
        Ok(())
    }

    // The bytes that all but the last take.
    #[inline(always)]
    fn used_before_last(&self) -> Option<usize>
        requires counted { IsCounted self.now }
        requires small { IsSmall self.now.room }
        ensures none { IfNone result (self.now.latest ≡ []) }
        ensures some { IfSome result (λ n. n ≡ total_cost (cost_in self.now.room) (take (length self.now.latest - 1) self.now.latest)) }
    {
        let last = self.latest.last()?;
        Some(self.used - cost(self.room, last))
    }

    // Drops what comes after the first for which there is no room.
    #[inline(always)]
    fn shrink(&mut self)
        requires counted { IsCounted self.old }
        requires small { IsSmall self.old.room }
        ensures room { self.new.room ≡ self.old.room }
        ensures kept { IsKept self.new }
        ensures cut { self.new.latest ≡ cut_in self.old.room self.old.latest }
    {
        while self.is_over(self.used)
            && let Some(used) = self.used_before_last()
            && self.is_over(used)
        {
            self.latest.drop_last();
            self.used = used;
        }
    }

    // An entry that is seen is kept, if it is asked for. What was seen before, by its language, is counted while nothing is kept.
    #[inline(always)]
    fn take(
        &mut self,
        seen: Seen<'a>,
        question: &Search<'_>,
        before: Spoken,
    ) -> Result<Spoken, NoMemory>
        requires kept { IsKept self.old }
        requires seen { IsSeenFrom question.now.viewer seen.entry.now seen.first }
        ensures room { self.new.room ≡ self.old.room }
        ensures kept { IfOk result (λ _. IsKept self.new) }
        ensures found { IfOk result (λ _. self.new.latest ≡ cut_in self.old.room (deadlines_with (filter (is_found question.now) (seen.entry.entry.now ∷ [])) self.old.latest)) }
        ensures spoken { IfOk result (λ s. self.new.latest ≡ [] → s ≡ joined before (spoken_of question.now.query.now (filter (is_seen question.now.viewer) (seen.entry.entry.now ∷ [])))) }
    {
        if question.wants(seen) {
            self.put(&seen.entry.url, seen.entry.deadline)?;
            self.shrink();
            return Ok(before);
        }
        Ok(before.with_entry(question.query, seen.entry))
    }

    // An entry is looked at, once for all scopes.
    #[inline(always)]
    fn look(
        &mut self,
        entry: &'a Entry,
        question: &Search<'_>,
        before: Spoken,
        last: &mut Option<Look<'a>>,
    ) -> Result<Spoken, NoMemory>
        requires kept { IsKept self.old }
        requires last { IfSome last.old (IsLook question.now.viewer) }
        ensures last { IfSome last.new (IsLook question.now.viewer) }
        ensures room { self.new.room ≡ self.old.room }
        ensures kept { IfOk result (λ _. IsKept self.new) }
        ensures found { IfOk result (λ _. self.new.latest ≡ cut_in self.old.room (deadlines_with (filter (is_found question.now) (entry.now ∷ [])) self.old.latest)) }
        ensures spoken { IfOk result (λ s. self.new.latest ≡ [] → s ≡ joined before (spoken_of question.now.query.now (filter (is_seen question.now.viewer) (entry.now ∷ [])))) }
    {
        match question.viewer.sees(entry, last) {
            Some(first) => self.take(Seen { entry, first }, question, before),
            None => Ok(before),
        }
    }

    // The URL after which nothing is kept, where there is no room for more.
    #[inline(always)]
    fn bound(&self) -> Option<&'a Url>
        requires { IsKept self.now }
        ensures { IfSome result (λ url. IsBound (cost_in self.now.room) (bytes_in self.now.room) url.now self.now.latest) }
    {
        if !self.is_over(self.used) {
            return None;
        }
        let bound = self.latest.last()?;
        Some(bound)
    }

    // Whether an entry is not kept, whatever it is: its URL comes after all for which there is room.
    fn is_past(&self, entry: &Entry) -> bool
        requires { IsKept self.now }
        ensures { IsTrue result → (self.now.latest ≢ []) × ((p : Entries → Bool) → cut_in self.now.room (deadlines_with (filter p (entry.now ∷ [])) self.now.latest) ≡ self.now.latest) }
    {
        match self.bound() {
            Some(bound) => !(entry.url <= *bound),
            None => false,
        }
    }

    /// All that is kept, in byte order, with what is left of the lifetimes in seconds.
    pub fn into_items(self, alloc: Global, now: u64) -> Result<Vec<UrlEntry>, QueryFault>
        ensures items { IfOk result (λ items. items.items ≡ map (item_at now) self.entry.latest) }
        ensures err { IfErr result (λ e. e ≡ QueryFault.NoMemory) }
    {
        let latest = self.latest;
        Ok(listed(alloc, &latest, now)?)
    }

    /// Those for which there is room.
    pub fn fitting(self, now: u64) -> FoundItems<'a>
        requires { IsKept self }
        ensures moment { result.moment ≡ now }
        ensures front { (room : Room) (all : List UrlDeadline) → self.entry.room ≡ Some room → self.entry.latest ≡ cut_in self.entry.room all → IsFront room (map (item_at now) all) (items_in result) result.is_cut }
    {
        let is_cut = self.is_over(self.used);
        let mut latest = self.latest;
        if is_cut {
            latest.drop_last();
        }
        FoundItems {
            latest,
            moment: now,
            is_cut,
        }
    }
}

impl<'a, R: Registry> Source<'a, R> {
    /// Finds what answers a question, and keeps of it what there is room for: where it may look at as many entries as that needs.
    #[inline(always)]
    pub(crate) fn search(
        &self,
        alloc: Global,
        moment: u32,
        asker: Addr,
        query: &ServiceQuery,
        room: Option<Room>,
    ) -> Result<Option<Shortlist<'a>>, QueryFault>
        requires { IsSmall room }
        ensures scope { IsErrOf result QueryFault.Scope ↔ (list_any (supports (site_of self.now)) query.now.scopes ≡ false) }
        ensures language { (o : Opening) (h : History) → IsSourceAt o h (Kind query.now.kind) self.now → IsLegal o h
            → (IsErrOf result QueryFault.Language → IsForeign (IsOpenNow (standpoint o h moment asker) query.now.scopes) query.now) × IfOk result (λ told. IfSome told (λ _. ¬ IsForeign (IsOpenNow (standpoint o h moment asker) query.now.scopes) query.now)) }
        ensures kept { IfOk result (λ told. IfSome told (λ kept. IsKept kept × (kept.room ≡ room))) }
        ensures items { (o : Opening) (h : History) → IsSourceAt o h (Kind query.now.kind) self.now → IsLegal o h
            → IfOk result (λ told. IfSome told (λ kept. (all : List UrlDeadline) × AreServices (standpoint o h moment asker) query.now (map (item_at (max moment (clock_of self.now))) all) × (kept.latest ≡ cut_in room all))) }
        ensures ended { IfOk result (λ told. IfNone told (¬ IsUnbounded self.now)) }
    {
        let Some(viewer) = self.viewer(moment, asker, &query.scopes) else {
            return Err(QueryFault::Scope);
        };
        let question = Search { query, viewer };
        let mut kept = Shortlist {
            latest: Deadlines::new(alloc),
            used: 0,
            room,
        };
        let Some(spoken) = kept.collect_from(self, &question)? else {
            return Ok(None);
        };
        if query.filter.is_some() && kept.latest.is_empty() && matches!(spoken, Spoken::Others) {
            return Err(QueryFault::Language);
        }
        Ok(Some(kept))
    }
}

// The URLs in byte order, with what is left of their lifetimes in seconds.
fn listed(alloc: Global, latest: &Deadlines<'_>, now: u64) -> Result<Vec<UrlEntry>, NoMemory>
    ensures { IfOk result (λ items. items.items ≡ map (item_at now) latest.now) }
{
    let mut items = Vec::with_capacity(alloc, latest.len())?;
    for (url, deadline) in latest.as_slice() {
        let left = deadline.saturating_sub(now).min(u64::from(u16::MAX));
        items.push(UrlEntry {
            lifetime: left as u16,
            url: Text::wrap(String::from_str(alloc, url.text())?),
        })?;
    }
    Ok(items)
}
