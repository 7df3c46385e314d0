//! The walk over what a question is about: which entries it looks at, and what it keeps.
ghost use Rattle.std.specs.Prelude.{◌≡◌, ◌+◌, ◌-◌, ◌^◌, ◌<◌, ◌≤◌, [], ◌∷◌, List, true, false, map, filter, IfOk, IfSome, IfNone, MatchOption, IsTrue, Some};
ghost use Rattle.std.specs.Arc.{arc_value};
ghost use Rattle.registry_core.specs.declared.entry.Entry.{Entry as Entries};
ghost use Rattle.registry_core.specs.Entries.{are_alike, is_kind, IsListing};
ghost use Rattle.directory_questions.specs.declared.query.Target.TheVariants.{Kind};
ghost use Rattle.directory_state.specs.Sources.{AreEntriesOf, IsUnbounded};
ghost use Rattle.directory_state.specs.Searches.{deadlines_with, is_found, is_seen, spoken_of, bytes_in, cut_in, shortlist_with, IsLook, IsOpenBefore, IsSeenFrom, IsKept};

use crate::search::{Search, Shortlist, Spoken};
use crate::source::Source;
use crate::viewer::{Look, Seen};
use registry_core::{Entry, Registry};
use slp_text::NoMemory;
use std::sync::Arc;

/// The number from which a walk goes on, and where the entry before it is open first, if one that is alike may come next.
#[derive(Clone, Copy)]
pub struct Stand {
    from: usize,
    first: Option<usize>,
}

/// An entry that a walk meets, the place of the first scope in which it is seen, of those that are asked for, and where the walk stands
/// then.
#[derive(Clone, Copy)]
pub struct Met<'a> {
    entry: &'a Entry,
    first: Option<usize>,
    then: Stand,
}

impl<'a> Shortlist<'a> {
    // The next entry of the type that may be kept, with the number to go on from.
    #[inline(always)]
    fn next<R: Registry>(
        &self,
        registry: &'a R,
        question: &Search<'_>,
        from: usize,
    ) -> Option<(&'a Entry, usize)>
        requires { IsKept self.now }
        ensures next { let rest = R.rest_of_kind registry.now (Some question.now.query.now.kind) in
            MatchOption result (shortlist_with self.now question.now (rest from) ≡ self.now.latest)
            (λ p. shortlist_with self.now question.now (rest from) ≡ shortlist_with self.now question.now (p.0.now ∷ rest p.1)) }
        ensures there { self.now.used ≤ bytes_in self.now.room → IfSome result (λ p. R.rest_of_kind registry.now (Some question.now.query.now.kind) (p.1 - 1) ≡ p.0.now ∷ R.rest_of_kind registry.now (Some question.now.query.now.kind) p.1) }
        ensures open { self.now.latest ≡ [] → MatchOption result (R.rest_of_kind registry.now (Some question.now.query.now.kind) from ≡ [])
            (λ p. R.rest_of_kind registry.now (Some question.now.query.now.kind) from ≡ p.0.now ∷ R.rest_of_kind registry.now (Some question.now.query.now.kind) p.1) }
        ensures whole { IsListing (is_kind (Some question.now.query.now.kind)) (R.contents registry.now) (R.rest_of_kind registry.now (Some question.now.query.now.kind) 0) }
        ensures onward { IfSome result (λ p. from < p.1) }
    {
        let kind = Some(&question.query.kind);
        match self.bound() {
            Some(bound) => registry.by_kind_within(kind, bound, from),
            None => registry.by_kind(kind, from),
        }
    }

    // The entry at a number, where it is known to be alike to the one before, and there is room for all so far.
    #[inline(always)]
    fn next_alike<R: Registry>(
        &self,
        registry: &'a R,
        question: &Search<'_>,
        from: usize,
    ) -> Option<&'a Entry>
        ensures next { let rest = R.rest_of_kind registry.now (Some question.now.query.now.kind) in
            IfSome result (λ f. (e : Entries) → rest (from - 1) ≡ e ∷ rest from → (rest from ≡ f.now ∷ rest (from + 1)) × (are_alike e f.now ≡ true)) }
        ensures within { IfSome result (λ _. from < 65536) }
    {
        if self.is_over(self.used) {
            return None;
        }
        registry.next_alike(Some(&question.query.kind), from)
    }

    // The next entry of the type that may be kept, and whether it is seen. One that is alike to the one before is open where that is:
    // neither is its type looked at, nor are the rules asked.
    #[inline(always)]
    fn meet<R: Registry>(
        &self,
        registry: &'a R,
        question: &Search<'_>,
        stand: Stand,
        last: &mut Option<Look<'a>>,
    ) -> Option<Met<'a>>
        requires kept { IsKept self.now }
        requires last { IfSome last.old (IsLook question.now.viewer) }
        requires open { IsOpenBefore question.now.viewer (R.rest_of_kind registry.now (Some question.now.query.now.kind)) stand.from stand.first }
        ensures last { IfSome last.new (IsLook question.now.viewer) }
        ensures open { IfSome result (λ m. IsOpenBefore question.now.viewer (R.rest_of_kind registry.now (Some question.now.query.now.kind)) m.then.from m.then.first) }
        ensures seen { IfSome result (λ m. MatchOption m.first (is_seen question.now.viewer m.entry.now ≡ false) (IsSeenFrom question.now.viewer m.entry.now)) }
        ensures next { let rest = R.rest_of_kind registry.now (Some question.now.query.now.kind) in
            MatchOption result (shortlist_with self.now question.now (rest stand.from) ≡ self.now.latest)
            (λ m. shortlist_with self.now question.now (rest stand.from) ≡ shortlist_with self.now question.now (m.entry.now ∷ rest m.then.from)) }
        ensures each { self.now.latest ≡ [] → MatchOption result (R.rest_of_kind registry.now (Some question.now.query.now.kind) stand.from ≡ [])
            (λ m. R.rest_of_kind registry.now (Some question.now.query.now.kind) stand.from ≡ m.entry.now ∷ R.rest_of_kind registry.now (Some question.now.query.now.kind) m.then.from) }
        ensures whole { IfNone result (IsListing (is_kind (Some question.now.query.now.kind)) (R.contents registry.now) (R.rest_of_kind registry.now (Some question.now.query.now.kind) 0)) }
        ensures onward { IfSome result (λ m. stand.from < m.then.from) }
    {
        let Stand { from, first } = stand;
        if let Some(place) = first
            && let Some(entry) = self.next_alike(registry, question, from)
        {
            let first = question.viewer.if_live(entry, place);
            let then = Stand {
                from: from + 1,
                first: Some(place),
            };
            return Some(Met { entry, first, then });
        }
        let (entry, from) = self.next(registry, question, from)?;
        let first = question.viewer.sees(entry, last);
        let known = if self.is_over(self.used) { None } else { first };
        let then = Stand { from, first: known };
        Some(Met { entry, first, then })
    }

    // Whether no entry of the type is seen, whatever they are: no rule may show one.
    // A call of its own in the machine's code, so that the walk keeps its registers.
    #[inline(never)]
    fn sees_none<R: Registry>(registry: &R, question: &Search<'_>) -> bool
        ensures none { IsTrue result → filter (is_seen question.now.viewer) (R.rest_of_kind registry.now (Some question.now.query.now.kind) 0) ≡ [] }
        ensures whole { IsTrue result → IsListing (is_kind (Some question.now.query.now.kind)) (R.contents registry.now) (R.rest_of_kind registry.now (Some question.now.query.now.kind) 0) }
    {
        if question.viewer.may_see(&question.query.kind) {
            return false;
        }
        registry.count_of_kind(&question.query.kind) > 0
    }

    // Finds the entries that are live now, of a type that is covered, and open to the asker. Where nothing is found,
    // it says what was seen, by its language. Where it is bounded, it gives up where it would have to look at more entries than `looks`.
    // The first that is not seen has it ask whether one may be.
    // A function of its own in the machine's code as well, for each of both, so that its loop keeps its registers.
    #[inline(never)]
    fn collect<R: Registry, const IS_BOUNDED: bool>(
        &mut self,
        registry: &'a R,
        question: &Search<'_>,
        looks: usize,
    ) -> Result<Option<Spoken>, NoMemory>
        requires kept { IsKept self.old }
        requires empty { self.old.latest ≡ [] }
        ensures room { self.new.room ≡ self.old.room }
        ensures kept { IfOk result (λ _. IsKept self.new) }
        ensures found { IfOk result (λ o. IfSome o (λ _. self.new.latest ≡ cut_in self.old.room (deadlines_with (filter (is_found question.now) (R.rest_of_kind registry.now (Some question.now.query.now.kind) 0)) self.old.latest))) }
        ensures spoken { IfOk result (λ o. IfSome o (λ s. self.new.latest ≡ [] → s ≡ spoken_of question.now.query.now (filter (is_seen question.now.viewer) (R.rest_of_kind registry.now (Some question.now.query.now.kind) 0)))) }
        ensures listing { IfOk result (λ o. IfSome o (λ _. IsListing (is_kind (Some question.now.query.now.kind)) (R.contents registry.now) (R.rest_of_kind registry.now (Some question.now.query.now.kind) 0))) }
        ensures ended { IfOk result (λ o. IfNone o (looks < 2 ^ 64 - 1)) }
    {
        let mut spoken = Spoken::Nothing;
        let mut last = None;
        let mut stand = Stand {
            from: 0,
            first: None,
        };
        let mut left = looks;
        let mut may_see = false;
        while let Some(met) = self.meet(registry, question, stand, &mut last) {
            if IS_BOUNDED {
                if left == 0 {
                    return Ok(None);
                }
                left -= 1;
            }
            let Met { entry, first, then } = met;
            stand = then;
            let Some(first) = first else {
                if !may_see && self.latest.is_empty() && Shortlist::sees_none(registry, question) {
                    return Ok(Some(Spoken::Nothing));
                }
                may_see = true;
                let kind = Some(&question.query.kind);
                let from = question
                    .viewer
                    .past_unseen(registry, kind, entry, then.from);
                stand = Stand { from, first: None };
                continue;
            };
            spoken = self.take(Seen { entry, first }, question, spoken)?;
        }
        Ok(Some(spoken))
    }

    // The same among entries that were gathered.
    #[inline(never)]
    fn collect_shares(
        &mut self,
        shares: &'a [Arc<Entry>],
        question: &Search<'_>,
    ) -> Result<Spoken, NoMemory>
        requires { IsKept self.old }
        ensures room { self.new.room ≡ self.old.room }
        ensures kept { IfOk result (λ _. IsKept self.new) }
        ensures found { IfOk result (λ _. self.new.latest ≡ cut_in self.old.room (deadlines_with (filter (is_found question.now) (map arc_value shares.now)) self.old.latest)) }
        ensures spoken { IfOk result (λ s. self.new.latest ≡ [] → s ≡ spoken_of question.now.query.now (filter (is_seen question.now.viewer) (map arc_value shares.now))) }
    {
        let mut spoken = Spoken::Nothing;
        let mut last = None;
        for share in shares {
            let entry: &Entry = share;
            if self.is_past(entry) {
                continue;
            }
            spoken = self.look(entry, question, spoken, &mut last)?;
        }
        Ok(spoken)
    }

    // The same of what the question is answered from.
    #[inline(always)]
    pub(super) fn collect_from<R: Registry>(
        &mut self,
        source: &Source<'a, R>,
        question: &Search<'_>,
    ) -> Result<Option<Spoken>, NoMemory>
        requires kept { IsKept self.old }
        requires empty { self.old.latest ≡ [] }
        ensures room { self.new.room ≡ self.old.room }
        ensures kept { IfOk result (λ _. IsKept self.new) }
        ensures found { IfOk result (λ o. IfSome o (λ s. (all : List Entries) × AreEntriesOf (Kind question.now.query.now.kind) source.now all
            × (self.new.latest ≡ cut_in self.old.room (deadlines_with (filter (is_found question.now) all) self.old.latest))
            × (self.new.latest ≡ [] → s ≡ spoken_of question.now.query.now (filter (is_seen question.now.viewer) all)))) }
        ensures ended { IfOk result (λ o. IfNone o (¬ IsUnbounded source.now)) }
    {
        match source {
            Source::Whole(directory, usize::MAX) => {
                self.collect::<R, false>(directory.registry(), question, usize::MAX)
            }
            Source::Whole(directory, looks) => {
                self.collect::<R, true>(directory.registry(), question, *looks)
            }
            Source::Part(gathered) => {
                let spoken = self.collect_shares(&gathered.entries, question)?;
                Ok(Some(spoken))
            }
        }
    }
}
